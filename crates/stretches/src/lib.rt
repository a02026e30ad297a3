//! Stretches of code: what they do on the machine, and how the check passes them.
//!
//! The contracts of a compiler use these definitions: instructions at a place of an object; a run through them, with
//! what it shows and the most cycles that it takes; and the walk of the check through them, in public code and in an
//! arm of a branch on a secret. All of them compose, so a statement about each part of some code is one about all of
//! it.
#![tactic(auto)]
