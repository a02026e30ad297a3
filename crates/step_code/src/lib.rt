//! The code of steps that replace an operation with a constant: what a run through it leaves, how the check passes it
//! in public code, and how the check walks it in an arm.
//!
//! Here are only definitions and laws (proofs/).
#![tactic(auto)]
