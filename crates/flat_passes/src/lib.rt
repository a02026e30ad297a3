//! Passes from flat trees to flat trees.
//!
//! Conditions become choices (`specs/Conditions`), and expressions that the core lacks become new variables, where `>>>`
//! becomes operations of the machine (`specs/Values`, `specs/Shifts`). Each pass keeps what statements do ([`laws`]), in
//! the sense of `Keeps` of `flat_tree`. Which terms become variables, and what is small enough to be written twice, are
//! parameters, so no limit and no weight appears in a law. The crate has definitions and laws, and no code yet.
#![tactic(auto)]

pub mod laws;
