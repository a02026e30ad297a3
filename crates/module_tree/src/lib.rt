//! The trees of modules, and what a module means.
//!
//! A module is a C-like program with functions, meant as the language in which people write (`specs/Trees`,
//! `specs/Shorthands`). `specs/Operators` has the operators on words, `specs/Values` the values of expressions,
//! `specs/FirstWords` the words with which a module begins, and `specs/Meaning` what its variables hold when `main` ends.
//! Everything computes: `proofs/Example` executes a small module. [`shift_law`] states what `>>>` does. The crate has
//! definitions and a law, and no code yet.
#![tactic(auto)]

mod laws;

pub use laws::shift_law;
