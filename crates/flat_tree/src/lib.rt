//! The intermediate trees of the compiler of modules.
//!
//! A flat tree has no functions and no names (`specs/Trees`). `specs/Meaning` defines what it means, and `specs/Keeps` the
//! one relation that each pass over flat trees keeps. It is transitive, and holds of statements if it holds of their parts
//! ([`keeps_laws`]). `specs/Bounds` computes a number above those of all variables, which is where a pass finds new ones.
//! The crate has definitions and laws, and no code.
#![tactic(auto)]

mod laws;

pub use laws::keeps_laws;
