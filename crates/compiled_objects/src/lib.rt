//! What a compiled object is, and why a program isn't compiled: what the promises of `code_gen` cite of it.
//!
//! An object implements its program (`specs/Implements`), and has its profile, its latencies and as many stores as
//! follow from the program (`specs/Compiles`). For `--fast` it has the layout of `specs/FastLayout`, with the memory that
//! [`fast_plan`] plans, and registers hold what `specs/HeldNumbers` says. A program isn't compiled if its variables lack
//! room ([`CompileError`]).
//!
//! The crates that promise something of compiled objects are on this crate and not on `code_gen`, so they aren't proved
//! again if the code of the compiler changes.
#![tactic(auto)]

pub mod errors;
pub mod plans;

pub use errors::CompileError;
pub use plans::fast_plan;
