//! The step from flat trees to programs of the core.
//!
//! Flat statements whose terms are all expressions of the core become a block of the core (`specs/Core`). Locals that are
//! never active together share a scalar. [`core_law`] states that the block and the flat statements do the same with the
//! module's variables, and use the same number of iterations (`specs/Promise`). The crate has definitions and laws, and no
//! code yet.
#![tactic(auto)]

mod laws;

pub use laws::core_law;
