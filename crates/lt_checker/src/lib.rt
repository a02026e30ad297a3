//! The check of objects: which objects are accepted, and that every accepted object is oblivious.
//!
//! [`check`] returns an [`Accepted`] object exactly if no rule refuses it. Otherwise it returns the first refusal and
//! the object. For every accepted object, any two inputs that agree on what is public show the same events at the same
//! cycles, and no run meets a fault, even if it branches on secrets.
#![tactic(auto)]

mod checks;
mod effects;
mod laws;
mod places;
mod rules;
mod tables;

pub use checks::{Accepted, CheckError, check};
pub use laws::acceptance_laws;
pub use trace_patterns::Reason;
