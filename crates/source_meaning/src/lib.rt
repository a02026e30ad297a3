//! The meaning of programs, computed.
//!
//! [`eval`] returns exactly the meaning of a typed program by `src_tree/specs/Meaning`: the final values of its
//! variables, or that its loops need more iterations than there were. Statements outside of loops are executed as they
//! are; in a loop, names are replaced by numbers of variables once, before its first iteration. [`loop_laws`] states
//! what a loop means, in the language's own terms.
#![tactic(auto)]

pub mod evaluation;
mod executing;
mod laws;
mod placed;
mod placing;
mod running;
mod stores;

pub use evaluation::{Outcome, eval};
pub use laws::loop_laws;
