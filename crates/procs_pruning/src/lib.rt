//! What is left of procedures before their calls are replaced.
//!
//! Calls that are replaced by nothing are left out, a procedure that only passes its arguments on is one call of the
//! procedure that it calls in the end ([`live_bodies`]), and a call binds only the parameters that the statements need
//! ([`Body`]). The program without calls is the same (`specs/Pruned`).
#![tactic(auto)]

mod handing;
pub mod live;
pub mod needed;

pub use live::{Live, live_bodies, live_statements};
pub use needed::{Body, Kept, Procedures, argument_at};
