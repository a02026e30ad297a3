//! Which secret arrays of several blocks `compile --fast` keeps in several slots of the scratchpad for the whole run, so
//! that an access of them shows nothing on the bus.
//!
//! [`spread`] changes a plan of memory to exactly that of `specs/Spread`. [`spread_laws`]: if the plan is sound for a
//! program, it is still sound after that.
#![tactic(auto)]

mod laws;
pub mod spreading;

pub use laws::spread_laws;
pub use spreading::spread;
