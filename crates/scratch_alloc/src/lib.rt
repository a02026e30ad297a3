//! The slots of the scratchpad by which compiled code reaches the variables of a program.
//!
//! [`slots`] gives exactly the slots of `specs/Slots`, which depend only on the variables' places. [`slot_laws`]: a
//! slot determines the bank of its variables.
#![tactic(auto)]

mod laws;
pub mod plans;

pub use laws::slot_laws;
pub use plans::{Pin, PinnedPlan, SlotPlan, scalar_pins, slots};
