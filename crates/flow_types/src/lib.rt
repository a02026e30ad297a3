//! Typing of programs, and the limits of a program that don't depend on a machine.
//!
//! [`type_program`] returns a [`Typed`] exactly if a program is well typed and within the limits; otherwise it returns
//! the program's first error. `src_tree/specs` has the rules, the limits and the order of errors (`Typing`, `Limits`,
//! `FirstFault`).
#![tactic(auto)]

mod declarations;
mod names;
mod surveys;
pub mod typing;
mod walks;
mod wants;

pub use src_tree::{TypeError, Which};
pub use typing::{Typed, type_program};
