//! The step of a call's work that compiles a program: the only one that depends on the compiler's code. The other steps
//! are in `call_steps`.
#![tactic(auto)]

pub mod compiled_object;

pub use compiled_object::{object_bytes, object_of};
