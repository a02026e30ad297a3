//! The code of whole programs.
//!
//! [`compile`] makes an object of a typed program: accepted, with the program's meaning and layout, within a size that
//! goes by the program's weight. It rejects a program exactly if its variables lack room. [`compile_fast`] does the same
//! for `--fast`, with the memory that `fast_plan` plans. What these promises cite is in `compiled_objects`.
//! [`passing_laws`]: code that is passed piece by piece is accepted.
#![tactic(auto)]

mod banks;
pub mod compiling;
mod jumps;
mod known;
mod laws;
mod numbers;
mod programs;
mod statements;

pub use compiling::{compile, compile_fast};
pub use laws::passing_laws;
