//! Words, operations, names and inputs, which all other crates of GhostRider use.
//!
//! A word is an `i64`, 64-bit two's complement, and contracts see it as a signed number. [`apply`] and [`holds`] are
//! the machine's operations and comparisons, each defined by its formula. Contracts see a [`Name`] as its bytes, which
//! always pass [`name_fits`], and [`Inputs`] as a list of lists of words.
#![tactic(auto)]

pub mod input_lists;
pub mod names;
pub mod operations;
pub mod variables;

pub use gr_base::Memory;
pub use input_lists::Inputs;
pub use names::{Name, name_fits};
pub use operations::{Cmp, Op, apply, holds};
pub use variables::{Label, Shape, Want};
