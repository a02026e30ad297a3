//! What is known of scalars at each statement of a program: from which number to which other one their values are.
//!
//! A [`Range`] is from its least number to its most (`specs/Ranges`). [`range_of`] is the range of an expression.
//! [`pass`] replaces what is known before a statement by what is known after it, and [`inside`] is what is known in the
//! body of a loop (`specs/Known`). In each execution of a program, the store at each statement is within what is known
//! there ([`range_laws`]).
#![tactic(auto)]

mod expressions;
mod laws;
mod names;
mod operations;
mod ranges;
mod statements;

pub use expressions::{is_within, range_of};
pub use laws::range_laws;
pub use ranges::{Range, nothing_known};
pub use statements::{copied, forget_all, inside, pass};
