//! Programs with cheaper expressions that mean the same.
//!
//! [`folded`] computes each operation on two numbers, replaces a product by a power of two by a shift and an unsigned
//! remainder by one by a mask, and writes the number of any other product on the right (`specs/Folded`). The program
//! that it returns means the same as the given one, is well typed if that one is, and isn't larger ([`folding_laws`]).
#![tactic(auto)]

mod expressions;
mod laws;
mod powers;
mod programs;

pub use laws::folding_laws;
pub use programs::folded;
