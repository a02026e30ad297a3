//! Operations by a number, computed without the machine's slow instructions.
//!
//! A product, a quotient and a remainder take many cycles, a shift, a sum and a mask one each. [`code_by_number`] makes
//! the code of steps that replace a product by a number of few bits, and quotients and remainders by powers of two
//! (`specs/Reduced`). [`replacement_laws`] says that such steps do what they replace, for every word, and that their
//! result may be secret exactly if the value may be.
#![tactic(auto)]

mod bits;
mod code;
mod instructions;
mod laws;
mod products;
mod quotients;

pub use code::code_by_number;
pub use laws::replacement_laws;
