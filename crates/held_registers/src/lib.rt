//! What registers hold for the whole run of a program that is compiled with `--fast`: its first scalars, then numbers.
//!
//! [`held_scalars`] and [`hold_number`] choose them, [`register_of_scalar`] and [`register_of_number`] find them.
//! [`register_laws`]: what they choose is sound. The lemmas in proofs/ state what an instruction does that copies a value
//! by adding a held zero: in a run, for the check in public code, and in an arm of a branch on a secret.
#![tactic(auto)]

mod laws;
pub mod registers;

pub use laws::register_laws;
pub use registers::{Held, held_scalars, hold_number, register_of_number, register_of_scalar};
