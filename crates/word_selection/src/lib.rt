//! The code that reads or writes one word of an array that has several blocks, each in a slot of its own, without telling
//! which of them has the word.
//!
//! [`put_read`] and [`put_write`] make it. [`selection_laws`] says what a run through it leaves: what one instruction would
//! that reads or writes the word in the slot of its block. The lemmas in proofs/ state also how the check passes the code in
//! public code, and how it walks it in an arm.
#![tactic(auto)]

mod effects;
mod instructions;
mod laws;
mod reads;
mod writes;

pub use effects::Effect;
pub use laws::selection_laws;
pub use reads::put_read;
pub use writes::put_write;
