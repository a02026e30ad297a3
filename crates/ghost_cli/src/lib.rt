//! The program `ghostrider` as one call, over any shelf of files and any sink for text.
//!
//! [`ghostrider`] takes the words of a command line, does the work of the verb that they name, writes its text to the
//! sink and returns the exit status. Its contract states the outcome and its cause.
//!
//! The work of a verb is a tree of steps: read a file, ask a question about what was read, write a file, end. What
//! every call promises is proved once, for all trees (`call_laws`). The steps, and the traits of verbs, are in the
//! crate `call_steps`.
//!
//! To add a verb, add its words to the crate `command_words`, write its tree in a file of its own in
//! `call_laws/specs/`, its work in a file of its own in `src/` here (if it runs the machine, both in `machine_verbs`),
//! and in `proofs/` a proof that the work is that of the tree. Then add it to the tables in
//! `call_laws/specs/Verbs.antt` and `src/top.rt`. A new question is added to `call_steps/specs/Questions.antt`, a new
//! line to the crate `call_replies`. No other verb's files change.
//!
//! A function returns the status if it printed its own text. If nothing was printed yet, its `Err` is the reply to
//! print, also if memory runs out. They are printed in one place.
#![tactic(auto)]

mod check;
pub mod compile;
mod conversions;
pub mod evaluate;
pub mod evaluation;
mod histogram;
pub mod pure;
pub mod sample;
pub mod top;

pub use pure::{checked_bytes, compiled_bytes, run_bytes, trace_bytes};
pub use top::ghostrider;
