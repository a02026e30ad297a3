//! The steps of a call's work, which the verbs and the tools take: find an object, a program or inputs in files, print
//! a text, and write a file.
//!
//! The work of a verb is a tree of such steps (`specs/Work`), and its questions are those of `specs/Questions`. A step
//! returns what it found or, as `Err`, the reply to print, also if memory runs out: so it passes its errors on by `?`,
//! and they are printed in one place. Its contract states how far the work came (`specs/Reached`, `specs/Progress`).
//!
//! A verb is a type with the trait [`verbs::Request`], and with [`verbs::Maker`] if its last step is to write a file,
//! or with [`verbs::Service`] if it prints its own text. [`verbs::answer`] does for every verb what doesn't depend on
//! it.
#![tactic(auto)]

pub mod count_watch;
pub mod given;
pub mod oblivious;
pub mod putting;
pub mod reading;
mod source_faults;
pub mod sources;
pub mod targets;
pub mod two_names;
pub mod verbs;
mod writing;
