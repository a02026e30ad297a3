//! The outcome of a call of the program: the exit status and the last line, for each cause.
//!
//! [`replies::Reply`] is the outcome. Its status and the bytes of its line are defined in one place, `said` of
//! `specs/Texts`, and no line is made elsewhere. A name that comes from a file is printed as JSON text in which no
//! character acts on a terminal or can't be seen (`specs/NameText`).
//!
//! To add a line, add a variant to [`replies::Verdict`] or [`replies::Done`], and its text to `specs/Texts`.
#![tactic(auto)]

mod name_text;
pub mod replies;
pub mod source_faults;
