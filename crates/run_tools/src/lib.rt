//! What a tool is, and the tools over runs of objects. [`Diff`] compares the traces of two runs of an object, [`Count`]
//! counts the events of one, and [`suites`] tries a program and its object on the cases of a test.
//!
//! Each tool is a type with the trait [`Tool`], or [`sources::SourceTool`] if it is given only a source. [`print_report`]
//! does for every tool what doesn't depend on it. The tools that print something of a source, or compile it, are in
//! `object_tools` and `ghost_tools`.
//!
//! [`compare`] and [`count_events`] say what their results mean of the traces, by the machine's own definitions. Both
//! read a trace window by window of cycles, so that the memory needed doesn't grow with the trace. No tool writes a file.
//!
//! This crate isn't on the compiler's code, and so isn't proved again if that changes.
#![tactic(auto)]

mod case_problems;
mod cases;
pub mod comparing;
pub mod count_tool;
pub mod counting;
pub mod diff_tool;
mod differences;
mod expectations;
mod misfits;
mod public_words;
pub mod recorder;
pub mod reports;
pub mod runs;
pub mod sources;
pub mod suites;
mod trace_reader;
pub mod variables;
pub mod words;

pub use comparing::{Comparison, compare};
pub use count_tool::Count;
pub use counting::{Tally, count_events};
pub use diff_tool::Diff;
pub use reports::{Tool, print_report};
