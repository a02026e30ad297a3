//! The program that users run, as one call over any shelf of files and any sinks.
#![tactic(auto)]

mod answering;
mod dashes;
mod explaining;
mod held_text;
mod help;
mod misused;
mod outside;
mod paths;
mod printing;
mod requests;
mod running;
mod serving;
mod streams;
mod tool_files;
mod tools;
mod top;
mod verb_table;

pub use answering::Program;
pub use help::VERSION;
pub use outside::Reasons;
pub use running::run;
pub use streams::StreamShelf;
pub use top::{front, refuse_words};
