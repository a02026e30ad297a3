//! What tools print of a source and of the object that was made of it: where each variable is stored and why
//! ([`reasons`]), the lines of a listing ([`listing_lines`]), and the table of a profile ([`profiling`]). The tool
//! [`Expand`], which compiles nothing, prints a program without its calls.
//!
//! The tools that compile a program are in `ghost_tools`. What a tool is, and how it reads its source, is in `run_tools`.
//!
//! This crate isn't on the compiler's code, and so isn't proved again if that changes.
#![tactic(auto)]

mod code_rows;
pub mod expand_tool;
pub mod listing_lines;
mod procedure_lines;
mod profile_lines;
pub mod profiling;
pub mod reasons;
mod source_texts;

pub use expand_tool::Expand;
