//! Files with procedures from their tokens.
//!
//! [`parse_procs`] gives the tree of tokens that are a file by the grammar of `specs/FileGrammar`, within the limits of
//! nesting of programs; otherwise it says where they first cease to begin one, by `specs/FileRefusals`. Declarations,
//! and all statements except calls, are read by `src_parser`. [`read_file`] returns the tree of a text, whose tokens it
//! reads some at a time.
#![tactic(auto)]

mod calls;
mod declarations;
mod heads;
mod languages;
pub mod laws;
pub mod parsing;
mod statements;
mod states;

pub use parsing::{FileReader, parse_procs, read_file};
