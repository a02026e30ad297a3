//! Where the statements of a source are among its tokens.
//!
//! Trees of the source language have no places, and an error of the type checker is the number of a statement.
//! [`map_of`] returns the places of all statements by their numbers: of each statement its first token and its end.
//! [`read_placed`] and [`read_placed_file`] return them with the tree of a text, without a list of its tokens.
//!
//! The contracts don't mention how tokens are counted: the tokens at a place are that statement by the grammar, and the
//! places are in the order of the statements' numbers (`specs/Places`).
#![tactic(auto)]

pub mod mapping;
pub mod maps;
pub mod reading;

pub use mapping::Mapper;
pub use maps::{SourceMap, Span};
pub use reading::{Placed, PlacedReader, map_of, read_placed, read_placed_file};
