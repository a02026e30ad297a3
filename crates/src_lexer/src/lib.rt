//! The tokens of the source language.
//!
//! [`lex`] returns the tokens of a text in order, each as long as possible and with the span of its bytes, or the
//! text's first error. [`Lexer`] reads the same tokens some at a time, in the memory of a few. `specs/Splits` defines
//! how a text splits, which it does in one way; `specs/Unread` what is left of a text after some of its tokens.
#![tactic(auto)]

pub mod errors;
mod known_names;
pub mod laws;
pub mod lexer;
pub mod lexing;
mod pieces;
mod runs;
mod signs;
pub mod tokens;

pub use errors::{LexError, LexFault};
pub use lexer::Lexer;
pub use lexing::lex;
pub use tokens::{Kind, Token};
