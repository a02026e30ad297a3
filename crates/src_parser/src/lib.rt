//! Trees of the source language from its tokens.
//!
//! [`parse`] returns the tree of tokens that are a program by the grammar of `specs/Grammar`, within its limits of
//! nesting; otherwise it returns where they first cease to begin one, as `specs/Refusals` defines it. Tokens are at
//! most one program, and the canonical text of a printable program is read as that program again (`laws`).
//!
//! [`read_source`] returns the program of a text. It reads the text's tokens some at a time ([`TokenReader`]), since a
//! list of all of them takes 24 bytes for each byte of a dense text.
//!
//! [`expr_at`] reads one expression among tokens, as far as it extends (`specs/Expressions`). A parser of a larger
//! language can read expressions, statements and declarations token by token ([`expressions`], [`statements`],
//! [`headings`]); it says how its statements are made ([`languages`]). It has to prove the laws of single tokens of `proofs/Tokenwise`, which then show where its tokens
//! cease to begin what it reads (`specs/Tokenwise`). [`parse`] is the first such parser.
#![tactic(auto)]

mod assignments;
pub mod errors;
pub mod expressions;
pub mod headings;
pub mod languages;
pub mod laws;
pub mod lone_expressions;
pub mod parsing;
pub mod parts;
pub mod putting;
pub mod readers;
pub mod readings;
pub mod statements;
pub mod states;
pub mod texts;

pub use errors::{ParseError, ParseFault, TextFault};
pub use lone_expressions::expr_at;
pub use parsing::{ProgramReader, parse};
pub use readers::{TokenReader, read_tree};
pub use texts::{read_source, read_text};
