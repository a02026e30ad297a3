//! The tokens of a source with their places, and what they declare and call, also in a source that is rejected.
//!
//! [`Tokens`] finds the declarations, statements, brackets and calls among tokens; [`Procedures`] finds the procedures,
//! and which of their statements a statement of the program without calls comes from. [`hints`] has the sentences that
//! several explanations share. No contract fixes what is found; it is proved that each call ends and is safe.
#![tactic(auto)]

mod brackets;
mod heads;
pub mod hints;
mod loops;
mod procedures;
mod statements;
mod tokens;
mod weights;

pub use brackets::Unclosed;
pub use heads::{Bound, Own};
pub use procedures::{Counted, Frame, Origin, Place, Procedure, Procedures, Size};
pub use statements::Declared;
pub use tokens::{SOURCE_BYTES, Tokens, tokens_of};
