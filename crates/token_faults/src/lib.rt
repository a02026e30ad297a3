//! Why a text isn't a program: a byte that begins no token, and a token with which no program can continue.
//!
//! [`explain_byte`] and [`explain_tokens`] write the place, the reason, and what to write instead. For a text that looks
//! like another language, they say how the same is written here. No contract fixes these words.
#![tactic(auto)]

mod bytes;
mod call_habits;
mod habit_search;
mod habits;
mod unexpected;
mod wanted;

pub use bytes::explain_byte;
pub use unexpected::explain_tokens;
