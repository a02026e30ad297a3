//! The program without calls that a file with procedures is, with names for people.
//!
//! [`without_calls`] prints the program, and gives each variable that a call adds a name of its own
//! (`specs/ShownNames`).
#![tactic(auto)]

mod expanding;
mod shown_names;

pub use expanding::{WithoutCalls, without_calls};
pub use shown_names::is_added;
