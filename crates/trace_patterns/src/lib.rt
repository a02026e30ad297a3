//! Patterns of what stretches of code show, and which objects the check accepts.
//!
//! Contracts see a [`Pattern`] as a list of events, each with the gap before it, and a last gap. [`Known`] is what is
//! known at a place of the code, for any secrets. The definitions in `specs/` state the check's ruling on each
//! instruction, which places are visited, when a region is crossed, and when an object is accepted.
#![tactic(auto)]

mod carried;
pub mod events;
pub mod known;
pub mod patterns;
pub mod reasons;

pub use carried::{is_ram, known_behind, shows_block};
pub use events::SymEvent;
pub use known::Known;
pub use patterns::Pattern;
pub use reasons::Reason;
