//! Faults of sources: why a source is rejected.
//!
//! [`explain_source`] finds the first fault of a source again, by the libraries that the compiler is built from, and
//! writes the place, the reason, and what to write instead. No contract fixes these words; it is proved that each call
//! ends, is safe, and names places within the file. `token_faults` explains bytes and tokens.
#![tactic(auto)]

mod call_faults;
mod limits;
mod sight;
mod sources;
mod typing;

pub use sources::{Room, explain_source};
