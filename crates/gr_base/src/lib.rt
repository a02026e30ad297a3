//! What several crates of GhostRider share: out of memory, numbered calls, counts of faults, what was added to a list,
//! results in a chain, names in maps, decimal numerals, and laws of lists.
//!
//! [`Memory`] is the error of calls that fail only if memory runs out, a [`Fail`] that of calls whose input may also
//! have a fault. A [`CallCounter`] numbers the calls of a stand-in that fails at some of them. [`numerals`] reads
//! digits. The rest are definitions (specs/) and their laws (proofs/).
#![tactic(auto)]

pub mod calls;
pub mod errors;
pub mod numerals;

pub use calls::CallCounter;
pub use errors::{Fail, Memory};
