//! Banks of memory, and the accesses of runs to them.
//!
//! A [`Bank`] is a list of blocks. Its contracts say which paths any accesses will show, and into which banks they can
//! change it. A [`PlainBank`] shows no paths. The accesses that a run makes are a list of their own ([`access_laws`]).
#![tactic(auto)]

mod bank;
mod fronts;
mod laws;
mod plain_bank;

pub use bank::{Bank, Leaves};
pub use fronts::{fill_up, write_at};
pub use laws::access_laws;
pub use plain_bank::PlainBank;
