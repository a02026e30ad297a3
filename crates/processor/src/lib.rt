//! The processor: the machine that runs an accepted object over banks of memory, and watchers of the memory bus.
//!
//! [`Machine::run`] reports to a [`Watch`] exactly the events of the object's trace, in order, over any [`Bank`]s, and
//! leaves exactly the state that the trace's steps lead to. After each access to an oblivious bank it reports the paths
//! that the bank said it would show, and afterwards each bank results from the one before by the accesses that were
//! made to it. It allocates no memory.
#![tactic(auto)]

mod done;
mod ends;
mod event_list;
mod flat;
mod images;
mod laws;
mod list_watch;
mod machine;
mod memories;
mod no_watch;
mod quick;
mod running;
mod scratchpad;
mod starting;
mod stepping;
mod waits;
pub mod watching;

pub use banks::{Bank, Leaves, PlainBank, access_laws};
pub use ends::End;
pub use images::start_image;
pub use laws::{events_told, paths_told, runs_join, shaped_laws};
pub use list_watch::{ListWatch, ShownPaths};
pub use machine::{Machine, load};
pub use no_watch::NoWatch;
pub use starting::{bank_at_start, load_over, load_start};
pub use watching::{Watch, WatchFailed};
