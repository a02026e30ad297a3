//! The outside of GhostRider as two traits: a [`Shelf`], where files are read and written by name, and a [`Sink`],
//! which takes bytes. Their contracts define what they do. Each counts its own faults, so that code that uses it can
//! show the cause of each fault that it reports. There are also shelves and sinks in memory: [`MemShelf`] and
//! [`MemSink`] fail at calls that are chosen in advance, and [`SureShelf`] and [`SureSink`] never fail. A
//! [`LoggedShelf`] over any shelf keeps a log of its calls, with their bytes, in memory that is reserved when it is made.
#![tactic(auto)]

mod call_log;
pub mod files;
pub mod logged_shelf;
pub mod mem_shelf;
pub mod mem_sink;
pub mod shelf;
pub mod sink;
pub mod sure_shelf;
pub mod sure_sink;

pub use files::{File, names_are_distinct};
pub use logged_shelf::LoggedShelf;
pub use mem_shelf::MemShelf;
pub use mem_sink::MemSink;
pub use shelf::{Shelf, ShelfError};
pub use sink::{Sink, SinkFailed};
pub use sure_shelf::SureShelf;
pub use sure_sink::SureSink;
