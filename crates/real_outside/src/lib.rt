//! The real outside of the program: [`RealShelf`] over the files of the system, [`RealInput`] over a reader, such as
//! standard input, and [`RealSink`] over a writer, such as standard output. The shelf and the sink are proved against the
//! traits of `gr_outside`. That the system keeps files and passes bytes on isn't proved. After a failure each has the
//! cause in the system's own words: a [`Failure`] of a file, or a [`Cause`].
#![tactic(auto)]

pub mod failure;
pub mod input;
mod reading;
mod replacing;
mod rights;
pub mod shelf;
pub mod sink;

pub use failure::{Cause, Failure};
pub use input::{InputError, RealInput};
pub use shelf::RealShelf;
pub use sink::RealSink;
