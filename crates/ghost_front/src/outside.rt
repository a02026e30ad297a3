//! What the front asks of the files of the system and of its outputs beyond reading and writing them.

use real_outside::{RealShelf, RealSink};
use std::alloc::Global;
use std::io::Write;
use std::rt::Files;

/// What can say why its last call failed.
pub trait Reasons {
    /// The system's reason for the last call that failed, with the name of its file, as in `out: Is a directory`. None
    /// if no call failed, if the reason isn't known, or if memory runs out.
    fn reason(&self, alloc: Global) -> Option<String>;
}

impl<R: Files + Drop> Reasons for RealShelf<R> {
    fn reason(&self, alloc: Global) -> Option<String> {
        match self.failure() {
            Some(failure) => format!(in alloc; "{failure}").ok(),
            None => None,
        }
    }
}

impl<W: Write + Drop> Reasons for RealSink<W> {
    fn reason(&self, alloc: Global) -> Option<String> {
        match self.failure() {
            Some(cause) => format!(in alloc; "{cause}").ok(),
            None => None,
        }
    }
}
