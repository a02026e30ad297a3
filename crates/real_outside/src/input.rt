ghost use Rattle.std.specs.Prelude.{◌≡◌, ◌≤◌, ◌↔◌, IfOk, IsSome, OnOk, vec_len};
ghost use Rattle.gr_base.specs.Prelude.{one_more, Rose};
ghost use Rattle.real_outside.specs.Known.{IsFrontOf};

use crate::failure::Cause;
use crate::reading::front_of;
use std::alloc::Global;
use std::io::{Error, ErrorKind, Read};
use std::marker::Model;

/// Why nothing was read.
#[derive(Clone, Copy, Debug, PartialEq, Eq)]
pub enum InputError {
    /// The reader failed, and the failure was counted.
    Failed,
    /// Out of memory.
    Memory,
}

/// An input over a reader, such as standard input. It counts the reads that failed, as a shelf does. Contracts see the
/// bytes that the reader has left, if they are visible; those of standard input aren't. [`RealInput::failure`] returns the
/// cause of the last failure.
#[derive(Drop)]
pub struct RealInput<I: Read + Drop> {
    reader: I,
    faults: u64,
    cause: Option<Cause>,
}

impl<I: Read + Drop> Model for RealInput<I> {
    ghost use Rattle.std.specs.Prelude.{◌≤◌, ◌↔◌, IsSome};
    ghost use Rattle.real_outside.specs.Known.{InputSeen};

    ghost Value = { InputSeen };

    ghost view = { λ s. record { left = I.remaining s.reader; faults = s.faults } };

    ghost invariant = { λ s. IsSome s.cause ↔ (1 ≤ s.faults) };
}

impl<I: Read + Drop> RealInput<I> {
    /// An input over this reader. No read has failed yet.
    pub fn new(reader: I) -> RealInput<I>
        ensures { result ≡ record { left = I.remaining reader; faults = 0 } }
    {
        RealInput {
            reader,
            faults: 0,
            cause: None,
        }
    }

    /// Why the last read that failed did so. Running out of memory isn't a failure of the reader.
    pub fn failure(&self) -> Option<Cause>
        ensures { IsSome result ↔ (1 ≤ self.now.faults) }
    {
        self.cause
    }

    /// The first `most` bytes that the reader has left, or all of them if it has fewer.
    #[tactic(auto, using(gr_base::proofs::Counts::rose_by_one))]
    pub fn first(&mut self, alloc: Global, most: usize) -> Result<Vec<u8>, InputError>
        ensures at_most { IfOk result (λ bytes. vec_len bytes ≤ most) }
        ensures front { IfOk result (λ bytes. IsFrontOf self.old.left most bytes.items) }
        ensures calm { OnOk result (self.new.faults ≡ self.old.faults) }
        ensures failed { result ≡ Err InputError.Failed → Rose self.old.faults self.new.faults }
        ensures starved { result ≡ Err InputError.Memory → self.new.faults ≡ self.old.faults }
    {
        match front_of(alloc, &mut self.reader, most) {
            Ok(bytes) => Ok(bytes),
            Err(error) if error.kind() == ErrorKind::OutOfMemory => Err(InputError::Memory),
            Err(error) => {
                self.fail(error);
                Err(InputError::Failed)
            }
        }
    }

    // Counts a failure, and keeps its cause.
    #[tactic(auto, using(gr_base::proofs::Counts::rose_by_one))]
    fn fail(&mut self, error: Error)
        ensures faults { self.new.faults ≡ one_more self.old.faults }
        ensures rose { Rose self.old.faults self.new.faults }
    {
        self.faults = self.faults.saturating_add(1);
        self.cause = Some(Cause(error));
    }
}
