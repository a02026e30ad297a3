ghost use Rattle.std.specs.Prelude.{◌≡◌, ◌≢◌, ◌⊎◌, ◌≤◌, ◌+◌, ◌-◌, ◌^◌, ◌↔◌, IfOk, IsSome, None, OnOk, vec_len};
ghost use Rattle.gr_base.specs.Prelude.{one_more, Rose};
ghost use Rattle.real_outside.specs.Known.{AreAppended, IsFrontOf};

use crate::failure::Failure;
use crate::reading::front_of;
use crate::replacing::replace;
use gr_outside::{Shelf, ShelfError};
use std::alloc::{AllocError, Global};
use std::io::{Error, ErrorKind};
use std::marker::Model;
use std::os::unix::io::AsFd;
use std::rt::Files;
use std::{fs, io};

/// A shelf over real files. It can't list its files, so contracts see none of them. Its own clauses state that a read
/// returns the first bytes of what some file had left, and that a write has added all bytes to some file. It isn't
/// proved that these are the files of that name, since the standard library doesn't state it. A missing file counts as a
/// failed read. Running out of memory doesn't count as a failure of a read or a write; writes that run out of memory
/// have their own count. [`RealShelf::failure`] returns the last failure and its cause.
///
/// A regular file is replaced as a whole: if the write is interrupted, the name refers to the old bytes or to the new
/// ones. Only those who could read the old file can read the new one, or parts of it meanwhile, apart from access
/// control lists. Any other file is written in place. A regular file is also written in place if no new file can be
/// made beside it, because the folder takes none, or none with so long a name, or already has the new file's names; or
/// if the system doesn't let the new file take the name.
#[derive(Drop)]
pub struct RealShelf<R: Files + Drop> {
    rt: R,
    alloc: Global,
    read_faults: u64,
    write_faults: u64,
    starved: u64,
    failure: Option<Failure>,
}

impl<R: Files + Drop> Model for RealShelf<R> {
    ghost use Rattle.std.specs.Prelude.{◌+◌, ◌≤◌, ◌↔◌, IsSome};
    ghost use Rattle.real_outside.specs.Counts.{FaultCounts};

    ghost Value = { FaultCounts };

    ghost view = { λ s. record { read_faults = s.read_faults; write_faults = s.write_faults; starved = s.starved } };

    ghost invariant = { λ s. IsSome s.failure ↔ (1 ≤ s.read_faults + s.write_faults) };
}

impl<R: Files + Drop> RealShelf<R> {
    /// A shelf over the files of the runtime. No read or write has failed yet.
    pub fn new(alloc: Global, rt: R) -> RealShelf<R>
        ensures { result ≡ record { read_faults = 0; write_faults = 0; starved = 0 } }
    {
        RealShelf {
            rt,
            alloc,
            read_faults: 0,
            write_faults: 0,
            starved: 0,
            failure: None,
        }
    }

    /// The last read or write that failed, with the file's name and the system's reason. Running out of memory isn't
    /// one.
    pub fn failure(&self) -> Option<&Failure>
        ensures { IsSome result ↔ (1 ≤ self.now.read_faults + self.now.write_faults) }
    {
        self.failure.as_ref()
    }

    // Counts a failed read, and keeps its cause.
    #[tactic(auto, using(gr_base::proofs::Counts::rose_by_one))]
    fn read_failed(&mut self, name: &str, error: Error)
        ensures { self.new ≡ record self.old { read_faults = one_more self.old.read_faults } }
    {
        self.read_faults = self.read_faults.saturating_add(1);
        self.failure = Some(Failure::new(self.alloc, name, error));
    }

    // Counts a failed write, and keeps its cause.
    #[tactic(auto, using(gr_base::proofs::Counts::rose_by_one))]
    fn write_failed(&mut self, name: &str, error: Error)
        ensures { self.new ≡ record self.old { write_faults = one_more self.old.write_faults } }
    {
        self.write_faults = self.write_faults.saturating_add(1);
        self.failure = Some(Failure::new(self.alloc, name, error));
    }
}

impl<R: Files + Drop> Shelf for RealShelf<R>
where
    R::File: AsFd,
{
    ghost use Rattle.gr_outside.specs.Shelf.{ShelfSeen};

    ghost seen = { λ s. record {
      files = None;
      read_faults = s.read_faults;
      write_faults = s.write_faults;
      starved = s.starved;
      unread = None;
    } };

    #[tactic(auto, using(gr_base::proofs::Counts::rose_by_one))]
    fn read(&mut self, name: &str, most: usize) -> Result<Vec<u8>, ShelfError>
        ensures at_most { IfOk result (λ bytes. vec_len bytes ≤ most) }
        ensures front { IfOk result
            (λ bytes. (file : R.File) × IsFrontOf (R.File.Read.remaining file) most bytes.items) }
        ensures calm { OnOk result (self.new ≡ self.old) }
        ensures others { self.new ≡ record self.old { read_faults = self.new.read_faults } }
        ensures failed { (result ≡ Err ShelfError.Missing) ⊎ (result ≡ Err ShelfError.Failed)
            → Rose self.old.read_faults self.new.read_faults }
        ensures starved { result ≡ Err ShelfError.Memory → self.new ≡ self.old }
        ensures count { self.old.read_faults ≤ self.new.read_faults }
        ensures count_stays { self.old.read_faults ≡ 2 ^ 64 - 1 → self.new.read_faults ≡ 2 ^ 64 - 1 }
    {
        match read_front(&self.rt, self.alloc, name, most) {
            Ok(bytes) => Ok(bytes),
            Err(error) if error.kind() == ErrorKind::OutOfMemory => Err(ShelfError::Memory),
            Err(error) => {
                self.read_failed(name, error);
                Err(refusal_of_read(error.kind()))
            }
        }
    }

    #[tactic(auto, using(gr_base::proofs::Counts::rose_by_one))]
    fn write(&mut self, name: &str, bytes: &[u8]) -> Result<(), ShelfError>
        ensures written { OnOk result (AreAppended R.File.Write.contents bytes.now) }
        ensures calm { OnOk result (self.new ≡ self.old) }
        ensures not_missing { result ≢ Err ShelfError.Missing }
        ensures reads { self.new.read_faults ≡ self.old.read_faults }
        ensures failed { result ≡ Err ShelfError.Failed
            → Rose self.old.write_faults self.new.write_faults × (self.new.starved ≡ self.old.starved) }
        ensures starved { result ≡ Err ShelfError.Memory
            → Rose self.old.starved self.new.starved × (self.new.write_faults ≡ self.old.write_faults) }
        ensures write_count { self.old.write_faults ≤ self.new.write_faults }
        ensures write_count_stays { self.old.write_faults ≡ 2 ^ 64 - 1 → self.new.write_faults ≡ 2 ^ 64 - 1 }
        ensures starved_count { self.old.starved ≤ self.new.starved }
        ensures starved_count_stays { self.old.starved ≡ 2 ^ 64 - 1 → self.new.starved ≡ 2 ^ 64 - 1 }
    {
        match replace(&self.rt, self.alloc, name, bytes) {
            Ok(()) => Ok(()),
            Err(error) if error.kind() == ErrorKind::OutOfMemory => {
                self.starved = self.starved.saturating_add(1);
                Err(ShelfError::Memory)
            }
            Err(error) => {
                self.write_failed(name, error);
                Err(ShelfError::Failed)
            }
        }
    }
}

// The error of a read that failed for another cause than memory.
fn refusal_of_read(kind: ErrorKind) -> ShelfError
    ensures { result ≢ ShelfError.Memory }
{
    if kind == ErrorKind::NotFound {
        ShelfError::Missing
    } else {
        ShelfError::Failed
    }
}

/// The first `most` bytes of a real file.
fn read_front<R: Files>(rt: &R, alloc: Global, name: &str, most: usize) -> io::Result<Vec<u8>>
    ensures at_most { IfOk result (λ bytes. vec_len bytes ≤ most) }
    ensures front { IfOk result
        (λ bytes. (file : R.File) × IsFrontOf (R.File.Read.remaining file) most bytes.items) }
{
    match fs::open(rt, name) {
        Ok(file) => front_of(alloc, file, most),
        Err(error) => Err(error),
    }
}
