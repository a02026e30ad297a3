ghost use Rattle.std.specs.FinMap.{get};
ghost use Rattle.std.specs.Prelude.{◌≡◌, ◌≢◌, ◌≤◌, ◌↔◌, IfOk, IsTrue, None, OnErr, OnOk, Some, not, option_copied};
ghost use Rattle.gr_base.specs.Prelude.{next_fails};
ghost use Rattle.gr_outside.specs.Files.{are_distinct, files_of};
ghost use Rattle.gr_outside.specs.MemShelf.{after_read, after_refused_write, after_write};
ghost use Rattle.gr_outside.specs.Shelf.{SameBut, front_of};

use crate::files::{File, FileTable};
use crate::shelf::{Shelf, ShelfError};
use gr_base::CallCounter;
use std::alloc::Global;
use std::marker::Model;

/// A shelf in memory, whose files are visible to contracts. Its calls, both reads and writes, are numbered from 0, and
/// those with chosen numbers fail.
#[derive(Debug, Drop)]
pub struct MemShelf {
    alloc: Global,
    files: FileTable,
    calls: CallCounter,
    read_faults: u64,
    write_faults: u64,
    starved: u64,
}

impl Model for MemShelf {
    ghost use Rattle.gr_outside.specs.MemShelf.{Shelved, shelved_code};

    ghost Value = { Shelved };

    ghost coded = { shelved_code };

    ghost view = { λ s. record {
      files = s.files;
      calls = s.calls;
      read_faults = s.read_faults;
      write_faults = s.write_faults;
      starved = s.starved;
    } };
}

impl MemShelf {
    /// A shelf with these files. The calls with these numbers fail.
    pub fn new(alloc: Global, files: Vec<File>, failing: Vec<u32>) -> MemShelf
        requires { IsTrue (are_distinct files.items) }
        ensures { result ≡ record {
          files = files_of files.items;
          calls = record { failing = failing.items; next = 0 };
          read_faults = 0;
          write_faults = 0;
          starved = 0;
        } }
    {
        MemShelf {
            alloc,
            files: FileTable::new(files),
            calls: CallCounter::new(failing),
            read_faults: 0,
            write_faults: 0,
            starved: 0,
        }
    }

    /// The contents of a file, or `None` if there is no such file.
    pub fn file(&self, name: &str) -> Option<&[u8]>
        ensures { option_copied result ≡ get self.now.files name.now }
    {
        self.files.bytes(name.as_bytes())
    }
}

impl Shelf for MemShelf {
    ghost use Rattle.gr_outside.specs.Shelf.{ShelfSeen};

    ghost seen = { λ s. record {
      files = Some s.files;
      read_faults = s.read_faults;
      write_faults = s.write_faults;
      starved = s.starved;
      unread = None;
    } };

    #[tactic(auto, using(gr_base::proofs::Counts::rose_by_one))]
    fn read(&mut self, name: &str, most: usize) -> Result<Vec<u8>, ShelfError>
        ensures exactly_failing { (result ≡ Err ShelfError.Failed) ↔ IsTrue (next_fails self.old.calls) }
        ensures exactly_missing { (result ≡ Err ShelfError.Missing)
            ↔ (IsTrue (not (next_fails self.old.calls)) × (get self.old.files name.now ≡ None)) }
        ensures front { IfOk result (λ bytes. front_of self.old.files name.now most ≡ Some bytes.items) }
        ensures after { self.new ≡ after_read self.old }
        ensures read_count { self.old.read_faults ≤ self.new.read_faults }
    {
        if self.calls.call() {
            self.read_faults = self.read_faults.saturating_add(1);
            return Err(ShelfError::Failed);
        }
        self.files.front(self.alloc, name, most)
    }

    #[tactic(auto, using(crate::proofs::WrittenFiles::remove_with_file, gr_base::proofs::Counts::rose_by_one))]
    fn write(&mut self, name: &str, bytes: &[u8]) -> Result<(), ShelfError>
        ensures exactly_failing { (result ≡ Err ShelfError.Failed) ↔ IsTrue (next_fails self.old.calls) }
        ensures after { OnOk result (self.new ≡ after_write name.now bytes.now self.old) }
        ensures refused { OnErr result (self.new ≡ after_refused_write self.old) }
        ensures others { SameBut name.now (Some self.old.files) (Some self.new.files) }
        ensures write_count { self.old.write_faults ≤ self.new.write_faults }
        ensures starved_count { self.old.starved ≤ self.new.starved }
        ensures not_missing { result ≢ Err ShelfError.Missing }
    {
        if self.calls.call() {
            self.write_faults = self.write_faults.saturating_add(1);
            return Err(ShelfError::Failed);
        }
        match self.files.set(self.alloc, name.as_bytes(), bytes) {
            Ok(()) => Ok(()),
            Err(_) => {
                self.starved = self.starved.saturating_add(1);
                Err(ShelfError::Memory)
            }
        }
    }
}
