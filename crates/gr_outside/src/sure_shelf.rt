ghost use Rattle.std.specs.FinMap.{get};
ghost use Rattle.std.specs.Prelude.{◌≡◌, ◌≢◌, ◌≤◌, ◌↔◌, IfOk, IsTrue, None, OnErr, OnOk, Some};
ghost use Rattle.gr_base.specs.Prelude.{one_more};
ghost use Rattle.gr_outside.specs.Files.{are_distinct, files_of};
ghost use Rattle.gr_outside.specs.Shelf.{SameBut, front_of, with_file};

use crate::files::{File, FileTable};
use crate::shelf::{Shelf, ShelfError};
use std::alloc::Global;
use std::marker::Model;

/// A shelf in memory that never fails, and whose files are visible to contracts. It counts the writes that ran out of
/// memory.
#[derive(Debug, Drop)]
pub struct SureShelf {
    alloc: Global,
    files: FileTable,
    starved: u64,
}

impl Model for SureShelf {
    ghost use Rattle.gr_outside.specs.SureShelf.{Kept, kept_code};

    ghost Value = { Kept };

    ghost coded = { kept_code };

    ghost view = { λ s. record { files = s.files; starved = s.starved } };
}

impl SureShelf {
    /// A shelf with these files.
    pub fn new(alloc: Global, files: Vec<File>) -> SureShelf
        requires { IsTrue (are_distinct files.items) }
        ensures { result ≡ record { files = files_of files.items; starved = 0 } }
    {
        SureShelf {
            alloc,
            files: FileTable::new(files),
            starved: 0,
        }
    }
}

impl Shelf for SureShelf {
    ghost use Rattle.gr_outside.specs.Shelf.{ShelfSeen};

    ghost seen = { λ s. record {
      files = Some s.files;
      read_faults = 0;
      write_faults = 0;
      starved = s.starved;
      unread = None;
    } };

    fn read(&mut self, name: &str, most: usize) -> Result<Vec<u8>, ShelfError>
        ensures never_fails { result ≢ Err ShelfError.Failed }
        ensures exactly_missing { (result ≡ Err ShelfError.Missing) ↔ (get self.old.files name.now ≡ None) }
        ensures front { IfOk result (λ bytes. front_of self.old.files name.now most ≡ Some bytes.items) }
        ensures unchanged { self.new ≡ self.old }
    {
        self.files.front(self.alloc, name, most)
    }

    #[tactic(auto, using(crate::proofs::WrittenFiles::remove_with_file, gr_base::proofs::Counts::rose_by_one))]
    fn write(&mut self, name: &str, bytes: &[u8]) -> Result<(), ShelfError>
        ensures only_memory { OnErr result (result ≡ Err ShelfError.Memory) }
        ensures ok { OnOk result (self.new ≡ record self.old { files = with_file name.now bytes.now self.old.files }) }
        ensures refused { OnErr result (self.new ≡ record self.old { starved = one_more self.old.starved }) }
        ensures others { SameBut name.now (Some self.old.files) (Some self.new.files) }
        ensures starved_count { self.old.starved ≤ self.new.starved }
    {
        match self.files.set(self.alloc, name.as_bytes(), bytes) {
            Ok(()) => Ok(()),
            Err(_) => {
                self.starved = self.starved.saturating_add(1);
                Err(ShelfError::Memory)
            }
        }
    }
}
