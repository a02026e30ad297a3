ghost use Rattle.std.specs.Option.{option_map};
ghost use Rattle.std.specs.Prelude.{◌≡◌, ◌⊎◌, ◌≤◌, ◌-◌, ◌^◌, [], IfOk, IfSome, MatchOption, None, OnOk, Some, if◌then◌else◌, vec_len};
ghost use Rattle.std.specs.Result.{result_ok};
ghost use Rattle.std.specs.FinMap.{get};
ghost use Rattle.gr_base.specs.Prelude.{Rose};
ghost use Rattle.gr_outside.specs.LoggedShelf.{told_name};
ghost use Rattle.gr_outside.specs.Shelf.{after_note, front_of, read_of};

use crate::call_log::CallLog;
use crate::shelf::{Shelf, ShelfError};
use std::alloc::{AllocError, Global};
use std::marker::Model;

/// A shelf over another one that passes each call on to it, and keeps a log of the calls that is visible to contracts,
/// and the name of the last file that couldn't be read. Memory for both is reserved when the shelf is made. A call that
/// doesn't fit is passed on as before, and the log is dropped; a name that is too long isn't visible.
#[derive(Drop)]
pub struct LoggedShelf<F: Shelf + Drop> {
    files: F,
    log: CallLog,
    unread: Vec<u8>,
    names: usize,
    is_unread: bool,
}

impl<F: Shelf + Drop> Model for LoggedShelf<F> {
    ghost use Rattle.std.specs.Prelude.{◌≤◌, Some, None, if◌then◌else◌, vec_capacity};
    ghost use Rattle.gr_outside.specs.LoggedShelf.{Logged, logged_code};

    ghost Value = { Logged };

    ghost coded = { logged_code };

    ghost view = { λ s. record {
      shelf = record (F.seen s.files) { unread = if s.is_unread then Some s.unread.items else None };
      noted = s.log;
      names = s.names;
    } };

    ghost invariant = { λ s. s.names ≤ vec_capacity s.unread };
}

impl<F: Shelf + Drop> LoggedShelf<F> {
    /// A shelf over this one. Its log has room for `room` calls, whose names and contents have `bytes` bytes together.
    /// The name of a file that couldn't be read is visible if it has at most `names` bytes.
    pub fn new(
        alloc: Global,
        files: F,
        room: usize,
        bytes: usize,
        names: usize,
    ) -> Result<LoggedShelf<F>, AllocError>
        ensures { IfOk result (λ shelf. shelf ≡ record {
          shelf = record (F.seen files) { unread = None };
          noted = record { calls = Some []; room = room; bytes = bytes };
          names = names;
        }) }
    {
        let log = CallLog::new(alloc, room, bytes)?;
        let unread = Vec::with_capacity(alloc, names)?;
        Ok(LoggedShelf {
            files,
            log,
            unread,
            names,
            is_unread: false,
        })
    }

    // Keeps the name of a file that couldn't be read, if it is short enough.
    fn keep_unread(&mut self, name: &str)
        ensures { self.new ≡ record self.old {
          shelf = record self.old.shelf { unread = told_name self.old.names name.now };
        } }
    {
        if self.names < name.len() {
            self.is_unread = false;
            return;
        }
        self.unread.clear();
        match self.unread.extend_from_slice(name.as_bytes()) {
            Ok(()) => self.is_unread = true,
            Err(_) => unreachable!(),
        }
    }
}

impl<F: Shelf + Drop> Shelf for LoggedShelf<F> {
    ghost use Rattle.std.specs.Prelude.{true};
    ghost use Rattle.gr_outside.specs.Shelf.{Log, ShelfSeen};

    ghost seen = { λ s. s.shelf };

    ghost log = { λ s. record { keeps = λ _. true; noted = s.noted } };

    fn read(&mut self, name: &str, most: usize) -> Result<Vec<u8>, ShelfError>
        // The clauses of the trait, and which name is visible after a failed read.
        ensures at_most { IfOk result (λ bytes. vec_len bytes ≤ most) }
        ensures bytes { IfOk result
            (λ bytes. IfSome self.old.shelf.files (λ all. front_of all name.now most ≡ Some bytes.items)) }
        ensures calm { OnOk result (self.new.shelf ≡ self.old.shelf) }
        ensures others { self.new.shelf ≡ record self.old.shelf {
          read_faults = self.new.shelf.read_faults;
          unread = self.new.shelf.unread;
        } }
        ensures named { (result ≡ Err ShelfError.Missing) ⊎ (result ≡ Err ShelfError.Failed)
            → self.new.shelf.unread ≡ told_name self.old.names name.now }
        ensures missing { result ≡ Err ShelfError.Missing
            → MatchOption self.old.shelf.files (Rose self.old.shelf.read_faults self.new.shelf.read_faults)
            (λ all. get all name.now ≡ None) }
        ensures failed { result ≡ Err ShelfError.Failed
            → Rose self.old.shelf.read_faults self.new.shelf.read_faults }
        ensures starved { result ≡ Err ShelfError.Memory → self.new.shelf ≡ self.old.shelf }
        ensures read_count { self.old.shelf.read_faults ≤ self.new.shelf.read_faults }
        ensures read_count_stays { self.old.shelf.read_faults ≡ 2 ^ 64 - 1
            → self.new.shelf.read_faults ≡ 2 ^ 64 - 1 }
        ensures noted { self.new.noted
            ≡ after_note (read_of name.now (option_map (λ bytes. bytes.items) (result_ok result))) self.old.noted }
    {
        match self.files.read(name, most) {
            Ok(bytes) => {
                self.log.note(false, name.as_bytes(), &bytes, true);
                Ok(bytes)
            }
            Err(ShelfError::Memory) => {
                self.log.note(false, name.as_bytes(), &[], false);
                Err(ShelfError::Memory)
            }
            Err(error) => {
                self.log.note(false, name.as_bytes(), &[], false);
                self.keep_unread(name);
                Err(error)
            }
        }
    }

    fn write(&mut self, name: &str, bytes: &[u8]) -> Result<(), ShelfError> {
        match self.files.write(name, bytes) {
            Ok(()) => {
                self.log.note(true, name.as_bytes(), bytes, true);
                Ok(())
            }
            Err(error) => {
                self.log.note(true, name.as_bytes(), &[], false);
                Err(error)
            }
        }
    }
}
