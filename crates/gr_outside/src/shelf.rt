ghost use Rattle.std.specs.Prelude.{◌≡◌, ◌≢◌, ◌⊎◌, ◌≤◌, ◌^◌, ◌-◌, ℕ, List, Option, Some, None, IfOk, IfSome, MatchOption, OnOk, OnErr, if◌then◌else◌, is_ok, is_some, vec_len};
ghost use Rattle.std.specs.Option.{option_map};
ghost use Rattle.std.specs.Result.{result_ok};
ghost use Rattle.std.specs.FinMap.{get};
ghost use Rattle.gr_base.specs.Prelude.{Rose};
ghost use Rattle.gr_outside.specs.Shelf.{Log, SameBut, ShelfSeen, front_of, logged, read_of, untold, with_file, write_of};
ghost use Rattle.gr_outside.specs.declared.shelf.ShelfError.TheVariants.{Memory};

use std::alloc::{AllocError, AllocFailed};
use thiserror::Error;

/// Why a call of a shelf failed.
#[derive(Clone, Copy, Debug, PartialEq, Eq, Error)]
pub enum ShelfError {
    /// There is no such file. Only a read fails so.
    #[error("no such file")]
    Missing = 1,
    /// The shelf failed, and counted the failure.
    #[error("the shelf failed")]
    Failed = 2,
    /// Out of memory.
    #[error("out of memory")]
    Memory = 3,
}

impl From<AllocError> for ShelfError {
    ghost from_gives = { λ _ error. error ≡ Memory };

    fn from(_error: AllocError) -> ShelfError {
        ShelfError::Memory
    }
}

impl<T: Drop> From<AllocFailed<T>> for ShelfError {
    ghost from_gives = { λ _ error. error ≡ Memory };

    fn from(_error: AllocFailed<T>) -> ShelfError {
        ShelfError::Memory
    }
}

/// A place where files are read and written by name. Its files may be visible to contracts or not: those of the system
/// aren't.
///
/// A count never falls, and stays at 2^64 - 1. It rose in a call if it is greater after the call than before it, or was
/// 2^64 - 1. Code that uses a shelf can't raise its counts, so a fault that the code reports was a fault of the shelf.
/// A call that succeeds leaves every count as it was.
pub trait Shelf {
    /// How contracts see the shelf: its files, if they are visible; how many reads and how many writes failed; how many
    /// writes ran out of memory; and the name of the last file that couldn't be read, if that name is visible.
    ghost seen: { Self → ShelfSeen };

    /// The calls so far, in order, with the bytes that they returned or wrote, if the shelf keeps a log that is visible.
    /// A shelf may leave out the calls of certain names, as one that takes a name for a stream does.
    /// why: beside what the shelf is seen as, so a read that succeeds leaves that equal. `LoggedShelf` is a shelf of
    /// its own, since a log needs memory.
    ghost log: { Self → Log } = { λ _. untold };

    /// The first `most` bytes of the file with that name, or all of them if it has fewer.
    fn read(&mut self, name: &str, most: usize) -> Result<Vec<u8>, ShelfError>
        ensures at_most { IfOk result (λ bytes. vec_len bytes ≤ most) }
        ensures bytes { IfOk result
            (λ bytes. IfSome (seen self.old).files (λ all. front_of all name.now most ≡ Some bytes.items)) }
        ensures calm { OnOk result (seen self.new ≡ seen self.old) }
        ensures others { seen self.new ≡ record (seen self.old) {
          read_faults = (seen self.new).read_faults;
          unread = (seen self.new).unread;
        } }
        ensures named { (result ≡ Err ShelfError.Missing) ⊎ (result ≡ Err ShelfError.Failed)
            → IfSome (seen self.new).unread (λ unread. unread ≡ name.now) }

        // Missing: the files are visible and none has the name, or they aren't visible and the read counts as failed.
        ensures missing { result ≡ Err ShelfError.Missing
            → MatchOption (seen self.old).files (Rose (seen self.old).read_faults (seen self.new).read_faults)
            (λ all. get all name.now ≡ None) }
        ensures failed { result ≡ Err ShelfError.Failed → Rose (seen self.old).read_faults (seen self.new).read_faults }
        ensures starved { result ≡ Err ShelfError.Memory → seen self.new ≡ seen self.old }

        ensures read_count { (seen self.old).read_faults ≤ (seen self.new).read_faults }
        ensures read_count_stays { (seen self.old).read_faults ≡ 2 ^ 64 - 1
            → (seen self.new).read_faults ≡ 2 ^ 64 - 1 }

        ensures logged { log self.new
            ≡ logged (read_of name.now (option_map (λ bytes. bytes.items) (result_ok result))) (log self.old) };

    /// Makes these bytes the contents of the file with that name. A write that fails may leave anything under that
    /// name.
    fn write(&mut self, name: &str, bytes: &[u8]) -> Result<(), ShelfError>
        ensures written { OnOk result
            (seen self.new
            ≡ record (seen self.old) { files = option_map (with_file name.now bytes.now) (seen self.old).files }) }
        ensures others { SameBut name.now (seen self.old).files (seen self.new).files }
        ensures tells { is_some (seen self.new).files ≡ is_some (seen self.old).files }
        ensures read_count { (seen self.new).read_faults ≡ (seen self.old).read_faults }

        ensures not_missing { result ≢ Err ShelfError.Missing }
        ensures failed { result ≡ Err ShelfError.Failed
            → Rose (seen self.old).write_faults (seen self.new).write_faults
            × ((seen self.new).starved ≡ (seen self.old).starved) }
        ensures starved { result ≡ Err ShelfError.Memory
            → Rose (seen self.old).starved (seen self.new).starved
            × ((seen self.new).write_faults ≡ (seen self.old).write_faults) }

        ensures write_count { (seen self.old).write_faults ≤ (seen self.new).write_faults }
        ensures write_count_stays { (seen self.old).write_faults ≡ 2 ^ 64 - 1
            → (seen self.new).write_faults ≡ 2 ^ 64 - 1 }
        ensures starved_count { (seen self.old).starved ≤ (seen self.new).starved }
        ensures starved_count_stays { (seen self.old).starved ≡ 2 ^ 64 - 1 → (seen self.new).starved ≡ 2 ^ 64 - 1 }

        ensures logged { log self.new
            ≡ logged (write_of name.now (if is_ok result then Some bytes.now else None)) (log self.old) };
}
