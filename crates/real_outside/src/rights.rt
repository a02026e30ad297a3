ghost use Rattle.std.specs.Prelude.{◌≡◌, bit_and, false, true};

use std::fs::{Metadata, OpenFile, Permissions};
use std::io;
use std::os::unix::fs::{MetadataExt, PermissionsExt, fchown};
use std::os::unix::io::AsFd;

/// The mode of a file that only its owner may read and write.
pub(crate) const PRIVATE: u32 = 0o600;

/// The bits of a file's mode that say who may read, write and run it, and with whose rights it runs.
const MODE_BITS: u32 = 0o7777;

/// Of these, what the owner may do.
const OWNER_BITS: u32 = 0o700;

/// The owner and the group of a file, and what they and others may do with it.
#[derive(Clone, Copy, Drop)]
pub(crate) struct Rights {
    mode: u32,
    owner: u32,
    group: u32,
}

impl Rights {
    /// The rights of a file.
    pub(crate) fn of(file: &Metadata) -> Rights {
        Rights {
            mode: file.mode() & MODE_BITS,
            owner: file.uid(),
            group: file.gid(),
        }
    }

    /// Takes the rights of an open file away from all but its owner, and returns them. A file system that can't do this
    /// leaves the file as it is.
    pub(crate) fn withheld<F: OpenFile>(file: &F) -> io::Result<Rights> {
        let rights = Rights::of(&file.metadata()?);
        let _ = file.set_permissions(Permissions::from_mode(PRIVATE));
        Ok(rights)
    }

    /// Gives the rights to an open file. If the file can't get the owner and the group, only its owner may do anything
    /// with it, since the bits of the group and of others would then apply to other people.
    pub(crate) fn give_to<F: OpenFile + AsFd>(self, file: &F) -> io::Result<()> {
        let mode = mode_to_give(self.mode, self.gets_ids(file)?);
        file.set_permissions(Permissions::from_mode(mode))
    }

    // Gives the file the owner and the group, and returns whether it has both. Some file systems report success and
    // keep the old ones, so this looks at the file itself.
    fn gets_ids<F: OpenFile + AsFd>(self, file: &F) -> io::Result<bool> {
        if self.has_ids_of(&file.metadata()?) {
            return Ok(true);
        }
        match fchown(file, Some(self.owner), Some(self.group)) {
            Ok(()) => Ok(self.has_ids_of(&file.metadata()?)),
            Err(_) => Ok(false),
        }
    }

    fn has_ids_of(self, file: &Metadata) -> bool {
        file.uid() == self.owner && file.gid() == self.group
    }
}

/// The mode of a file that is to have the mode `mode`: all of it if the file has the owner and the group that go with
/// it, and otherwise only the owner's bits.
fn mode_to_give(mode: u32, ids_kept: bool) -> u32
    ensures kept { ids_kept ≡ true → result ≡ mode }
    ensures private { ids_kept ≡ false → result ≡ bit_and mode 0o700 }
{
    if ids_kept { mode } else { mode & OWNER_BITS }
}
