ghost use Rattle.std.specs.Prelude.{IfOk, OnOk};
ghost use Rattle.std.specs.Io.KnownBytes.{Appends};
ghost use Rattle.real_outside.specs.Known.{AreAppended};

use crate::rights::{PRIVATE, Rights};
use std::alloc::Global;
use std::fs::{Metadata, OpenFile, OpenOptions};
use std::io::{Error, ErrorKind, Write};
use std::os::unix::fs::{MetadataExt, OpenOptionsExt};
use std::os::unix::io::AsFd;
use std::path::{Path, PathBuf};
use std::rt::Files;
use std::{fs, io};

/// How many names are tried for a new file beside another.
const TRIES: u32 = 1000;

/// The mode of a new file, before the umask takes bits away.
const NEW_FILE: u32 = 0o666;

/// Why a file isn't written to standard output.
const IS_OUTPUT: &str = "this is standard output, which gets the result line";

/// The number of the null device, which takes any bytes and keeps none.
const NULL_DEVICE: u64 = 0x103;

/// The regular file that a name refers to or will refer to: its path, and the rights of the file that is there.
#[derive(Drop)]
struct Target {
    path: String,
    rights: Option<Rights>,
}

/// Makes the name refer to the bytes. If it names a regular file or nothing, the bytes are written to a new file in the
/// same folder, which only its owner may read, and are synced. The file gets the old one's rights directly before it
/// takes the name; then both it and the folder are synced. A link is followed to what it points to. If the name is of
/// anything else or of the system, or if no new file can be made in the folder or take the name, the bytes are written
/// in place and synced. A name of standard output fails, since the result line goes there. After a failure the new file
/// is removed, unless that fails too.
pub(crate) fn replace<R: Files>(rt: &R, alloc: Global, name: &str, bytes: &[u8]) -> io::Result<()>
where
    R::File: AsFd,
    ensures { OnOk result (AreAppended R.File.Write.contents bytes.now) }
{
    if is_standard_output(rt, name) {
        return Err(Error::new(ErrorKind::InvalidInput, IS_OUTPUT));
    }
    let Some(target) = target_of(rt, alloc, name)? else {
        return write_in_place(rt, name, bytes);
    };
    let Target { path, rights } = target;
    let Some((mut file, beside)) = new_beside(rt, alloc, path.as_str(), mode_at_first(rights))?
    else {
        return write_in_place(rt, name, bytes);
    };
    let done = fill_and_name(rt, &mut file, rights, bytes, beside.as_str(), path.as_str());
    if let Ok(true) = done {
        sync(&file)?;
        return sync_folder_of(rt, path.as_str());
    }
    // If this fails too, the first failure is the one to report.
    let _ = fs::remove_file(rt, beside.as_str());
    match done {
        Err(error) => Err(error),
        Ok(_) => write_in_place(rt, name, bytes),
    }
}

// Whether a name refers to standard output, where the bytes and the result line would mix. The null device may take
// both. If the system doesn't show standard output as a file, no name refers to it.
fn is_standard_output<R: Files>(rt: &R, name: &str) -> bool {
    match fs::metadata(rt, name) {
        Ok(file) => match fs::metadata(rt, "/dev/stdout") {
            Ok(output) => is_one_file(&file, &output) && output.rdev() != NULL_DEVICE,
            Err(_) => false,
        },
        Err(_) => false,
    }
}

// Whether two files are the same one, by device and number.
fn is_one_file(file: &Metadata, other: &Metadata) -> bool {
    file.dev() == other.dev() && file.ino() == other.ino()
}

// Fills a new file, and then gives it the name of another. Returns whether the system allowed that.
fn fill_and_name<R: Files>(
    rt: &R,
    file: &mut R::File,
    rights: Option<Rights>,
    bytes: &[u8],
    beside: &str,
    path: &str,
) -> io::Result<bool>
where
    R::File: AsFd,
    ensures { IfOk result
        (λ _. Appends (R.File.Write.contents file.old) (R.File.Write.contents file.new) bytes.now) }
{
    match fill(file, rights, bytes) {
        Ok(()) => take_name(rt, beside, path),
        Err(error) => Err(error),
    }
}

// Gives a new file the name of another, and returns whether the system allowed it. The system doesn't if the other one
// belongs to somebody else in a sticky folder, or is a mount point; then the other one is to be written in place.
fn take_name<R: Files>(rt: &R, beside: &str, path: &str) -> io::Result<bool> {
    match fs::rename(rt, beside, path) {
        Ok(()) => Ok(true),
        Err(error) => match error.kind() {
            ErrorKind::PermissionDenied | ErrorKind::ResourceBusy => Ok(false),
            _ => Err(error),
        },
    }
}

// The mode with which a new file is created. If there is no old file, the umask and the folder's default ACL determine
// the rights.
// why: the toolchain can't read the umask. So a file with a new name is created with the system's mode, is made private
// while it is still empty, and gets the mode back when it is whole.
fn mode_at_first(rights: Option<Rights>) -> u32 {
    match rights {
        Some(_) => PRIVATE,
        None => NEW_FILE,
    }
}

// Writes the bytes to a new file that only its owner may read, syncs them, and then gives the file its rights. So what
// is left if the program is killed is private, unless it is killed between the last change of rights and the rename.
fn fill<F: Write + OpenFile + AsFd>(
    file: &mut F,
    rights: Option<Rights>,
    bytes: &[u8],
) -> io::Result<()>
    ensures { OnOk result (Appends (F.Write.contents file.old) (F.Write.contents file.new) bytes.now) }
{
    let rights = match rights {
        Some(rights) => rights,
        // A process that opens the empty file before this may read all of it later.
        None => Rights::withheld(file)?,
    };
    file.write_all(bytes)?;
    file.sync_all()?;
    rights.give_to(file)
}

fn write_in_place<R: Files>(rt: &R, name: &str, bytes: &[u8]) -> io::Result<()>
    ensures { OnOk result (AreAppended R.File.Write.contents bytes.now) }
{
    let mut file = fs::create(rt, name)?;
    file.write_all(bytes)?;
    sync(&file)
}

// Syncs the folder that a file is in, so that its new name lasts. A folder that may not be read can't be synced.
fn sync_folder_of<R: Files>(rt: &R, path: &str) -> io::Result<()> {
    let folder = match Path::new(path).parent() {
        Some(parent) => parent.as_str(),
        None => "",
    };
    match fs::open(rt, if folder.is_empty() { "." } else { folder }) {
        Ok(file) => sync(&file),
        Err(_) => Ok(()),
    }
}

// Syncs a file. Pipes, devices and the folders of some file systems can't be synced, which doesn't count as a failure.
// why: a failed sync is a failed write, so a failure to close would lose nothing. Files are closed when they are
// dropped, which returns nothing.
fn sync<F: OpenFile>(file: &F) -> io::Result<()> {
    match file.sync_all() {
        Err(error) if is_no_sync(error.kind()) => Ok(()),
        done => done,
    }
}

fn is_no_sync(kind: ErrorKind) -> bool {
    matches!(
        kind,
        ErrorKind::InvalidInput | ErrorKind::Unsupported | ErrorKind::ReadOnlyFilesystem
    )
}

// The regular file to be replaced, or `None` if the name is to be written in place. A file that may not be written
// fails here, as it would in place.
fn target_of<R: Files>(rt: &R, alloc: Global, name: &str) -> io::Result<Option<Target>> {
    if is_of_the_system(name) {
        return Ok(None);
    }
    match fs::symlink_metadata(rt, name) {
        Ok(found) if found.is_symlink() => pointed_to(rt, alloc, name),
        Ok(found) if found.is_file() => old_file(rt, String::from_str(alloc, name)?),
        Err(error) if error.kind() == ErrorKind::NotFound => Ok(Some(Target {
            path: String::from_str(alloc, name)?,
            rights: None,
        })),
        Err(error) if is_want_of_room(error.kind()) => Err(error),
        _ => Ok(None),
    }
}

// What a link points to, if it is a regular file.
fn pointed_to<R: Files>(rt: &R, alloc: Global, name: &str) -> io::Result<Option<Target>> {
    let next: PathBuf = match rt.read_link(alloc, name) {
        Ok(next) => next,
        Err(_) => return Ok(None),
    };
    if is_of_the_system(next.as_str()) {
        return Ok(None);
    }
    let path: PathBuf = match rt.canonicalize(alloc, name) {
        Ok(path) => path,
        Err(_) => return Ok(None),
    };
    match fs::metadata(rt, &path) {
        Ok(found) if found.is_file() => old_file(rt, path.into_string()),
        _ => Ok(None),
    }
}

fn old_file<R: Files>(rt: &R, path: String) -> io::Result<Option<Target>> {
    let file = OpenOptions::new().write(true).open(rt, path.as_str())?;
    let rights = Some(Rights::of(&file.metadata()?));
    Ok(Some(Target { path, rights }))
}

// A new file with this mode in the folder of another, named after that one; `None` if it can't be made.
fn new_beside<R: Files>(
    rt: &R,
    alloc: Global,
    path: &str,
    mode: u32,
) -> io::Result<Option<(R::File, String)>> {
    for turn in 0..TRIES {
        let beside = format!(in alloc; "{path}.{turn}.new")?;
        match OpenOptions::new()
            .write(true)
            .create_new(true)
            .mode(mode)
            .open(rt, beside.as_str())
        {
            Ok(file) => return Ok(Some((file, beside))),
            Err(error) if error.kind() == ErrorKind::AlreadyExists => {}
            Err(error) if is_want_of_room(error.kind()) => return Err(error),
            Err(_) => return Ok(None),
        }
    }
    Ok(None)
}

fn is_want_of_room(kind: ErrorKind) -> bool {
    matches!(
        kind,
        ErrorKind::OutOfMemory | ErrorKind::StorageFull | ErrorKind::QuotaExceeded
    )
}

// A name such as `/dev/stdout` may refer to an open regular file, which is to be written, not replaced.
fn is_of_the_system(path: &str) -> bool {
    path.starts_with("/dev/") || path.starts_with("/proc/")
}
