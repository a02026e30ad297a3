ghost use Rattle.std.specs.List.{find, list_any, position};
ghost use Rattle.std.specs.Option.{option_map};
ghost use Rattle.std.specs.Prelude.{◌≡◌, ◌≢◌, ◌≤◌, ◌↔◌, IfOk, None, OnErr, OnOk, Some, option_copied, vec_len};
ghost use Rattle.std.specs.FinMap.{get};
ghost use Rattle.gr_outside.specs.Shelf.{front_of, with_file};
ghost use Rattle.gr_outside.specs.Files.{are_distinct, files_of, is_named};

use crate::shelf::ShelfError;
use std::alloc::{AllocError, Global};
use std::marker::Model;

/// A file: its name, which is UTF-8 text, and its contents.
#[derive(Debug, Drop)]
pub struct File {
    pub name: Vec<u8>,
    pub bytes: Vec<u8>,
}

/// Whether the names of the files all differ.
pub fn names_are_distinct(files: &[File]) -> bool
    ensures { result ≡ are_distinct files.now }
{
    for (i, file) in files.iter().enumerate() {
        if has_file(&files[i + 1..], &file.name) {
            return false;
        }
    }
    true
}

fn has_file(files: &[File], name: &[u8]) -> bool
    ensures { result ≡ list_any (is_named name.now) files.now }
{
    files.iter().any(|file| is_named(file, name))
}

fn is_named(file: &File, name: &[u8]) -> bool
    ensures { result ≡ is_named name.now file.now }
{
    name == file.name.as_slice()
}

fn position_of(files: &[File], name: &[u8]) -> Option<usize>
    ensures { result ≡ position (is_named name.now) files.now }
{
    files.iter().position(|file| is_named(file, name))
}

/// Files in a list. Contracts see it as the map from their names to their contents.
#[derive(Debug, Drop)]
pub(crate) struct FileTable {
    files: Vec<File>,
}

impl Model for FileTable {
    ghost use Rattle.gr_outside.specs.Shelf.{Files, files_code};

    ghost Value = { Files };

    ghost coded = { files_code };

    ghost use Rattle.gr_outside.specs.Files.{files_of};

    ghost view = { λ t. files_of t.files.items };
}

impl FileTable {
    /// The table of these files.
    pub(crate) fn new(files: Vec<File>) -> FileTable
        ensures { result ≡ files_of files.items }
    {
        FileTable { files }
    }

    /// The contents of a file, or `None` if there is no such file.
    pub(crate) fn bytes(&self, name: &[u8]) -> Option<&[u8]>
        ensures { option_copied result ≡ get self.now name.now }
    {
        match position_of(&self.files, name) {
            Some(place) => Some(self.files[place].bytes.as_slice()),
            None => None,
        }
    }

    /// The first `most` bytes of a file, or all of them if it has fewer.
    pub(crate) fn front(
        &self,
        alloc: Global,
        name: &str,
        most: usize,
    ) -> Result<Vec<u8>, ShelfError>
        ensures missing { (result ≡ Err ShelfError.Missing) ↔ (get self.now name.now ≡ None) }
        ensures front { IfOk result (λ bytes. front_of self.now name.now most ≡ Some bytes.items) }
        ensures at_most { IfOk result (λ bytes. vec_len bytes ≤ most) }
        ensures never_fails { result ≢ Err ShelfError.Failed }
    {
        match self.bytes(name.as_bytes()) {
            Some(bytes) => Ok(Vec::from_slice(alloc, &bytes[..bytes.len().min(most)])?),
            None => Err(ShelfError::Missing),
        }
    }

    /// Makes these bytes the contents of the file with that name. Out of memory changes nothing.
    pub(crate) fn set(&mut self, alloc: Global, name: &[u8], bytes: &[u8]) -> Result<(), AllocError>
        ensures ok { OnOk result (self.new ≡ with_file name.now bytes.now self.old) }
        ensures err { OnErr result (self.new ≡ self.old) }
    {
        let bytes = Vec::from_slice(alloc, bytes)?;
        match position_of(&self.files, name) {
            Some(place) => {
                self.files[place].bytes = bytes;
                Ok(())
            }
            None => {
                let name = Vec::from_slice(alloc, name)?;
                self.files.push(File { name, bytes })?;
                Ok(())
            }
        }
    }
}
