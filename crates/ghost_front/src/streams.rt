//! A shelf in which the name `-` is a standard stream. It remembers what was read from it.

ghost use Rattle.std.specs.Prelude.{◌≡◌, ◌≢◌, ◌≤◌, None, Some, IfOk, IfSome, OnErr, OnOk, is_some, option_copied, take, true, false, vec_len};
ghost use Rattle.std.specs.Option.{option_map};
ghost use Rattle.std.specs.FinMap.{get};
ghost use Rattle.std.specs.Str.{bytes_eq};
ghost use Rattle.gr_outside.specs.Prelude.{SameBut, front_of, with_file};
ghost use Rattle.ghost_front.specs.Streams.{as_shelf, dash, overlaid, stream_of, told};

use gr_outside::{Shelf, ShelfError};
use std::alloc::{AllocError, Global};
use std::marker::Model;

/// The name of the standard streams.
pub(crate) const DASH: &str = "-";

/// A file that was read: its name, and the bytes that the reader got.
#[derive(Drop)]
pub(crate) struct ReadFile {
    pub name: String,
    pub bytes: Vec<u8>,
}

/// A shelf over another one, in which `-` is what was read from standard input. Once `-` is written, it is what is to go
/// to standard output. A file of the other shelf that is called `-` is neither read nor written.
///
/// The shelf keeps a copy of each file that it read, so that a fault can be explained without reading the file again.
/// A copy that finds no memory is left out.
#[derive(Drop)]
pub struct StreamShelf<F: Shelf + Drop> {
    alloc: Global,
    files: F,
    input: Option<Vec<u8>>,
    output: Option<Vec<u8>>,
    keeps: bool,
    read: Vec<ReadFile>,
    read_faults: u64,
    write_faults: u64,
    starved: u64,
}

impl<F: Shelf + Drop> Model for StreamShelf<F> {
    ghost use Rattle.std.specs.Option.{option_map};
    ghost use Rattle.ghost_front.specs.Streams.{Streams, streams_code};

    ghost Value = { Streams };

    ghost coded = { streams_code };

    ghost view = { λ s. record {
      files = (F.seen s.files).files;
      input = option_map (λ bytes. bytes.items) s.input;
      output = option_map (λ bytes. bytes.items) s.output;
      read_faults = s.read_faults;
      write_faults = s.write_faults;
      starved = s.starved;
    } };
}

impl<F: Shelf + Drop> StreamShelf<F> {
    /// A shelf over `files`, with an empty output and no input. If `keeps` is false, it keeps no copies.
    pub fn new(alloc: Global, files: F, keeps: bool) -> StreamShelf<F>
        ensures { result ≡ record {
          files = (F.seen files).files;
          input = None;
          output = None;
          read_faults = 0;
          write_faults = 0;
          starved = 0;
        } }
    {
        StreamShelf {
            alloc,
            files,
            input: None,
            output: None,
            keeps,
            read: Vec::new(alloc),
            read_faults: 0,
            write_faults: 0,
            starved: 0,
        }
    }

    /// The shelf of all other files.
    pub fn files(&self) -> &F
        ensures { (F.seen result.now).files ≡ self.now.files }
    {
        &self.files
    }

    /// The files that were read so far, in order.
    pub(crate) fn read_files(&self) -> &[ReadFile] {
        self.read.as_slice()
    }

    /// Sets what reads of `-` return: the bytes of standard input.
    pub fn set_input(&mut self, bytes: Vec<u8>)
        ensures { self.new ≡ record self.old { input = Some bytes.items } }
    {
        self.input = Some(bytes);
    }

    /// The bytes that are to go to standard output, if `-` was written.
    pub fn output(&self) -> Option<&[u8]>
        ensures { option_copied result ≡ self.now.output }
    {
        match &self.output {
            Some(bytes) => Some(bytes.as_slice()),
            None => None,
        }
    }

    // The stream that `-` names.
    fn stream(&self) -> Option<&[u8]>
        ensures { option_copied result ≡ stream_of self.now.input self.now.output }
    {
        match &self.output {
            Some(bytes) => Some(bytes.as_slice()),
            None => match &self.input {
                Some(bytes) => Some(bytes.as_slice()),
                None => None,
            },
        }
    }

    // Reads a file, and counts nothing.
    #[tactic(auto, using(crate::proofs::Overlaid::front_dash, crate::proofs::Overlaid::front_other, crate::proofs::Overlaid::missing_dash, crate::proofs::Overlaid::missing_other))]
    fn fetch(&mut self, name: &str, most: usize) -> Result<Vec<u8>, ShelfError>
        ensures at_most { IfOk result (λ bytes. vec_len bytes ≤ most) }
        ensures bytes { IfOk result (λ bytes. IfSome (told self.old)
            (λ all. front_of all name.now most ≡ Some bytes.items)) }
        ensures missing { result ≡ Err ShelfError.Missing → IfSome (told self.old) (λ all. get all name.now ≡ None) }
        ensures same { self.new ≡ self.old }
    {
        if is_dash(name) {
            let bytes = front(self.alloc, self.stream(), most)?;
            return Ok(bytes);
        }
        let bytes = read_other(&mut self.files, name, most)?;
        Ok(bytes)
    }

    // Keeps a copy of what was read.
    fn remember(&mut self, name: &str, bytes: &[u8])
        ensures { self.new ≡ self.old }
    {
        if !self.keeps {
            return;
        }
        if let Ok(file) = copy_of(self.alloc, name, bytes) {
            let _ = self.read.push(file);
        }
    }

    // Writes a file, and counts nothing.
    #[tactic(auto, using(crate::proofs::Overlaid::written_dash, crate::proofs::Overlaid::others_dash, crate::proofs::Overlaid::written_other, crate::proofs::Overlaid::others_other))]
    fn store(&mut self, name: &str, bytes: &[u8]) -> Result<(), ShelfError>
        ensures written { OnOk result (told self.new ≡ option_map (with_file name.now bytes.now) (told self.old)) }
        ensures others { SameBut name.now (told self.old) (told self.new) }
        ensures tells { is_some self.new.files ≡ is_some self.old.files }
        ensures not_missing { result ≢ Err ShelfError.Missing }
        ensures rest { self.new ≡ record self.old { files = self.new.files; output = self.new.output } }
    {
        if is_dash(name) {
            self.keep(bytes)
        } else {
            self.files.write(name, bytes)
        }
    }

    // Makes `-` the file with these bytes, which are to go to standard output. Without memory nothing changes.
    fn keep(&mut self, bytes: &[u8]) -> Result<(), ShelfError>
        ensures only_memory { OnErr result (result ≡ Err ShelfError.Memory) }
        ensures unchanged { OnErr result (self.new ≡ self.old) }
        ensures kept { OnOk result (self.new ≡ record self.old { output = Some bytes.now }) }
    {
        let kept = Vec::from_slice(self.alloc, bytes)?;
        self.output = Some(kept);
        Ok(())
    }
}

impl<F: Shelf + Drop> Shelf for StreamShelf<F> {
    ghost use Rattle.gr_outside.specs.Shelf.{ShelfSeen};

    ghost seen = { λ s. as_shelf s };

    #[tactic(auto, using(gr_base::proofs::Counts::rose_by_one))]
    fn read(&mut self, name: &str, most: usize) -> Result<Vec<u8>, ShelfError> {
        match self.fetch(name, most) {
            Ok(bytes) => {
                self.remember(name, &bytes);
                Ok(bytes)
            }
            Err(ShelfError::Memory) => Err(ShelfError::Memory),
            Err(error) => {
                self.read_faults = self.read_faults.saturating_add(1);
                Err(error)
            }
        }
    }

    #[tactic(auto, using(gr_base::proofs::Counts::rose_by_one))]
    fn write(&mut self, name: &str, bytes: &[u8]) -> Result<(), ShelfError> {
        match self.store(name, bytes) {
            Ok(()) => Ok(()),
            Err(ShelfError::Memory) => {
                self.starved = self.starved.saturating_add(1);
                Err(ShelfError::Memory)
            }
            Err(_) => {
                self.write_faults = self.write_faults.saturating_add(1);
                Err(ShelfError::Failed)
            }
        }
    }
}

// A copy of a file that was read.
fn copy_of(alloc: Global, name: &str, bytes: &[u8]) -> Result<ReadFile, AllocError> {
    let name = String::from_str(alloc, name)?;
    let bytes = Vec::from_slice(alloc, bytes)?;
    Ok(ReadFile { name, bytes })
}

/// Whether a name is that of the standard streams.
#[tactic(auto, using(crate::proofs::Overlaid::named_dash))]
pub(crate) fn is_dash(name: &str) -> bool
    ensures value { result ≡ bytes_eq name.now dash }
    ensures yes { result ≡ true → name.now ≡ dash }
    ensures no { result ≡ false → bytes_eq name.now dash ≡ false }
{
    name == DASH
}

// The first bytes of a file of the other shelf.
#[tactic(auto, using(crate::proofs::Overlaid::missing_if_told))]
fn read_other<F: Shelf>(files: &mut F, name: &str, most: usize) -> Result<Vec<u8>, ShelfError>
    ensures at_most { IfOk result (λ bytes. vec_len bytes ≤ most) }
    ensures bytes { IfOk result (λ bytes. IfSome (F.seen files.old).files
        (λ all. front_of all name.now most ≡ Some bytes.items)) }
    ensures missing { result ≡ Err ShelfError.Missing
        → IfSome (F.seen files.old).files (λ all. get all name.now ≡ None) }
    ensures same { (F.seen files.new).files ≡ (F.seen files.old).files }
{
    files.read(name, most)
}

// The first bytes of a stream.
fn front(alloc: Global, stream: Option<&[u8]>, most: usize) -> Result<Vec<u8>, ShelfError>
    ensures at_most { IfOk result (λ bytes. vec_len bytes ≤ most) }
    ensures bytes { IfOk result (λ bytes. option_map (take most) (option_copied stream.entry) ≡ Some bytes.items) }
    ensures missing { result ≡ Err ShelfError.Missing → option_copied stream.entry ≡ None }
    ensures never_failed { result ≢ Err ShelfError.Failed }
{
    let Some(bytes) = stream else {
        return Err(ShelfError::Missing);
    };
    let end = most.min(bytes.len());
    Ok(Vec::from_slice(alloc, &bytes[..end])?)
}
