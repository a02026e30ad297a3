ghost use Rattle.std.specs.Prelude.{IfOk, IsTrue};
ghost use Rattle.gr_outside.specs.Prelude.{are_distinct};

use crate::contents::{Named, Store, Trouble};
use ghost_cli::ghostrider;
use gr_outside::{File, MemShelf, MemSink, Shelf, Sink, SureShelf, SureSink, names_are_distinct};
use std::alloc::{AllocError, Global};

/// Which calls of the shelf and which prints fail during the next call of the program; none by default.
#[derive(Drop)]
pub(crate) struct Outside {
    pub calls: Vec<u32>,
    pub puts: Vec<u32>,
    pub sure: bool,
}

impl Outside {
    pub(crate) fn new(alloc: Global) -> Outside {
        Outside {
            calls: Vec::new(alloc),
            puts: Vec::new(alloc),
            sure: false,
        }
    }
}

/// The outcome of a call of the program: its status, what it printed, and the files afterwards, also new ones that its
/// words name.
#[derive(Drop)]
pub(crate) struct Done {
    pub status: u8,
    pub text: Vec<u8>,
    pub files: Store,
}

/// The status of a call of the program. It promises nothing of the shelf and the sink, so that nothing here is proved
/// over all that the program promises.
fn status_of<F: Shelf, O: Sink>(alloc: Global, words: &[&str], shelf: &mut F, sink: &mut O) -> u8 {
    ghostrider(alloc, words, shelf, sink)
}

fn files_of(alloc: Global, store: &Store) -> Result<Vec<File>, Trouble>
    ensures { IfOk result (λ files. IsTrue (are_distinct files.items)) }
{
    let mut files = Vec::new(alloc);
    for item in &store.items {
        let file = file_of(alloc, item)?;
        files.push(file)?;
    }
    if names_are_distinct(&files) {
        return Ok(files);
    }
    let words = String::from_str(alloc, "two files have one name")?;
    Err(Trouble::Wrong(words))
}

fn file_of(alloc: Global, item: &Named) -> Result<File, AllocError> {
    let name = Vec::from_slice(alloc, item.name.as_bytes())?;
    let bytes = Vec::from_slice(alloc, item.bytes.as_slice())?;
    Ok(File { name, bytes })
}

// the file of a name as the shelf has it now, where it does
fn copy_file(
    alloc: Global,
    shelf: &MemShelf,
    name: &str,
    files: &mut Store,
) -> Result<(), Trouble> {
    match shelf.file(name) {
        Some(bytes) => {
            let bytes = Vec::from_slice(alloc, bytes)?;
            files.put(alloc, name, bytes)
        }
        None => Ok(()),
    }
}

// the files that a call left
fn left(alloc: Global, shelf: &MemShelf, words: &[&str], before: &Store) -> Result<Store, Trouble> {
    let mut files = Store::new(alloc);
    for item in before.items.iter() {
        copy_file(alloc, shelf, item.name.as_str(), &mut files)?;
    }
    for word in words {
        copy_file(alloc, shelf, word, &mut files)?;
    }
    Ok(files)
}

fn call_mem(
    alloc: Global,
    words: &[&str],
    before: &Store,
    outside: &Outside,
) -> Result<Done, Trouble> {
    let mut shelf = shelf_of(alloc, before, outside.calls.as_slice())?;
    let mut sink = sink_of(alloc, outside.puts.as_slice())?;
    let status = status_of(alloc, words, &mut shelf, &mut sink);
    let files = left(alloc, &shelf, words, before)?;
    done_of(alloc, status, sink.held(), files)
}

// the outcome of a call, with this text
fn done_of(alloc: Global, status: u8, text: &[u8], files: Store) -> Result<Done, Trouble> {
    Ok(Done {
        status,
        text: Vec::from_slice(alloc, text)?,
        files,
    })
}

// a shelf with the files, of whose calls these fail
fn shelf_of(alloc: Global, store: &Store, failing: &[u32]) -> Result<MemShelf, Trouble> {
    let calls = Vec::from_slice(alloc, failing)?;
    Ok(MemShelf::new(alloc, files_of(alloc, store)?, calls))
}

// a sink that fails at these calls
fn sink_of(alloc: Global, failing: &[u32]) -> Result<MemSink, Trouble> {
    match MemSink::new(alloc, Vec::from_slice(alloc, failing)?, 65_536) {
        Ok(sink) => Ok(sink),
        Err(_) => Err(Trouble::Memory),
    }
}

// the files that a call over a sure shelf left, read back from it
fn left_sure(
    alloc: Global,
    shelf: &mut SureShelf,
    words: &[&str],
    before: &Store,
) -> Result<Store, Trouble> {
    let mut files = Store::new(alloc);
    for item in before.items.iter() {
        if let Ok(bytes) = shelf.read(item.name.as_str(), usize::MAX) {
            files.put(alloc, item.name.as_str(), bytes)?;
        }
    }
    for word in words {
        if let Ok(bytes) = shelf.read(word, usize::MAX) {
            files.put(alloc, word, bytes)?;
        }
    }
    Ok(files)
}

fn call_sure(alloc: Global, words: &[&str], before: &Store) -> Result<Done, Trouble> {
    let Ok(mut sink) = SureSink::with_room(alloc, 65_536) else {
        return Err(Trouble::Memory);
    };
    let mut shelf = SureShelf::new(alloc, files_of(alloc, before)?);
    let status = status_of(alloc, words, &mut shelf, &mut sink);
    let files = left_sure(alloc, &mut shelf, words, before)?;
    done_of(alloc, status, sink.held(), files)
}

/// Calls the program over these files.
pub(crate) fn call(
    alloc: Global,
    words: &[String],
    before: &Store,
    outside: &Outside,
) -> Result<Done, Trouble> {
    let mut texts = Vec::new(alloc);
    for word in words {
        texts.push(word.as_str())?;
    }
    if outside.sure {
        call_sure(alloc, &texts, before)
    } else {
        call_mem(alloc, &texts, before, outside)
    }
}
