ghost use Rattle.std.specs.Prelude.{◌≡◌, IfOk};
ghost use Rattle.command_words.specs.Prelude.{texts};
ghost use Rattle.ghost_page.specs.Page.{page_shelf, words_in};

use gr_base::Memory;
use gr_outside::{File, MemShelf, names_are_distinct};
use std::alloc::{AllocError, Global};

/// The words of a call, of which each line has one.
pub(crate) fn words_of(alloc: Global, lines: &str) -> Result<Vec<&str>, AllocError>
    ensures { IfOk result (λ words. texts words.items ≡ words_in lines.now) }
{
    lines.split('\n').collect(alloc)
}

/// A shelf with the two files, none of whose calls fails.
pub(crate) fn shelf_of(alloc: Global, program: &[u8], input: &[u8]) -> Result<MemShelf, Memory>
    ensures { IfOk result (λ shelf. shelf ≡ page_shelf program.now input.now) }
{
    let mut files = Vec::new(alloc);
    files.push(file_of(alloc, "program", program)?)?;
    files.push(file_of(alloc, "input", input)?)?;
    if !names_are_distinct(&files) {
        return Err(Memory);
    }
    Ok(MemShelf::new(alloc, files, Vec::new(alloc)))
}

fn file_of(alloc: Global, name: &str, bytes: &[u8]) -> Result<File, Memory>
    ensures { IfOk result (λ file. (file.name.items ≡ name.now) × (file.bytes.items ≡ bytes.now)) }
{
    let name = Vec::from_slice(alloc, name.as_bytes())?;
    let bytes = Vec::from_slice(alloc, bytes)?;
    Ok(File { name, bytes })
}
