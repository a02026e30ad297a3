ghost use Rattle.std.specs.Prelude.{◌≡◌, IfOk};
ghost use Rattle.std.specs.Str.{IsUtf8};

use crate::answers::{Answer, put};
use crate::calls::{NO_MEMORY, USAGE};
use crate::given::{shelf_of, words_of};
use ghost_tools::{Layout, Listing, Profile, print_report};
use gr_base::Memory;
use gr_outside::{MemShelf, MemSink};
use std::alloc::Global;

/// Calls the tool `layout`, `listing` or `profile` with these words, one a line, the tool's name first, over two files that are
/// called `program` and `input`. Its text is written to the beginning of `text`.
///
/// The status is the tool's, 2 if the words aren't UTF-8 or name no such tool, and 5 if memory ran out. It is 4 if the
/// text is longer than its room, which then has a prefix of it. No file is left. (This project's profile.)
#[unsafe(no_mangle)]
pub extern "C" fn ghost_tool(
    alloc: Global,
    words: &[u8],
    program: &[u8],
    input: &[u8],
    text: &mut [u8],
    answer: &mut Answer,
)
    ensures usage { ¬ IsUtf8 words.now → answer.new.status ≡ 2 }
    ensures no_text { ¬ IsUtf8 words.now → answer.new.text ≡ 0 }
    ensures no_file { answer.new.written ≡ 0 }
{
    let Ok(lines) = std::str::from_utf8(words) else {
        *answer = Answer::without_text(USAGE);
        return;
    };
    match call_tool(alloc, lines, program, input, text) {
        Ok(told) => *answer = told,
        Err(_) => *answer = Answer::without_text(NO_MEMORY),
    }
}

// The call over a shelf with the two files, and a sink that has as much room as the text.
fn call_tool(
    alloc: Global,
    lines: &str,
    program: &[u8],
    input: &[u8],
    text: &mut [u8],
) -> Result<Answer, Memory>
    ensures { IfOk result (λ a. a.written ≡ 0) }
{
    let words = words_of(alloc, lines)?;
    let mut shelf = shelf_of(alloc, program, input)?;
    let mut sink = MemSink::new(alloc, Vec::new(alloc), text.len())?;
    let status = tool_status(alloc, &words, &mut shelf, &mut sink);
    let said = sink.held();
    put(said, text);
    Ok(Answer {
        status: u32::from(status),
        written: 0,
        text: said.len(),
        output: 0,
    })
}

// The status of the tool that the first word names.
fn tool_status(alloc: Global, words: &[&str], shelf: &mut MemShelf, sink: &mut MemSink) -> u8 {
    let Some(word) = words.first() else {
        return USAGE as u8;
    };
    match *word {
        "layout" => print_report::<Layout, MemShelf, MemSink>(alloc, words, shelf, sink),
        "listing" => print_report::<Listing, MemShelf, MemSink>(alloc, words, shelf, sink),
        "profile" => print_report::<Profile, MemShelf, MemSink>(alloc, words, shelf, sink),
        _ => USAGE as u8,
    }
}
