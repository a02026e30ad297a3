ghost use Rattle.std.specs.Prelude.{◌≡◌, IfOk};
ghost use Rattle.std.specs.Str.{IsUtf8};
ghost use Rattle.ghost_page.specs.Page.{IsAnswered, IsAnsweredOrStarved, IsFile, IsNothing, IsText};

use crate::answers::{Answer, put};
use crate::given::{shelf_of, words_of};
use ghost_cli::ghostrider;
use gr_base::Memory;
use gr_outside::{MemShelf, MemSink};
use std::alloc::Global;

/// The status of words that aren't text.
pub(crate) const USAGE: u32 = 2;

/// The status if memory ran out.
pub(crate) const NO_MEMORY: u32 = 5;

/// Calls the program with these words, one a line, over two files that are called `program` and `input`. Its text is
/// written to the beginning of `text`, and the file `output`, if the call left one, to the beginning of `output`.
///
/// The status is the program's. It is 4 if the text is longer than its room, which then has a prefix of it. If the file
/// is longer than its room, `answer.output` has its length, and the room is as it was. The status is 2 if the words
/// aren't UTF-8, and 5 if memory ran out before the program was called; then there is no text and no file. (This
/// project's profile.)
#[unsafe(no_mangle)]
pub extern "C" fn ghost_call(
    alloc: Global,
    words: &[u8],
    program: &[u8],
    input: &[u8],
    text: &mut [u8],
    output: &mut [u8],
    answer: &mut Answer,
)
    ensures answered { IsUtf8 words.now
        → IsAnsweredOrStarved words.now program.now input.now text.new output.new
        answer.new.status answer.new.written answer.new.text answer.new.output }
    ensures no_text { ¬ IsUtf8 words.now
        → (answer.new.status ≡ 2) × IsNothing answer.new.written answer.new.text answer.new.output }
{
    let Ok(lines) = std::str::from_utf8(words) else {
        *answer = Answer::without_text(USAGE);
        return;
    };
    match call(alloc, lines, program, input, text, output) {
        Ok(told) => *answer = told,
        Err(_) => *answer = Answer::without_text(NO_MEMORY),
    }
}

/// The call over a shelf with the two files, and a sink that has as much room as the text.
fn call(
    alloc: Global,
    lines: &str,
    program: &[u8],
    input: &[u8],
    text: &mut [u8],
    output: &mut [u8],
) -> Result<Answer, Memory>
    ensures { IfOk result (λ a. IsAnswered lines.now program.now input.now text.new output.new
        a.status a.written a.text a.output) }
{
    let words = words_of(alloc, lines)?;
    let mut shelf = shelf_of(alloc, program, input)?;
    let mut sink = MemSink::new(alloc, Vec::new(alloc), text.len())?;
    let status = ghostrider(alloc, &words, &mut shelf, &mut sink);
    Ok(answer_of(status, &shelf, &sink, text, output))
}

/// What the call left: the text of the sink, and the file `output` of the shelf.
fn answer_of(
    status: u8,
    shelf: &MemShelf,
    sink: &MemSink,
    text: &mut [u8],
    output: &mut [u8],
) -> Answer
    ensures status { result.status ≡ status }
    ensures text { IsText sink.now text.new result.text }
    ensures file { IsFile shelf.now output.new result.written result.output }
{
    let said = sink.held();
    put(said, text);
    let Some(bytes) = shelf.file("output") else {
        return Answer {
            status: u32::from(status),
            written: 0,
            text: said.len(),
            output: 0,
        };
    };
    put(bytes, output);
    Answer {
        status: u32::from(status),
        written: 1,
        text: said.len(),
        output: bytes.len(),
    }
}
