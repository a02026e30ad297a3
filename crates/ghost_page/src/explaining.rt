ghost use Rattle.std.specs.Prelude.{◌≡◌, ◌≢◌, IfOk, All};
ghost use Rattle.std.specs.Str.{IsUtf8};
ghost use Rattle.fault_texts.specs.Prelude.{IsPlain};
ghost use Rattle.ghost_page.specs.Page.{IsPlainText};

use crate::answers::{Answer, put};
use crate::calls::{NO_MEMORY, USAGE};
use crate::given::words_of;
use explain_words::{Call, File};
use gr_base::Memory;
use std::alloc::Global;

/// The status if the explanation, possibly empty, was written.
const DONE: u32 = 0;

/// Explains the fault of a call. The lines are its exit status, the line of its verb in the table of verbs, and the
/// words of the call, over two files that are called `program` and `input`. The explanation is written to the beginning
/// of `text`; it is empty if there is nothing to explain.
///
/// The status is 0, 2 if the lines aren't UTF-8, and 5 if memory runs out. If the explanation is longer than its room,
/// `answer.text` has its length, and nothing is written. (This project's profile.)
#[unsafe(no_mangle)]
pub extern "C" fn ghost_explain(
    alloc: Global,
    lines: &[u8],
    program: &[u8],
    input: &[u8],
    text: &mut [u8],
    answer: &mut Answer,
)
    ensures plain { answer.new.status ≡ 0 → IsPlainText text.new answer.new.text }
    ensures silent { answer.new.status ≢ 0 → answer.new.text ≡ 0 }
    ensures no_text { ¬ IsUtf8 lines.now → answer.new.status ≡ 2 }
    ensures no_file { answer.new.written ≡ 0 }
{
    let Ok(lines) = std::str::from_utf8(lines) else {
        *answer = Answer::without_text(USAGE);
        return;
    };
    match explained(alloc, lines, program, input) {
        Ok(words) => *answer = answer_with(&words, text),
        Err(_) => *answer = Answer::without_text(NO_MEMORY),
    }
}

/// The outcome with this explanation, which is written if it fits.
fn answer_with(words: &[u8], text: &mut [u8]) -> Answer
    requires { All IsPlain words.now }
    ensures plain { IsPlainText text.new result.text }
    ensures done { result.status ≡ 0 }
    ensures no_file { result.written ≡ 0 }
{
    put(words, text);
    Answer {
        status: DONE,
        written: 0,
        text: words.len(),
        output: 0,
    }
}

/// The words for people.
fn explained<'a>(
    alloc: Global,
    lines: &'a str,
    program: &'a [u8],
    input: &'a [u8],
) -> Result<Vec<u8>, Memory>
    ensures { IfOk result (λ words. All IsPlain words.items) }
{
    let words = words_of(alloc, lines)?;
    if words.len() < 2 {
        return Ok(Vec::new(alloc));
    }
    let Ok(status) = words[0].parse::<u8>() else {
        return Ok(Vec::new(alloc));
    };
    let call = Call::new(alloc, status, words[1], &words[2..])?;
    let mut files = Vec::new(alloc);
    for (place, name) in call.placed().iter().enumerate() {
        if let Some(kind) = call.kind_at(place) {
            if let Some(bytes) = bytes_of(name, program, input) {
                files.push(File {
                    name: *name,
                    kind,
                    bytes,
                })?;
            }
        }
    }
    call.explained(alloc, &files)
}

/// The bytes of a file of the page.
fn bytes_of<'a>(name: &str, program: &'a [u8], input: &'a [u8]) -> Option<&'a [u8]> {
    match name {
        "program" => Some(program),
        "input" => Some(input),
        _ => None,
    }
}
