//! A call of a verb of `ghost_cli`, with the standard streams as files.

ghost use Rattle.std.specs.Prelude.{◌≡◌, ◌≢◌, ◌≤◌, [], OnErr, OnOk, Some, option_copied};
ghost use Rattle.std.specs.Option.{option_map};
ghost use Rattle.real_outside.specs.Known.{InputSeen};
ghost use Rattle.call_replies.specs.Prelude.{no_memory, usage};
ghost use Rattle.command_words.specs.Prelude.{texts};
ghost use Rattle.call_steps.specs.Prelude.{PutsSaid, outside};
ghost use Rattle.ghost_front.specs.Dashes.{dashes_in};
ghost use Rattle.ghost_front.specs.HeldText.{held_seen};
ghost use Rattle.ghost_front.specs.Saying.{Echoes};
ghost use Rattle.ghost_front.specs.Served.{Delivers, IsCall, Serves, StreamsFile, Takes, around, bytes_of};
ghost use Rattle.ghost_front.specs.Streams.{as_shelf};

use crate::dashes::dashes_in;
use crate::explaining::put_text;
use crate::held_text::{HeldText, as_json};
use crate::printing::{DONE, NO_MEMORY, NOT_PUT, USAGE, put_line};
use crate::requests::is_manner;
use crate::streams::StreamShelf;
use call_replies::replies;
use ghost_cli::ghostrider;
use gr_base::Memory;
use gr_outside::{Shelf, Sink};
use real_outside::{InputError, RealInput};
use std::alloc::Global;
use std::io::Read;

/// The most bytes that are read of standard input: one more than any file may have, so that a longer one is seen.
const MOST_INPUT: usize = 67_108_865;

/// The line of a usage error.
pub(crate) const USAGE_LINE: &str = "fault 2 usage\n";

/// Why the front ends a call itself.
#[derive(Clone, Copy)]
pub(crate) enum Stop<'a> {
    /// Memory ran out.
    NoMemory,
    /// Standard input is to be read as two files.
    ReadsTwice,
    /// Both `--quiet` and `--json` precede the verb.
    TwoManners,
    /// A word isn't UTF-8.
    NotText,
    /// This word is not a verb.
    NoVerb(&'a str),
    /// This word is one too many.
    TooMany(&'a str),
    /// The path of the program isn't known.
    NoPath,
}

/// How a call ended: its status, and the reason if the front ended it.
#[derive(Clone, Copy)]
pub(crate) struct Ended<'a> {
    pub status: u8,
    pub stop: Option<Stop<'a>>,
}

/// Does the work of a verb. Standard input is read at most once, and only if `-` is the name of a file to read. If OUT is
/// `-`, the file goes to `out`, and the verb's text to `errors`, as lines of JSON if `as_lines` is true.
#[tactic(auto, using(crate::proofs::CallEnds::refused, crate::proofs::CallEnds::no_room, crate::proofs::CallEnds::printed, crate::proofs::CallEnds::streamed))]
pub(crate) fn serve<'a, F: Shelf + Drop, I: Read + Drop, O: Sink, E: Sink>(
    alloc: Global,
    words: &'a [&'a str],
    as_lines: bool,
    shelf: &mut StreamShelf<F>,
    input: &mut RealInput<I>,
    out: &mut O,
    errors: &mut E,
) -> Ended<'a>
    ensures served { Serves (texts words.now) (around shelf.old input.old (O.seen out.old) (E.seen errors.old))
        (around shelf.new input.new (O.seen out.new) (E.seen errors.new)) result.status }
    ensures untouched { (dashes_in (texts words.now)).read ≡ 0 → input.new ≡ input.old }
    ensures flushed { O.waiting out.old ≡ 0 → result.status ≢ 4 → O.waiting out.new ≡ 0 }
{
    let Ok(dashes) = dashes_in(alloc, words) else {
        return starved(out);
    };
    if dashes.read > 1 {
        return serve_verb(alloc, &[], Some(Stop::ReadsTwice), shelf, out);
    }
    match take_input(alloc, dashes.read, shelf, input) {
        Ok(()) => {}
        Err(_) => return starved(out),
    }
    if dashes.written {
        serve_to_output(alloc, words, as_lines, shelf, out, errors)
    } else {
        serve_verb(alloc, words, stop_of(words), shelf, out)
    }
}

/// Does the work of a verb whose text goes to `out`. If that is a usage error, it has this reason, if one is known.
fn serve_verb<'a, F: Shelf + Drop, O: Sink>(
    alloc: Global,
    words: &[&str],
    stop: Option<Stop<'a>>,
    shelf: &mut StreamShelf<F>,
    out: &mut O,
) -> Ended<'a>
    ensures call { IsCall (texts words.now) (outside (as_shelf shelf.old) (O.seen out.old))
        (outside (as_shelf shelf.new) (O.seen out.new)) result.status }
    ensures flushed { result.status ≢ 4 → O.waiting out.new ≡ 0 }
{
    let status = ghostrider(alloc, words, shelf, out);
    Ended {
        status,
        stop: if status == USAGE { stop } else { None },
    }
}

// Why words are a usage error that the verb's words don't tell: both `--quiet` and `--json` precede the verb.
fn stop_of<'a>(words: &[&str]) -> Option<Stop<'a>> {
    match words.first() {
        Some(word) => if is_manner(*word) {
            Some(Stop::TwoManners)
        } else {
            None
        },
        None => None,
    }
}

/// Does the work of a verb whose file goes to `out`, and whose text to `errors`, as lines of JSON if `as_lines` is true.
/// The text is printed after the file, and left out if the file couldn't be printed, or if memory runs out for it.
#[tactic(auto, using(crate::proofs::CallEnds::streams_file))]
fn serve_to_output<'a, F: Shelf + Drop, O: Sink, E: Sink>(
    alloc: Global,
    words: &[&str],
    as_lines: bool,
    shelf: &mut StreamShelf<F>,
    out: &mut O,
    errors: &mut E,
) -> Ended<'a>
    ensures file { (input : InputSeen) → StreamsFile (texts words.now) shelf.old
        (around shelf.old input (O.seen out.old) (E.seen errors.old))
        (around shelf.new input (O.seen out.new) (E.seen errors.new)) result.status }
    ensures flushed { O.waiting out.old ≡ 0 → result.status ≢ 4 → O.waiting out.new ≡ 0 }
{
    let mut held = HeldText::new(alloc);
    let verdict = ghostrider(alloc, words, shelf, &mut held);
    let text = held.into_text();
    let status = deliver(verdict, shelf.output(), out);
    put_held(alloc, as_lines, verdict, status, &text, errors);
    Ended { status, stop: None }
}

// Prints a verb's text, unless the file that it is about couldn't be printed, or memory ran out.
#[tactic(auto, using(crate::proofs::Saying::echoes_nothing, crate::proofs::Saying::echoes_text, crate::proofs::Saying::echoes_lines))]
fn put_held<E: Sink>(
    alloc: Global,
    as_lines: bool,
    verdict: u8,
    status: u8,
    text: &Option<Vec<u8>>,
    errors: &mut E,
)
    ensures { Echoes (E.seen errors.old) (E.seen errors.new) (bytes_of (option_map (λ t. t.items) text.now)) }
{
    let Some(text) = text else {
        return;
    };
    if status != verdict {
        return;
    }
    if !as_lines {
        put_text(text.as_slice(), errors);
        return;
    }
    match as_json(alloc, status, text.as_slice()) {
        Ok(lines) => put_text(lines.as_slice(), errors),
        Err(_) => {}
    }
}

/// Prints the file that a verb wrote, if it ended with status 0, and returns the status of the call.
#[tactic(auto, using(crate::proofs::CallEnds::not_done, crate::proofs::CallEnds::whole, crate::proofs::CallEnds::not_put, crate::proofs::CallEnds::not_flushed))]
fn deliver<O: Sink>(verdict: u8, file: Option<&[u8]>, out: &mut O) -> u8
    ensures delivers { Delivers (option_copied file.entry) (O.seen out.old) (O.seen out.new) verdict result }
    ensures flushed { O.waiting out.old ≡ 0 → result ≢ 4 → O.waiting out.new ≡ 0 }
{
    if verdict != DONE {
        return verdict;
    }
    match out.put(bytes_of(file)) {
        Ok(()) => {}
        Err(_) => return NOT_PUT,
    }
    match out.flush() {
        Ok(()) => DONE,
        Err(_) => NOT_PUT,
    }
}

fn bytes_of<'a>(file: Option<&'a [u8]>) -> &'a [u8]
    ensures { result.now ≡ bytes_of (option_copied file.entry) }
{
    match file {
        Some(bytes) => bytes,
        None => &[],
    }
}

/// Reads standard input, if `-` is the name of a file to read: one more byte than any file may have, at most. If it can't
/// be read, it keeps the reason, and `-` is missing.
#[tactic(auto, using(crate::proofs::CallEnds::untaken, crate::proofs::CallEnds::taken, crate::proofs::CallEnds::not_taken))]
pub(crate) fn take_input<F: Shelf + Drop, I: Read + Drop>(
    alloc: Global,
    count: usize,
    shelf: &mut StreamShelf<F>,
    input: &mut RealInput<I>,
) -> Result<(), Memory>
    requires { count ≤ 1 }
    ensures only_input { shelf.new ≡ record shelf.old { input = shelf.new.input } }
    ensures taken { OnOk result (Takes count input.old input.new shelf.old shelf.new) }
    ensures starved { OnErr result (shelf.new ≡ shelf.old) }
    ensures untouched { count ≡ 0 → input.new ≡ input.old }
{
    if count == 0 {
        return Ok(());
    }
    match input.first(alloc, MOST_INPUT) {
        Ok(bytes) => {
            shelf.set_input(bytes);
            Ok(())
        }
        Err(InputError::Memory) => Err(Memory),
        Err(InputError::Failed) => Ok(()),
    }
}

/// Prints the line of a usage error.
pub(crate) fn refused<'a, O: Sink>(stop: Stop<'a>, out: &mut O) -> Ended<'a>
    ensures said { PutsSaid (O.seen out.old) (O.seen out.new) usage result.status }
    ensures flushed { result.status ≢ 4 → O.waiting out.new ≡ 0 }
{
    Ended {
        status: put_line(USAGE_LINE, USAGE, out),
        stop: Some(stop),
    }
}

/// Prints that memory ran out.
pub(crate) fn starved<'a, O: Sink>(out: &mut O) -> Ended<'a>
    ensures said { PutsSaid (O.seen out.old) (O.seen out.new) no_memory result.status }
    ensures flushed { result.status ≢ 4 → O.waiting out.new ≡ 0 }
{
    Ended {
        status: put_line(replies::NO_MEMORY, NO_MEMORY, out),
        stop: Some(Stop::NoMemory),
    }
}
