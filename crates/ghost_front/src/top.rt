//! The call of the front program.

ghost use Rattle.std.specs.Prelude.{◌≡◌, ◌≢◌, false};
ghost use Rattle.command_words.specs.Prelude.{texts};
ghost use Rattle.call_laws.specs.Prelude.{work_of};
ghost use Rattle.ghost_front.specs.Dashes.{dashes_in};
ghost use Rattle.ghost_front.specs.Requests.{asked, asks_front, asks_tool};
ghost use Rattle.ghost_front.specs.Saying.{SaysPlain};
ghost use Rattle.ghost_front.specs.Served.{KeepsOthers, Serves, around};

use crate::answering::{Program, answer};
use crate::explaining::{Outsides, explain, explain_end};
use crate::outside::Reasons;
use crate::printing::USAGE;
use crate::requests::{asked_words, asks_json, lists_cases, manner_in, request_in};
use crate::serving::{Ended, Stop, serve};
use crate::streams::StreamShelf;
use crate::tools::{serve_tool, tool_in};
use gr_outside::{Shelf, Sink};
use real_outside::RealInput;
use std::alloc::Global;
use std::io::Read;

/// All that the program does, and its exit status. The words are those that follow the program's name.
///
/// The front handles `help`, `--version`, `--which` and `--help` itself, and does the verbs `diff`, `count`, `layout`,
/// `listing`, `profile`, `test` and `expand` by `ghost_tools`. For all other words it calls `ghost_cli::ghostrider`,
/// with `-` as the name of a standard stream. A file `-` that is read is standard input; if OUT is `-`, the file goes to
/// `out` and the verb's text to `errors`. Two files can't both be standard input: that is a usage error, status 2.
///
/// If the status isn't 0, `errors` gets an explanation, made from the bytes that the call read; if it is 0, warnings of
/// what a source and inputs may not mean. No file is opened for them. `--json` as the first word prints all that goes to
/// `errors` as lines of JSON, and `--quiet` prints neither explanations nor warnings. If the output can't be written, the
/// status is 4.
pub fn front<F: Shelf + Reasons + Drop, I: Read + Drop, O: Sink + Reasons, E: Sink>(
    alloc: Global,
    program: Program<'_>,
    words: &[&str],
    shelf: &mut StreamShelf<F>,
    input: &mut RealInput<I>,
    out: &mut O,
    errors: &mut E,
) -> u8
    ensures served { asks_front (asked (texts words.now)) ≡ false → asks_tool (asked (texts words.now)) ≡ false
        → Serves (asked (texts words.now)) (around shelf.old input.old (O.seen out.old) (E.seen errors.old))
        (around shelf.new input.new (O.seen out.new) (E.seen errors.new)) result }
    ensures untouched { asks_tool (asked (texts words.now)) ≡ false → (dashes_in (asked (texts words.now))).read ≡ 0
        → input.new ≡ input.old }
    ensures flushed { O.waiting out.old ≡ 0 → result ≢ 4 → O.waiting out.new ≡ 0 }
    ensures plain { (dashes_in (asked (texts words.now))).written ≡ false
        → SaysPlain (E.seen errors.old) (E.seen errors.new) }
    ensures others { KeepsOthers (work_of (asked (texts words.now))) shelf.old.files shelf.new.files }
{
    let asked = asked_words(words);
    let manner = manner_in(program.explains, words);
    let as_lines = asks_json(words);
    let lists = lists_cases(manner);
    let ended = end_call(
        alloc,
        program.path,
        asked,
        as_lines,
        lists,
        shelf,
        input,
        out,
        errors,
    );
    let outsides = Outsides { shelf, input, out };
    explain(alloc, manner, asked, ended, outsides, errors);
    ended.status
}

/// Does what the words ask for, and explains nothing.
fn end_call<'a, F: Shelf + Drop, I: Read + Drop, O: Sink, E: Sink>(
    alloc: Global,
    path: Option<&str>,
    words: &'a [&'a str],
    as_lines: bool,
    lists: bool,
    shelf: &mut StreamShelf<F>,
    input: &mut RealInput<I>,
    out: &mut O,
    errors: &mut E,
) -> Ended<'a>
    ensures served { asks_front (texts words.now) ≡ false → asks_tool (texts words.now) ≡ false
        → Serves (texts words.now) (around shelf.old input.old (O.seen out.old) (E.seen errors.old))
        (around shelf.new input.new (O.seen out.new) (E.seen errors.new)) result.status }
    ensures untouched { asks_tool (texts words.now) ≡ false → (dashes_in (texts words.now)).read ≡ 0
        → input.new ≡ input.old }
    ensures flushed { O.waiting out.old ≡ 0 → result.status ≢ 4 → O.waiting out.new ≡ 0 }
    ensures plain { (dashes_in (texts words.now)).written ≡ false → SaysPlain (E.seen errors.old) (E.seen errors.new) }
    ensures others { KeepsOthers (work_of (texts words.now)) shelf.old.files shelf.new.files }
{
    if let Some(request) = request_in(words) {
        return answer(alloc, path, request, shelf, out);
    }
    match tool_in(words) {
        Some(tool) => serve_tool(alloc, tool, words, lists, shelf, input, out, errors),
        None => serve(alloc, words, as_lines, shelf, input, out, errors),
    }
}

/// Prints to `errors` that a word of the call isn't UTF-8, and returns the status of a usage error. `first` is the first
/// word of the call, or empty if it isn't known.
pub fn refuse_words<E: Sink>(alloc: Global, explains: bool, first: &str, errors: &mut E) -> u8
    ensures status { result ≡ 2 }
    ensures plain { SaysPlain (E.seen errors.old) (E.seen errors.new) }
{
    let ended = Ended {
        status: USAGE,
        stop: None,
    };
    explain_end(
        alloc,
        manner_in(explains, &[first]),
        ended,
        Stop::NotText,
        errors,
    );
    USAGE
}
