//! The verbs that the front does itself, with `-` as standard input.

ghost use Rattle.std.specs.Prelude.{◌≡◌, ◌≢◌, is_some};
ghost use Rattle.command_words.specs.Prelude.{texts};
ghost use Rattle.call_laws.specs.Prelude.{work_of};
ghost use Rattle.ghost_front.specs.Requests.{asks_tool, is_tool};
ghost use Rattle.ghost_front.specs.Saying.{SaysPlain};
ghost use Rattle.ghost_front.specs.Served.{KeepsOthers};
ghost use Rattle.ghost_front.specs.Streams.{told};

use crate::explaining::{put_text, shown_name};
use crate::held_text::HeldText;
use crate::printing::{NOT_PUT, put_bytes, status_after};
use crate::serving::{Ended, Stop, refused, starved, take_input};
use crate::streams::StreamShelf;
use crate::tool_files::ToolFiles;
use explain_words::failed_cases;
use ghost_tools::{Count, Diff, Expand, Layout, Listing, Profile, Test, print_report};
use gr_outside::{Shelf, Sink};
use real_outside::RealInput;
use std::alloc::Global;
use std::io::Read;

/// The status of `test` if a case fails.
pub(crate) const CASE_FAILS: u8 = 1;

/// A verb that the front does itself.
#[derive(Clone, Copy)]
pub(crate) enum ToolName {
    /// Compares the events of two runs.
    Diff,
    /// Counts the events of a run.
    Count,
    /// Prints where the compiler stores variables.
    Layout,
    /// Prints the assembly of a program with its lines.
    Listing,
    /// Prints what each line of a program costs.
    Profile,
    /// Prints a program without its calls.
    Expand,
    /// Tries a program on cases.
    Test,
}

/// The tool that the first word names, if it names one.
pub(crate) fn tool_in(words: &[&str]) -> Option<ToolName>
    ensures { is_some result ≡ asks_tool (texts words.now) }
{
    if words.len() == 0 {
        return None;
    }
    tool_named(words[0])
}

fn tool_named(word: &str) -> Option<ToolName>
    ensures { is_some result ≡ is_tool word.now }
{
    match word {
        "diff" => Some(ToolName::Diff),
        "count" => Some(ToolName::Count),
        "layout" => Some(ToolName::Layout),
        "listing" => Some(ToolName::Listing),
        "profile" => Some(ToolName::Profile),
        "test" => Some(ToolName::Test),
        "expand" => Some(ToolName::Expand),
        _ => None,
    }
}

/// Does the work of a tool. Standard input is read at most once, and only if `-` is the name of a file to read. If
/// `lists` is true, `errors` gets a line of JSON for each case of `test` that fails.
#[tactic(auto, using(crate::proofs::CallEnds::same_files_keep, crate::proofs::Saying::says_nothing))]
pub(crate) fn serve_tool<'a, F: Shelf + Drop, I: Read + Drop, O: Sink, E: Sink>(
    alloc: Global,
    tool: ToolName,
    words: &'a [&'a str],
    lists: bool,
    shelf: &mut StreamShelf<F>,
    input: &mut RealInput<I>,
    out: &mut O,
    errors: &mut E,
) -> Ended<'a>
    ensures others { KeepsOthers (work_of (texts words.now)) shelf.old.files shelf.new.files }
    ensures flushed { result.status ≢ 4 → O.waiting out.new ≡ 0 }
    ensures plain { SaysPlain (E.seen errors.old) (E.seen errors.new) }
{
    let Ok(files) = ToolFiles::of(alloc, tool, words) else {
        return starved(out);
    };
    if files.dashes > 1 {
        return refused(Stop::ReadsTwice, out);
    }
    if take_input(alloc, files.dashes, shelf, input).is_err() {
        return starved(out);
    }
    if lists && is_test(tool) {
        return serve_test(alloc, words, files.cases, shelf, out, errors);
    }
    Ended {
        status: run_tool(alloc, tool, words, shelf, out),
        stop: None,
    }
}

fn is_test(tool: ToolName) -> bool {
    match tool {
        ToolName::Test => true,
        _ => false,
    }
}

/// Tries a program on cases, and prints each case that fails to `errors` too, as a line of JSON. The report is kept back
/// for that, so that the cases are tried only once.
fn serve_test<'a, F: Shelf + Drop, O: Sink, E: Sink>(
    alloc: Global,
    words: &[&str],
    cases: Option<&str>,
    shelf: &mut StreamShelf<F>,
    out: &mut O,
    errors: &mut E,
) -> Ended<'a>
    ensures files { told shelf.new ≡ told shelf.old }
    ensures flushed { result.status ≢ 4 → O.waiting out.new ≡ 0 }
    ensures plain { SaysPlain (E.seen errors.old) (E.seen errors.new) }
{
    let mut held = HeldText::new(alloc);
    let verdict = print_report::<Test, StreamShelf<F>, HeldText>(alloc, words, shelf, &mut held);
    let Some(report) = held.into_text() else {
        return starved(out);
    };
    let status = status_after(put_bytes(report.as_slice(), out), verdict);
    if status == CASE_FAILS {
        put_failed(alloc, cases, report.as_slice(), errors);
    }
    Ended { status, stop: None }
}

// Prints the failed cases of a report as lines of JSON, unless memory runs out.
#[tactic(auto, using(crate::proofs::Saying::says_nothing, crate::proofs::Saying::says_plain))]
fn put_failed<E: Sink>(alloc: Global, cases: Option<&str>, report: &[u8], errors: &mut E)
    ensures { SaysPlain (E.seen errors.old) (E.seen errors.new) }
{
    let Some(name) = cases else {
        return;
    };
    let Ok(report) = std::str::from_utf8(report) else {
        return;
    };
    match failed_cases(alloc, shown_name(name), report) {
        Ok(lines) => put_text(lines.as_slice(), errors),
        Err(_) => {}
    }
}

// Does the work of a tool, and passes on what the sink holds back.
fn run_tool<F: Shelf + Drop, O: Sink>(
    alloc: Global,
    tool: ToolName,
    words: &[&str],
    shelf: &mut StreamShelf<F>,
    out: &mut O,
) -> u8
    ensures files { told shelf.new ≡ told shelf.old }
    ensures flushed { result ≢ 4 → O.waiting out.new ≡ 0 }
{
    let status = put_report(alloc, tool, words, shelf, out);
    match out.flush() {
        Ok(()) => status,
        Err(_) => NOT_PUT,
    }
}

fn put_report<F: Shelf + Drop, O: Sink>(
    alloc: Global,
    tool: ToolName,
    words: &[&str],
    shelf: &mut StreamShelf<F>,
    out: &mut O,
) -> u8
    ensures { told shelf.new ≡ told shelf.old }
{
    match tool {
        ToolName::Diff => print_report::<Diff, StreamShelf<F>, O>(alloc, words, shelf, out),
        ToolName::Count => print_report::<Count, StreamShelf<F>, O>(alloc, words, shelf, out),
        ToolName::Layout => print_report::<Layout, StreamShelf<F>, O>(alloc, words, shelf, out),
        ToolName::Listing => print_report::<Listing, StreamShelf<F>, O>(alloc, words, shelf, out),
        ToolName::Profile => print_report::<Profile, StreamShelf<F>, O>(alloc, words, shelf, out),
        ToolName::Expand => print_report::<Expand, StreamShelf<F>, O>(alloc, words, shelf, out),
        ToolName::Test => print_report::<Test, StreamShelf<F>, O>(alloc, words, shelf, out),
    }
}
