//! Tools as a trait: what a tool finds in the words of a command line, and what it prints. The functions here do for
//! every tool what doesn't depend on it.

ghost use Rattle.std.specs.Prelude.{◌≡◌, ◌≢◌, IfSome};
ghost use Rattle.run_tools.specs.Statuses.{end_status};

use crate::words::matches_of;
use call_replies::replies::Reply;
use call_steps::putting::{NOT_PUT, put_text, say};
use clap::ArgMatches;
use command_words::verbs::VerbWords;
use gr_outside::{Shelf, Sink};
use processor::End;
use std::alloc::Global;

/// What a tool prints, and the exit status that goes with it.
#[derive(Drop)]
pub struct Report {
    pub status: u8,
    pub text: String,
}

/// What a tool prints: its report, or the reply if there is none.
pub type Outcome<'a> = Result<Report, Reply<'a>>;

/// A tool: a verb that prints a report of the files that its words name, and writes no file.
pub trait Tool<'a> {
    /// What the tool finds in the words of a command line.
    type Words: Drop;

    /// What is known of the numbers among it.
    ghost Fits: { Self.Words → Type 0 };

    /// The words that the tool takes.
    const ROW: VerbWords<'static>;

    /// Finds the words, or returns `None` if an option has no valid value.
    fn words(matches: &ArgMatches<'a>) -> Option<Self::Words>
        ensures { IfSome result Fits };

    /// Does the work, and returns what to print.
    fn serve<S: Shelf>(alloc: Global, words: Self::Words, shelf: &mut S) -> Outcome<'a>
        requires { Self.Fits words }
        ensures { (S.seen shelf.new).files ≡ (S.seen shelf.old).files };
}

/// Does the work that the words of a tool ask for, the tool's name first. Prints the report, or the line of what ended
/// the work, and returns the exit status: 4 if it couldn't be printed.
pub fn print_report<'a, T: Tool<'a>, S: Shelf, O: Sink>(
    alloc: Global,
    words: &'a [&'a str],
    shelf: &mut S,
    out: &mut O,
) -> u8
    ensures files { (S.seen shelf.new).files ≡ (S.seen shelf.old).files }
    ensures calm { result ≢ 4 → (O.seen out.new).faults ≡ (O.seen out.old).faults }
{
    print(alloc, report_of::<T, S>(alloc, words, shelf), out)
}

// What a tool prints of the work that its words ask for.
fn report_of<'a, T: Tool<'a>, S: Shelf>(
    alloc: Global,
    words: &'a [&'a str],
    shelf: &mut S,
) -> Outcome<'a>
    ensures { (S.seen shelf.new).files ≡ (S.seen shelf.old).files }
{
    let Some(matches) = matches_of(alloc, T::ROW, words)? else {
        return Err(Reply::Usage);
    };
    let Some(asked) = T::words(&matches) else {
        return Err(Reply::Usage);
    };
    T::serve(alloc, asked, shelf)
}

// Prints a report, or the line of what ended the work, and returns the exit status: 4 if it couldn't be printed.
fn print<O: Sink>(alloc: Global, outcome: Outcome<'_>, out: &mut O) -> u8
    ensures { result ≢ 4 → (O.seen out.new).faults ≡ (O.seen out.old).faults }
{
    let status = put_outcome(alloc, outcome, out);
    match out.flush() {
        Ok(()) => status,
        Err(_) => NOT_PUT,
    }
}

// Puts a report, or the line of what ended the work.
fn put_outcome<O: Sink>(alloc: Global, outcome: Outcome<'_>, out: &mut O) -> u8
    ensures { result ≢ 4 → (O.seen out.new).faults ≡ (O.seen out.old).faults }
{
    match outcome {
        Ok(report) => put_text(out, report.status, report.text.as_bytes()),
        Err(reply) => say(alloc, &reply, out),
    }
}

/// The exit status for how a run ended: 0 if it halted, and 10 if its cycles were spent.
pub fn end_status(end: End) -> u8
    ensures { result ≡ end_status end }
{
    match end {
        End::Halted(_) => 0,
        End::Spent => 10,
    }
}
