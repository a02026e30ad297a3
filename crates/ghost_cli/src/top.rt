ghost use Rattle.std.specs.Prelude.{◌≡◌, IfErr, IfOk, OnErr};
ghost use Rattle.command_words.specs.Prelude.{AreTexts, texts, asked_of, asks_of};
ghost use Rattle.call_steps.specs.Prelude.{Makes, Happened, Explains, outside_at, LeavesToSay, stage};
ghost use Rattle.call_laws.specs.Prelude.{HasHeadline, HasReadBytes, Promises, work_of, works};
ghost use Rattle.call_replies.specs.Prelude.{said};
ghost use Rattle.clap.specs.Words.{found_of, rows_of};

use crate::check::Check;
use crate::compile::Compile;
use crate::conversions::{Assemble, Disassemble, Infer};
use crate::evaluate::Evaluate;
use crate::sample::Sample;
use call_replies::replies::Reply;
use call_steps::putting::{NOT_PUT, say};
use call_steps::verbs::answer;
use clap::ArgMatches;
use command_words::verbs::{Verb, matches_of, verb_named};
use gr_outside::{Shelf, Sink};
use machine_verbs::bus::SharedBus;
use machine_verbs::run::Run;
use machine_verbs::trace::Trace;
use std::alloc::Global;

/// All that the program does: reads the words after the program's name, does the work of the verb that they name with
/// the files of the shelf, writes its text to the sink, flushes the sink, and returns the exit status.
///
/// The verbs are `check OBJ`, `trace OBJ INPUT [--cycles n] [--seed s] [--paths] [--recursive]`, `run OBJ INPUT OUT
/// [--cycles n] [--seed s] [--recursive]`, `asm TEXT OUT`, `dis OBJ OUT`, `eval SRC INPUT OUT [--turns n] [--procs]`,
/// `compile SRC OUT [--fast] [--block-log w] [--window P:O:C] [--procs]`, `sample N OUT [--fast] [--seed s]`, `bus OBJ
/// INPUT [OBJ INPUT ..] [--cycles n] [--seed s]` and `infer OBJ OUT`.
///
/// Statuses: 0 success; 2 the words request no work; 3 a file couldn't be read; 4 the text or the output couldn't be
/// written; 5 memory ran out; 6 the file isn't an object; 7 the object is rejected, or gets no notes; 8 the source is
/// rejected; 9 the input file gives no inputs that fit; 10 the run didn't halt within its cycles, or the loops took too
/// many iterations; 11 a file is too long; 12 the text isn't an object in assembly; 13 the bus takes no object as a
/// core. No file is written except OUT, and OUT only once its contents are complete.
pub fn ghostrider<F: Shelf, O: Sink>(
    alloc: Global,
    words: &[&str],
    shelf: &mut F,
    out: &mut O,
) -> u8
    ensures promises { Promises (work_of (texts words.now))
        (outside_at (stage (F.seen shelf.old) (F.log shelf.old)) (O.seen out.old))
        (outside_at (stage (F.seen shelf.new) (F.log shelf.new)) (O.seen out.new)) result }
    ensures headline { HasHeadline (texts words.now)
        (outside_at (stage (F.seen shelf.old) (F.log shelf.old)) (O.seen out.old))
        (outside_at (stage (F.seen shelf.new) (F.log shelf.new)) (O.seen out.new)) result }
    ensures read_bytes { HasReadBytes (texts words.now)
        (outside_at (stage (F.seen shelf.old) (F.log shelf.old)) (O.seen out.old))
        (outside_at (stage (F.seen shelf.new) (F.log shelf.new)) (O.seen out.new)) result }
    ensures happened { Happened (texts words.now) (F.log shelf.old) (F.log shelf.new) (O.waiting out.new) result }
{
    look_at(words);
    let status = explained(alloc, words, shelf, out);
    match out.flush() {
        Ok(()) => status,
        Err(_) => NOT_PUT,
    }
}

/// Looks at each word: its type says that it is text, and this says so of all of them.
fn look_at(words: &[&str])
    ensures { AreTexts (texts words.now) }
{
    'looking: for word in words {
        let _bytes = word.as_bytes();
    }
}

/// The call, with the cause of its status.
fn explained<F: Shelf, O: Sink>(alloc: Global, words: &[&str], shelf: &mut F, out: &mut O) -> u8
    ensures explained { Explains
        (outside_at (stage (F.seen shelf.old) (F.log shelf.old)) (O.seen out.old))
        (outside_at (stage (F.seen shelf.new) (F.log shelf.new)) (O.seen out.new)) result (work_of (texts words.now)) }
    ensures calls { Makes (work_of (texts words.now)) (F.log shelf.old) (F.log shelf.new) }
{
    match answered(alloc, words, shelf, out) {
        Ok(status) => status,
        Err(reply) => say(alloc, &reply, out),
    }
}

/// Does the work that the words request, and returns the status. `Err` if nothing was printed yet: the reply to print.
fn answered<'a, F: Shelf, O: Sink>(
    alloc: Global,
    words: &'a [&'a str],
    shelf: &mut F,
    out: &mut O,
) -> Result<u8, Reply<'a>>
    ensures done { IfOk result (λ status. Explains
        (outside_at (stage (F.seen shelf.old) (F.log shelf.old)) (O.seen out.old))
        (outside_at (stage (F.seen shelf.new) (F.log shelf.new)) (O.seen out.new)) status (work_of (texts words.now))) }
    ensures stopped { IfErr result (λ reply. LeavesToSay (stage (F.seen shelf.old) (F.log shelf.old))
        (stage (F.seen shelf.new) (F.log shelf.new))
        (work_of (texts words.now)) (said reply)) }
    ensures unput { OnErr result (O.seen out.new ≡ O.seen out.old) }
    ensures calls { Makes (work_of (texts words.now)) (F.log shelf.old) (F.log shelf.new) }
{
    if words.len() == 0 {
        return Err(Reply::Usage);
    }
    perform(alloc, words[0], words, shelf, out)
}

/// Does what the words ask for, by the verb of this name. `Err` is as in [`answered`].
fn perform<'a, F: Shelf, O: Sink>(
    alloc: Global,
    name: &str,
    words: &'a [&'a str],
    shelf: &mut F,
    out: &mut O,
) -> Result<u8, Reply<'a>>
    ensures done { IfOk result (λ status. Explains
        (outside_at (stage (F.seen shelf.old) (F.log shelf.old)) (O.seen out.old))
        (outside_at (stage (F.seen shelf.new) (F.log shelf.new)) (O.seen out.new)) status (asked_of works name.now (texts words.now))) }
    ensures stopped { IfErr result (λ reply. LeavesToSay (stage (F.seen shelf.old) (F.log shelf.old))
        (stage (F.seen shelf.new) (F.log shelf.new))
        (asked_of works name.now (texts words.now)) (said reply)) }
    ensures unput { OnErr result (O.seen out.new ≡ O.seen out.old) }
    ensures calls { Makes (asked_of works name.now (texts words.now)) (F.log shelf.old) (F.log shelf.new) }
{
    let Some(verb) = verb_named(name) else {
        return Err(Reply::Usage);
    };
    let Some(matches) = matches_of(alloc, verb, words)? else {
        return Err(Reply::Usage);
    };
    work(alloc, verb, &matches, shelf, out)
}

/// Does the work of a verb on what was found in the words: the list that a new verb is added to. `Err` is as in
/// [`answered`].
fn work<'a, F: Shelf, O: Sink>(
    alloc: Global,
    verb: Verb,
    matches: &ArgMatches<'a>,
    shelf: &mut F,
    out: &mut O,
) -> Result<u8, Reply<'a>>
    ensures done { IfOk result (λ status. Explains
        (outside_at (stage (F.seen shelf.old) (F.log shelf.old)) (O.seen out.old))
        (outside_at (stage (F.seen shelf.new) (F.log shelf.new)) (O.seen out.new)) status (asks_of works verb (rows_of (found_of matches.now)))) }
    ensures stopped { IfErr result (λ reply. LeavesToSay (stage (F.seen shelf.old) (F.log shelf.old))
        (stage (F.seen shelf.new) (F.log shelf.new))
        (asks_of works verb (rows_of (found_of matches.now))) (said reply)) }
    ensures unput { OnErr result (O.seen out.new ≡ O.seen out.old) }
    ensures calls { Makes (asks_of works verb (rows_of (found_of matches.now))) (F.log shelf.old) (F.log shelf.new) }
{
    match verb {
        Verb::Check => answer::<Check, F, O>(alloc, matches, shelf, out),
        Verb::Trace => answer::<Trace, F, O>(alloc, matches, shelf, out),
        Verb::Run => answer::<Run, F, O>(alloc, matches, shelf, out),
        Verb::Assemble => answer::<Assemble, F, O>(alloc, matches, shelf, out),
        Verb::Disassemble => answer::<Disassemble, F, O>(alloc, matches, shelf, out),
        Verb::Evaluate => answer::<Evaluate, F, O>(alloc, matches, shelf, out),
        Verb::Compile => answer::<Compile, F, O>(alloc, matches, shelf, out),
        Verb::Sample => answer::<Sample, F, O>(alloc, matches, shelf, out),
        Verb::Bus => answer::<SharedBus, F, O>(alloc, matches, shelf, out),
        Verb::Infer => answer::<Infer, F, O>(alloc, matches, shelf, out),
    }
}
