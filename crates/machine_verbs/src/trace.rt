ghost use Rattle.std.specs.Prelude.{◌≡◌, ◌≢◌, ◌≤◌, [], IfOk, IfSome, IsTrue, OnErr, false, length, true};
ghost use Rattle.std.specs.Option.{option_map};
ghost use Rattle.banks.specs.Prelude.{accesses_from};
ghost use Rattle.call_replies.specs.Prelude.{comes_to};
ghost use Rattle.command_words.specs.Prelude.{trace_asks};
ghost use Rattle.machine_verbs.specs.Trace.{trace_work, traces_on};
ghost use Rattle.clap.specs.Words.{found_of, rows_of};
ghost use Rattle.call_steps.specs.Prelude.{ExplainsRest, AreBehind, MayRun, PutsLast, stream_from};
ghost use Rattle.machine_verbs.specs.Watched.{HoldsLines, PutsShown, PutsTrace, kept};
ghost use Rattle.machine_verbs.specs.TracedInTrees.{TracedInTrees};
ghost use Rattle.machine_verbs.specs.TracedText.{IsTextOfTrace};
ghost use Rattle.lt_isa.specs.Prelude.{IsInRange, FitsObject, trace_from};
ghost use Rattle.path_oram.specs.Prelude.{paths_ahead};
ghost use Rattle.processor.specs.Prelude.{ComeBy, run_shown};
ghost use Rattle.call_replies.specs.declared.replies.Verdict.TheVariants.{Traced};

use crate::levels::put_levels;
use crate::text_sink::TextSink;
use crate::trace_watch::TraceWatch;
use call_replies::replies::{Reply, Verdict};
use call_steps::given::{Given, find_given};
use call_steps::oblivious::{SeededOram, SeededRecursive, load_seeded};
use call_steps::putting::{NOT_PUT, line_of, put_text};
use call_steps::verbs::{Request, Service};
use clap::ArgMatches;
use command_words::options::{flag_given, number_given, seed_given, value};
use gr_base::Memory;
use gr_outside::{Shelf, Sink};
use gr_word::Inputs;
use lt_checker::Accepted;
use processor::{Bank, End, Machine};
use std::alloc::Global;

/// The verb `trace OBJ INPUT [--cycles n] [--seed s] [--paths] [--recursive]`: runs an object on inputs, and prints the
/// lines of its trace.
pub struct Trace;

/// The names of the files of a trace, its number of cycles, the seed of its random words, whether paths are printed,
/// and whether its banks are recursive.
#[derive(Clone, Copy)]
pub struct TraceWords<'a> {
    object: &'a str,
    input: &'a str,
    cycles: u32,
    seed: u64,
    paths: bool,
    recursive: bool,
}

impl<'a> Request<'a> for Trace {
    type Words = TraceWords<'a>;

    ghost work = { λ words.
        trace_work words.object.now words.input.now words.cycles words.seed words.paths words.recursive };

    ghost asks = { trace_asks trace_work };

    ghost Fits = { λ words. 1 ≤ words.cycles };

    fn words(_alloc: Global, matches: &ArgMatches<'a>) -> Result<Option<TraceWords<'a>>, Memory> {
        Ok(words_in(matches))
    }
}

impl<'a> Service<'a> for Trace {
    fn serve<F: Shelf, O: Sink>(
        alloc: Global,
        words: TraceWords<'a>,
        shelf: &mut F,
        out: &mut O,
    ) -> Result<u8, Reply<'a>> {
        let given = find_given(alloc, words.object, words.input, shelf)?;
        Ok(trace_given(alloc, &given, words, out)?)
    }
}

fn words_in<'a>(matches: &ArgMatches<'a>) -> Option<TraceWords<'a>>
    ensures works { option_map (λ a. trace_work a.object.now a.input.now a.cycles a.seed a.paths a.recursive) result
        ≡ trace_asks trace_work (rows_of (found_of matches.now)) }
    ensures some_cycle { IfSome result (λ a. 1 ≤ a.cycles) }
{
    Some(TraceWords {
        object: value(matches, "OBJ")?,
        input: value(matches, "INPUT")?,
        cycles: number_given(value(matches, "cycles"))?,
        seed: seed_given(value(matches, "seed"))?,
        paths: flag_given(value(matches, "paths")),
        recursive: flag_given(value(matches, "recursive")),
    })
}

/// Runs an accepted object on inputs that fit it, and prints the lines of the trace. `Err` if nothing was printed.
fn trace_given<O: Sink>(
    alloc: Global,
    given: &Given,
    asked: TraceWords<'_>,
    out: &mut O,
) -> Result<u8, Memory>
    requires in_range { IsInRange given.now.accepted }
    requires fits { FitsObject given.now.accepted given.now.inputs }
    requires some_cycle { 1 ≤ asked.cycles }
    ensures done { IfOk result (λ status. ExplainsRest (O.seen out.old) (O.seen out.new) status
        (traces_on asked.entry.paths asked.entry.recursive asked.entry.cycles asked.entry.seed
        given.now.accepted given.now.inputs)) }
    ensures unput { OnErr result (O.seen out.new ≡ O.seen out.old) }
{
    let halted = line_of(alloc, &Reply::Comes(Verdict::Traced(true)))?;
    let spent = line_of(alloc, &Reply::Comes(Verdict::Traced(false)))?;
    if asked.recursive {
        return trace_in_trees(
            alloc,
            &given.accepted,
            &given.inputs,
            asked,
            halted.as_bytes(),
            spent.as_bytes(),
            out,
        );
    }
    let banks = given.accepted.object().banks().len() as u8;
    let mut machine = load_seeded::<SeededOram>(
        alloc,
        &given.accepted,
        &given.inputs,
        asked.seed,
        0,
    )?;
    Ok(put_trace(
        &mut machine,
        banks,
        asked,
        halted.as_bytes(),
        spent.as_bytes(),
        out,
    ))
}

/// Prints the lines of a run, then the last line and the lines after it, which were made before: it allocates no
/// memory.
fn put_trace<O: Sink>(
    machine: &mut Machine<'_, SeededOram>,
    banks: u8,
    asked: TraceWords<'_>,
    halted: &[u8],
    spent: &[u8],
    out: &mut O,
) -> u8
    requires live { IsTrue machine.old.live }
    requires some_cycle { 1 ≤ asked.cycles }
    requires least { 2 ≤ banks }
    requires banks { banks ≡ length machine.old.object.banks }
    requires halted_line { halted.now ≡ (comes_to (Traced true)).text }
    requires spent_line { spent.now ≡ (comes_to (Traced false)).text }
    requires may_run { MayRun machine.old.object machine.old.state asked.cycles machine.old.orams }
    ensures { PutsTrace (O.seen out.old) (O.seen out.new)
        (trace_from machine.old.object machine.old.state asked.entry.cycles)
        (kept asked.entry.paths (run_shown (λ oram blocks. paths_ahead oram.places (stream_from oram.words) blocks)
        machine.old.object machine.old.state machine.old.orams asked.entry.cycles))
        (AreBehind asked.entry.paths machine.old.object machine.old.state asked.entry.cycles machine.old.orams) result }
{
    match put_shown(machine, asked.cycles, asked.paths, out) {
        Some(End::Halted(_)) => put_last(machine, banks, asked.paths, 0, halted, out),
        Some(End::Spent) => put_last(machine, banks, asked.paths, 10, spent, out),
        None => NOT_PUT,
    }
}

/// Runs an object over recursive banks, and prints the lines of the run with a last line that was made before. `Err` if
/// nothing was printed.
fn trace_in_trees<O: Sink>(
    alloc: Global,
    accepted: &Accepted,
    inputs: &Inputs,
    asked: TraceWords<'_>,
    halted: &[u8],
    spent: &[u8],
    out: &mut O,
) -> Result<u8, Memory>
    requires in_range { IsInRange accepted.now }
    requires fits { FitsObject accepted.now inputs.now }
    requires some_cycle { 1 ≤ asked.cycles }
    requires halted_line { halted.now ≡ (comes_to (Traced true)).text }
    requires spent_line { spent.now ≡ (comes_to (Traced false)).text }
    ensures traced { IfOk result (TracedInTrees (O.seen out.old) (O.seen out.new) accepted.now inputs.now
        asked.entry.cycles asked.entry.seed asked.entry.paths) }
    ensures unput { OnErr result (O.seen out.new ≡ O.seen out.old) }
{
    let mut machine = load_seeded::<SeededRecursive>(alloc, accepted, inputs, asked.seed, 0)?;
    Ok(put_lines(&mut machine, asked.cycles, asked.paths, halted, spent, out))
}

/// Puts the lines of a run, and the last line, which were made before: nothing here wants memory.
fn put_lines<B: Bank + Drop, O: Sink>(
    machine: &mut Machine<'_, B>,
    cycles: u32,
    paths: bool,
    halted: &[u8],
    spent: &[u8],
    out: &mut O,
) -> u8
    requires live { IsTrue machine.old.live }
    requires some_cycle { 1 ≤ cycles }
    requires halted_line { halted.now ≡ (comes_to (Traced true)).text }
    requires spent_line { spent.now ≡ (comes_to (Traced false)).text }
    ensures { PutsTrace (O.seen out.old) (O.seen out.new)
        (trace_from machine.old.object machine.old.state cycles)
        (kept paths
        (run_shown B.shows machine.old.object machine.old.state machine.old.orams cycles))
        (λ levels. levels ≡ []) result }
{
    match put_shown(machine, cycles, paths, out) {
        Some(End::Halted(_)) => put_text(out, 0, halted),
        Some(End::Spent) => put_text(out, 10, spent),
        None => NOT_PUT,
    }
}

/// The text of the trace of an accepted object on inputs that fit it. Fails only if memory runs out.
pub fn trace_text(
    alloc: Global,
    accepted: &Accepted,
    inputs: &Inputs,
    cycles: u32,
) -> Result<Vec<u8>, Memory>
    requires in_range { IsInRange accepted.now }
    requires fits { FitsObject accepted.now inputs.now }
    requires some_cycle { 1 ≤ cycles }
    ensures { IfOk result (λ text. IsTextOfTrace accepted.now inputs.now cycles text.items) }
{
    let halted = line_of(alloc, &Reply::Comes(Verdict::Traced(true)))?;
    let spent = line_of(alloc, &Reply::Comes(Verdict::Traced(false)))?;
    let mut machine = load_seeded::<SeededOram>(alloc, accepted, inputs, 0, 0)?;
    let mut out = TextSink::new(alloc);
    let status = put_lines(
        &mut machine,
        cycles,
        false,
        halted.as_bytes(),
        spent.as_bytes(),
        &mut out,
    );
    if status == NOT_PUT {
        return Err(Memory);
    }
    Ok(out.into_bytes())
}

/// Prints a last line and, with paths, the levels of the blocks of this many banks after it.
fn put_last<O: Sink>(
    machine: &Machine<'_, SeededOram>,
    banks: u8,
    paths: bool,
    status: u8,
    line: &[u8],
    out: &mut O,
) -> u8
    requires least { 2 ≤ banks }
    requires banks { banks ≡ length machine.now.object.banks }
    requires other { status ≢ 4 }
    requires some { 1 ≤ length line.now }
    ensures { PutsLast (O.seen out.old) (O.seen out.new) paths banks machine.now.orams status line.now result }
{
    match out.put(line) {
        Ok(()) => {}
        Err(_) => return NOT_PUT,
    }
    if !paths {
        return status;
    }
    match put_levels(machine, banks, out) {
        Ok(()) => status,
        Err(_) => NOT_PUT,
    }
}

/// Prints the lines of a machine's trace, and returns how the run ended, or `None` if the sink failed.
fn put_shown<B: Bank + Drop, O: Sink>(
    machine: &mut Machine<'_, B>,
    cycles: u32,
    paths: bool,
    out: &mut O,
) -> Option<End>
    requires live { IsTrue machine.old.live }
    requires some_cycle { 1 ≤ cycles }
    ensures object { machine.new.object ≡ machine.old.object }
    ensures put { PutsShown (O.seen out.old) (O.seen out.new) (trace_from machine.old.object machine.old.state cycles)
        (kept paths (run_shown B.shows machine.old.object machine.old.state machine.old.orams cycles)) result }
    ensures come { IfSome result
        (λ _. ComeBy B.comes machine.old.orams
        (accesses_from machine.old.object machine.old.state cycles) machine.new.orams) }
{
    let mut watch = TraceWatch::new(out, paths);
    run_watched(machine, cycles, &mut watch)
}

/// Runs a machine with a watcher that has written nothing yet.
fn run_watched<B: Bank + Drop, O: Sink>(
    machine: &mut Machine<'_, B>,
    cycles: u32,
    watch: &mut TraceWatch<'_, O>,
) -> Option<End>
    requires live { IsTrue machine.old.live }
    requires some_cycle { 1 ≤ cycles }
    requires whole { watch.old.whole ≡ true }
    requires nothing { HoldsLines (O.seen watch.old.out.now).held watch.old.start watch.old.stop watch.old.whole [] }
    ensures same_sink { watch.new.out.ghost_name ≡ watch.old.out.ghost_name }
    ensures object { machine.new.object ≡ machine.old.object }
    ensures put { PutsShown (O.seen watch.old.out.now) (O.seen watch.new.out.now)
        (trace_from machine.old.object machine.old.state cycles)
        (kept watch.old.paths (run_shown B.shows machine.old.object machine.old.state machine.old.orams cycles))
        result }
    ensures come { IfSome result
        (λ _. ComeBy B.comes machine.old.orams
        (accesses_from machine.old.object machine.old.state cycles) machine.new.orams) }
{
    match machine.run(cycles, watch) {
        Ok(end) => Some(end),
        Err(_) => None,
    }
}
