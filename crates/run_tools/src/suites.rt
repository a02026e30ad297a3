//! The cases of a program, tried one after another.

ghost use Rattle.std.specs.Prelude.{◌≡◌, ◌≤◌, ◌↔◌, [], IfOk, OnOk, string_bytes};
ghost use Rattle.gr_word.specs.Prelude.{FitsWants};
ghost use Rattle.lt_isa.specs.Prelude.{IsInRange, FitsObject};
ghost use Rattle.flow_types.specs.Prelude.{declared_wants};

use crate::case_problems::{Problem, saying};
use crate::cases::Case;
use crate::comparing::Comparison;
use crate::expectations::check_expected;
use crate::public_words::{PublicWord, public_words};
use crate::runs::{RunWords, compare_runs, values_meant, words_left};
use crate::variables::{number_of, words_of};
use call_steps::oblivious::SeededOram;
use flow_types::Typed;
use gr_base::Memory;
use gr_word::Inputs;
use lt_checker::Accepted;
use lt_isa::Symbol;
use src_tree::Decl;
use std::alloc::Global;
use std::collections::BTreeMap;

/// A program and its accepted object, with the number of cycles of a run.
#[derive(Clone, Copy)]
pub struct Subject<'a> {
    pub program: &'a Typed,
    pub accepted: &'a Accepted,
    pub cycles: u32,
}

/// A line of the text, with its number.
#[derive(Clone, Copy)]
struct Line<'a> {
    number: usize,
    text: &'a str,
}

/// The first line of each public input. Only its text is kept: few of a file's cases are compared with it.
type Firsts<'a> = BTreeMap<Vec<PublicWord>, Line<'a>>;

/// How many cases passed and failed, and a line for each failure.
#[derive(Drop)]
pub struct Tried {
    pub passed: u32,
    pub failed: u32,
    pub lines: String,
}

/// Tries the cases of a text, one a line. Lines without any are skipped. Each failure has a line.
pub fn try_cases(alloc: Global, subject: Subject<'_>, text: &str) -> Result<Tried, Memory>
    requires in_range { IsInRange subject.accepted.now }
    requires some_cycle { 1 ≤ subject.cycles }
    ensures { IfOk result (λ tried. tried.failed ≡ 0 ↔ string_bytes tried.lines ≡ []) }
{
    let mut firsts = BTreeMap::new(alloc);
    let mut tried = Tried {
        passed: 0,
        failed: 0,
        lines: String::new(alloc),
    };
    for (before, text) in text.split("\n").enumerate() {
        if !text.trim_ascii().is_empty() {
            let number = before.saturating_add(1);
            let outcome = try_line(alloc, subject, &mut firsts, Line { number, text });
            tried.count(alloc, number, outcome)?;
        }
    }
    Ok(tried)
}

impl Tried {
    // Counts a case, and adds the line of its failure.
    fn count(
        &mut self,
        alloc: Global,
        line: usize,
        outcome: Result<(), Problem>,
    ) -> Result<(), Memory>
        ensures { OnOk result ((self.old.failed ≡ 0 ↔ string_bytes self.old.lines ≡ [])
            → (self.new.failed ≡ 0 ↔ string_bytes self.new.lines ≡ [])) }
    {
        match outcome {
            Ok(()) => {
                self.passed = self.passed.saturating_add(1);
                Ok(())
            }
            Err(Problem::NoMemory) => Err(Memory),
            Err(Problem::Says(what)) => {
                let text = format!(in alloc; "line {line}: {what}\n")?;
                self.failed = self.failed.saturating_add(1);
                self.lines.push_str(text.as_str())?;
                Ok(())
            }
        }
    }
}

// Tries the case of a line. If it is the first with its public inputs, later cases are
// compared with it.
fn try_line<'a>(
    alloc: Global,
    subject: Subject<'_>,
    firsts: &mut Firsts<'a>,
    line: Line<'a>,
) -> Result<(), Problem>
    requires in_range { IsInRange subject.accepted.now }
    requires some_cycle { 1 ≤ subject.cycles }
{
    let case = Case::of(alloc, line.text)?;
    let wants = subject.accepted.object().wants(alloc)?;
    let inputs = case.inputs(alloc, &wants)?;
    let left = words_of_run(alloc, subject, &inputs)?;
    if let Some(expected) = case.expected() {
        check_expected(alloc, &wants, &left, expected)?;
    }
    check_meaning(alloc, subject, &case, &left)?;
    check_trace(alloc, subject, firsts, line, &inputs)
}

fn words_of_run(alloc: Global, subject: Subject<'_>, inputs: &Inputs) -> Result<Inputs, Problem>
    requires in_range { IsInRange subject.accepted.now }
    requires fits { FitsObject subject.accepted.now inputs.now }
    requires some_cycle { 1 ≤ subject.cycles }
{
    match words_left(alloc, subject.accepted, inputs, subject.cycles)? {
        Some(left) => Ok(left),
        None => Err(unhalted(alloc, subject.cycles)),
    }
}

fn unhalted(alloc: Global, cycles: u32) -> Problem {
    match format!(in alloc; "the run doesn't halt within {cycles} cycles") {
        Ok(text) => Problem::Says(text),
        Err(_) => Problem::NoMemory,
    }
}

// Checks that the run left what the program means. A run of n cycles has at most n iterations.
fn check_meaning(
    alloc: Global,
    subject: Subject<'_>,
    case: &Case,
    left: &Inputs,
) -> Result<(), Problem> {
    let wants = subject.program.wants(alloc)?;
    let inputs = case.inputs(alloc, &wants)?;
    let symbols = subject.accepted.object().symbols();
    let decls = subject.program.program().decls.as_slice();
    match values_meant(alloc, subject.program, inputs, subject.cycles)? {
        Some(meant) => if is_meant(symbols, left, decls, &meant) {
            Ok(())
        } else {
            Err(saying(alloc, "the run leaves other values than the evaluation"))
        },
        None => Err(saying(alloc, "the run halts, but the evaluation doesn't end")),
    }
}

// Whether each symbol has the words of its variable.
fn is_meant(symbols: &[Symbol], left: &Inputs, decls: &[Decl], meant: &Inputs) -> bool {
    for (number, symbol) in symbols.iter().enumerate() {
        let Some(variable) = number_of(decls, symbol.name.bytes()) else {
            return false;
        };
        if words_of(left, number) != words_of(meant, variable) {
            return false;
        }
    }
    true
}

// Checks that the run has the same trace as the run of the first line with its public inputs.
fn check_trace<'a>(
    alloc: Global,
    subject: Subject<'_>,
    firsts: &mut Firsts<'a>,
    line: Line<'a>,
    inputs: &Inputs,
) -> Result<(), Problem>
    requires in_range { IsInRange subject.accepted.now }
    requires fits { FitsObject subject.accepted.now inputs.now }
{
    let public = public_words(alloc, subject.accepted.object().symbols(), inputs)?;
    if let Some(first) = firsts.get(&public) {
        return compare_with(alloc, subject, *first, inputs);
    }
    firsts.insert(public, line)?;
    Ok(())
}

fn compare_with(
    alloc: Global,
    subject: Subject<'_>,
    first: Line<'_>,
    inputs: &Inputs,
) -> Result<(), Problem>
    requires in_range { IsInRange subject.accepted.now }
    requires fits { FitsObject subject.accepted.now inputs.now }
{
    let wants = subject.accepted.object().wants(alloc)?;
    let case = Case::of(alloc, first.text)?;
    let others = case.inputs(alloc, &wants)?;
    let run = RunWords {
        cycles: subject.cycles,
        seed: 0,
        recursive: false,
    };
    match compare_runs::<SeededOram>(alloc, subject.accepted, &others, inputs, run)? {
        Comparison::Equal { .. } => Ok(()),
        Comparison::Differ { events, .. } => Err(another_trace(alloc, first.number, events)),
    }
}

fn another_trace(alloc: Global, line: usize, events: u32) -> Problem {
    let event = u64::from(events) + 1;
    match format!(in alloc; "the trace differs from the trace of line {line} at event {event}") {
        Ok(text) => Problem::Says(text),
        Err(_) => Problem::NoMemory,
    }
}
