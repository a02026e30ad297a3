ghost use Rattle.std.specs.Prelude.{◌≡◌, ◌≤◌, IfOk, IfSome};
ghost use Rattle.lt_isa.specs.Prelude.{IsInRange, FitsObject, trace};
ghost use Rattle.run_tools.specs.Statuses.{SaysOfBoth, comparison_status};

use crate::comparing::Comparison;
use crate::differences::{push_comparison, push_disagreements};
use crate::reports::{Outcome, Report, Tool, end_status};
use crate::runs::{RunWords, compare_runs, run_in};
use crate::words::OF_RUN;
use call_steps::given::Given;
use call_steps::oblivious::{Seeded, SeededOram, SeededRecursive};
use call_steps::reading::{find_accepted, find_inputs};
use clap::ArgMatches;
use command_words::options::value;
use command_words::verbs::VerbWords;
use gr_base::Memory;
use gr_outside::Shelf;
use gr_word::Inputs;
use std::alloc::Global;

/// The names of the files of a comparison, and how each run is made.
#[derive(Clone, Copy)]
pub struct DiffWords<'a> {
    object: &'a str,
    first: &'a str,
    second: &'a str,
    run: RunWords,
}

/// The tool `diff OBJ INPUT INPUT [--cycles N] [--seed S] [--paths] [--recursive]`: compares the events of an accepted
/// object's runs on two inputs. It prints a line for each public variable on which the inputs disagree, and then
/// whether the events are equal or in which event they differ. Paths are random, so they aren't compared, and `--paths`
/// changes nothing.
///
/// Statuses: 0 both runs halted, and all events are equal; 1 an event differs; 10 the events below the last cycle are
/// equal, and no run halted; 2, 3, 5, 6, 7, 9 and 11 as of `trace`, with the same lines; 4 the text couldn't be printed.
pub struct Diff;

impl<'a> Tool<'a> for Diff {
    type Words = DiffWords<'a>;

    ghost Fits = { λ words. 1 ≤ words.run.cycles };

    const ROW: VerbWords<'static> = VerbWords {
        name: "diff",
        places: &["OBJ", "FIRST", "SECOND"],
        ..OF_RUN
    };

    fn words(matches: &ArgMatches<'a>) -> Option<DiffWords<'a>> {
        Some(DiffWords {
            object: value(matches, "OBJ")?,
            first: value(matches, "FIRST")?,
            second: value(matches, "SECOND")?,
            run: run_in(matches)?,
        })
    }

    fn serve<S: Shelf>(alloc: Global, words: DiffWords<'a>, shelf: &mut S) -> Outcome<'a> {
        let accepted = find_accepted(alloc, words.object, shelf)?;
        let first = find_inputs(alloc, &accepted, words.first, shelf)?;
        let second = find_inputs(alloc, &accepted, words.second, shelf)?;
        let given = Given {
            accepted,
            inputs: first,
        };
        if words.run.recursive {
            return Ok(report::<SeededRecursive>(alloc, &given, &second, words.run)?);
        }
        Ok(report::<SeededOram>(alloc, &given, &second, words.run)?)
    }
}

// Compares the runs of an accepted object on two inputs, over oblivious banks of a kind. What the status says of their
// traces is proved.
fn report<B: Seeded + Drop>(
    alloc: Global,
    first: &Given,
    second: &Inputs,
    asked: RunWords,
) -> Result<Report, Memory>
    requires in_range { IsInRange first.now.accepted }
    requires first { FitsObject first.now.accepted first.now.inputs }
    requires second { FitsObject first.now.accepted second.now }
    ensures { IfOk result (λ report. SaysOfBoth
        (trace first.now.accepted first.now.inputs asked.cycles)
        (trace first.now.accepted second.now asked.cycles)
        report.status) }
{
    let Given { accepted, inputs } = first;
    let comparison = compare_runs::<B>(alloc, accepted, inputs, second, asked)?;
    let object = accepted.object();
    let mut text = String::new(alloc);
    push_disagreements(alloc, &mut text, object, inputs, second)?;
    push_comparison(alloc, &mut text, object, &comparison, asked.cycles)?;
    Ok(Report {
        status: status_of(&comparison),
        text,
    })
}

// The exit status of a comparison.
fn status_of(comparison: &Comparison) -> u8
    ensures { result ≡ comparison_status comparison.now }
{
    match comparison {
        Comparison::Equal { end, .. } => end_status(*end),
        Comparison::Differ { .. } => 1,
    }
}
