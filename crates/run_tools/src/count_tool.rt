ghost use Rattle.std.specs.Prelude.{◌≡◌, ◌≤◌, IfOk, IfSome};
ghost use Rattle.lt_isa.specs.Prelude.{IsInRange, FitsObject, trace};
ghost use Rattle.run_tools.specs.Statuses.{SaysOfOne};

use crate::counting::{Tally, count_events};
use crate::reports::{Outcome, Report, Tool, end_status};
use crate::runs::{RunWords, run_in};
use crate::words::OF_RUN;
use call_steps::given::Given;
use call_steps::oblivious::{Seeded, SeededOram, SeededRecursive, load_seeded};
use call_steps::reading::{find_accepted, find_inputs};
use clap::ArgMatches;
use command_words::options::value;
use command_words::verbs::VerbWords;
use gr_base::Memory;
use gr_outside::Shelf;
use processor::End;
use std::alloc::Global;

/// The names of the files of a run, and how it is made.
#[derive(Clone, Copy)]
pub struct CountWords<'a> {
    object: &'a str,
    input: &'a str,
    run: RunWords,
}

/// The tool `count OBJ INPUT [--cycles N] [--seed S] [--paths] [--recursive]`: runs an accepted object on inputs, and
/// prints how many events of each memory the run shows, and at which cycle it halted. Paths aren't events, so `--paths`
/// changes nothing.
///
/// Statuses: 0 the run halted; 10 it didn't within its cycles; 2, 3, 5, 6, 7, 9 and 11 as of `trace`, with the same
/// lines; 4 the text couldn't be printed.
pub struct Count;

impl<'a> Tool<'a> for Count {
    type Words = CountWords<'a>;

    ghost Fits = { λ words. 1 ≤ words.run.cycles };

    const ROW: VerbWords<'static> = VerbWords {
        name: "count",
        places: &["OBJ", "INPUT"],
        ..OF_RUN
    };

    fn words(matches: &ArgMatches<'a>) -> Option<CountWords<'a>> {
        Some(CountWords {
            object: value(matches, "OBJ")?,
            input: value(matches, "INPUT")?,
            run: run_in(matches)?,
        })
    }

    fn serve<S: Shelf>(alloc: Global, words: CountWords<'a>, shelf: &mut S) -> Outcome<'a> {
        let accepted = find_accepted(alloc, words.object, shelf)?;
        let inputs = find_inputs(alloc, &accepted, words.input, shelf)?;
        let given = Given { accepted, inputs };
        if words.run.recursive {
            return Ok(report::<SeededRecursive>(alloc, &given, words.run)?);
        }
        Ok(report::<SeededOram>(alloc, &given, words.run)?)
    }
}

// Counts the events of the run of an accepted object on inputs, over oblivious banks of a kind. What the status says of
// its trace is proved.
fn report<B: Seeded + Drop>(alloc: Global, given: &Given, asked: RunWords) -> Result<Report, Memory>
    requires in_range { IsInRange given.now.accepted }
    requires fits { FitsObject given.now.accepted given.now.inputs }
    ensures { IfOk result (λ report.
        SaysOfOne (trace given.now.accepted given.now.inputs asked.cycles) report.status) }
{
    let mut machine = load_seeded::<B>(alloc, &given.accepted, &given.inputs, asked.seed, 0)?;
    let banks = given.accepted.object().banks().len();
    let tally = count_events(alloc, &mut machine, banks, asked.cycles)?;
    let text = table_of(alloc, &tally)?;
    Ok(Report {
        status: end_status(tally.end),
        text,
    })
}

// The table of the counts, and how the run ended. An oblivious bank has a line if it was accessed.
fn table_of(alloc: Global, tally: &Tally) -> Result<String, Memory> {
    let mut text = memory_lines(alloc, tally)?;
    for (bank, accesses) in tally.orams.iter().enumerate() {
        if *accesses > 0 {
            text.push_str(format!(in alloc; "oram{bank} accessed {accesses}\n")?.as_str())?;
        }
    }
    push_end(alloc, &mut text, tally.end)?;
    Ok(text)
}

fn push_end(alloc: Global, text: &mut String, end: End) -> Result<(), Memory> {
    match end {
        End::Halted(at) => text.push_str(format!(in alloc; "halted {at}\n")?.as_str())?,
        End::Spent => text.push_str("spent\n")?,
    }
    Ok(())
}

fn memory_lines(alloc: Global, tally: &Tally) -> Result<String, Memory> {
    let Tally {
        ram_reads,
        ram_writes,
        eram_reads,
        eram_writes,
        ..
    } = tally;
    Ok(format!(in alloc;
        "ram read {ram_reads}, written {ram_writes}\neram read {eram_reads}, written {eram_writes}\n"
    )?)
}
