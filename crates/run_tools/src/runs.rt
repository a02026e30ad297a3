//! Runs of an accepted object, and of a program by its meaning.

ghost use Rattle.std.specs.Prelude.{◌≡◌, ◌≤◌, IfOk, IfSome};
ghost use Rattle.gr_word.specs.Prelude.{FitsWants};
ghost use Rattle.lt_isa.specs.Prelude.{IsInRange, FitsObject, trace};
ghost use Rattle.src_tree.specs.Prelude.{source_of, meaning};
ghost use Rattle.flow_types.specs.Prelude.{declared_wants};
ghost use Rattle.run_tools.specs.Comparing.{Compares};
ghost use Rattle.run_tools.specs.Runs.{LeavesWords};

use crate::comparing::{Comparison, compare};
use call_steps::oblivious::{Seeded, SeededOram, load_seeded};
use clap::ArgMatches;
use command_words::options::{flag_given, number_given, seed_given, value};
use flow_types::Typed;
use gr_base::Memory;
use gr_word::Inputs;
use lt_checker::Accepted;
use processor::{End, NoWatch};
use source_meaning::{Outcome, eval};
use std::alloc::Global;

/// The number of cycles of a run, the seed of the random words of oblivious banks, and whether these banks are recursive.
#[derive(Clone, Copy)]
pub struct RunWords {
    pub cycles: u32,
    pub seed: u64,
    pub recursive: bool,
}

/// How runs are made by the options of a call, or `None` if an option has no valid value.
pub(crate) fn run_in(matches: &ArgMatches<'_>) -> Option<RunWords>
    ensures { IfSome result (λ asked. 1 ≤ asked.cycles) }
{
    Some(RunWords {
        cycles: number_given(value(matches, "cycles"))?,
        seed: seed_given(value(matches, "seed"))?,
        recursive: flag_given(value(matches, "recursive")),
    })
}

/// The words that a run leaves for each symbol of an object, or `None` if it doesn't halt within its cycles.
pub(crate) fn words_left(
    alloc: Global,
    accepted: &Accepted,
    inputs: &Inputs,
    cycles: u32,
) -> Result<Option<Inputs>, Memory>
    requires in_range { IsInRange accepted.now }
    requires fits { FitsObject accepted.now inputs.now }
    requires some_cycle { 1 ≤ cycles }
    ensures { IfOk result (LeavesWords accepted.now inputs.now cycles) }
{
    let mut machine = load_seeded::<SeededOram>(alloc, accepted, inputs, 0, 0)?;
    match machine.run(cycles, &mut NoWatch::new()) {
        Ok(End::Halted(_)) => Ok(Some(machine.outputs(alloc)?)),
        Ok(End::Spent) => Ok(None),
        Err(_) => unreachable!(),
    }
}

/// Compares the traces of an accepted object's runs on two inputs, over oblivious banks of a kind.
pub(crate) fn compare_runs<B: Seeded + Drop>(
    alloc: Global,
    accepted: &Accepted,
    first: &Inputs,
    second: &Inputs,
    asked: RunWords,
) -> Result<Comparison, Memory>
    requires in_range { IsInRange accepted.now }
    requires first { FitsObject accepted.now first.now }
    requires second { FitsObject accepted.now second.now }
    ensures { IfOk result (Compares
        (trace accepted.now first.now asked.cycles)
        (trace accepted.now second.now asked.cycles)) }
{
    let mut one = load_seeded::<B>(alloc, accepted, first, asked.seed, 0)?;
    let mut other = load_seeded::<B>(alloc, accepted, second, asked.seed, 0)?;
    compare(alloc, &mut one, &mut other, asked.cycles)
}

/// The values that a program means, or `None` if its loops take more iterations.
pub(crate) fn values_meant(
    alloc: Global,
    program: &Typed,
    inputs: Inputs,
    turns: u32,
) -> Result<Option<Inputs>, Memory>
    requires { FitsWants (declared_wants program.now.decls.items) inputs }
    ensures { IfOk result (λ left. left ≡ meaning (source_of program.now) inputs turns) }
{
    match eval(alloc, program, inputs, u64::from(turns))? {
        Outcome::Done(values) => Ok(Some(values)),
        Outcome::Spent => Ok(None),
    }
}
