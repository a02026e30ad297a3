ghost use Rattle.std.specs.Prelude.{◌≡◌, ◌≤◌, IfOk, IfSome};
ghost use Rattle.std.specs.Option.{option_map};
ghost use Rattle.lt_isa.specs.Prelude.{outputs, IsInRange, FitsObject, wants_of};
ghost use Rattle.run_data.specs.Prelude.{output_of};
ghost use Rattle.machine_verbs.specs.Ran.{RanTo};
ghost use Rattle.command_words.specs.Prelude.{run_asks};
ghost use Rattle.clap.specs.Words.{found_of, rows_of};
ghost use Rattle.machine_verbs.specs.Run.{run_work};

use call_replies::replies::{Done, Reply, Verdict};
use call_steps::given::find_given;
use call_steps::oblivious::{Seeded, SeededOram, SeededRecursive, load_seeded};
use call_steps::verbs::{Made, Maker, NewFile, Request};
use clap::ArgMatches;
use command_words::options::{flag_given, number_given, seed_given, value};
use gr_base::Memory;
use gr_outside::Shelf;
use gr_word::Inputs;
use lt_checker::Accepted;
use processor::{Bank, End, Machine, NoWatch};
use run_data::output_text;
use std::alloc::Global;

/// The verb `run OBJ INPUT OUT [--cycles n] [--seed s] [--recursive]`: runs an object on inputs, and writes its outputs.
pub struct Run;

/// The names of the files of a run, its number of cycles, the seed of its random words, and whether its banks are
/// recursive.
#[derive(Clone, Copy)]
pub struct RunWords<'a> {
    object: &'a str,
    input: &'a str,
    output: &'a str,
    cycles: u32,
    seed: u64,
    recursive: bool,
}

impl<'a> Request<'a> for Run {
    type Words = RunWords<'a>;

    ghost work = { λ words. run_work words.object.now words.input.now words.output.now words.cycles };

    ghost asks = { run_asks run_work };

    ghost Fits = { λ words. 1 ≤ words.cycles };

    fn words(_alloc: Global, matches: &ArgMatches<'a>) -> Result<Option<RunWords<'a>>, Memory> {
        Ok(words_in(matches))
    }
}

impl<'a> Maker<'a> for Run {
    fn make<F: Shelf>(alloc: Global, words: RunWords<'a>, shelf: &mut F) -> Made<'a> {
        let given = find_given(alloc, words.object, words.input, shelf)?;
        match run_asked(alloc, &given.accepted, &given.inputs, words)? {
            Ran::Halted(at, bytes) => Ok(NewFile {
                name: words.output,
                bytes,
                done: Done::Halted(at),
            }),
            Ran::Spent => Err(Reply::Comes(Verdict::Spent(words.cycles))),
        }
    }
}

fn words_in<'a>(matches: &ArgMatches<'a>) -> Option<RunWords<'a>>
    ensures works { option_map (λ a. run_work a.object.now a.input.now a.output.now a.cycles) result
        ≡ run_asks run_work (rows_of (found_of matches.now)) }
    ensures some_cycle { IfSome result (λ a. 1 ≤ a.cycles) }
{
    Some(RunWords {
        object: value(matches, "OBJ")?,
        input: value(matches, "INPUT")?,
        output: value(matches, "OUT")?,
        cycles: number_given(value(matches, "cycles"))?,
        seed: seed_given(value(matches, "seed"))?,
        recursive: flag_given(value(matches, "recursive")),
    })
}

/// How a run ended: it halted at a cycle and left the outputs of this text, or its cycles were spent.
#[derive(Drop)]
pub enum Ran {
    Halted(u32, Vec<u8>),
    Spent,
}

/// Runs an accepted object on inputs that fit it, over banks of the kind that is asked for.
fn run_asked(
    alloc: Global,
    accepted: &Accepted,
    inputs: &Inputs,
    asked: RunWords<'_>,
) -> Result<Ran, Memory>
    requires in_range { IsInRange accepted.now }
    requires fits { FitsObject accepted.now inputs.now }
    requires some_cycle { 1 ≤ asked.cycles }
    ensures { IfOk result (λ ran. RanTo accepted.now inputs.now asked.entry.cycles ran) }
{
    if asked.recursive {
        return run_to_end::<SeededRecursive>(alloc, accepted, inputs, asked.cycles, asked.seed);
    }
    run_to_end::<SeededOram>(alloc, accepted, inputs, asked.cycles, asked.seed)
}

/// Runs an accepted object on inputs that fit it. The result is the same for any seed and banks.
pub fn run_to_end<B: Seeded + Drop>(
    alloc: Global,
    accepted: &Accepted,
    inputs: &Inputs,
    cycles: u32,
    seed: u64,
) -> Result<Ran, Memory>
    requires in_range { IsInRange accepted.now }
    requires fits { FitsObject accepted.now inputs.now }
    requires some_cycle { 1 ≤ cycles }
    ensures { IfOk result (λ ran. RanTo accepted.now inputs.now cycles ran) }
{
    let mut machine = load_seeded::<B>(alloc, accepted, inputs, seed, 0)?;
    match machine.run(cycles, &mut NoWatch::new()) {
        Ok(End::Halted(at)) => Ok(Ran::Halted(at, outputs_of(alloc, accepted, &machine)?)),
        Ok(End::Spent) => Ok(Ran::Spent),
        Err(_) => unreachable!(),
    }
}

/// The text of what a machine holds for the symbols of its object.
fn outputs_of<B: Bank + Drop>(
    alloc: Global,
    accepted: &Accepted,
    machine: &Machine<'_, B>,
) -> Result<Vec<u8>, Memory>
    requires object { machine.now.object ≡ accepted.now }
    requires fits { FitsObject accepted.now (outputs accepted.now machine.now.state) }
    ensures { IfOk result
        (λ text. text.items ≡ output_of (wants_of accepted.now) (outputs accepted.now machine.now.state)) }
{
    let wants = accepted.object().wants(alloc)?;
    let values = machine.outputs(alloc)?;
    output_text(alloc, &wants, &values)
}
