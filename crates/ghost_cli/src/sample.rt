ghost use Rattle.std.specs.Prelude.{◌≡◌, IfErr, IfOk, IfSome, Some, ℕ};
ghost use Rattle.std.specs.Option.{option_map};
ghost use Rattle.clap.specs.Words.{found_of, rows_of};
ghost use Rattle.gr_base.specs.Prelude.{Within};
ghost use Rattle.lt_isa.specs.Prelude.{IsInRange};
ghost use Rattle.src_tree.specs.Prelude.{Store, meaning, source_of};
ghost use Rattle.call_steps.specs.Prelude.{sample_cycles, sample_store, sum_left};
ghost use Rattle.command_words.specs.Prelude.{sample_asks};
ghost use Rattle.call_laws.specs.Prelude.{sample_work, sample_program};
ghost use Rattle.ghost_cli.specs.Sampled.{SampleCameTo, SampleIsReady, RanCounted};
ghost use Rattle.call_replies.specs.Prelude.{no_memory, said};

use crate::histogram::{
    SAMPLE_BLOCK_LOG, SAMPLE_CYCLES, sample_inputs, sample_program, sum_of_counts,
};
use call_replies::replies::{Done, Figures, Reply, Verdict};
use call_steps::count_watch::CountWatch;
use call_steps::oblivious::{SeededOram, load_seeded};
use call_steps::reading::checked;
use call_steps::targets::Target;
use call_steps::verbs::{Made, Maker, NewFile, Request};
use clap::ArgMatches;
use command_words::options::{flag_given, items_given, seed_given, value};
use command_words::windows::{ALWAYS_OPEN, windowed};
use compile_step::object_of;
use flow_types::Typed;
use gr_base::Memory;
use gr_outside::Shelf;
use lt_checker::Accepted;
use object_file::encode;
use processor::End;
use source_meaning::{Outcome, eval};
use std::alloc::Global;

/// The verb `sample N OUT [--fast] [--seed s]`: compiles, checks and runs a program that counts remainders among N
/// numbers, writes its object file, and prints the number of accesses of the run.
pub struct Sample;

/// The number of items of a sample, the name of the file that is written, the seed of the run's random words, and whether
/// arrays that fit stay in the scratchpad.
#[derive(Clone, Copy)]
pub struct SampleWords<'a> {
    items: u32,
    output: &'a str,
    seed: u64,
    fast: bool,
}

impl<'a> Request<'a> for Sample {
    type Words = SampleWords<'a>;

    ghost work = { λ words. sample_work words.fast words.items words.output.now };

    ghost asks = { sample_asks sample_work };

    ghost Fits = { λ words. Within 1 65536 words.items };

    fn words(_alloc: Global, matches: &ArgMatches<'a>) -> Result<Option<SampleWords<'a>>, Memory> {
        Ok(words_in(matches))
    }
}

impl<'a> Maker<'a> for Sample {
    fn make<F: Shelf>(alloc: Global, words: SampleWords<'a>, shelf: &mut F) -> Made<'a> {
        match made(alloc, words.items, words.seed, words.fast)? {
            Some(file) => Ok(NewFile {
                name: words.output,
                bytes: file.bytes,
                done: Done::Sampled(file.figures),
            }),
            None => Err(Reply::Comes(Verdict::Spent(SAMPLE_CYCLES))),
        }
    }
}

fn words_in<'a>(matches: &ArgMatches<'a>) -> Option<SampleWords<'a>>
    ensures asked { option_map (λ a. sample_work a.fast a.items a.output.now) result
        ≡ sample_asks sample_work (rows_of (found_of matches.now)) }
    ensures within { IfSome result (λ a. Within 1 65536 a.items) }
{
    Some(SampleWords {
        items: items_given(value(matches, "N")?)?,
        output: value(matches, "OUT")?,
        seed: seed_given(value(matches, "seed"))?,
        fast: flag_given(value(matches, "fast")),
    })
}

/// The bytes of a sample's object file, and the figures of its run.
#[derive(Drop)]
pub struct SampleFile {
    bytes: Vec<u8>,
    figures: Figures,
}

/// A program and its object, which are ready to be run.
#[derive(Drop)]
pub struct ReadySample {
    program: Typed,
    accepted: Accepted,
}

/// The cycle at which a run halted, and how many accesses it made.
#[derive(Clone, Copy)]
pub struct CountedRun {
    cycles: u32,
    counts: CountWatch,
}

/// Makes a sample of this many items, or `None` if its run exceeds the cycles. The result is the same for any seed.
fn made<'a>(
    alloc: Global,
    items: u32,
    seed: u64,
    fast: bool,
) -> Result<Option<SampleFile>, Reply<'a>>
    requires { Within 1 65536 items }
    ensures done { IfOk result (SampleCameTo fast items) }
    ensures starved { IfErr result (λ reply. said reply ≡ no_memory) }
{
    let ready = ready(alloc, items, fast)?;
    let Some(run) = counted_run(alloc, &ready.accepted, seed)? else {
        return Ok(None);
    };
    Ok(Some(sample_of_run(alloc, &ready, items, fast, run)?))
}

/// Compiles the sample's program for this many items, and checks its object.
fn ready<'a>(alloc: Global, items: u32, fast: bool) -> Result<ReadySample, Reply<'a>>
    requires { Within 1 65536 items }
    ensures ready { IfOk result (λ ready. SampleIsReady fast items (source_of ready.program) ready.accepted) }
    ensures starved { IfErr result (λ reply. said reply ≡ no_memory) }
{
    let program = sample_program(alloc, items)?;
    let target = Target {
        profile: windowed(SAMPLE_BLOCK_LOG, ALWAYS_OPEN),
        fast,
    };
    let object = object_of(alloc, &program, &target)?;
    let accepted = checked(alloc, object)?;
    Ok(ReadySample { program, accepted })
}

/// Runs an object on the sample's input, or returns `None` if it exceeds the cycles.
fn counted_run(alloc: Global, accepted: &Accepted, seed: u64) -> Result<Option<CountedRun>, Memory>
    requires { IsInRange accepted.now }
    ensures { IfOk result (λ run. RanCounted accepted.now run) }
{
    let wants = accepted.object().wants(alloc)?;
    let inputs = sample_inputs(alloc, &wants)?;
    let mut machine = load_seeded::<SeededOram>(alloc, accepted, &inputs, seed, 0)?;
    let mut counts = CountWatch::new();
    match machine.run(SAMPLE_CYCLES, &mut counts) {
        Ok(End::Halted(cycles)) => Ok(Some(CountedRun { cycles, counts })),
        Ok(End::Spent) => Ok(None),
        Err(_) => unreachable!(),
    }
}

/// The object file and the figures of a run that halted.
fn sample_of_run(
    alloc: Global,
    ready: &ReadySample,
    items: u32,
    fast: bool,
    run: CountedRun,
) -> Result<SampleFile, Memory>
    requires ready { SampleIsReady fast items (source_of ready.now.program) ready.now.accepted }
    requires halted { RanCounted ready.now.accepted (Some run) }
    ensures { IfOk result (λ file. SampleCameTo fast items (Some file)) }
{
    let sum = sum_meant(alloc, &ready.program)?;
    let bytes = encode(alloc, ready.accepted.object())?;
    Ok(SampleFile {
        bytes,
        figures: Figures {
            items,
            cycles: run.cycles,
            ram: run.counts.ram,
            eram: run.counts.eram,
            oram2: run.counts.oram2,
            sum,
        },
    })
}

/// The sum of the counts that the sample's program means.
fn sum_meant(alloc: Global, program: &Typed) -> Result<i128, Memory>
    requires sample { (items : ℕ) × (source_of program.now ≡ sample_program items) }
    requires done { (left : Store)
        × (meaning (source_of program.now) (sample_store (source_of program.now)) sample_cycles ≡ Some left) }
    ensures { IfOk result (λ sum. sum
        ≡ sum_left (source_of program.now)
        (meaning (source_of program.now) (sample_store (source_of program.now)) sample_cycles)) }
{
    let wants = program.wants(alloc)?;
    let inputs = sample_inputs(alloc, &wants)?;
    match eval(alloc, program, inputs, u64::from(SAMPLE_CYCLES))? {
        Outcome::Done(values) => Ok(sum_of_counts(&values)),
        Outcome::Spent => unreachable!(),
    }
}
