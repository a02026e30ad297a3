ghost use Rattle.std.specs.Prelude.{◌≡◌, ◌<◌, ◌≤◌, ◌+◌, [], IfErr, IfOk, IfSome, IsTrue, OnErr, OnOk, false, length, map};
ghost use Rattle.std.specs.Option.{option_map};
ghost use Rattle.bus_arbiter.specs.Prelude.{traces_to, AllFit, traces_on, share_of, AllLeft};
ghost use Rattle.clap.specs.Words.{found_of, rows_of};
ghost use Rattle.command_words.specs.Prelude.{bus_asks, bus_named_on, pairs_of, texts};
ghost use Rattle.machine_verbs.specs.Bus.{bus_said, bus_work, none_read, with_core, with_cores};
ghost use Rattle.call_steps.specs.Prelude.{Finds, FindsNone, stage};
ghost use Rattle.machine_verbs.specs.Sharing.{AllBegin, AreRead, PutsShared};
ghost use Rattle.call_replies.specs.Prelude.{said};

use crate::bus_run::put_bus;
use bus_arbiter::{Bus, BusError, Plan};
use call_replies::replies::{Reply, Verdict};
use call_steps::oblivious::{SeededOram, load_seeded};
use call_steps::reading::{find_accepted, find_inputs};
use call_steps::verbs::{Request, Service};
use clap::ArgMatches;
use command_words::options::{number_given, seed_given, value, values};
use gr_base::Memory;
use gr_outside::{Shelf, Sink};
use gr_word::Inputs;
use lt_checker::Accepted;
use std::alloc::Global;
use std::marker::Model;

/// A pair of names, of an object file and of an input file.
#[derive(Drop)]
pub struct NamePair<'a> {
    object: &'a str,
    input: &'a str,
}

impl<'a> Model for NamePair<'a> {
    ghost use Rattle.command_words.specs.Pairs.{Pair};

    ghost Value = { Pair };

    ghost view = { λ p. record { object = p.object.now; input = p.input.now } };
}

/// The verb `bus OBJ INPUT [OBJ INPUT ..] [--cycles n] [--seed s]`: runs each pair's object on its inputs as a core of
/// one bus, and prints the lines of all transfers and of how each core ended.
pub struct SharedBus;

/// The names of the pairs of a bus, its number of cycles, and the seed of its random words.
#[derive(Drop)]
pub struct BusWords<'a> {
    pairs: Vec<NamePair<'a>>,
    cycles: u32,
    seed: u64,
}

impl<'a> Request<'a> for SharedBus {
    type Words = BusWords<'a>;

    ghost work = { λ words. bus_work words.pairs.items words.cycles };

    ghost asks = { bus_asks bus_work };

    ghost Fits = { λ words. (1 ≤ words.cycles) × (length words.pairs.items ≤ 8) };

    fn words(alloc: Global, matches: &ArgMatches<'a>) -> Result<Option<BusWords<'a>>, Memory> {
        words_in(alloc, matches)
    }
}

impl<'a> Service<'a> for SharedBus {
    fn serve<F: Shelf, O: Sink>(
        alloc: Global,
        words: BusWords<'a>,
        shelf: &mut F,
        out: &mut O,
    ) -> Result<u8, Reply<'a>> {
        let cores = read_cores(alloc, words.pairs.as_slice(), shelf)?;
        Ok(share_bus(alloc, cores, words.cycles, words.seed, out)?)
    }
}

fn words_in<'a>(alloc: Global, matches: &ArgMatches<'a>) -> Result<Option<BusWords<'a>>, Memory>
    ensures works { IfOk result (λ asked. option_map (λ a. bus_work a.pairs.items a.cycles) asked
        ≡ bus_asks bus_work (rows_of (found_of matches.now))) }
    ensures some_cycle { IfOk result (λ asked. IfSome asked (λ a. 1 ≤ a.cycles)) }
    ensures most { IfOk result (λ asked. IfSome asked (λ a. length a.pairs.items ≤ 8)) }
{
    let Some(names) = values(matches, "NAMES") else {
        return Ok(None);
    };
    let Some(pairs) = pairs_in(alloc, names)? else {
        return Ok(None);
    };
    Ok(numbered(pairs, value(matches, "cycles"), value(matches, "seed")))
}

fn numbered<'a>(
    pairs: Vec<NamePair<'a>>,
    cycles: Option<&'a str>,
    seed: Option<&'a str>,
) -> Option<BusWords<'a>>
    requires { length pairs.items ≤ 8 }
    ensures works { option_map (λ a. bus_work a.pairs.items a.cycles) result
        ≡ bus_named_on bus_work pairs.entry.items (option_map (λ t. t.now) cycles.entry)
        (option_map (λ t. t.now) seed.entry) }
    ensures some_cycle { IfSome result (λ a. 1 ≤ a.cycles) }
    ensures most { IfSome result (λ a. length a.pairs.items ≤ 8) }
{
    Some(BusWords {
        pairs,
        cycles: number_given(cycles)?,
        seed: seed_given(seed)?,
    })
}

/// Names in pairs, or none where their number is odd or above 16.
fn pairs_in<'a>(alloc: Global, names: &[&'a str]) -> Result<Option<Vec<NamePair<'a>>>, Memory>
    ensures pairs { IfOk result (λ pairs. option_map (λ list. list.items) pairs ≡ pairs_of (texts names.now)) }
    ensures most { IfOk result (λ pairs. IfSome pairs (λ list. length list.items ≤ 8)) }
{
    if names.len() > 16 {
        return Ok(None);
    }
    let mut pairs = Vec::new(alloc);
    let mut rest = names;
    'pairing: while rest.len() >= 2 {
        pairs.push(NamePair {
            object: rest[0],
            input: rest[1],
        })?;
        rest = &rest[2..];
    }
    if rest.is_empty() {
        return Ok(Some(pairs));
    }
    Ok(None)
}

/// Runs the pairs that were read, and prints the lines. `Err` if nothing was printed.
fn share_bus<O: Sink>(
    alloc: Global,
    cores: Cores,
    cycles: u32,
    seed: u64,
    out: &mut O,
) -> Result<u8, Memory>
    requires some_cycle { 1 ≤ cycles }
    requires read { AreRead cores }
    requires few { length cores.objects ≤ 8 }
    ensures shared { IfOk result
        (PutsShared (O.seen out.old) (O.seen out.new) (traces_on cores.objects cores.inputs cycles)) }
    ensures unput { OnErr result (O.seen out.new ≡ O.seen out.old) }
{
    let Cores {
        plan,
        objects,
        inputs,
    } = cores;
    let mut bus = bus_of(alloc, plan, &objects, &inputs, seed)?;
    Ok(put_bus(&mut bus, cycles, out))
}

/// A bus whose cores are these objects at the start of their runs on these inputs.
fn bus_of<'a>(
    alloc: Global,
    plan: Plan,
    objects: &'a [Accepted],
    inputs: &[Inputs],
    seed: u64,
) -> Result<Bus<'a, SeededOram>, Memory>
    requires planned { plan ≡ map share_of objects.now }
    requires fit { AllFit objects.now inputs.now }
    requires most { length objects.now ≤ 8 }
    ensures plan { IfOk result (λ bus. bus.plan ≡ plan) }
    ensures sound { IfOk result (λ bus. IsTrue bus.sound) }
    ensures fresh { IfOk result (λ bus. IsTrue bus.fresh) }
    ensures begun { IfOk result (λ bus. AllBegin seed 0 objects.now inputs.now bus.cores) }
{
    let mut bus = Bus::new(alloc, plan);
    'entering: for core in 0..objects.len() {
        let machine = load_seeded::<SeededOram>(
            alloc,
            &objects[core],
            &inputs[core],
            seed,
            core as u8,
        )?;
        bus.enter(machine)?;
    }
    Ok(bus)
}

/// What was read of the pairs so far.
#[derive(Drop)]
pub struct Cores {
    plan: Plan,
    objects: Vec<Accepted>,
    inputs: Vec<Inputs>,
}

impl Model for Cores {
    ghost use Rattle.machine_verbs.specs.Bus.{Read};

    ghost Value = { Read };

    ghost view = { λ c. record { plan = c.plan; objects = c.objects.items; inputs = c.inputs.items } };
}

/// The reply if the plan takes no object as this core.
fn off_bus<'a>(core: u8, cause: BusError) -> Reply<'a>
    ensures { said result ≡ bus_said core cause }
{
    match cause {
        BusError::NoWindow => Reply::Comes(Verdict::OffBus(core, BusError::NoWindow)),
        BusError::OtherPeriod(period) => Reply::Comes(Verdict::OffBus(
            core,
            BusError::OtherPeriod(period),
        )),
        BusError::TooLong(end) => Reply::Comes(Verdict::OffBus(core, BusError::TooLong(end))),
        BusError::Overlap(other) => Reply::Comes(Verdict::OffBus(core, BusError::Overlap(other))),
        BusError::Memory => Reply::NoMemory,
    }
}

/// Reads the object and the inputs of a core, which the plan has to take.
fn read_core<'a, F: Shelf>(
    alloc: Global,
    pair: &NamePair<'a>,
    cores: &mut Cores,
    shelf: &mut F,
) -> Result<(), Reply<'a>>
    requires room { length cores.old.plan < 8 }
    requires read { AreRead cores.old }
    ensures read { OnOk result (AreRead cores.new) }
    ensures found { OnOk result (Finds (stage (F.seen shelf.old) (F.log shelf.old))
        (stage (F.seen shelf.new) (F.log shelf.new)) (with_core pair.now (length cores.old.plan) cores.old) cores.new) }
    ensures one { OnOk result (length cores.new.plan ≡ length cores.old.plan + 1) }
    ensures stopped { IfErr result (λ reply. FindsNone (stage (F.seen shelf.old) (F.log shelf.old))
        (stage (F.seen shelf.new) (F.log shelf.new)) (with_core pair.now (length cores.old.plan) cores.old)
        (said reply)) }
{
    let core = cores.plan.len();
    let accepted = find_accepted(alloc, pair.object, shelf)?;
    match cores.plan.add(&accepted) {
        Ok(()) => {}
        Err(cause) => return Err(off_bus(core, cause)),
    }
    let inputs = find_inputs(alloc, &accepted, pair.input, shelf)?;
    cores.objects.push(accepted)?;
    cores.inputs.push(inputs)?;
    Ok(())
}

/// Reads the objects and inputs of all cores.
pub fn read_cores<'a, F: Shelf>(
    alloc: Global,
    pairs: &[NamePair<'a>],
    shelf: &mut F,
) -> Result<Cores, Reply<'a>>
    requires most { length pairs.now ≤ 8 }
    ensures found { IfOk result (λ cores. Finds (stage (F.seen shelf.old) (F.log shelf.old))
        (stage (F.seen shelf.new) (F.log shelf.new)) (with_cores pairs.now 0 none_read) cores) }
    ensures read { IfOk result AreRead }
    ensures few { IfOk result (λ cores. length cores.objects ≤ 8) }
    ensures stopped { IfErr result (λ reply. FindsNone (stage (F.seen shelf.old) (F.log shelf.old))
        (stage (F.seen shelf.new) (F.log shelf.new)) (with_cores pairs.now 0 none_read) (said reply)) }
{
    let mut cores = Cores {
        plan: Plan::new(alloc),
        objects: Vec::new(alloc),
        inputs: Vec::new(alloc),
    };
    'reading: for pair in pairs {
        match read_core(alloc, pair, &mut cores, shelf) {
            Ok(()) => {}
            Err(reply) => return Err(reply),
        }
    }
    Ok(cores)
}
