ghost use Rattle.std.specs.Prelude.{◌≡◌, ◌<◌, ◌≤◌, ◌∷◌, [], All, IfOk, length, true};
ghost use Rattle.bus_arbiter.specs.Prelude.{share_of};

use crate::fixtures::{accepted_of, inputs_of};
use bus_arbiter::{Bus, BusWatch, Plan, Turn};
use lt_checker::Accepted;
use lt_isa::Event;
use processor::{Machine, PlainBank, WatchFailed, load_start};
use std::alloc::Global;
use std::test::Fail;

/// A watcher that keeps this many transfers, and fails at the next one: the core, the stamp, and the block of plain
/// memory that was read.
#[derive(Drop)]
struct Marks {
    marks: Vec<(u8, u32, Option<u32>)>,
    room: usize,
    faults: u64,
    whole: bool,
}

/// The block of plain memory that was read.
fn block_read(event: &Event) -> Option<u32> {
    match event {
        Event::RamRead(block, _) => Some(*block),
        _ => None,
    }
}

impl BusWatch for Marks {
    ghost hears = { λ before told now. Unit {0} };

    ghost tells = { λ watcher. ⊥ };

    ghost faults = { λ watcher. watcher.faults };

    ghost whole = { λ watcher. watcher.whole };

    ghost torn = { λ watcher transfer. Unit {0} };

    ghost same = { λ before after. Unit {0} };

    #[tactic(auto, using(gr_base::proofs::Counts::rose_by_one))]
    fn transfer(&mut self, core: u8, stamp: u32, event: &Event) -> Result<(), WatchFailed> {
        if self.marks.len() < self.room {
            match self.marks.push((core, stamp, block_read(event))) {
                Ok(()) => return Ok(()),
                Err(_) => {}
            }
        }
        self.whole = false;
        self.faults = self.faults.saturating_add(1);
        Err(WatchFailed)
    }

    ghost hears_none = { λ watcher whole. tt };

    ghost hears_then = { λ first second third told more one two. tt };

    ghost transfers_once = { λ before now told other tells one two. absurd tells };

    ghost same_itself = { λ watcher. tt };

    ghost same_through = { λ before between after first second. tt };
}

/// A watcher that has received nothing, with room for this many transfers.
fn watcher_of(alloc: Global, room: usize) -> Marks
    ensures { result.whole ≡ true }
{
    Marks {
        marks: Vec::new(alloc),
        room,
        faults: 0,
        whole: true,
    }
}

/// The machine of an object without inputs, at its start.
fn machine_of<'a>(alloc: Global, accepted: &'a Accepted) -> Result<Machine<'a, PlainBank>, Fail>
    ensures object { IfOk result (λ machine. machine.object ≡ accepted.now) }
    ensures live { IfOk result (λ machine. machine.live ≡ true) }
    ensures place { IfOk result (λ machine. machine.state.place ≡ 0) }
    ensures cycle { IfOk result (λ machine. machine.state.cycle ≡ 0) }
{
    let inputs = inputs_of(alloc, accepted, "{}")?;
    match load_start(alloc, accepted, &inputs) {
        Ok(machine) => Ok(machine),
        Err(_) => Err(Fail::from("no memory")),
    }
}

/// A plan of two cores.
fn plan_of(alloc: Global, one: &Accepted, other: &Accepted) -> Result<Plan, Fail>
    ensures { IfOk result (λ plan. plan ≡ share_of one.now ∷ share_of other.now ∷ []) }
{
    let mut plan = Plan::new(alloc);
    plan.add(one)?;
    plan.add(other)?;
    Ok(plan)
}

/// A bus that the machines of two objects share.
fn bus_of<'a>(
    alloc: Global,
    one: &'a Accepted,
    other: &'a Accepted,
) -> Result<Bus<'a, PlainBank>, Fail>
    ensures two { IfOk result (λ bus. length bus.plan ≡ 2) }
    ensures all { IfOk result (λ bus. length bus.cores ≡ 2) }
    ensures sound { IfOk result (λ bus. bus.sound ≡ true) }
    ensures fresh { IfOk result (λ bus. bus.fresh ≡ true) }
{
    let mut bus = Bus::new(alloc, plan_of(alloc, one, other)?);
    let first = machine_of(alloc, one)?;
    bus.enter(first)?;
    let second = machine_of(alloc, other)?;
    bus.enter(second)?;
    Ok(bus)
}

/// How many variables each of two cores leaves words of, and the halts of both.
fn left_of(alloc: Global, bus: &Bus<'_, PlainBank>) -> Result<([usize; 2], [Option<u32>; 2]), Fail>
    requires { length bus.now.cores ≡ 2 }
{
    let first = bus.outputs(alloc, 0)?;
    let second = bus.outputs(alloc, 1)?;
    Ok(([first.len(), second.len()], [bus.halted(0), bus.halted(1)]))
}

/// An object that reads a block of plain memory and halts, with this window. Its transfer lasts 634 cycles.
fn reading(alloc: Global, window: &str) -> Result<Accepted, Fail> {
    let code = "\n.bank 4 634\n.bank 4 662\nli r1 0\nldb 0 D r1\nhalt\n";
    accepted_of(
        alloc,
        format!(in alloc; ".object 2 3 1 70 2 3 {window}{code}")?.as_str(),
    )
}

/// Two cores on a bus, whose windows are a thousand cycles apart: runs them for 5,000 cycles, or plays the turns, with
/// a watcher that has room for this many transfers. Returns what it received, whether the bus is sound, and the halts.
fn played(
    alloc: Global,
    turns: &[Turn],
    room: usize,
) -> Result<(Vec<(u8, u32, Option<u32>)>, bool, [Option<u32>; 2]), Fail>
    requires { All (λ t. (t.core < 2) × (1 ≤ t.to)) turns.now }
{
    let one = reading(alloc, "2000 0 1")?;
    let other = reading(alloc, "2000 1000 1001")?;
    let mut watch = watcher_of(alloc, room);
    let (sound, halts) = ends_of(alloc, turns, &one, &other, &mut watch)?;
    Ok((watch.marks, sound, halts))
}

/// Whether a bus of these two cores is sound after its turns, and the halts.
fn ends_of(
    alloc: Global,
    turns: &[Turn],
    one: &Accepted,
    other: &Accepted,
    watch: &mut Marks,
) -> Result<(bool, [Option<u32>; 2]), Fail>
    requires turns { All (λ t. (t.core < 2) × (1 ≤ t.to)) turns.now }
    requires whole { watch.old.whole ≡ true }
{
    let mut bus = bus_of(alloc, one, other)?;
    let halts = halts_of(alloc, turns, &mut bus, watch)?;
    Ok((bus.sound(), halts))
}

/// Runs a bus of two cores for 5,000 cycles, or plays the turns, and returns their halts.
fn halts_of(
    alloc: Global,
    turns: &[Turn],
    bus: &mut Bus<'_, PlainBank>,
    watch: &mut Marks,
) -> Result<[Option<u32>; 2], Fail>
    requires turns { All (λ t. (t.core < 2) × (1 ≤ t.to)) turns.now }
    requires two { length bus.old.plan ≡ 2 }
    requires all { length bus.old.cores ≡ 2 }
    requires sound { bus.old.sound ≡ true }
    requires fresh { bus.old.fresh ≡ true }
    requires whole { watch.old.whole ≡ true }
{
    let done = if turns.is_empty() {
        bus.run(5000, watch)
    } else {
        bus.play(turns, watch)
    };
    if done.is_ok() != bus.sound() || bus.fresh() || bus.entered() != 2 {
        return Err(Fail::from("not as it was run"));
    }
    let (words, halts) = left_of(alloc, bus)?;
    if words != [0, 0] {
        return Err(Fail::from("words of no variable"));
    }
    Ok(halts)
}

#[test]
fn a_core_shows_the_same_whatever_turns_stand_between(rt: HostRuntime) -> Result<(), Fail> {
    let alloc = rt.alloc();
    let first = [
        Turn { core: 0, to: 5000 },
        Turn { core: 1, to: 10 },
        Turn { core: 1, to: 5000 },
        Turn { core: 0, to: 3 },
    ];
    let (marks, sound, halts) = played(alloc, first.as_slice(), 4)?;
    assert_eq!(rt;
        marks.as_slice(),
        [(0, 2000, Some(0)), (1, 1000, Some(0))].as_slice()
    );
    assert_eq!(rt; (sound, halts), (true, [Some(2634), Some(1634)]));
    let second = [
        Turn { core: 1, to: 1001 },
        Turn { core: 0, to: 2001 },
        Turn { core: 1, to: 1635 },
        Turn { core: 0, to: 2635 },
    ];
    let (marks, sound, halts) = played(alloc, second.as_slice(), 4)?;
    assert_eq!(rt;
        marks.as_slice(),
        [(1, 1000, Some(0)), (0, 2000, Some(0))].as_slice()
    );
    assert_eq!(rt; (sound, halts), (true, [Some(2634), Some(1634)]));
    Ok(())
}

#[test]
fn a_turn_ends_before_its_cycle(rt: HostRuntime) -> Result<(), Fail> {
    let turns = [
        Turn { core: 0, to: 2000 },
        Turn { core: 1, to: 1001 },
        Turn { core: 1, to: 1634 },
    ];
    let (marks, sound, halts) = played(rt.alloc(), turns.as_slice(), 4)?;
    assert_eq!(rt; marks.as_slice(), [(1, 1000, Some(0))].as_slice());
    assert_eq!(rt; (sound, halts), (true, [None, None]));
    Ok(())
}

#[test]
fn a_watcher_may_fail_at_each_transfer(rt: HostRuntime) -> Result<(), Fail> {
    let turns = [Turn { core: 0, to: 5000 }, Turn { core: 1, to: 5000 }];
    for room in 0..2 {
        let (marks, sound, halts) = played(rt.alloc(), [].as_slice(), room)?;
        assert_eq!(rt; (marks.len(), sound, halts), (room, false, [None, None]));
    }
    let (marks, sound, halts) = played(rt.alloc(), turns.as_slice(), 1)?;
    assert_eq!(rt; marks.as_slice(), [(0, 2000, Some(0))].as_slice());
    assert_eq!(rt; (sound, halts), (false, [Some(2634), None]));
    Ok(())
}
