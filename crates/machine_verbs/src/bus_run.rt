ghost use Rattle.std.specs.Prelude.{◌≡◌, ◌≤◌, ◌&&◌, [], IsTrue, is_some, length, true};
ghost use Rattle.bus_arbiter.specs.Prelude.{traces_to, AllLeft};
ghost use Rattle.machine_verbs.specs.Sharing.{PutsHalts, PutsJoined, PutsShared, halts_of};
ghost use Rattle.call_replies.specs.Prelude.{verdict_status};
ghost use Rattle.machine_verbs.specs.Watched.{HoldsLines};
ghost use Rattle.call_replies.specs.declared.replies.Verdict.TheVariants.{Shared};

use crate::bus_lines::{BusLines, put_core};
use bus_arbiter::Bus;
use call_steps::oblivious::SeededOram;
use call_steps::putting::NOT_PUT;
use gr_outside::Sink;

/// Runs the cores of a bus, and prints its lines. It allocates no memory.
pub(crate) fn put_bus<O: Sink>(bus: &mut Bus<'_, SeededOram>, cycles: u32, out: &mut O) -> u8
    requires all { length bus.old.cores ≡ length bus.old.plan }
    requires sound { IsTrue bus.old.sound }
    requires fresh { IsTrue bus.old.fresh }
    requires some_cycle { 1 ≤ cycles }
    ensures { PutsShared (O.seen out.old) (O.seen out.new) (traces_to bus.old.cores cycles) result }
{
    let _ = bus.entered();
    if put_joined(bus, cycles, out) {
        return put_halts(bus, out);
    }
    NOT_PUT
}

/// Runs the cores of a bus, and prints the lines of their transfers. Returns whether all were printed.
fn put_joined<O: Sink>(bus: &mut Bus<'_, SeededOram>, cycles: u32, out: &mut O) -> bool
    requires all { length bus.old.cores ≡ length bus.old.plan }
    requires sound { IsTrue bus.old.sound }
    requires fresh { IsTrue bus.old.fresh }
    requires some_cycle { 1 ≤ cycles }
    ensures put { PutsJoined (O.seen out.old) (O.seen out.new) (traces_to bus.old.cores cycles) result }
    ensures left { IsTrue result → AllLeft bus.old.cores cycles bus.new.cores }
{
    let mut watch = BusLines::new(out);
    run_watched(bus, cycles, &mut watch)
}

/// Runs the cores with a watcher that has written nothing yet.
fn run_watched<O: Sink>(
    bus: &mut Bus<'_, SeededOram>,
    cycles: u32,
    watch: &mut BusLines<'_, O>,
) -> bool
    requires all { length bus.old.cores ≡ length bus.old.plan }
    requires sound { IsTrue bus.old.sound }
    requires fresh { IsTrue bus.old.fresh }
    requires some_cycle { 1 ≤ cycles }
    requires whole { watch.old.whole ≡ true }
    requires nothing { HoldsLines (O.seen watch.old.out.now).held watch.old.start watch.old.stop watch.old.whole [] }
    ensures same_sink { watch.new.out.ghost_name ≡ watch.old.out.ghost_name }
    ensures put { PutsJoined (O.seen watch.old.out.now) (O.seen watch.new.out.now)
        (traces_to bus.old.cores cycles) result }
    ensures left { IsTrue result → AllLeft bus.old.cores cycles bus.new.cores }
{
    let _ = bus.entered();
    match bus.run(cycles, watch) {
        Ok(()) => true,
        Err(_) => false,
    }
}

/// Puts the lines of how the cores ended.
fn put_halts<O: Sink>(bus: &Bus<'_, SeededOram>, out: &mut O) -> u8
    ensures { PutsHalts (O.seen out.old) (O.seen out.new) (halts_of bus.now.cores) result }
{
    let mut all = true;
    'ending: for core in 0..bus.entered() {
        let halt = bus.halted(core);
        match put_core(out, core, halt) {
            Ok(()) => {}
            Err(_) => return NOT_PUT,
        }
        all = also_halted(all, halt);
    }
    status_of(all)
}

// Whether one more core halted too.
fn also_halted(all: bool, halt: Option<u32>) -> bool
    ensures { result ≡ (all && is_some halt) }
{
    all && halt.is_some()
}

fn status_of(all: bool) -> u8
    ensures { result ≡ verdict_status (Shared all) }
{
    if all {
        return 0;
    }
    10
}
