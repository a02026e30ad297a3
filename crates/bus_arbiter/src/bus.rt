ghost use Rattle.std.specs.Prelude.{◌≡◌, ◌≢◌, ◌<◌, ◌≤◌, ◌+◌, ◌-◌, ◌^◌, ◌++◌, ◌∷◌, [], ℕ, All, IfOk, IsTrue, List, None, OnErr, OnOk, Some, false, is_none, is_ok, length, map, slice_get, slice_set, true};
ghost use Rattle.gr_base.specs.Prelude.{Rose};
ghost use Rattle.lt_isa.specs.Prelude.{outputs};
ghost use Rattle.bus_arbiter.specs.Cores.{AllStand, Core, NoneHalted, shows_to};
ghost use Rattle.bus_arbiter.specs.Rounds.{CorePaused};
ghost use Rattle.bus_arbiter.specs.Shares.{IsPlan, share_at, share_of};
ghost use Rattle.bus_arbiter.specs.Telling.{FailedAt};
ghost use Rattle.bus_arbiter.specs.Transfers.{Transfer};
ghost use Rattle.bus_arbiter.specs.Turns.{AllOnTheirWay, Played, PlayFailed, TurnStopped, Turned, until};

use crate::plans::Plan;
use crate::seats::Seat;
use crate::turns::Turn;
use crate::watching::BusWatch;
use gr_word::{Inputs, Memory};
use processor::{Bank, Machine, WatchFailed};
use std::alloc::Global;
use std::marker::Model;

/// A bus that the machines of a plan share. Seen as the plan, its cores, and whether it is sound and fresh.
#[derive(Drop)]
pub struct Bus<'a, B: Bank + Drop> {
    pub(crate) plan: Plan,
    pub(crate) seats: Vec<Seat<'a, B>>,
    pub(crate) sound: bool,
    pub(crate) fresh: bool,
}

impl<'a, B: Bank + Drop> Model for Bus<'a, B> {
    ghost use Rattle.std.specs.Prelude.{◌≡◌, true};
    ghost use Rattle.bus_arbiter.specs.Cores.{AllStand, AreLive, NoneHalted, Shared};

    ghost Value = { Shared B };

    ghost view = { λ b. record { plan = b.plan; cores = b.seats.items; sound = b.sound; fresh = b.fresh } };

    ghost invariant = { λ b. record {
      stand : AllStand b.plan b.seats.items;
      live : b.sound ≡ true → AreLive b.seats.items;
      begins : b.fresh ≡ true → NoneHalted b.seats.items;
    } };
}

impl<'a, B: Bank + Drop> Bus<'a, B> {
    /// The bus of a plan, on which no machine is yet.
    pub fn new(alloc: Global, plan: Plan) -> Bus<'a, B>
        ensures { result ≡ record { plan = plan; cores = []; sound = true; fresh = true } }
    {
        Bus {
            plan,
            seats: Vec::new(alloc),
            sound: true,
            fresh: true,
        }
    }

    /// The number of machines that have entered. Each is on the bus with the share of the plan at its place, and none
    /// has halted as long as no core was run.
    pub fn entered(&self) -> u8
        ensures count { result ≡ length self.now.cores }
        ensures plan { IsPlan self.now.plan }
        ensures stand { AllStand self.now.plan self.now.cores }
        ensures begins { IsTrue self.now.fresh → NoneHalted self.now.cores }
    {
        let _ = self.plan.len();
        self.seats.len() as u8
    }

    /// How many machines the plan wants: as many must enter before any core is run.
    pub fn planned(&self) -> u8
        ensures count { result ≡ length self.now.plan }
        ensures plan { IsPlan self.now.plan }
        ensures entered { length self.now.cores ≤ result }
    {
        let _ = self.entered();
        self.plan.len()
    }

    /// Whether no watcher has failed.
    pub fn sound(&self) -> bool
        ensures { result ≡ self.now.sound }
    {
        self.sound
    }

    /// Whether no core was run.
    pub fn fresh(&self) -> bool
        ensures { result ≡ self.now.fresh }
    {
        self.fresh
    }

    /// Makes a machine the one of the next core. A machine that is refused is dropped.
    pub fn enter(&mut self, machine: Machine<'a, B>) -> Result<(), Memory>
        requires room { length self.old.cores < length self.old.plan }
        requires live { IsTrue machine.live }
        requires place { machine.state.place ≡ 0 }
        requires cycle { machine.state.cycle ≡ 0 }
        requires share { share_of machine.object ≡ share_at self.old.plan (length self.old.cores) }
        ensures entered { OnOk result
            (self.new ≡ record self.old {
              cores = self.old.cores ++ record { machine = machine.entry; halted = None } ∷ [];
            }) }
        ensures unchanged { OnErr result (self.new ≡ self.old) }
    {
        let _ = machine.cycle();
        self.seats.push(Seat {
            machine,
            halted: None,
        })?;
        Ok(())
    }

    /// The cycle at which a core's halt started, where it was run that far.
    pub fn halted(&self, core: u8) -> Option<u32>
        requires { core < length self.now.cores }
        ensures { (c : Core B) → slice_get self.now.cores core ≡ Some c → result ≡ c.halted }
    {
        self.seats[core as usize].halted
    }

    /// The words of a core's symbols, as its banks have them.
    pub fn outputs(&self, alloc: Global, core: u8) -> Result<Inputs, Memory>
        requires { core < length self.now.cores }
        ensures { IfOk result (λ lists. (c : Core B)
            → slice_get self.now.cores core ≡ Some c
            → lists ≡ outputs c.machine.object c.machine.state) }
    {
        self.seats[core as usize].machine.outputs(alloc)
    }

    /// Runs cores turn by turn, each up to the cycle of its turn. The watcher receives each core's transfers in order.
    /// If it fails, each core keeps its object and is in a state of its own run. Allocates no memory.
    pub fn play<W: BusWatch>(&mut self, turns: &[Turn], watch: &mut W) -> Result<(), WatchFailed>
        requires all { length self.old.cores ≡ length self.old.plan }
        requires sound { IsTrue self.old.sound }
        requires whole { IsTrue (W.whole watch.old) }
        requires turns { All (λ t. (t.core < length self.old.plan) × (1 ≤ t.to)) turns.now }
        ensures plan { self.new.plan ≡ self.old.plan }
        ensures fresh { self.new.fresh ≡ false }
        ensures sound { self.new.sound ≡ is_ok result }
        ensures played { OnOk result ((told : List Transfer)
            × Played self.old.cores self.new.cores (until turns.now) told
            × W.hears watch.old told watch.new) }
        ensures told_before { W.tells watch.new → W.tells watch.old }
        ensures broke { OnErr result
            (PlayFailed W.hears watch.old watch.new (W.torn watch.new) self.old.cores (until turns.now)) }
        ensures stopped { OnErr result (AllOnTheirWay self.old.cores (until turns.now) self.new.cores) }
        ensures failed { OnErr result (Rose (W.faults watch.old) (W.faults watch.new)) }
        ensures whole { W.whole watch.new ≡ is_ok result }
        ensures count { W.faults watch.old ≤ W.faults watch.new }
        ensures count_stays { W.faults watch.old ≡ 2 ^ 64 - 1 → W.faults watch.new ≡ 2 ^ 64 - 1 }
        ensures same { W.same watch.old watch.new }
    {
        self.fresh = false;
        'playing: for turn in turns {
            match self.turn(turn.core, turn.to, watch) {
                Ok(()) => {}
                Err(e) => return Err(e),
            }
        }
        Ok(())
    }

    /// Runs one core on up to a cycle.
    pub(crate) fn turn<W: BusWatch>(
        &mut self,
        core: u8,
        to: u32,
        watch: &mut W,
    ) -> Result<(), WatchFailed>
        requires exists { core < length self.old.cores }
        requires sound { IsTrue self.old.sound }
        requires fresh { self.old.fresh ≡ false }
        requires whole { IsTrue (W.whole watch.old) }
        requires some_cycle { 1 ≤ to }
        ensures plan { self.new.plan ≡ self.old.plan }
        ensures fresh { self.new.fresh ≡ false }
        ensures sound { self.new.sound ≡ is_ok result }
        ensures stand { AllStand self.new.plan self.new.cores }
        ensures turned { OnOk result
            (Turned self.old.cores self.new.cores core to (λ told. W.hears watch.old told watch.new)) }
        ensures told_before { W.tells watch.new → W.tells watch.old }
        ensures broke { OnErr result ((c : Core B)
            × (slice_get self.old.cores core ≡ Some c)
            × FailedAt W.hears watch.old watch.new (W.torn watch.new) (shows_to core c to)) }
        ensures stopped { OnErr result (TurnStopped self.old.cores self.new.cores core to) }
        ensures failed { OnErr result (Rose (W.faults watch.old) (W.faults watch.new)) }
        ensures whole { W.whole watch.new ≡ is_ok result }
        ensures count { W.faults watch.old ≤ W.faults watch.new }
        ensures count_stays { W.faults watch.old ≡ 2 ^ 64 - 1 → W.faults watch.new ≡ 2 ^ 64 - 1 }
        ensures same { W.same watch.old watch.new }
    {
        let seat = &mut self.seats[core as usize];
        match seat.run(core, to, watch) {
            Ok(()) => Ok(()),
            Err(e) => {
                self.sound = false;
                Err(e)
            }
        }
    }

    /// Runs one core on to its next access, or to this cycle. Returns the cycle at which its next instruction starts, or
    /// this cycle if it has halted.
    pub(crate) fn pause(&mut self, core: u8, cycles: u32) -> u64
        requires exists { core < length self.old.cores }
        requires sound { IsTrue self.old.sound }
        requires fresh { self.old.fresh ≡ false }
        ensures plan { self.new.plan ≡ self.old.plan }
        ensures fresh { self.new.fresh ≡ false }
        ensures sound { IsTrue self.new.sound }
        ensures stand { AllStand self.new.plan self.new.cores }
        ensures paused { CorePaused self.old.cores self.new.cores core cycles result }
    {
        let seat = &mut self.seats[core as usize];
        seat.pause(cycles)
    }
}
