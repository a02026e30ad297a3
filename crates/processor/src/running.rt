ghost use Rattle.std.specs.Prelude.{◌≡◌, ◌<◌, ◌≤◌, ◌-◌, ◌^◌, IfOk, IfSome, IsTrue, OnErr, OnOk, OnSome, is_ok, false};
ghost use Rattle.gr_base.specs.Prelude.{Rose};
ghost use Rattle.lt_isa.specs.Prelude.{observed_of, read_event, write_event, IsInRange, IsShaped, step, step_start, final_from, seen_at, trace_from};
ghost use Rattle.banks.specs.Prelude.{accesses_from, oblivious};
ghost use Rattle.processor.specs.Ends.{AfterCalls, Broke, BrokeOff, EndsAs, is_spent};
ghost use Rattle.processor.specs.ObliviousBanks.{ComeBy, ShowsOn};
ghost use Rattle.processor.specs.Pauses.{PausesAt};
ghost use Rattle.processor.specs.Quick.{RunsAlikeOn, StandsForStep};
ghost use Rattle.processor.specs.Stepping.{CameTo, NamesSlot, StaysIfFaulted, StepBroke, StepTold, leaves_of, outcome_of, told_of_step};
ghost use Rattle.processor.specs.Watching.{run_shown, with_path};

use crate::done::{Untold, Went};
use crate::ends::End;
use crate::machine::Machine;
use crate::quick::{Point, run_quickly};
use crate::scratchpad::Held;
use crate::watching::{Watch, WatchFailed};
use banks::{Bank, Leaves};
use lt_isa::{BankKind, Event, bank_kind};

impl<'a, B: Bank + Drop> Machine<'a, B> {
    /// Runs the machine as long as the next instruction starts below this cycle. The watcher receives each event in
    /// order and, after each access to an oblivious bank, the paths that it showed.
    ///
    /// Returns Halted with the cycle at which a halt started, and Spent if none did: then the machine can be run on
    /// with more cycles. If the watcher fails, the machine is dead, in the state after the access that the watcher
    /// failed at. Allocates no memory.
    pub fn run<W: Watch>(&mut self, cycles: u32, watch: &mut W) -> Result<End, WatchFailed>
        requires live { IsTrue self.old.live }
        requires whole { IsTrue (W.whole watch.old) }
        requires some_cycle { 1 ≤ cycles }
        ensures object { self.new.object ≡ self.old.object }
        ensures heard { OnOk result
            (W.hears
            watch.old
            (run_shown B.shows self.old.object self.old.state self.old.orams cycles)
            watch.new) }
        ensures told_before { W.tells watch.new → W.tells watch.old }
        ensures state { OnOk result (self.new.state ≡ final_from self.old.object self.old.state cycles) }
        ensures end { IfOk result (λ end. EndsAs (trace_from self.old.object self.old.state cycles) end) }
        ensures come { OnOk result
            (ComeBy B.comes self.old.orams (accesses_from self.old.object self.old.state cycles) self.new.orams) }
        ensures show_on { OnOk result
            (ComeBy
            (ShowsOn B.shows)
            self.old.orams
            (accesses_from self.old.object self.old.state cycles)
            self.new.orams) }
        ensures live { self.new.live ≡ is_spent result }
        ensures broke { OnErr result
            (Broke
            W.hears
            watch.old
            watch.new
            (W.torn watch.new)
            (run_shown B.shows self.old.object self.old.state self.old.orams cycles)) }
        ensures broke_off { OnErr result
            (BrokeOff
            B.shows
            B.comes
            W.hears
            self.old.object
            self.old.state
            cycles
            self.old.orams
            self.new.orams
            self.new.state
            watch.old
            watch.new
            (W.torn watch.new)) }
        ensures failed { OnErr result (Rose (W.faults watch.old) (W.faults watch.new)) }
        ensures whole { W.whole watch.new ≡ is_ok result }
        ensures count { W.faults watch.old ≤ W.faults watch.new }
        ensures count_stays { W.faults watch.old ≡ 2 ^ 64 - 1 → W.faults watch.new ≡ 2 ^ 64 - 1 }
        ensures same { W.same watch.old watch.new }
    {
        'running: while self.next_access(cycles) < u64::from(cycles) {
            let start = self.start() as u32;
            match self.step(start, watch) {
                Ok(Went::On) => {}
                Ok(Went::Halted) => {
                    self.die();
                    return Ok(End::Halted(start));
                }
                Ok(Went::Faulted) => return Ok(End::Spent),
                Err(e) => {
                    self.die();
                    return Err(e);
                }
            }
        }
        Ok(End::Spent)
    }

    /// Runs the machine on to the next instruction that makes an access, halts or is a fault, or to this cycle. Returns
    /// the cycle at which the next instruction starts. Nothing is shown on the way, so no watcher is needed. Allocates no
    /// memory.
    pub fn run_to_access(&mut self, cycles: u32) -> u64
        requires { IsTrue self.old.live }
        ensures object { self.new.object ≡ self.old.object }
        ensures live { self.new.live ≡ self.old.live }
        ensures orams { self.new.orams ≡ self.old.orams }
        ensures paused { PausesAt self.old.object self.old.state cycles result self.new.state }
        ensures in_range { IsInRange self.new.object }
        ensures shaped { IsShaped self.new.object self.new.state }
    {
        self.next_access(cycles)
    }

    // Runs on to the next instruction that makes an access, halts or is a fault, or to this cycle. Answers the cycle at
    // which the next instruction starts.
    fn next_access(&mut self, cycles: u32) -> u64
        ensures object { self.new.object ≡ self.old.object }
        ensures live { self.new.live ≡ self.old.live }
        ensures orams { self.new.orams ≡ self.old.orams }
        ensures alike { RunsAlikeOn self.old.object self.old.state self.new.state cycles }
        ensures later { self.old.state.cycle ≤ self.new.state.cycle }
        ensures left { self.new.state.cycle < cycles → StandsForStep self.new.object self.new.state }
        ensures start { result ≡ step_start self.new.object self.new.state }
        ensures in_range { IsInRange self.new.object }
        ensures shaped { IsShaped self.new.object self.new.state }
    {
        self.hurry(cycles);
        self.start()
    }

    // Runs on as long as no access is made, up to this cycle.
    fn hurry(&mut self, cycles: u32)
        ensures object { self.new.object ≡ self.old.object }
        ensures live { self.new.live ≡ self.old.live }
        ensures orams { self.new.orams ≡ self.old.orams }
        ensures alike { RunsAlikeOn self.old.object self.old.state self.new.state cycles }
        ensures later { self.old.state.cycle ≤ self.new.state.cycle }
        ensures left { self.new.state.cycle < cycles → StandsForStep self.new.object self.new.state }
    {
        let from = Point {
            place: self.place,
            cycle: self.cycle,
        };
        let to = run_quickly(
            self.object,
            self.flats.as_slice(),
            &mut self.registers,
            &mut self.pad,
            from,
            cycles,
        );
        self.place = to.place;
        self.cycle = to.cycle;
    }

    // One step that the loop between accesses leaves. The watcher receives it, with its start for a stamp.
    #[inline(always)]
    fn step<W: Watch>(&mut self, stamp: u32, watch: &mut W) -> Result<Went, WatchFailed>
        requires start { stamp ≡ step_start self.old.object self.old.state }
        requires left { StandsForStep self.old.object self.old.state }
        requires whole { IsTrue (W.whole watch.old) }
        ensures object { self.new.object ≡ self.old.object }
        ensures live { self.new.live ≡ self.old.live }
        ensures outcome { IfOk result (λ went. CameTo went (step self.old.object self.old.state) self.new.state) }
        ensures stays { IfOk result (λ went. StaysIfFaulted went self.old.state self.new.state) }
        ensures heard { OnOk result
            (StepTold
            B.shows
            B.comes
            W.hears
            self.old.object
            self.old.state
            self.old.orams
            self.new.orams
            watch.old
            watch.new) }
        ensures broke { OnErr result
            (StepBroke
            B.shows
            B.comes
            W.hears
            self.old.object
            self.old.state
            self.old.orams
            self.new.orams
            self.new.state
            watch.old
            watch.new
            (W.torn watch.new)) }
        ensures after { AfterCalls W.tells W.faults W.whole W.same result watch.old watch.new }
    {
        let Some(instruction) = self.fetch() else {
            return Ok(Went::Faulted);
        };
        let done = self.execute(instruction);
        match self.tell(stamp, &done, watch) {
            Ok(()) => Ok(done.went()),
            Err(e) => Err(e),
        }
    }

    // Tells the watcher what an instruction left to be told.
    fn tell<W: Watch>(&self, stamp: u32, done: &Untold, watch: &mut W) -> Result<(), WatchFailed>
        requires slot { NamesSlot done.now self.now.state }
        requires whole { IsTrue (W.whole watch.old) }
        ensures heard { OnOk result
            (W.hears
            watch.old
            (told_of_step stamp (outcome_of done.now self.now.state) (leaves_of done.now))
            watch.new) }
        ensures broke { OnErr result
            (Broke
            W.hears
            watch.old
            watch.new
            (W.torn watch.new)
            (told_of_step stamp (outcome_of done.now self.now.state) (leaves_of done.now))) }
        ensures after { AfterCalls W.tells W.faults W.whole W.same result watch.old watch.new }
    {
        match done {
            Untold::Fault => Ok(()),
            Untold::Stopped => tell_access(stamp, &Event::Halt, &Leaves::none(), watch),
            Untold::Read { slot, leaves } => match self.pad.held(*slot) {
                Some(held) => tell_access(stamp, &read_of(&held), leaves, watch),
                None => Ok(()),
            },
            Untold::Wrote { slot, leaves } => match self.pad.held(*slot) {
                Some(held) => tell_access(stamp, &write_of(&held), leaves, watch),
                None => Ok(()),
            },
        }
    }

    // The machine isn't run any more.
    fn die(&mut self)
        ensures { self.new ≡ record self.old { live = false } }
    {
        self.live = false;
    }
}

// Tells the watcher of an access to a bank and, where the bank is an oblivious one, of the paths that it showed.
fn tell_access<W: Watch>(
    stamp: u32,
    event: &Event,
    leaves: &Leaves,
    watch: &mut W,
) -> Result<(), WatchFailed>
    requires whole { IsTrue (W.whole watch.old) }
    ensures heard { OnOk result
        (W.hears
        watch.old
        (with_path (seen_at stamp (observed_of event.now)) leaves.now)
        watch.new) }
    ensures broke { OnErr result
        (Broke
        W.hears
        watch.old
        watch.new
        (W.torn watch.new)
        (with_path (seen_at stamp (observed_of event.now)) leaves.now)) }
    ensures after { AfterCalls W.tells W.faults W.whole W.same result watch.old watch.new }
{
    match watch.seen(stamp, event) {
        Ok(()) => {}
        Err(e) => return Err(e),
    }
    let Some(bank) = oblivious_bank(event) else {
        return Ok(());
    };
    match watch.path(stamp, bank, leaves) {
        Ok(()) => Ok(()),
        Err(e) => Err(e),
    }
}

// The oblivious bank that an event is an access to.
fn oblivious_bank(event: &Event) -> Option<u8>
    ensures { result ≡ oblivious (observed_of event.now) }
{
    match event {
        Event::Oram(bank) => Some(*bank),
        Event::RamRead(..) | Event::RamWrite(..) => None,
        Event::EncRead(_) | Event::EncWrite(_) => None,
        Event::Halt => None,
    }
}

// What is seen of reading the block that a slot is bound to.
fn read_of<'b>(held: &Held<'b>) -> Event<'b>
    ensures { observed_of result ≡ read_event held.now.bank held.now.block held.now.words.now }
{
    match bank_kind(held.bank) {
        BankKind::Plain => Event::RamRead(held.block, held.words),
        BankKind::Encrypted => Event::EncRead(held.block),
        BankKind::Oblivious => Event::Oram(held.bank),
    }
}

// What is seen of writing the block that a slot is bound to.
fn write_of<'b>(held: &Held<'b>) -> Event<'b>
    ensures { observed_of result ≡ write_event held.now.bank held.now.block held.now.words.now }
{
    match bank_kind(held.bank) {
        BankKind::Plain => Event::RamWrite(held.block, held.words),
        BankKind::Encrypted => Event::EncWrite(held.block),
        BankKind::Oblivious => Event::Oram(held.bank),
    }
}
