ghost use Rattle.std.proofs.Common.{refl, ◌∙◌};
ghost use Rattle.std.specs.Prelude.{◌≡◌, ◌≤◌, ◌++◌, [], codes, decimal, length, true};
ghost use Rattle.bus_arbiter.specs.Prelude.{moved_by};
ghost use Rattle.lt_isa.specs.Prelude.{observed_of};
ghost use Rattle.run_data.specs.Prelude.{PutsText, event_line};
ghost use Rattle.machine_verbs.specs.Growing.{Grows-itself, Grows-through};
ghost use Rattle.call_steps.specs.Prelude.{core_line, halt_text, transfer_line};
ghost use Rattle.machine_verbs.specs.Watched.{Grows, HoldsLines, HoldsTransfers, TearsTransfer};
ghost use Rattle.processor.specs.Prelude.{tells-none, tells-then, TellsMore};

use bus_arbiter::BusWatch;
use gr_outside::{Sink, SinkFailed};
use itoa::Buffer;
use lt_isa::Event;
use processor::WatchFailed;
use run_data::put_event;

/// A watcher of a bus that writes the line of each transfer to a sink: the core, a space, and the line of its event.
///
/// It keeps the sink's mark from when it was made, its mark before the last line, and whether every write has
/// succeeded.
#[derive(Drop)]
pub struct BusLines<'a, O: Sink> {
    out: &'a mut O,
    start: usize,
    stop: usize,
    whole: bool,
}

impl<'a, O: Sink> BusLines<'a, O> {
    /// A watcher that appends its lines to the sink's bytes.
    pub fn new(out: &'a mut O) -> BusLines<'a, O>
        ensures same_sink { result.out.ghost_name ≡ out.entry.ghost_name }
        ensures same_bytes { (O.seen result.out.now).held ≡ (O.seen out.old).held }
        ensures same_count { (O.seen result.out.now).faults ≡ (O.seen out.old).faults }
        ensures nothing { HoldsLines (O.seen result.out.now).held result.start result.stop result.whole [] }
        ensures whole { result.whole ≡ true }
    {
        let start = out.mark();
        BusLines {
            out,
            start,
            stop: start,
            whole: true,
        }
    }
}

impl<'a, O: Sink> BusWatch for BusLines<'a, O> {
    ghost hears = { λ w told v. TellsMore
        (HoldsTransfers (O.seen w.out.now).held w.start w.stop w.whole)
        (HoldsTransfers (O.seen v.out.now).held v.start v.stop v.whole) told };

    ghost tells = { λ w. ⊥ };

    ghost faults = { λ w. (O.seen w.out.now).faults };

    ghost whole = { λ w. w.whole };

    ghost torn = { λ w transfer. TearsTransfer (O.seen w.out.now).held w.stop transfer };

    ghost same = { λ w v. (w.out.ghost_name ≡ v.out.ghost_name) × (w.start ≡ v.start)
        × Grows (O.seen w.out.now).held (O.seen v.out.now).held
        × (v.whole ≡ true → (w.whole ≡ true) × ((O.seen v.out.now).faults ≡ (O.seen w.out.now).faults)) };

    fn transfer(&mut self, core: u8, stamp: u32, event: &Event) -> Result<(), WatchFailed> {
        self.stop = self.out.mark();
        match put_transfer(self.out, core, stamp, event) {
            Ok(()) => Ok(()),
            Err(_) => {
                self.whole = false;
                Err(WatchFailed)
            }
        }
    }

    ghost hears_none = { λ w whole. tells-none (HoldsTransfers (O.seen w.out.now).held w.start w.stop w.whole) };

    ghost hears_then = { λ first second third told more one two. tells-then
        (HoldsTransfers (O.seen first.out.now).held first.start first.stop first.whole)
        (HoldsTransfers (O.seen second.out.now).held second.start second.stop second.whole)
        (HoldsTransfers (O.seen third.out.now).held third.start third.stop third.whole) told more one two };

    ghost transfers_once = { λ before now told other tells one two. absurd tells };

    ghost same_itself = { λ w. (refl, refl, Grows-itself (O.seen w.out.now).held, λ whole. (whole, refl)) };

    ghost same_through = { λ before between after first second. (
      first.0 ∙ second.0,
      first.1 ∙ second.1,
      Grows-through (O.seen before.out.now).held (O.seen between.out.now).held
          (O.seen after.out.now).held first.2 second.2,
      λ whole. let later = second.3 whole in let sooner = first.3 later.0 in (sooner.0, later.1 ∙ sooner.1),
    ) };
}

// Puts the line of a transfer. It takes no memory.
fn put_transfer<O: Sink>(out: &mut O, core: u8, stamp: u32, event: &Event) -> Result<(), SinkFailed>
    ensures { PutsText (O.seen out.old).held (O.seen out.new).held (O.seen out.old).faults (O.seen out.new).faults
        (transfer_line (moved_by core stamp (observed_of event.now))) result }
{
    match put_number_and(out, u32::from(core), b" ") {
        Ok(()) => {}
        Err(error) => return Err(error),
    }
    put_event_line(out, stamp, event)
}

// Puts the line of an event.
fn put_event_line<O: Sink>(out: &mut O, stamp: u32, event: &Event) -> Result<(), SinkFailed>
    ensures { PutsText (O.seen out.old).held (O.seen out.new).held (O.seen out.old).faults (O.seen out.new).faults
        (event_line stamp (observed_of event.now)) result }
{
    put_event(out, stamp, event)
}

/// Puts the line of a core: at which cycle it halted, if it did. It takes no memory.
pub(crate) fn put_core<O: Sink>(out: &mut O, core: u8, halt: Option<u32>) -> Result<(), SinkFailed>
    ensures { PutsText (O.seen out.old).held (O.seen out.new).held (O.seen out.old).faults (O.seen out.new).faults
        (core_line core halt) result }
{
    match put_and_number(out, b"core ", u32::from(core)) {
        Ok(()) => {}
        Err(error) => return Err(error),
    }
    put_halt(out, halt)
}

// Puts the rest of that line.
fn put_halt<O: Sink>(out: &mut O, halt: Option<u32>) -> Result<(), SinkFailed>
    ensures { PutsText (O.seen out.old).held (O.seen out.new).held (O.seen out.old).faults (O.seen out.new).faults
        (halt_text halt) result }
{
    match halt {
        Some(at) => put_halted(out, at),
        None => put_bytes(out, b" spent\n"),
    }
}

fn put_halted<O: Sink>(out: &mut O, at: u32) -> Result<(), SinkFailed>
    ensures { PutsText (O.seen out.old).held (O.seen out.new).held (O.seen out.old).faults (O.seen out.new).faults
        (codes " halted " ++ decimal at ++ codes "\n") result }
{
    match put_and_number(out, b" halted ", at) {
        Ok(()) => {}
        Err(error) => return Err(error),
    }
    put_bytes(out, b"\n")
}

// Puts some bytes, and then the digits of a number.
fn put_and_number<O: Sink>(out: &mut O, bytes: &[u8], number: u32) -> Result<(), SinkFailed>
    ensures { PutsText (O.seen out.old).held (O.seen out.new).held (O.seen out.old).faults (O.seen out.new).faults
        (bytes.now ++ decimal number) result }
{
    match put_bytes(out, bytes) {
        Ok(()) => {}
        Err(error) => return Err(error),
    }
    put_number(out, number)
}

// Puts the digits of a number, and then some bytes.
fn put_number_and<O: Sink>(out: &mut O, number: u32, bytes: &[u8]) -> Result<(), SinkFailed>
    requires some { 1 ≤ length bytes.now }
    ensures { PutsText (O.seen out.old).held (O.seen out.new).held (O.seen out.old).faults (O.seen out.new).faults
        (decimal number ++ bytes.now) result }
{
    match put_number(out, number) {
        Ok(()) => {}
        Err(error) => return Err(error),
    }
    put_bytes(out, bytes)
}

// Puts the digits of a number.
fn put_number<O: Sink>(out: &mut O, number: u32) -> Result<(), SinkFailed>
    ensures { PutsText (O.seen out.old).held (O.seen out.new).held (O.seen out.old).faults (O.seen out.new).faults
        (decimal number) result }
{
    let mut buffer = Buffer::new();
    put_bytes(out, buffer.format(number).as_bytes())
}

// Puts some bytes.
fn put_bytes<O: Sink>(out: &mut O, bytes: &[u8]) -> Result<(), SinkFailed>
    ensures { PutsText (O.seen out.old).held (O.seen out.new).held (O.seen out.old).faults (O.seen out.new).faults
        bytes.now result }
{
    out.put(bytes)
}
