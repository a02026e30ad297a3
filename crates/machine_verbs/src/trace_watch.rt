ghost use Rattle.std.proofs.Common.{refl, ◌∙◌};
ghost use Rattle.std.specs.Prelude.{◌≡◌, ◌≤◌, [], length, take, true};
ghost use Rattle.machine_verbs.specs.Growing.{Grows-itself, Grows-through};
ghost use Rattle.lt_isa.specs.Prelude.{Stamped};
ghost use Rattle.machine_verbs.specs.Watched.{Grows, HoldsLines, HoldsTold, Tears};
ghost use Rattle.processor.specs.Prelude.{tells-none, tells-then, TellsMore};

use gr_outside::Sink;
use lt_isa::Event;
use processor::{Leaves, Watch, WatchFailed};
use run_data::{put_event, put_path};

/// A watcher that writes the line of each event to a sink, and with paths the line of each path.
///
/// It keeps the sink's mark from when it was made, its mark before the last line, and whether every write has
/// succeeded.
#[derive(Drop)]
pub struct TraceWatch<'a, O: Sink> {
    out: &'a mut O,
    start: usize,
    stop: usize,
    whole: bool,
    paths: bool,
}

impl<'a, O: Sink> TraceWatch<'a, O> {
    /// A watcher that appends its lines to the sink's bytes, with those of paths or without.
    pub fn new(out: &'a mut O, paths: bool) -> TraceWatch<'a, O>
        ensures same_sink { result.out.ghost_name ≡ out.entry.ghost_name }
        ensures same_bytes { (O.seen result.out.now).held ≡ (O.seen out.old).held }
        ensures same_count { (O.seen result.out.now).faults ≡ (O.seen out.old).faults }
        ensures nothing { HoldsLines (O.seen result.out.now).held result.start result.stop result.whole [] }
        ensures whole { result.whole ≡ true }
        ensures paths { result.paths ≡ paths }
    {
        let start = out.mark();
        TraceWatch {
            out,
            start,
            stop: start,
            whole: true,
            paths,
        }
    }
}

impl<'a, O: Sink> Watch for TraceWatch<'a, O> {
    ghost hears = { λ w told v. TellsMore
        (HoldsTold w.paths (O.seen w.out.now).held w.start w.stop w.whole)
        (HoldsTold v.paths (O.seen v.out.now).held v.start v.stop v.whole) told };

    ghost tells = { λ w. ⊥ };

    ghost faults = { λ w. (O.seen w.out.now).faults };

    ghost whole = { λ w. w.whole };

    ghost torn = { λ w shown. Tears w.paths (O.seen w.out.now).held w.stop shown };

    ghost same = { λ w v. (w.out.ghost_name ≡ v.out.ghost_name) × (w.start ≡ v.start)
        × Grows (O.seen w.out.now).held (O.seen v.out.now).held
        × (v.whole ≡ true → (w.whole ≡ true) × ((O.seen v.out.now).faults ≡ (O.seen w.out.now).faults))
        × (w.paths ≡ v.paths) };

    fn seen(&mut self, stamp: u32, event: &Event) -> Result<(), WatchFailed> {
        self.stop = self.out.mark();
        match put_event(self.out, stamp, event) {
            Ok(()) => Ok(()),
            Err(_) => {
                self.whole = false;
                Err(WatchFailed)
            }
        }
    }

    fn path(&mut self, stamp: u32, bank: u8, leaves: &Leaves) -> Result<(), WatchFailed> {
        if !self.paths {
            return Ok(());
        }
        self.stop = self.out.mark();
        match put_path(self.out, stamp, bank, listed(leaves)) {
            Ok(()) => Ok(()),
            Err(_) => {
                self.whole = false;
                Err(WatchFailed)
            }
        }
    }

    ghost hears_none = { λ w whole. tells-none (HoldsTold w.paths (O.seen w.out.now).held w.start w.stop w.whole) };

    ghost hears_then = { λ first second third told more one two. tells-then
        (HoldsTold first.paths (O.seen first.out.now).held first.start first.stop first.whole)
        (HoldsTold second.paths (O.seen second.out.now).held second.start second.stop second.whole)
        (HoldsTold third.paths (O.seen third.out.now).held third.start third.stop third.whole) told more one two };

    ghost events_once = { λ before now told other tells one two. absurd tells };

    ghost same_itself = { λ w. (refl, refl, Grows-itself (O.seen w.out.now).held, λ whole. (whole, refl), refl) };

    ghost same_through = { λ before between after first second. (
      first.0 ∙ second.0,
      first.1 ∙ second.1,
      Grows-through (O.seen before.out.now).held (O.seen between.out.now).held
          (O.seen after.out.now).held first.2 second.2,
      λ whole. let later = second.3 whole in let sooner = first.3 later.0 in (sooner.0, later.1 ∙ sooner.1),
      first.4 ∙ second.4,
    ) };
}

// The leaves that are listed.
fn listed(leaves: &Leaves) -> &[u32]
    ensures value { result.now ≡ take leaves.now.len leaves.now.at }
    ensures most { length result.now ≤ 6 }
{
    if leaves.len < 6 {
        &leaves.at[..leaves.len as usize]
    } else {
        &leaves.at
    }
}
