ghost use Rattle.std.specs.Prelude.{◌≡◌, ◌==◌, ◌<◌, ◌≤◌, [], ◌∷◌, IfOk, OnErr, OnOk, is_err, length, slice_index_or};
ghost use Rattle.lt_isa.specs.Prelude.{observed_of, Halted, seen_at};
ghost use Rattle.processor.specs.ListWatching.{KeepsMore, after_path, after_seen, path_fails, seen_fails};
ghost use Rattle.processor.specs.Watching.{AnEvent, APath};

use crate::event_list::{EventList, push_within};
use crate::watching::{Watch, WatchFailed};
use banks::Leaves;
use gr_base::{CallCounter, Memory};
use lt_isa::Event;
use std::alloc::Global;
use std::marker::Model;

/// The paths that an access to an oblivious bank showed, with the stamp of its event and the number of events that were
/// told before, its own among them.
#[derive(Clone, Copy, Debug, PartialEq, Eq)]
pub struct ShownPaths {
    pub place: usize,
    pub stamp: u32,
    pub bank: u8,
    pub leaves: Leaves,
}

/// A watcher that records its reports, in rooms that are made before, and always reveals them. Its calls are numbered
/// from 0; those whose numbers were chosen fail, and so does a call that would exceed a room. The number stops at 2^64
/// - 1, which is never the number of a call that is to fail. No call allocates memory.
#[derive(Debug, Drop)]
pub struct ListWatch {
    told: EventList,
    paths: Vec<ShownPaths>,
    calls: CallCounter,
    faults: u64,
}

impl Model for ListWatch {
    ghost use Rattle.std.specs.Prelude.{◌≤◌, length, vec_capacity};
    ghost use Rattle.processor.specs.ListWatching.{Heard};

    ghost Value = { Heard };

    ghost view = { λ s. record {
      told = s.told;
      paths = s.paths.items;
      calls = s.calls;
      faults = s.faults;
    } };

    ghost invariant = { λ s. (length s.paths.items ≤ s.told.event_room) × (s.told.event_room ≤ vec_capacity s.paths) };
}

impl ListWatch {
    /// A watcher with room for this many events, for the paths of as many accesses, and for this many words of events.
    /// They are reserved here. The calls with these numbers fail.
    pub fn new(
        alloc: Global,
        failing: Vec<u32>,
        events: usize,
        words: usize,
    ) -> Result<ListWatch, Memory>
        ensures { IfOk result (λ watch. watch ≡ record {
          told = record { events = []; event_room = events; word_room = words };
          paths = [];
          calls = record { failing = failing.items; next = 0 };
          faults = 0;
        }) }
    {
        let told = EventList::new(alloc, events, words)?;
        let paths = Vec::with_capacity(alloc, events)?;
        Ok(ListWatch {
            told,
            paths,
            calls: CallCounter::new(failing),
            faults: 0,
        })
    }

    /// The number of recorded events.
    pub fn len(&self) -> usize
        ensures { result ≡ length self.now.told.events }
    {
        self.told.len()
    }

    /// Whether no event is recorded.
    pub fn is_empty(&self) -> bool
        ensures { result ≡ (length self.now.told.events == 0) }
    {
        self.told.len() == 0
    }

    /// The stamp of event number `i`.
    pub fn stamp(&self, i: usize) -> u32
        requires { i < length self.now.told.events }
        ensures { result ≡ (slice_index_or self.now.told.events i (seen_at 0 Halted)).stamp }
    {
        self.told.stamp(i)
    }

    /// Event number `i`.
    pub fn event(&self, i: usize) -> Event<'_>
        requires { i < length self.now.told.events }
        ensures { observed_of result ≡ (slice_index_or self.now.told.events i (seen_at 0 Halted)).event }
    {
        self.told.event(i)
    }

    /// The recorded paths, in order.
    pub fn paths(&self) -> &[ShownPaths]
        ensures { result.now ≡ self.now.paths }
    {
        self.paths.as_slice()
    }
}

impl Watch for ListWatch {
    ghost use Rattle.std.specs.Prelude.{◌≡◌, ◌==◌, refl};
    ghost use Rattle.std.proofs.Common.{◌∙◌};
    ghost use Rattle.processor.specs.Keeping.{events-once, keeps-none, keeps-then};
    ghost use Rattle.processor.specs.ListWatching.{KeepsMore, SameLimits};

    ghost hears = { KeepsMore };

    ghost tells = { λ watcher. Unit {0} };

    ghost faults = { λ watcher. watcher.faults };

    ghost whole = { λ watcher. watcher.faults == 0 };

    ghost torn = { λ watcher shown. Unit {0} };

    ghost same = { SameLimits };

    #[tactic(auto, using(gr_base::proofs::Counts::rose_by_one))]
    fn seen(&mut self, stamp: u32, event: &Event) -> Result<(), WatchFailed>
        ensures heard { OnOk result
            (KeepsMore self.old (AnEvent (seen_at stamp (observed_of event.now)) ∷ []) self.new) }
        ensures unheard { OnErr result (KeepsMore self.old [] self.new) }
        ensures exactly_failing { is_err result ≡ seen_fails (observed_of event.now) self.old }
        ensures after { self.new ≡ after_seen stamp (observed_of event.now) self.old }
    {
        if self.calls.call() || self.told.is_full_for(event) {
            self.faults = self.faults.saturating_add(1);
            return Err(WatchFailed);
        }
        self.told.push(stamp, event);
        Ok(())
    }

    #[tactic(auto, using(gr_base::proofs::Counts::rose_by_one))]
    fn path(&mut self, stamp: u32, bank: u8, leaves: &Leaves) -> Result<(), WatchFailed>
        ensures heard { OnOk result (KeepsMore self.old (APath stamp bank leaves.now ∷ []) self.new) }
        ensures unheard { OnErr result (KeepsMore self.old [] self.new) }
        ensures exactly_failing { is_err result ≡ path_fails self.old }
        ensures after { self.new ≡ after_path stamp bank leaves.now self.old }
    {
        if self.calls.call() || self.paths.len() >= self.told.event_room() {
            self.faults = self.faults.saturating_add(1);
            return Err(WatchFailed);
        }
        let place = self.told.len();
        push_within(
            &mut self.paths,
            ShownPaths {
                place,
                stamp,
                bank,
                leaves: *leaves,
            },
        );
        Ok(())
    }

    ghost hears_none = { λ watcher whole. keeps-none watcher };

    ghost hears_then = { keeps-then };

    ghost events_once = { λ before now told other tells one two. events-once before now told other one two };

    ghost same_itself = { λ watcher. record { failing = refl; event_room = refl; word_room = refl } };

    ghost same_through = { λ before between after first second. record {
      failing = second.failing ∙ first.failing;
      event_room = second.event_room ∙ first.event_room;
      word_room = second.word_room ∙ first.word_room;
    } };
}
