ghost use Rattle.std.specs.Prelude.{◌≡◌, ◌∷◌, ◌++◌, [], IfOk, OnErr, OnOk, map};
ghost use Rattle.lt_isa.specs.Prelude.{observed_of, seen_at};
ghost use Rattle.run_tools.specs.EventParts.{kind_of, number_of, words_of};
ghost use Rattle.run_tools.specs.Recorded.{observed_in, stamped_of};

use gr_base::Memory;
use lt_isa::Event;
use processor::{Leaves, Watch, WatchFailed};
use std::alloc::Global;
use std::collections::VecDeque;

/// An event with its own copy of the words that it shows.
#[derive(Drop)]
pub enum OwnedEvent {
    RamRead(u32, Vec<i64>),
    RamWrite(u32, Vec<i64>),
    EncRead(u32),
    EncWrite(u32),
    Oram(u8),
    Halt,
}

impl OwnedEvent {
    /// A copy of an event.
    pub fn copy_of(alloc: Global, event: &Event) -> Result<OwnedEvent, Memory>
        ensures { IfOk result (λ owned. observed_in owned ≡ observed_of event.now) }
    {
        match event {
            Event::RamRead(block, words) => {
                Ok(OwnedEvent::RamRead(*block, Vec::from_slice(alloc, words)?))
            }
            Event::RamWrite(block, words) => {
                Ok(OwnedEvent::RamWrite(*block, Vec::from_slice(alloc, words)?))
            }
            Event::EncRead(block) => Ok(OwnedEvent::EncRead(*block)),
            Event::EncWrite(block) => Ok(OwnedEvent::EncWrite(*block)),
            Event::Oram(bank) => Ok(OwnedEvent::Oram(*bank)),
            Event::Halt => Ok(OwnedEvent::Halt),
        }
    }

    /// What distinguishes the event from others.
    pub(crate) fn parts(&self) -> EventParts<'_>
        ensures kind { result.kind ≡ kind_of (observed_in self.now) }
        ensures number { result.number ≡ number_of (observed_in self.now) }
        ensures words { result.words.now ≡ words_of (observed_in self.now) }
    {
        match self {
            OwnedEvent::RamRead(block, words) => parts_of(0, *block, words.as_slice()),
            OwnedEvent::RamWrite(block, words) => parts_of(1, *block, words.as_slice()),
            OwnedEvent::EncRead(block) => parts_of(2, *block, &[]),
            OwnedEvent::EncWrite(block) => parts_of(3, *block, &[]),
            OwnedEvent::Oram(bank) => parts_of(4, u32::from(*bank), &[]),
            OwnedEvent::Halt => parts_of(5, 0, &[]),
        }
    }
}

/// The parts of an event: the number of its kind, that of its block or bank, and the words that it shows.
#[derive(Clone, Copy)]
pub(crate) struct EventParts<'a> {
    pub(crate) kind: u8,
    pub(crate) number: u32,
    pub(crate) words: &'a [i64],
}

fn parts_of(kind: u8, number: u32, words: &[i64]) -> EventParts<'_>
    ensures kind { result.kind ≡ kind }
    ensures number { result.number ≡ number }
    ensures words { result.words.now ≡ words.now }
{
    EventParts {
        kind,
        number,
        words,
    }
}

/// An event of a trace with its stamp, the cycle at which its instruction starts.
#[derive(Drop)]
pub struct Recorded {
    pub stamp: u32,
    pub event: OwnedEvent,
}

/// A watcher that records the events that it receives, and ignores paths. It fails only if memory runs out.
#[derive(Drop)]
pub(crate) struct Recorder {
    alloc: Global,
    pub(crate) events: VecDeque<Recorded>,
    faults: u64,
}

impl Recorder {
    /// A recorder of no events yet.
    pub(crate) fn new(alloc: Global) -> Recorder
        ensures events { result.events.items ≡ [] }
        ensures faults { result.faults ≡ 0 }
    {
        Recorder {
            alloc,
            events: VecDeque::new(alloc),
            faults: 0,
        }
    }

    // Records an event. If memory runs out, nothing is recorded.
    fn record(&mut self, stamp: u32, event: &Event) -> Result<(), Memory>
        ensures recorded { OnOk result
            (map stamped_of self.new.events.items
            ≡ map stamped_of self.old.events.items ++ seen_at stamp (observed_of event.now) ∷ []) }
        ensures unrecorded { OnErr result (self.new.events.items ≡ self.old.events.items) }
        ensures faults { self.new.faults ≡ self.old.faults }
    {
        let event = OwnedEvent::copy_of(self.alloc, event)?;
        self.events.push_back(Recorded { stamp, event })?;
        Ok(())
    }
}

impl Watch for Recorder {
    ghost use Rattle.std.specs.Prelude.{◌==◌};
    ghost use Rattle.run_tools.specs.Recorded.{Records, records-none, records-then};

    ghost hears = { λ before told now. Records before.events.items told now.events.items };

    ghost tells = { λ watcher. ⊥ };

    ghost faults = { λ watcher. watcher.faults };

    ghost whole = { λ watcher. watcher.faults == 0 };

    ghost torn = { λ watcher shown. Unit {0} };

    ghost same = { λ before after. Unit {0} };

    #[tactic(auto, using(gr_base::proofs::Counts::rose_by_one))]
    fn seen(&mut self, stamp: u32, event: &Event) -> Result<(), WatchFailed> {
        match self.record(stamp, event) {
            Ok(()) => Ok(()),
            Err(_) => {
                self.faults = self.faults.saturating_add(1);
                Err(WatchFailed)
            }
        }
    }

    fn path(&mut self, _stamp: u32, _bank: u8, _leaves: &Leaves) -> Result<(), WatchFailed> {
        Ok(())
    }

    ghost hears_none = { λ watcher whole. records-none watcher.events.items };

    ghost hears_then = { λ first second third told more one two.
        records-then first.events.items second.events.items third.events.items told more one two };

    ghost events_once = { λ before now told other tells one two. absurd tells };

    ghost same_itself = { λ watcher. tt };

    ghost same_through = { λ before between after first second. tt };
}
