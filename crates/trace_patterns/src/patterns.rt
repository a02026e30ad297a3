ghost use Rattle.std.specs.Prelude.{◌≡◌, ◌↔◌, ◌+◌, ◌<◌, ◌^◌, IsTrue, OnOk, OnErr};
ghost use Rattle.trace_patterns.specs.Patterns.{no_events, with_gap, with_event, joined, first_gap};

use crate::events::SymEvent;
use gr_base::Memory;
use std::alloc::Global;
use std::marker::Model;

/// What a stretch of code shows: its events and, between them, gaps. A gap is the number of cycles that the
/// instructions without an event take there; the cycles of an event's own instruction are in no gap. Contracts see a
/// pattern as a list of events, each with the gap before it, and a last gap.
#[derive(Debug, Drop)]
pub struct Pattern {
    parts: Vec<(u64, SymEvent)>,
    last: u64,
}

impl Model for Pattern {
    ghost use Rattle.trace_patterns.specs.declared.events.SymEvent.{SymEvent as OneEvent};
    ghost use Rattle.trace_patterns.specs.Patterns.{Shown};

    ghost Value = { Shown OneEvent };

    ghost view = { λ p. record { parts = p.parts.items; last = p.last } };
}

impl Pattern {
    /// No event and a gap of 0 cycles.
    pub fn new(alloc: Global) -> Pattern
        ensures { result ≡ no_events }
    {
        Pattern {
            parts: Vec::new(alloc),
            last: 0,
        }
    }

    /// Adds cycles to the last gap.
    pub fn push_gap(&mut self, cycles: u32)
        requires { self.old.last + cycles < 2 ^ 63 }
        ensures { self.new ≡ with_gap self.old cycles }
    {
        self.last += cycles as u64;
    }

    /// Adds an event after the last gap, and then a gap of 0 cycles. Running out of memory leaves the pattern as it
    /// was.
    pub fn push_event(&mut self, event: SymEvent) -> Result<(), Memory>
        ensures added { OnOk result (self.new ≡ with_event self.old event) }
        ensures unchanged { OnErr result (self.new ≡ self.old) }
    {
        self.parts.push((self.last, event))?;
        self.last = 0;
        Ok(())
    }

    /// Adds another pattern at the end; the last gap and the first gap of the other become one. Running out of memory
    /// leaves the pattern as it was.
    pub fn append(&mut self, other: &Pattern) -> Result<(), Memory>
        requires { self.old.last + first_gap other.now < 2 ^ 63 }
        ensures added { OnOk result (self.new ≡ joined self.old other.now) }
        ensures unchanged { OnErr result (self.new ≡ self.old) }
    {
        let start = self.parts.len();
        self.parts.extend_from_slice(other.parts.as_slice())?;
        if start < self.parts.len() {
            self.parts[start].0 += self.last;
            self.last = other.last;
        } else {
            self.last += other.last;
        }
        Ok(())
    }

    /// Whether two patterns are equal: the same events with the same gaps.
    pub fn same(&self, other: &Pattern) -> bool
        ensures { IsTrue result ↔ (self.now ≡ other.now) }
    {
        self.last == other.last && self.parts == other.parts
    }
}
