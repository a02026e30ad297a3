ghost use Rattle.std.specs.Prelude.{◌≡◌, ◌≤◌, [], IfOk, IsOk, Some, is_err, length};
ghost use Rattle.gr_outside.specs.MemSink.{after_put, put_fails};

use crate::sink::{Sink, SinkFailed};
use gr_base::{CallCounter, Memory};
use std::alloc::Global;
use std::marker::Model;

/// A sink in memory, whose bytes are visible to contracts. The calls of `put` are numbered from 0. Those with chosen
/// numbers fail, and so does a call whose bytes would exceed the room. No call takes memory.
#[derive(Debug, Drop)]
pub struct MemSink {
    bytes: Vec<u8>,
    room: usize,
    calls: CallCounter,
    faults: u64,
}

impl Model for MemSink {
    ghost use Rattle.std.specs.Prelude.{◌≤◌, length, vec_capacity};
    ghost use Rattle.gr_outside.specs.MemSink.{Held};

    ghost Value = { Held };

    ghost view = { λ s. record { bytes = s.bytes.items; room = s.room; calls = s.calls; faults = s.faults } };

    ghost invariant = { λ s. (s.room ≤ vec_capacity s.bytes) × (length s.bytes.items ≤ s.room) };
}

impl MemSink {
    /// A sink with room for `room` bytes, which is reserved here. The calls of `put` with the numbers in `failing`
    /// fail.
    pub fn new(alloc: Global, failing: Vec<u32>, room: usize) -> Result<MemSink, Memory>
        ensures { IfOk result (λ sink. sink ≡ record {
          bytes = [];
          room = room;
          calls = record { failing = failing.items; next = 0 };
          faults = 0;
        }) }
    {
        let bytes = Vec::with_capacity(alloc, room)?;
        Ok(MemSink {
            bytes,
            room,
            calls: CallCounter::new(failing),
            faults: 0,
        })
    }

    /// The bytes that were put.
    pub fn held(&self) -> &[u8]
        ensures { result.now ≡ self.now.bytes }
    {
        self.bytes.as_slice()
    }
}

impl Sink for MemSink {
    ghost use Rattle.gr_outside.specs.Sink.{SinkSeen};

    ghost seen = { λ s. record { held = Some s.bytes; faults = s.faults } };

    ghost waiting = { λ _. 0 };

    #[tactic(auto, using(gr_base::proofs::Counts::rose_by_one))]
    fn put(&mut self, bytes: &[u8]) -> Result<(), SinkFailed>
        ensures exactly_failing { is_err result ≡ put_fails bytes.now self.old }
        ensures after { self.new ≡ after_put bytes.now self.old }
        ensures count { self.old.faults ≤ self.new.faults }
    {
        if self.calls.call() || bytes.len() > self.room - self.bytes.len() {
            self.faults = self.faults.saturating_add(1);
            return Err(SinkFailed);
        }
        match self.bytes.extend_from_slice(bytes) {
            Ok(()) => Ok(()),
            Err(_) => unreachable!(),
        }
    }

    /// Does nothing. A flush has no number and never fails.
    fn flush(&mut self) -> Result<(), SinkFailed>
        ensures ok { IsOk result }
        ensures stays { self.new ≡ self.old }
    {
        // Nothing is held back.
        Ok(())
    }

    fn mark(&self) -> usize
        ensures { result ≡ length self.now.bytes }
    {
        self.bytes.len()
    }
}
