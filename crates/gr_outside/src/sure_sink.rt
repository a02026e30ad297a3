ghost use Rattle.std.specs.Option.{unwrap_or};
ghost use Rattle.std.specs.Prelude.{◌≡◌, ◌≤◌, ◌↔◌, [], IfOk, IfSome, IsOk, IsSome, Some, length};
ghost use Rattle.gr_outside.specs.SureSink.{after_counted_put};

use crate::sink::{Sink, SinkFailed};
use gr_base::Memory;
use std::alloc::Global;
use std::marker::Model;

/// A sink in memory that never fails. It counts the bytes that it is given. It holds them, visible to contracts, as
/// long as they fit its room. No call takes memory.
#[derive(Debug, Drop)]
pub struct SureSink {
    bytes: Vec<u8>,
    room: usize,
    put: usize,
}

impl Model for SureSink {
    ghost use Rattle.std.specs.Prelude.{◌≡◌, ◌≤◌, Some, None, nat_le, if◌then◌else◌, length, vec_capacity};
    ghost use Rattle.gr_outside.specs.SureSink.{Counted};

    ghost Value = { Counted };

    ghost view = { λ s.
        record { put = s.put; room = s.room; held = if nat_le s.put s.room then Some s.bytes.items else None } };

    ghost invariant = { λ s. (s.room ≤ vec_capacity s.bytes) × (s.put ≤ s.room → length s.bytes.items ≡ s.put) };
}

impl SureSink {
    /// A sink without room, for which no memory is reserved.
    pub fn new(alloc: Global) -> SureSink
        ensures { result ≡ record { put = 0; room = 0; held = Some [] } }
    {
        SureSink {
            bytes: Vec::new(alloc),
            room: 0,
            put: 0,
        }
    }

    /// A sink with room for `bytes` bytes, which is reserved here.
    pub fn with_room(alloc: Global, bytes: usize) -> Result<SureSink, Memory>
        ensures { IfOk result (λ sink. sink ≡ record { put = 0; room = bytes; held = Some [] }) }
    {
        Ok(SureSink {
            bytes: Vec::with_capacity(alloc, bytes)?,
            room: bytes,
            put: 0,
        })
    }

    /// The bytes that the sink was given, if they fit the room, and otherwise none.
    pub fn held(&self) -> &[u8]
        ensures { result.now ≡ unwrap_or self.now.held [] }
    {
        if self.put <= self.room {
            self.bytes.as_slice()
        } else {
            &[]
        }
    }
}

impl Sink for SureSink {
    ghost use Rattle.gr_outside.specs.Sink.{SinkSeen};

    ghost seen = { λ s. record { held = s.held; faults = 0 } };

    ghost waiting = { λ _. 0 };

    fn put(&mut self, bytes: &[u8]) -> Result<(), SinkFailed>
        ensures ok { IsOk result }
        ensures after { self.new ≡ after_counted_put bytes.now self.old }
        ensures tells { IsSome self.new.held ↔ (self.new.put ≤ self.new.room) }
    {
        self.put = self.put.saturating_add(bytes.len());
        if self.put > self.room {
            return Ok(());
        }
        match self.bytes.extend_from_slice(bytes) {
            Ok(()) => Ok(()),
            Err(_) => unreachable!(),
        }
    }

    /// How many bytes the sink was given, up to 2^64 - 1.
    fn mark(&self) -> usize
        ensures put { result ≡ self.now.put }
        ensures told { IfSome self.now.held (λ bytes. result ≡ length bytes) }
    {
        self.put
    }

    /// Does nothing.
    fn flush(&mut self) -> Result<(), SinkFailed>
        ensures ok { IsOk result }
        ensures stays { self.new ≡ self.old }
    {
        // Nothing is held back.
        Ok(())
    }
}
