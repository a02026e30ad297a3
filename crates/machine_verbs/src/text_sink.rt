ghost use Rattle.std.specs.Prelude.{◌≡◌, [], IsOk, Some};

use gr_outside::{Sink, SinkFailed};
use std::alloc::Global;
use std::marker::Model;

/// A sink in memory that grows with the bytes that it takes. It fails only if memory runs out.
#[derive(Debug, Drop)]
pub struct TextSink {
    bytes: Vec<u8>,
    faults: u64,
}

impl Model for TextSink {
    ghost use Rattle.std.specs.Prelude.{Some};
    ghost use Rattle.gr_outside.specs.Sink.{SinkSeen};

    ghost Value = { SinkSeen };

    ghost view = { λ s. record { held = Some s.bytes.items; faults = s.faults } };
}

impl TextSink {
    /// An empty sink.
    pub fn new(alloc: Global) -> TextSink
        ensures { result ≡ record { held = Some []; faults = 0 } }
    {
        TextSink {
            bytes: Vec::new(alloc),
            faults: 0,
        }
    }

    /// All bytes that the sink took.
    pub fn into_bytes(self) -> Vec<u8>
        ensures { self.held ≡ Some result.items }
    {
        self.bytes
    }
}

impl Sink for TextSink {
    ghost use Rattle.gr_outside.specs.Sink.{SinkSeen};

    ghost seen = { λ s. s };

    ghost waiting = { λ _. 0 };

    #[tactic(auto, using(gr_base::proofs::Counts::rose_by_one))]
    fn put(&mut self, bytes: &[u8]) -> Result<(), SinkFailed> {
        match self.bytes.extend_from_slice(bytes) {
            Ok(()) => Ok(()),
            Err(_) => {
                self.faults = self.faults.saturating_add(1);
                Err(SinkFailed)
            }
        }
    }

    /// Does nothing.
    fn flush(&mut self) -> Result<(), SinkFailed>
        ensures ok { IsOk result }
        ensures stays { self.new ≡ self.old }
    {
        // Nothing is held back.
        Ok(())
    }

    fn mark(&self) -> usize {
        self.bytes.len()
    }
}
