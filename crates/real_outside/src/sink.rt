ghost use Rattle.std.specs.Prelude.{◌≡◌, ◌≤◌, ◌↔◌, ◌-◌, ◌+◌, ◌^◌, [], ◌++◌, None, Some, IsSome, MatchOption, OnErr, OnOk, drop, false, length, min, take, true, vec_len};
ghost use Rattle.std.specs.Io.KnownBytes.{Appends, Keeps};
ghost use Rattle.gr_base.specs.Prelude.{one_more, Rose};
ghost use Rattle.real_outside.specs.Gathering.{Takes, TakesLess, gathered, most_waiting};

use crate::failure::Cause;
use gr_outside::{Sink, SinkFailed};
use std::alloc::Global;
use std::io::{Error, ErrorKind, Write};
use std::marker::Model;

/// How many bytes may wait before they are passed to the writer.
const ROOM: usize = 65_536;

/// The cause if a writer took none of the bytes and named no cause.
const TAKES_NONE: &str = "it takes no more bytes";

/// A sink over a writer. It keeps up to 64 KiB waiting and passes them to the writer together; a flush passes the rest.
/// If there is no memory for bytes to wait, they are passed on at once.
/// If `put` returns Ok, its bytes were passed on or are waiting, so a failure of the writer may be reported at a later
/// `put` or at the flush. As a sink its bytes aren't visible to contracts, since those of standard output aren't. Its
/// own clauses state what the writer was handed, if that is visible. [`RealSink::failure`] returns the cause of the
/// last failure.
/// why: over a writer and not the runtime, so that a test can pass one that fails. It buffers the bytes itself: if the
/// standard library's buffered writer fails, it doesn't say what it took.
#[derive(Drop)]
pub struct RealSink<W: Write + Drop> {
    writer: W,
    waiting: Vec<u8>,
    put: usize,
    faults: u64,
    cause: Option<Cause>,
}

impl<W: Write + Drop> Model for RealSink<W> {
    ghost use Rattle.std.specs.Prelude.{◌≤◌, ◌↔◌, IsSome, length};
    ghost use Rattle.real_outside.specs.Gathering.{Gathered, most_waiting};

    ghost Value = { Gathered };

    ghost view = { λ s. record {
      handed = W.contents s.writer;
      waiting = s.waiting.items;
      put = s.put;
      faults = s.faults;
    } };

    ghost invariant = { λ s. (length s.waiting.items ≤ most_waiting) × (IsSome s.cause ↔ (1 ≤ s.faults)) };
}

impl<W: Write + Drop> RealSink<W> {
    /// A sink over this writer. No put has failed yet, and nothing waits.
    pub fn new(alloc: Global, writer: W) -> RealSink<W>
        ensures { result ≡ record { handed = W.contents writer; waiting = []; put = 0; faults = 0 } }
    {
        RealSink {
            writer,
            waiting: Vec::new(alloc),
            put: 0,
            faults: 0,
            cause: None,
        }
    }

    /// Why the last put or flush that failed did so.
    pub fn failure(&self) -> Option<Cause>
        ensures { IsSome result ↔ (1 ≤ self.now.faults) }
    {
        self.cause
    }

    // Adds the bytes to those that wait, and returns whether it did. It doesn't if too many would wait, or if memory runs
    // out.
    fn holds(&mut self, bytes: &[u8]) -> bool
        ensures held { result ≡ true → self.new ≡ record self.old {
          waiting = self.old.waiting ++ bytes.now;
          put = min (self.old.put + length bytes.now) (2 ^ 64 - 1);
        } }
        ensures few_wait { result ≡ true → length self.new.waiting ≤ most_waiting }
        ensures left { result ≡ false → self.new ≡ self.old }
    {
        if bytes.len() > ROOM - self.waiting.len() {
            return false;
        }
        if self.waiting.extend_from_slice(bytes).is_err() {
            return false;
        }
        self.put = self.put.saturating_add(bytes.len());
        true
    }

    // Passes the waiting bytes to the writer. Bytes that it doesn't take keep waiting.
    fn hand_on(&mut self) -> Result<(), SinkFailed>
        ensures kept { Keeps (gathered self.old) (gathered self.new) }
        ensures nothing_waits { OnOk result (self.new.waiting ≡ []) }
        ensures few_wait { length self.new.waiting ≤ most_waiting }
        ensures put { self.new.put ≡ self.old.put }
        ensures most_put { self.new.put ≤ 2 ^ 64 - 1 }
        ensures calm { OnOk result (self.new.faults ≡ self.old.faults) }
        ensures failed { OnErr result (Rose self.old.faults self.new.faults) }
        ensures count { self.old.faults ≤ self.new.faults }
    {
        let Written { count, stopped } = write_front(&mut self.writer, self.waiting.as_slice());
        remove_front(&mut self.waiting, count);
        match stopped {
            None => Ok(()),
            Some(error) => Err(self.fail(error)),
        }
    }

    // Takes bytes while none wait: they wait if they are few and there is memory, and are passed to the writer otherwise.
    fn put_first(&mut self, bytes: &[u8]) -> Result<(), SinkFailed>
        requires { self.old.waiting ≡ [] }
        ensures taken { OnOk result (Takes self.old self.new bytes.now) }
        ensures part { OnErr result (TakesLess self.old self.new bytes.now) }
        ensures few_wait { length self.new.waiting ≤ most_waiting }
        ensures calm { OnOk result (self.new.faults ≡ self.old.faults) }
        ensures failed { OnErr result (Rose self.old.faults self.new.faults) }
        ensures count { self.old.faults ≤ self.new.faults }
    {
        if self.holds(bytes) {
            return Ok(());
        }
        let Written { count, stopped } = write_front(&mut self.writer, bytes);
        self.put = self.put.saturating_add(count);
        match stopped {
            None => Ok(()),
            Some(error) => Err(self.fail(error)),
        }
    }

    // Passes the waiting bytes to the writer, and then takes others.
    fn hand_on_and_put(&mut self, bytes: &[u8]) -> Result<(), SinkFailed>
        ensures taken { OnOk result (Takes self.old self.new bytes.now) }
        ensures part { OnErr result (TakesLess self.old self.new bytes.now) }
        ensures few_wait { length self.new.waiting ≤ most_waiting }
        ensures calm { OnOk result (self.new.faults ≡ self.old.faults) }
        ensures failed { OnErr result (Rose self.old.faults self.new.faults) }
        ensures count { self.old.faults ≤ self.new.faults }
    {
        match self.hand_on() {
            Ok(()) => self.put_first(bytes),
            Err(error) => Err(error),
        }
    }

    // Counts a failure, and keeps its cause.
    #[tactic(auto, using(gr_base::proofs::Counts::rose_by_one))]
    fn fail(&mut self, error: Error) -> SinkFailed
        ensures after { self.new ≡ record self.old { faults = one_more self.old.faults } }
        ensures rose { Rose self.old.faults self.new.faults }
        ensures count { self.old.faults ≤ self.new.faults }
    {
        self.faults = self.faults.saturating_add(1);
        self.cause = Some(Cause(error));
        SinkFailed
    }
}

impl<W: Write + Drop> Sink for RealSink<W> {
    ghost use Rattle.gr_outside.specs.Sink.{SinkSeen};

    ghost seen = { λ s. record { held = None; faults = s.faults } };

    ghost waiting = { λ s. length s.waiting };

    fn put(&mut self, bytes: &[u8]) -> Result<(), SinkFailed>
        ensures taken { OnOk result (Takes self.old self.new bytes.now) }
        ensures part { OnErr result (TakesLess self.old self.new bytes.now) }
        ensures few_wait { length self.new.waiting ≤ most_waiting }
        ensures calm { OnOk result (self.new.faults ≡ self.old.faults) }
        ensures failed { OnErr result (Rose self.old.faults self.new.faults) }
        ensures count { self.old.faults ≤ self.new.faults }
        ensures count_stays { self.old.faults ≡ 2 ^ 64 - 1 → self.new.faults ≡ 2 ^ 64 - 1 }
    {
        if self.holds(bytes) {
            return Ok(());
        }
        self.hand_on_and_put(bytes)
    }

    /// Passes the waiting bytes to the writer, and flushes it. Bytes that it doesn't take keep waiting.
    fn flush(&mut self) -> Result<(), SinkFailed>
        ensures kept { Keeps (gathered self.old) (gathered self.new) }
        ensures nothing_waits { OnOk result (self.new.waiting ≡ []) }
        ensures few_wait { length self.new.waiting ≤ most_waiting }
        ensures put { self.new.put ≡ self.old.put }
        ensures calm { OnOk result (self.new.faults ≡ self.old.faults) }
        ensures failed { OnErr result (Rose self.old.faults self.new.faults) }
        ensures count { self.old.faults ≤ self.new.faults }
    {
        match self.hand_on() {
            Ok(()) => {}
            Err(error) => return Err(error),
        }
        match self.writer.flush() {
            Ok(()) => Ok(()),
            Err(error) => Err(self.fail(error)),
        }
    }

    /// How many bytes were put, up to 2^64 - 1.
    fn mark(&self) -> usize
        ensures put { result ≡ self.now.put }
    {
        self.put
    }
}

/// How many of some bytes a writer took, and why it took no more.
#[derive(Drop)]
struct Written {
    count: usize,
    stopped: Option<Error>,
}

// Writes the bytes until all are written or the writer takes no more.
fn write_front<W: Write>(writer: &mut W, bytes: &[u8]) -> Written
    ensures most { result.count ≤ length bytes.now }
    ensures whole { MatchOption result.stopped (result.count ≡ length bytes.now)
        (λ _. result.count ≤ length bytes.now - 1) }
    ensures written { Appends (W.contents writer.old) (W.contents writer.new) (take result.count bytes.now) }
{
    let mut count = 0;
    for _turn in 0..u64::MAX {
        if count == bytes.len() {
            return Written {
                count,
                stopped: None,
            };
        }
        match writer.write(&bytes[count..]) {
            Ok(0) => return stopped(count, Error::new(ErrorKind::WriteZero, TAKES_NONE)),
            Ok(more) => count += more,
            Err(error) if error.kind() == ErrorKind::Interrupted => {}
            Err(error) => return stopped(count, error),
        }
    }
    if count == bytes.len() {
        return Written {
            count,
            stopped: None,
        };
    }
    stopped(count, Error::from(ErrorKind::Interrupted))
}

fn stopped(count: usize, error: Error) -> Written
    ensures { result ≡ record { count = count; stopped = Some error } }
{
    Written {
        count,
        stopped: Some(error),
    }
}

fn remove_front(bytes: &mut Vec<u8>, count: usize)
    requires { count ≤ vec_len bytes.old }
    ensures { bytes.new.items ≡ drop count bytes.old.items }
{
    let len = bytes.len();
    bytes.as_mut_slice().copy_within(count..len, 0);
    bytes.truncate(len - count);
}
