//! Prints texts, and returns the exit status that goes with them.

ghost use Rattle.std.specs.Prelude.{◌≡◌, ◌≢◌, ◌⊎◌, IsOk, OnOk, OnErr};
ghost use Rattle.gr_base.specs.Prelude.{Adds, Rose};
ghost use Rattle.call_steps.specs.Prelude.{PutsSaid};

use gr_outside::{Sink, SinkFailed};

/// The status of a call that did its work.
pub(crate) const DONE: u8 = 0;

/// The status of a usage error.
pub(crate) const USAGE: u8 = 2;

/// The status if output can't be written.
pub(crate) const NOT_PUT: u8 = 4;

/// The status if memory runs out.
pub(crate) const NO_MEMORY: u8 = 5;

/// Prints texts one after another, and passes on what the sink holds back.
pub(crate) fn put_all<O: Sink>(texts: &[&str], out: &mut O) -> Result<(), SinkFailed>
    ensures { OnOk result (O.waiting out.new ≡ 0) }
{
    'printing: for text in texts {
        out.put(text.as_bytes())?;
    }
    out.flush()
}

/// Prints bytes, and passes on what the sink holds back.
#[tactic(auto, using(crate::proofs::CallEnds::added_before_flush, crate::proofs::CallEnds::rose_in_flush))]
pub(crate) fn put_bytes<O: Sink>(bytes: &[u8], out: &mut O) -> Result<(), SinkFailed>
    ensures printed { OnOk result (Adds (O.seen out.old).held (O.seen out.new).held bytes.now) }
    ensures failed { OnErr result (Rose (O.seen out.old).faults (O.seen out.new).faults) }
    ensures flushed { OnOk result (O.waiting out.new ≡ 0) }
{
    match out.put(bytes) {
        Ok(()) => {}
        Err(error) => return Err(error),
    }
    out.flush()
}

/// Prints a line, passes on what the sink holds back, and returns this status, or 4 if the sink failed.
#[tactic(auto, using(crate::proofs::CallEnds::said_whole, crate::proofs::CallEnds::said_cut, crate::proofs::CallEnds::said_unflushed))]
pub(crate) fn put_line<O: Sink>(line: &str, status: u8, out: &mut O) -> u8
    ensures said { PutsSaid (O.seen out.old) (O.seen out.new) (record { status = status; text = line.now }) result }
    ensures flushed { result ≢ 4 → O.waiting out.new ≡ 0 }
{
    match out.put(line.as_bytes()) {
        Ok(()) => {}
        Err(_) => return NOT_PUT,
    }
    match out.flush() {
        Ok(()) => status,
        Err(_) => NOT_PUT,
    }
}

/// The status of a call whose output was printed, or couldn't be.
pub(crate) fn status_after(printed: Result<(), SinkFailed>, status: u8) -> u8
    ensures either { (result ≡ status) ⊎ (result ≡ 4) }
    ensures failed { result ≢ 4 → IsOk printed }
{
    match printed {
        Ok(()) => status,
        Err(_) => NOT_PUT,
    }
}
