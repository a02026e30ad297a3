ghost use Rattle.std.specs.Prelude.{◌≡◌, ◌≤◌, ◌^◌, ◌-◌, ℕ, List, Option, None, IfSome, OnOk, OnErr, length};
ghost use Rattle.gr_base.specs.Prelude.{Rose, Adds, AddsLess};
ghost use Rattle.gr_outside.specs.Sink.{SinkSeen};

use thiserror::Error;

/// A sink failed to take all bytes of a call, and counted the failure.
#[derive(Clone, Copy, Debug, PartialEq, Eq, Error)]
#[error("the sink failed")]
pub struct SinkFailed;

/// Something that takes bytes and adds them at its end. The bytes that it holds may be visible to contracts or not:
/// those of standard output aren't. A sink whose bytes aren't visible may hold bytes back until it is flushed. Its
/// count of faults never falls, and stays at 2^64 - 1, like those of a shelf. A call that succeeds leaves the count as
/// it was.
pub trait Sink {
    /// How contracts see the sink: the bytes that it took, if they are visible, and how many calls failed.
    ghost seen: { Self → SinkSeen };

    /// How many bytes the sink holds back.
    ghost waiting: { Self → ℕ };

    /// Adds the bytes at the end. A call that fails adds a prefix of the bytes, possibly none but never all of them. If
    /// the sink's bytes are visible after a call, they were visible before it.
    fn put(&mut self, bytes: &[u8]) -> Result<(), SinkFailed>
        ensures added { OnOk result (Adds (seen self.old).held (seen self.new).held bytes.now) }
        ensures calm { OnOk result ((seen self.new).faults ≡ (seen self.old).faults) }
        ensures cut { OnErr result (AddsLess (seen self.old).held (seen self.new).held bytes.now) }
        ensures failed { OnErr result (Rose (seen self.old).faults (seen self.new).faults) }
        ensures count { (seen self.old).faults ≤ (seen self.new).faults }
        ensures count_stays { (seen self.old).faults ≡ 2 ^ 64 - 1 → (seen self.new).faults ≡ 2 ^ 64 - 1 };

    /// Passes on the bytes that are held back, and adds none. A sink whose bytes are visible holds nothing back, so its
    /// flush doesn't fail.
    /// why: standard output holds bytes back. A sink in memory holds none back and does nothing here.
    fn flush(&mut self) -> Result<(), SinkFailed>
        ensures nothing_added { (seen self.new).held ≡ (seen self.old).held }
        ensures calm { OnOk result ((seen self.new).faults ≡ (seen self.old).faults) }
        ensures failed { OnErr result (Rose (seen self.old).faults (seen self.new).faults) }
        ensures untold { OnErr result ((seen self.old).held ≡ None) }
        ensures count { (seen self.old).faults ≤ (seen self.new).faults }
        ensures passed_on { OnOk result (waiting self.new ≡ 0) };

    /// How many bytes the sink holds, if they are visible; otherwise any number.
    fn mark(&self) -> usize
        ensures told { IfSome (seen self.now).held (λ bytes. result ≡ length bytes) };
}
