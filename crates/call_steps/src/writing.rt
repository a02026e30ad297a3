ghost use Rattle.std.specs.Prelude.{◌≡◌, ◌≢◌, IfErr, IfOk, OnErr, Some};
ghost use Rattle.gr_outside.specs.Shelf.{logged, write_of};
ghost use Rattle.call_steps.specs.CallsFollow.{TriesWrite};
ghost use Rattle.call_steps.specs.Outside.{LeftBy, outside_at, stage};
ghost use Rattle.call_replies.specs.Prelude.{no_memory, said};
ghost use Rattle.call_steps.specs.Work.{IsWritten};

use crate::putting::{NOT_PUT, line_of, put_text, say_no_memory};
use call_replies::replies::{Done, Reply};
use gr_outside::{Shelf, ShelfError, Sink};
use std::alloc::Global;

/// Writes a file, then prints the line that reports it; returns the status. Both lines that may follow are made first:
/// `Err` means that memory ran out before the write was called, and that nothing was printed.
pub fn write_and_say<'a, F: Shelf, O: Sink>(
    alloc: Global,
    name: &str,
    bytes: &[u8],
    done: Done,
    shelf: &mut F,
    out: &mut O,
) -> Result<u8, Reply<'a>>
    ensures left { IfOk result (λ status. LeftBy
        (outside_at (stage (F.seen shelf.old) (F.log shelf.old)) (O.seen out.old))
        (outside_at (stage (F.seen shelf.new) (F.log shelf.new)) (O.seen out.new))
        status (IsWritten name.now bytes.now done)) }
    ensures noted { IfOk result (λ status. status ≢ 4 → status ≢ 5
        → F.log shelf.new ≡ logged (write_of name.now (Some bytes.now)) (F.log shelf.old)) }
    ensures starved { IfErr result (λ reply. said reply ≡ no_memory) }
    ensures unwritten { OnErr result (F.seen shelf.new ≡ F.seen shelf.old) }
    ensures unput { OnErr result (O.seen out.new ≡ O.seen out.old) }
    ensures calls { TriesWrite name.now bytes.now (F.log shelf.old) (F.log shelf.new) }
{
    let unwritten = line_of(alloc, &Reply::Unwritten(name))?;
    let wrote = line_of(alloc, &Reply::Wrote(done))?;
    match shelf.write(name, bytes) {
        Ok(()) => Ok(put_text(out, 0, wrote.as_bytes())),
        Err(ShelfError::Memory) => Ok(say_no_memory(out)),
        Err(ShelfError::Failed) => Ok(put_text(out, NOT_PUT, unwritten.as_bytes())),
        Err(ShelfError::Missing) => unreachable!(),
    }
}
