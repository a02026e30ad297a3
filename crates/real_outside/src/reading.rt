ghost use Rattle.std.specs.Prelude.{◌≤◌, IfOk, vec_len};
ghost use Rattle.real_outside.specs.Known.{IsFrontOf};

use std::alloc::Global;
use std::io;
use std::io::Read;

/// The first `most` bytes that a reader has left, or all of them if it has fewer.
pub(crate) fn front_of<F: Read + Drop>(alloc: Global, file: F, most: usize) -> io::Result<Vec<u8>>
    ensures at_most { IfOk result (λ bytes. vec_len bytes ≤ most) }
    ensures front { IfOk result (λ bytes. IsFrontOf (F.remaining file) most bytes.items) }
{
    let mut bytes = Vec::new(alloc);
    file.take(most as u64).read_to_end(&mut bytes)?;
    // No more than this was asked for, but `take` promises so only of readers whose bytes are known.
    bytes.truncate(most);
    Ok(bytes)
}
