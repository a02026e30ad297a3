ghost use Rattle.std.specs.Prelude.{◌≡◌, ◌≤◌, ◌+◌, ◌*◌, ◌++◌, length};
ghost use Rattle.run_data.specs.PathText.{leaves_text, level_text, levels_head, path_line};
ghost use Rattle.run_data.specs.Putting.{PutsText};

use crate::events::{SHORT_BYTES, ShortLine, push_bytes, push_number, put_piece};
use gr_outside::{Sink, SinkFailed};

/// The most bytes of a leaf and the space before it.
const LEAF_BYTES: usize = 11;

/// Puts the line of the paths, six at most, that an access to an oblivious bank showed, and takes no memory for it. A
/// sink that fails has gained nothing of the line, or a part from its front that isn't the whole, and has counted the
/// fault.
pub fn put_path<O: Sink>(
    out: &mut O,
    stamp: u32,
    bank: u8,
    leaves: &[u32],
) -> Result<(), SinkFailed>
    requires { length leaves.now ≤ 6 }
    ensures { PutsText (O.seen out.old).held (O.seen out.new).held (O.seen out.old).faults (O.seen out.new).faults
        (path_line stamp bank leaves.now) result }
{
    let mut line = ShortLine::new();
    push_number(&mut line, stamp);
    push_bytes(&mut line, b" P");
    push_number(&mut line, u32::from(bank));
    push_leaves(&mut line, leaves);
    push_bytes(&mut line, b"\n");
    put_piece(out, line.as_slice())
}

fn push_leaves(line: &mut ShortLine, leaves: &[u32])
    requires { length line.old.items + LEAF_BYTES * length leaves.now ≤ SHORT_BYTES }
    ensures items { line.new.items ≡ line.old.items ++ leaves_text leaves.now }
    ensures most { length line.new.items ≤ length line.old.items + LEAF_BYTES * length leaves.now }
{
    for leaf in leaves {
        push_bytes(line, b" ");
        push_number(line, *leaf);
    }
}

/// Puts the head of the line of an oblivious bank's levels. A sink that fails has gained less than it.
pub fn put_levels_head<O: Sink>(out: &mut O, bank: u8) -> Result<(), SinkFailed>
    ensures { PutsText (O.seen out.old).held (O.seen out.new).held (O.seen out.old).faults (O.seen out.new).faults
        (levels_head bank) result }
{
    let mut line = ShortLine::new();
    push_bytes(&mut line, b"levels ");
    push_number(&mut line, u32::from(bank));
    put_piece(out, line.as_slice())
}

/// Prints the level of one block, or that it is in the stash. A sink that fails has received a proper prefix of it.
pub fn put_level<O: Sink>(out: &mut O, level: Option<u32>) -> Result<(), SinkFailed>
    ensures { PutsText (O.seen out.old).held (O.seen out.new).held (O.seen out.old).faults (O.seen out.new).faults
        (level_text level) result }
{
    let Some(level) = level else {
        return put_piece(out, b" s");
    };
    let mut line = ShortLine::new();
    push_bytes(&mut line, b" ");
    push_number(&mut line, level);
    put_piece(out, line.as_slice())
}
