ghost use Rattle.std.specs.Prelude.{◌≡◌, ◌<◌, ◌≤◌, ◌^◌, [], IfOk, length, map, replicate};
ghost use Rattle.std.specs.List.{range_with_len};
ghost use Rattle.lt_isa.specs.Prelude.{most_blocks};
ghost use Rattle.path_oram.specs.Slots.{slot_of};
ghost use Rattle.path_oram.specs.Whole.{IsHeightFor};

use crate::bucket::{Bucket, Placed};
use crate::paths::MAX_HEIGHT;
use gr_base::Memory;
use std::alloc::Global;

/// The least height of a tree that has a leaf for each of `count` blocks.
pub fn height_for(count: u32) -> u32
    requires most { count ≤ most_blocks 2 }
    ensures height { IsHeightFor count result }
    ensures low { result ≤ 12 }
{
    for height in 0..MAX_HEIGHT {
        if count <= 1 << height {
            return height;
        }
    }
    MAX_HEIGHT
}

/// The numbers of `count` blocks, in order.
pub(crate) fn every_block(alloc: Global, count: u32) -> Result<Vec<u32>, Memory>
    ensures { IfOk result (λ blocks. blocks.items ≡ range_with_len 0 count) }
{
    let mut blocks = Vec::with_capacity(alloc, count as usize)?;
    for block in 0..count {
        blocks.push(block)?;
    }
    Ok(blocks)
}

/// A slot for each of the blocks with these leaves, in order.
pub(crate) fn every_slot(alloc: Global, leaves: &[u32]) -> Result<Vec<Placed>, Memory>
    requires { length leaves.now < 2 ^ 32 }
    ensures { IfOk result
        (λ slots. slots.items ≡ map (slot_of leaves.now) (range_with_len 0 (length leaves.now))) }
{
    let mut slots = Vec::with_capacity(alloc, leaves.len())?;
    for block in 0..leaves.len() as u32 {
        slots.push(Placed {
            block,
            leaf: leaves[block as usize],
        })?;
    }
    Ok(slots)
}

/// `count` empty buckets.
pub(crate) fn empty_tree(alloc: Global, count: usize) -> Result<Vec<Bucket>, Memory>
    ensures { IfOk result (λ tree. tree.items ≡ replicate count []) }
{
    let mut tree = Vec::with_capacity(alloc, count)?;
    for _ in 0..count {
        tree.push(Bucket::new())?;
    }
    Ok(tree)
}
