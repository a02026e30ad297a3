ghost use Rattle.std.specs.Prelude.{◌≡◌, ℕ, List, suc, ◌+◌, ◌<◌, ◌≤◌, ◌^◌, [], length, nat_lt, slice_set, ◌&&◌, vec_len, vec_capacity};
ghost use Rattle.std.specs.List.{All};
ghost use Rattle.path_oram.specs.Places.{on_path, held, all_blocks};
ghost use Rattle.path_oram.specs.Settling.{IsRoomFor, IsSettled, WritesBack, meets_on};
ghost use Rattle.path_oram.specs.Slots.{AllHaveLeaves, HaveLeaves, IsNotBeside, blocks_in, tree_blocks};

use crate::bucket::{Bucket, Placed};
use crate::paths::{empty_path, has_room, number_at, passes_at, put};
use crate::scan::give_leaf;

// The deepest level of a leaf's path that has room and where a block with the leaf `own` is allowed.
fn room_for(tree: &[Bucket], height: u32, leaf: u32, own: u32) -> Option<u32>
    requires height { height ≤ 12 }
    requires leaf { leaf < 2 ^ height }
    requires buckets { length tree.now ≡ 2 ^ suc height }
    ensures { IsRoomFor height own leaf (tree_blocks tree.now) result }
{
    let mut above = height + 1;
    while above > 0 {
        above -= 1;
        if fits_on(tree, height, leaf, above, own) {
            return Some(above);
        }
    }
    None
}

// Whether a block with the leaf `own` is allowed on a level of a leaf's path, and has room there.
fn fits_on(tree: &[Bucket], height: u32, leaf: u32, level: u32, own: u32) -> bool
    requires height { height ≤ 12 }
    requires leaf { leaf < 2 ^ height }
    requires buckets { length tree.now ≡ 2 ^ suc height }
    requires within { level ≤ height }
    ensures { result
        ≡ (meets_on height own leaf level
        && nat_lt (length (held (tree_blocks tree.now) (on_path height leaf level))) 4) }
{
    passes_at(height, own, leaf, level) && has_room(tree, number_at(height, leaf, level))
}

/// Moves the blocks of the stash into the buckets of a leaf's path, which are empty. Each block goes to the deepest of
/// them where it is allowed and that has room, and otherwise stays. Each keeps its leaf.
pub(crate) fn settle(tree: &mut [Bucket], stash: &mut Vec<Placed>, height: u32, leaf: u32)
    requires height { height ≤ 12 }
    requires leaf { leaf < 2 ^ height }
    requires buckets { length tree.old ≡ 2 ^ suc height }
    requires most { All (λ bucket. length bucket ≤ 4) (tree_blocks tree.old) }
    requires empty { (level : ℕ) → level ≤ height → held (tree_blocks tree.old) (on_path height leaf level) ≡ [] }
    ensures settled { (leaves : List ℕ) → HaveLeaves leaves stash.old.items
        → IsSettled height leaves leaf (tree_blocks tree.old) (tree_blocks tree.new) (blocks_in stash.old.items)
        (blocks_in stash.new.items) (vec_len stash.new) }
    ensures leaves { (leaves : List ℕ) → HaveLeaves leaves stash.old.items → AllHaveLeaves leaves tree.old
        → HaveLeaves leaves stash.new.items × AllHaveLeaves leaves tree.new }
    ensures capacity { vec_capacity stash.new ≡ vec_capacity stash.old }
{
    let mut kept = 0;
    while kept < stash.len() {
        let slot = stash[kept];
        match room_for(tree, height, leaf, slot.leaf) {
            Some(level) => {
                put(tree, number_at(height, leaf, level), slot);
                stash.swap_remove(kept);
            }
            None => kept += 1,
        }
    }
}

/// One access to a block along the path of its leaf `old`: the path is moved into the stash, which has room for all
/// blocks, the block gets the leaf `new`, and the path is written back.
pub(crate) fn access_path(
    tree: &mut [Bucket],
    stash: &mut Vec<Placed>,
    height: u32,
    block: u32,
    old: u32,
    new: u32,
)
    requires height { height ≤ 12 }
    requires leaf { old < 2 ^ height }
    requires buckets { length tree.old ≡ 2 ^ suc height }
    requires most { All (λ bucket. length bucket ≤ 4) (tree_blocks tree.old) }
    requires room { length (all_blocks (blocks_in stash.old.items) (tree_blocks tree.old)) ≤ vec_capacity stash.old }
    ensures written_back { (leaves : List ℕ)
        → block < length leaves → HaveLeaves leaves stash.old.items → AllHaveLeaves leaves tree.old
        → WritesBack height (slice_set leaves block new) old (tree_blocks tree.old) (tree_blocks tree.new)
        (blocks_in stash.old.items) (blocks_in stash.new.items) }
    ensures leaves { (leaves : List ℕ)
        → block < length leaves → HaveLeaves leaves stash.old.items → AllHaveLeaves leaves tree.old
        → IsNotBeside height old (tree_blocks tree.old) block
        → HaveLeaves (slice_set leaves block new) stash.new.items
        × AllHaveLeaves (slice_set leaves block new) tree.new }
    ensures capacity { vec_capacity stash.old ≤ vec_capacity stash.new }
{
    empty_path(tree, stash, height, old);
    give_leaf(stash, block, new);
    settle(tree, stash, height, old);
}
