ghost use Rattle.std.specs.Prelude.{◌≡◌, ℕ, List, suc, ◌+◌, ◌-◌, ◌<◌, ◌≤◌, ◌^◌, [], ◌∷◌, ◌++◌, length, slice_set, nat_lt, vec_len, vec_capacity, ◌==◌, ◌↔◌, IsTrue, Contains};
ghost use Rattle.path_oram.specs.Places.{index_on, on_path, held, path_blocks, all_blocks};
ghost use Rattle.path_oram.specs.Pouring.{poured};
ghost use Rattle.path_oram.specs.Settling.{meets_on};
ghost use Rattle.path_oram.specs.Slots.{AllHaveLeaves, HaveLeaves, blocks_in, slots_at, tree_blocks};

use crate::bucket::{Bucket, Placed};

/// The most levels below the root.
pub const MAX_HEIGHT: u32 = 12;

/// The index of the bucket through which the path of a leaf passes on a level.
#[tactic(auto, unfolding(crate::specs::Places::index_on))]
pub(crate) fn index_at(height: u32, leaf: u32, level: u32) -> u32
    requires within { level ≤ height }
    requires height { height ≤ 12 }
    ensures { result ≡ index_on height leaf level }
{
    leaf >> (height - level)
}

/// The number of the bucket of a leaf's path on a level.
#[tactic(auto, using(crate::proofs::PathNumbers::on_path_bound, crate::proofs::PathNumbers::calculated, crate::proofs::PathNumbers::small_numbers))]
pub(crate) fn number_at(height: u32, leaf: u32, level: u32) -> usize
    requires within { level ≤ height }
    requires height { height ≤ 12 }
    requires leaf { leaf < 2 ^ height }
    ensures number { result ≡ on_path height leaf level }
    ensures inside { result < 2 ^ suc height }
{
    ((1 << level) + index_at(height, leaf, level)) as usize
}

/// Whether the path of a leaf passes through the bucket of another leaf's path on a level.
pub(crate) fn passes_at(height: u32, own: u32, leaf: u32, level: u32) -> bool
    requires within { level ≤ height }
    requires height { height ≤ 12 }
    ensures { result ≡ meets_on height own leaf level }
{
    index_at(height, own, level) == index_at(height, leaf, level)
}

/// Whether a bucket holds a block.
pub(crate) fn stands_at(tree: &[Bucket], number: usize, block: u32) -> bool
    requires exists { number < length tree.now }
    ensures { IsTrue result ↔ Contains (held (tree_blocks tree.now) number) block }
{
    tree[number].contains(&block)
}

/// Whether there is room in a bucket.
pub(crate) fn has_room(tree: &[Bucket], number: usize) -> bool
    requires exists { number < length tree.now }
    ensures { result ≡ nat_lt (length (held (tree_blocks tree.now) number)) 4 }
{
    tree[number].has_room()
}

/// Adds a block with its leaf to a bucket.
pub(crate) fn put(tree: &mut [Bucket], number: usize, slot: Placed)
    requires exists { number < length tree.old }
    requires room { length (held (tree_blocks tree.old) number) < 4 }
    ensures { tree.new ≡ slice_set tree.old number (slots_at tree.old number ++ slot ∷ []) }
{
    tree[number].push(slot);
}

// Appends slots to a vector that has room for them. It takes no memory.
fn extend_within(slots: &mut Vec<Placed>, more: &[Placed])
    requires { vec_len slots.old + length more.now ≤ vec_capacity slots.old }
    ensures items { slots.new.items ≡ slots.old.items ++ more.now }
    ensures capacity { vec_capacity slots.old ≤ vec_capacity slots.new }
{
    match slots.extend_from_slice(more) {
        Ok(()) => (),
        Err(_) => unreachable!(),
    }
}

// Moves the blocks of a bucket into the stash, which has room for them.
fn pour(tree: &mut [Bucket], number: usize, stash: &mut Vec<Placed>)
    requires exists { number < length tree.old }
    requires room { vec_len stash.old + length (slots_at tree.old number) ≤ vec_capacity stash.old }
    ensures tree { tree.new ≡ slice_set tree.old number [] }
    ensures stash { stash.new.items ≡ stash.old.items ++ slots_at tree.old number }
    ensures capacity { vec_capacity stash.old ≤ vec_capacity stash.new }
{
    let bucket = &mut tree[number];
    extend_within(stash, bucket.slots());
    bucket.clear();
}

/// Moves the blocks of all buckets of a leaf's path into the stash, which has room for all blocks. Each block keeps its
/// leaf.
pub(crate) fn empty_path(tree: &mut [Bucket], stash: &mut Vec<Placed>, height: u32, leaf: u32)
    requires height { height ≤ 12 }
    requires leaf { leaf < 2 ^ height }
    requires buckets { length tree.old ≡ 2 ^ suc height }
    requires room { length (all_blocks (blocks_in stash.old.items) (tree_blocks tree.old)) ≤ vec_capacity stash.old }
    ensures tree { tree_blocks tree.new ≡ poured (on_path height leaf) (tree_blocks tree.old) (suc height) }
    ensures stash { blocks_in stash.new.items
        ≡ blocks_in stash.old.items ++ path_blocks (on_path height leaf) (tree_blocks tree.old) (suc height) }
    ensures leaves { (leaves : List ℕ) → HaveLeaves leaves stash.old.items → AllHaveLeaves leaves tree.old
        → HaveLeaves leaves stash.new.items × AllHaveLeaves leaves tree.new }
    ensures capacity { vec_capacity stash.old ≤ vec_capacity stash.new }
{
    for level in 0..height + 1 {
        pour(tree, number_at(height, leaf, level), stash);
    }
}
