ghost use Rattle.std.specs.Prelude.{◌≡◌, ℕ, List, ◌↔◌, ◌+◌, ◌<◌, length, map, slice_get, slice_index, IsTrue, IsSome, IfSome, Contains, vec_capacity};
ghost use Rattle.std.specs.List.{flat_map};
ghost use Rattle.path_oram.specs.Slots.{AllHaveLeaves, HaveLeaves, blocks_in, tree_blocks, with_leaf};

use crate::bucket::{Bucket, Placed};

/// The leaf of a block in some slots, or `None` if the block isn't there.
pub(crate) fn leaf_among(slots: &[Placed], block: u32) -> Option<u32>
    ensures leaf { IfSome result
        (λ leaf. (leaves : List ℕ) → HaveLeaves leaves slots.now → leaf ≡ slice_index leaves block) }
    ensures there { IsSome result ↔ Contains (blocks_in slots.now) block }
{
    for place in 0..slots.len() {
        let slot = slots[place];
        if slot.block == block {
            return Some(slot.leaf);
        }
    }
    None
}

/// The leaf of a block that some bucket holds.
pub(crate) fn leaf_in_tree(tree: &[Bucket], block: u32) -> u32
    requires there { Contains (flat_map (λ bucket. bucket) (tree_blocks tree.now)) block }
    ensures { (leaves : List ℕ) → AllHaveLeaves leaves tree.now → result ≡ slice_index leaves block }
{
    for number in 0..tree.len() {
        if let Some(leaf) = leaf_among(tree[number].slots(), block) {
            return leaf;
        }
    }
    unreachable!()
}

// A slot, with another leaf if it holds this block.
fn given(slot: Placed, block: u32, leaf: u32) -> Placed
    ensures { result ≡ with_leaf block leaf slot }
{
    if slot.block == block {
        return Placed { block, leaf };
    }
    slot
}

/// Gives a block another leaf, in its slot.
/// why: each slot of the stash is read and written, wherever the block is.
pub(crate) fn give_leaf(stash: &mut Vec<Placed>, block: u32, leaf: u32)
    ensures slots { stash.new.items ≡ map (with_leaf block leaf) stash.old.items }
    ensures capacity { vec_capacity stash.new ≡ vec_capacity stash.old }
{
    for place in 0..stash.len() {
        stash[place] = given(stash[place], block, leaf);
    }
}

impl Bucket {
    /// How many blocks the bucket holds.
    pub fn len(&self) -> usize
        ensures { result ≡ length self.now }
    {
        self.slots().len()
    }

    /// Whether the bucket holds a block.
    pub fn contains(&self, block: &u32) -> bool
        ensures { IsTrue result ↔ Contains (blocks_in self.now) block.now }
    {
        leaf_among(self.slots(), *block).is_some()
    }

    /// The block at a place, or `None` if the place is a dummy.
    pub fn block(&self, place: usize) -> Option<u32>
        ensures { result ≡ slice_get (blocks_in self.now) place }
    {
        match self.slots().get(place) {
            Some(slot) => Some(slot.block),
            None => None,
        }
    }
}
