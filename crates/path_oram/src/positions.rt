ghost use Rattle.std.specs.Prelude.{◌≡◌, ◌+◌, ◌<◌, ◌≤◌, ◌^◌, IfOk, IfSome, OnSome, IsNone, ◌↔◌, length, replicate, slice_index, [], Some, None};
ghost use Rattle.std.specs.List.{All, range_with_len};
ghost use Rattle.lt_isa.specs.Prelude.{most_blocks};
ghost use Rattle.path_oram.specs.Places.{bucket_number, held, first_places};
ghost use Rattle.path_oram.specs.Moves.{MovesTo};
ghost use Rattle.path_oram.specs.Settles.{StandsOn};
ghost use Rattle.path_oram.specs.Slots.{blocks_in};
ghost use Rattle.path_oram.specs.Whole.{IsWhole, IsHeightFor};

use crate::bucket::{Bucket, Placed};
use crate::first::{empty_tree, every_slot};
use crate::paths::{number_at, stands_at};
use crate::scan::{leaf_among, leaf_in_tree};
use crate::settling::access_path;
use gr_base::Memory;
use std::alloc::Global;
use std::marker::Model;

/// The positions of the blocks of an oblivious bank: the tree with its stash, which hold each block with its leaf.
/// There is no other list of leaves. Contracts see it as the blocks in the tree and in the stash, and the leaf of each.
#[derive(Debug, Drop)]
pub struct Positions {
    count: u32,
    height: u32,
    tree: Vec<Bucket>,
    stash: Vec<Placed>,
}

impl Model for Positions {
    ghost use Rattle.std.specs.Prelude.{◌≤◌, vec_capacity};
    ghost use Rattle.path_oram.specs.Places.{Places};
    ghost use Rattle.path_oram.specs.Slots.{AllHaveLeaves, HaveLeaves, places_of};
    ghost use Rattle.path_oram.specs.Whole.{IsWhole};

    ghost Value = { Places };

    ghost view = { λ p. places_of p.count p.height p.stash.items p.tree.items };

    ghost invariant = { λ p. record {
      height : p.height ≤ 12;
      reserved : p.count ≤ vec_capacity p.stash;
      whole : IsWhole (places_of p.count p.height p.stash.items p.tree.items);
      stash : HaveLeaves (places_of p.count p.height p.stash.items p.tree.items).leaves p.stash.items;
      tree : AllHaveLeaves (places_of p.count p.height p.stash.items p.tree.items).leaves p.tree.items;
    } };
}

impl Positions {
    /// All blocks in the stash, and all buckets empty. There is a block for each of the leaves, and `height` is that of
    /// a tree for this number of blocks. All memory that later calls need is reserved here.
    pub fn new(alloc: Global, height: u32, leaves: Vec<u32>) -> Result<Positions, Memory>
        requires most { length leaves.items ≤ most_blocks 2 }
        requires height { IsHeightFor (length leaves.items) height }
        requires leaves { All (λ leaf. leaf < 2 ^ height) leaves.items }
        ensures first { IfOk result (λ p. p ≡ first_places height leaves.items) }
        ensures whole { IfOk result (λ p. IsWhole p) }
    {
        let stash = every_slot(alloc, leaves.as_slice())?;
        let tree = empty_tree(alloc, 1 << (height + 1))?;
        Ok(Positions {
            count: leaves.len() as u32,
            height,
            tree,
            stash,
        })
    }

    /// The height of the tree: the least with a leaf for each block.
    pub fn height(&self) -> u32
        ensures height { result ≡ self.now.height }
        ensures low { result ≤ 12 }
        ensures whole { IsWhole self.now }
    {
        self.height
    }

    /// The number of blocks.
    pub fn blocks(&self) -> u32
        ensures count { result ≡ length self.now.leaves }
        ensures whole { IsWhole self.now }
    {
        self.count
    }

    /// A block's leaf, which is searched for in the stash and then in each bucket.
    pub fn leaf(&self, block: u32) -> u32
        requires exists { block < length self.now.leaves }
        ensures leaf { result ≡ slice_index self.now.leaves block }
        ensures whole { IsWhole self.now }
    {
        match leaf_among(self.stash.as_slice(), block) {
            Some(leaf) => leaf,
            None => leaf_in_tree(self.tree.as_slice(), block),
        }
    }

    /// How many blocks are in the stash.
    pub fn stash_len(&self) -> u32
        ensures len { result ≡ length self.now.stash }
        ensures whole { IsWhole self.now }
    {
        self.stash.len() as u32
    }

    /// Bucket number `index` from the left on a level.
    pub fn bucket(&self, level: u32, index: u32) -> &Bucket
        requires level { level ≤ self.now.height }
        requires index { index < 2 ^ level }
        ensures blocks { blocks_in result.now ≡ held self.now.tree (bucket_number level index) }
        ensures whole { IsWhole self.now }
    {
        &self.tree[((1 << level) + index) as usize]
    }

    /// The level of the bucket that holds a block, or `None` if the block is in the stash.
    pub fn level(&self, block: u32) -> Option<u32>
        requires exists { block < length self.now.leaves }
        ensures stands { StandsOn self.now block result }
        ensures whole { IsWhole self.now }
    {
        let leaf = self.leaf(block);
        for level in 0..self.height + 1 {
            if stands_at(
                self.tree.as_slice(),
                number_at(self.height, leaf, level),
                block,
            ) {
                return Some(level);
            }
        }
        None
    }

    /// One access to a block whose leaf is `old`, and which gets the leaf `new`: the path of `old` is moved into the
    /// stash, the block gets its new leaf, and the path is written back. It takes no memory.
    pub fn access(&mut self, block: u32, old: u32, new: u32)
        requires exists { block < length self.old.leaves }
        requires old { old ≡ slice_index self.old.leaves block }
        requires new { new < 2 ^ self.old.height }
        ensures moved { MovesTo self.old block old new self.new }
        ensures whole { IsWhole self.new }
    {
        access_path(
            self.tree.as_mut_slice(),
            &mut self.stash,
            self.height,
            block,
            old,
            new,
        );
    }
}
