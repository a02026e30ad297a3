ghost use Rattle.std.specs.Prelude.{◌≡◌, ◌+◌, ◌/◌, ◌%◌, ◌<◌, ◌≤◌, ◌^◌, ℕ, IfOk, length, slice_get, slice_index, slice_set};
ghost use Rattle.std.specs.List.{All};
ghost use Rattle.lt_isa.specs.Prelude.{most_blocks, word_in};
ghost use Rattle.banks.specs.Prelude.{block_numbered, in_blocks};
ghost use Rattle.path_oram.specs.Moves.{MovesTo};
ghost use Rattle.path_oram.specs.Places.{bucket_number, first_places, held};
ghost use Rattle.path_oram.specs.Settles.{StandsOn};
ghost use Rattle.path_oram.specs.Trees.{IsTree};
ghost use Rattle.path_oram.specs.Whole.{IsHeightFor, IsWhole};

use crate::first::height_for;
use crate::positions::Positions;
use banks::{Bank, PlainBank};
use gr_base::Memory;
use std::alloc::Global;
use std::marker::Model;

/// The tree of Path ORAM with its stash, without a position map: it holds each block with its leaf, and the caller of
/// an access names that leaf. Contracts see it as the blocks, the number of words of each, and their places.
#[derive(Debug, Drop)]
pub struct PathTree {
    blocks: PlainBank,
    positions: Positions,
}

impl Model for PathTree {
    ghost use Rattle.std.specs.Prelude.{◌≡◌, length};
    ghost use Rattle.path_oram.specs.Trees.{BlockTree};

    ghost Value = { BlockTree };

    ghost view = { λ t. record {
      contents = t.blocks.contents;
      width = t.blocks.width;
      places = t.positions;
    } };

    ghost invariant = { λ t. length t.blocks.contents ≡ length t.positions.leaves };
}

impl PathTree {
    /// A tree of these words, which are its blocks in sequence, with one leaf for each block. All blocks are in the
    /// stash. All memory that later calls need is reserved here.
    pub fn new(
        alloc: Global,
        blocks: Vec<i64>,
        block_words: u32,
        leaves: &[u32],
    ) -> Result<PathTree, Memory>
        requires some_word { 1 ≤ block_words }
        requires most_words { block_words ≤ 512 }
        requires whole_blocks { length blocks.items % block_words ≡ 0 }
        requires some_block { 1 ≤ length blocks.items }
        requires most_blocks { length blocks.items / block_words ≤ most_blocks 2 }
        requires count { length leaves.now ≡ length blocks.items / block_words }
        requires leaves { (height : ℕ) → IsHeightFor (length leaves.now) height
            → All (λ leaf. leaf < 2 ^ height) leaves.now }
        ensures contents { IfOk result (λ tree. tree.contents ≡ in_blocks block_words blocks.items) }
        ensures width { IfOk result (λ tree. tree.width ≡ block_words) }
        ensures first { IfOk result (λ tree. tree.places ≡ first_places tree.places.height leaves.now) }
        ensures height { IfOk result (λ tree. IsHeightFor (length leaves.now) tree.places.height) }
        ensures tree { IfOk result (λ tree. IsTree tree) }
    {
        let height = height_for(leaves.len() as u32);
        let leaves = leaves.to_vec(alloc)?;
        PathTree::over(alloc, PlainBank::new(blocks, block_words), height, leaves)
    }

    /// A tree of this height over these blocks, with one leaf for each block. All blocks are in the stash. All memory
    /// that later calls need is reserved here.
    pub fn over(
        alloc: Global,
        blocks: PlainBank,
        height: u32,
        leaves: Vec<u32>,
    ) -> Result<PathTree, Memory>
        requires most { length leaves.items ≤ most_blocks 2 }
        requires count { length blocks.contents ≡ length leaves.items }
        requires height { IsHeightFor (length leaves.items) height }
        requires leaves { All (λ leaf. leaf < 2 ^ height) leaves.items }
        ensures contents { IfOk result (λ tree. tree.contents ≡ blocks.contents) }
        ensures width { IfOk result (λ tree. tree.width ≡ blocks.width) }
        ensures first { IfOk result (λ tree. tree.places ≡ first_places height leaves.items) }
        ensures tree { IfOk result (λ tree. IsTree tree) }
    {
        let positions = Positions::new(alloc, height, leaves)?;
        Ok(PathTree { blocks, positions })
    }

    /// The number of blocks.
    pub fn blocks(&self) -> u32
        ensures count { result ≡ length self.now.contents }
        ensures tree { IsTree self.now }
    {
        self.positions.blocks()
    }

    /// The number of words of a block.
    pub fn block_words(&self) -> u32
        ensures { result ≡ self.now.width }
    {
        self.blocks.block_words()
    }

    /// The height of the tree: the least with a leaf for each block.
    pub fn height(&self) -> u32
        ensures height { result ≡ self.now.places.height }
        ensures low { result ≤ 12 }
        ensures tree { IsTree self.now }
    {
        self.positions.height()
    }

    /// A block's leaf.
    pub fn leaf(&self, at: u32) -> u32
        requires exists { at < length self.now.contents }
        ensures leaf { result ≡ slice_index self.now.places.leaves at }
        ensures tree { IsTree self.now }
    {
        self.positions.leaf(at)
    }

    /// How many blocks are in the stash.
    pub fn stash_len(&self) -> u32
        ensures len { result ≡ length self.now.places.stash }
        ensures tree { IsTree self.now }
    {
        self.positions.stash_len()
    }

    /// The block at a place of a bucket, or `None` if the place is a dummy. The bucket is number `index` from the left
    /// on its level.
    pub fn bucket(&self, level: u32, index: u32, place: u32) -> Option<u32>
        requires level { level ≤ self.now.places.height }
        requires index { index < 2 ^ level }
        requires place { place < 4 }
        ensures block { result ≡ slice_get (held self.now.places.tree (bucket_number level index)) place }
        ensures tree { IsTree self.now }
    {
        self.positions.bucket(level, index).block(place as usize)
    }

    /// The level of the bucket that holds a block, or `None` if the block is in the stash.
    pub fn level(&self, at: u32) -> Option<u32>
        requires exists { at < length self.now.contents }
        ensures stands { StandsOn self.now.places at result }
        ensures tree { IsTree self.now }
    {
        self.positions.level(at)
    }

    /// A word of a block. This isn't an access, and it changes nothing.
    pub fn word(&self, at: u32, index: u32) -> i64
        requires exists { at < length self.now.contents }
        requires within { index < self.now.width }
        ensures { result ≡ word_in (block_numbered self.now.contents at) index }
    {
        self.blocks.word(at, index)
    }

    /// An access to a block whose leaf is `old`, and which gets the leaf `new`: copies the block into the slice.
    pub fn fetch(&mut self, at: u32, old: u32, new: u32, into: &mut [i64])
        requires exists { at < length self.old.contents }
        requires old { old ≡ slice_index self.old.places.leaves at }
        requires new { new < 2 ^ self.old.places.height }
        requires size { length into.old ≡ self.old.width }
        ensures filled { into.new ≡ block_numbered self.old.contents at }
        ensures contents { self.new.contents ≡ self.old.contents }
        ensures width { self.new.width ≡ self.old.width }
        ensures moved { MovesTo self.old.places at old new self.new.places }
        ensures tree { IsTree self.new }
    {
        self.blocks.read(at, into);
        self.positions.access(at, old, new);
    }

    /// An access to a block whose leaf is `old`, and which gets the leaf `new`: replaces the block by the slice.
    pub fn store(&mut self, at: u32, old: u32, new: u32, from: &[i64])
        requires exists { at < length self.old.contents }
        requires old { old ≡ slice_index self.old.places.leaves at }
        requires new { new < 2 ^ self.old.places.height }
        requires size { length from.now ≡ self.old.width }
        ensures contents { self.new.contents ≡ slice_set self.old.contents at from.now }
        ensures width { self.new.width ≡ self.old.width }
        ensures moved { MovesTo self.old.places at old new self.new.places }
        ensures tree { IsTree self.new }
    {
        self.blocks.write(at, from);
        self.positions.access(at, old, new);
    }

    /// An access to a block whose leaf is `old`, and which gets the leaf `new`: replaces a word of the block, and
    /// returns the old word.
    pub fn swap_word(&mut self, at: u32, old: u32, new: u32, word: u32, value: i64) -> i64
        requires exists { at < length self.old.contents }
        requires old { old ≡ slice_index self.old.places.leaves at }
        requires new { new < 2 ^ self.old.places.height }
        requires within { word < self.old.width }
        ensures before { result ≡ word_in (block_numbered self.old.contents at) word }
        ensures contents { self.new.contents
            ≡ slice_set self.old.contents at (slice_set (block_numbered self.old.contents at) word value) }
        ensures width { self.new.width ≡ self.old.width }
        ensures moved { MovesTo self.old.places at old new self.new.places }
        ensures tree { IsTree self.new }
    {
        let before = self.blocks.word(at, word);
        self.blocks.set_word(at, word, value);
        self.positions.access(at, old, new);
        before
    }
}
