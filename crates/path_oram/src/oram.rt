ghost use Rattle.std.specs.Prelude.{◌≡◌, ◌+◌, ◌/◌, ◌%◌, ◌^◌, ◌<◌, ◌≤◌, ◌∷◌, [], ℕ, List, IfOk, length, map, slice_get, slice_index, slice_set};
ghost use Rattle.std.specs.List.{All};
ghost use Rattle.lt_isa.specs.Prelude.{most_blocks, word_in};
ghost use Rattle.banks.specs.Prelude.{AreLeaves, block_numbered, one_leaf, in_blocks};
ghost use Rattle.rand_core.specs.Stream.{next_u64};
ghost use Rattle.path_oram.specs.Coming.{comes-none, comes-then, paths-each};
ghost use Rattle.path_oram.specs.GreedyPath.{GreedyPath};
ghost use Rattle.path_oram.specs.Moves.{MovesBy};
ghost use Rattle.path_oram.specs.Orams.{ComesBy, paths_ahead};
ghost use Rattle.path_oram.specs.Places.{first_places, held, bucket_number};
ghost use Rattle.path_oram.specs.Settles.{StandsOn};
ghost use Rattle.path_oram.specs.Whole.{IsHeightFor, IsWhole};
ghost use Rattle.path_oram.specs.Words.{first_words, leaf_of, words_left};
ghost use Rattle.path_oram.specs.WordsRead.{leaves_shown};

use crate::first::height_for;
use crate::leaves::{first_leaves, low_bits};
use crate::tree::PathTree;
use banks::{Bank, Leaves, PlainBank};
use gr_base::Memory;
use rand_core::Rng;
use std::alloc::Global;
use std::marker::Model;

/// An oblivious bank: a list of blocks whose accesses show only paths of a tree, each chosen by a random word. Its
/// position map is a list with the leaf of each block. Contracts see it as the blocks, their places in the tree, and
/// the source of words.
#[derive(Drop)]
pub struct PathOram<R: Rng + Drop> {
    words: R,
    tree: PathTree,
    leaves: Vec<u32>,
}

impl<R: Rng + Drop> Model for PathOram<R> {
    ghost use Rattle.std.specs.Prelude.{◌≡◌};
    ghost use Rattle.path_oram.specs.Orams.{Oram};
    ghost use Rattle.path_oram.specs.Trees.{IsTree};

    ghost Value = { Oram R };

    ghost view = { λ p. record {
      contents = p.tree.contents;
      width = p.tree.width;
      places = p.tree.places;
      words = p.words;
    } };

    ghost invariant = { λ p. record {
      leaves : p.leaves.items ≡ p.tree.places.leaves;
      tree : IsTree p.tree;
    } };
}

impl<R: Rng + Drop> PathOram<R> {
    /// A bank of these words, which are its blocks in sequence. It draws a word for each block, in order, which
    /// determines the block's first leaf. All memory that later calls need is reserved here.
    pub fn new(
        alloc: Global,
        words: R,
        blocks: Vec<i64>,
        block_words: u32,
    ) -> Result<PathOram<R>, Memory>
        requires least_words { 8 ≤ block_words }
        requires most_words { block_words ≤ 512 }
        requires whole_blocks { length blocks.items % block_words ≡ 0 }
        requires some_block { 1 ≤ length blocks.items }
        requires most_blocks { length blocks.items / block_words ≤ most_blocks 2 }
        ensures contents { IfOk result (λ oram. oram.contents ≡ in_blocks block_words blocks.items) }
        ensures width { IfOk result (λ oram. oram.width ≡ block_words) }
        ensures height { IfOk result (λ oram. IsHeightFor (length blocks.items / block_words) oram.places.height) }
        ensures first { IfOk result
            (λ oram. oram.places
            ≡ first_places
            oram.places.height
            (map (leaf_of oram.places.height) (first_words (length blocks.items / block_words) (R.stream words)))) }
        ensures words { IfOk result
            (λ oram. R.stream oram.words ≡ words_left (length blocks.items / block_words) (R.stream words)) }
        ensures shown { IfOk result
            (λ oram. (list : List ℕ)
            → All (λ block. block < length blocks.items / block_words) list
            → paths_ahead oram.places (R.stream oram.words) list
            ≡ map one_leaf
            (leaves_shown
            (length blocks.items / block_words)
            oram.places.height
            (first_words (length blocks.items / block_words + length list) (R.stream words))
            list)) }
    {
        PathOram::over(alloc, words, PlainBank::new(blocks, block_words))
    }

    /// A bank of these blocks. It draws a word for each of them, in order, which determines the block's first leaf. All
    /// memory that later calls need is reserved here.
    pub fn over(alloc: Global, words: R, blocks: PlainBank) -> Result<PathOram<R>, Memory>
        requires { length blocks.contents ≤ most_blocks 2 }
        ensures contents { IfOk result (λ oram. oram.contents ≡ blocks.contents) }
        ensures width { IfOk result (λ oram. oram.width ≡ blocks.width) }
        ensures height { IfOk result (λ oram. IsHeightFor (length blocks.contents) oram.places.height) }
        ensures first { IfOk result
            (λ oram. oram.places
            ≡ first_places
            oram.places.height
            (map (leaf_of oram.places.height) (first_words (length blocks.contents) (R.stream words)))) }
        ensures words { IfOk result
            (λ oram. R.stream oram.words ≡ words_left (length blocks.contents) (R.stream words)) }
        ensures shown { IfOk result
            (λ oram. (list : List ℕ)
            → All (λ block. block < length blocks.contents) list
            → paths_ahead oram.places (R.stream oram.words) list
            ≡ map one_leaf
            (leaves_shown
            (length blocks.contents)
            oram.places.height
            (first_words (length blocks.contents + length list) (R.stream words))
            list)) }
    {
        let mut words = words;
        let count = blocks.blocks();
        let height = height_for(count);
        let leaves = first_leaves(alloc, &mut words, height, count)?;
        let map = leaves.as_slice().to_vec(alloc)?;
        let tree = PathTree::over(alloc, blocks, height, leaves)?;
        Ok(PathOram {
            words,
            tree,
            leaves: map,
        })
    }

    /// The height of the tree: the least with a leaf for each block.
    pub fn height(&self) -> u32
        ensures height { result ≡ self.now.places.height }
        ensures low { result ≤ 12 }
        ensures leaves { length self.now.places.leaves ≡ length self.now.contents }
        ensures whole { IsWhole self.now.places }
    {
        self.tree.height()
    }

    /// A block's leaf.
    pub fn leaf(&self, at: u32) -> u32
        requires exists { at < length self.now.contents }
        ensures leaf { result ≡ slice_index self.now.places.leaves at }
        ensures whole { IsWhole self.now.places }
    {
        self.leaves[at as usize]
    }

    /// How many blocks are in the stash.
    pub fn stash_len(&self) -> u32
        ensures len { result ≡ length self.now.places.stash }
        ensures whole { IsWhole self.now.places }
    {
        self.tree.stash_len()
    }

    /// The block at a place of a bucket, or `None` if the place is a dummy. The bucket is number `index` from the left
    /// on its level.
    pub fn bucket(&self, level: u32, index: u32, place: u32) -> Option<u32>
        requires level { level ≤ self.now.places.height }
        requires index { index < 2 ^ level }
        requires place { place < 4 }
        ensures block { result ≡ slice_get (held self.now.places.tree (bucket_number level index)) place }
        ensures whole { IsWhole self.now.places }
    {
        self.tree.bucket(level, index, place)
    }

    /// The level of the bucket that holds a block, or `None` if the block is in the stash.
    pub fn level(&self, at: u32) -> Option<u32>
        requires exists { at < length self.now.contents }
        ensures stands { StandsOn self.now.places at result }
        ensures whole { IsWhole self.now.places }
    {
        self.tree.level(at)
    }

    // The leaf of a block before an access, and the leaf that a drawn word determines for it.
    fn leaves_of(&mut self, at: u32) -> (u32, u32)
        requires { at < length self.old.contents }
        ensures contents { self.new.contents ≡ self.old.contents }
        ensures width { self.new.width ≡ self.old.width }
        ensures places { self.new.places ≡ self.old.places }
        ensures old { result.0 ≡ slice_index self.old.places.leaves at }
        ensures new { result.1 ≡ leaf_of self.old.places.height (next_u64 (R.stream self.old.words)).0 }
        ensures exists { result.1 < 2 ^ self.old.places.height }
        ensures drawn { R.stream self.new.words ≡ (next_u64 (R.stream self.old.words)).1 }
    {
        let old = self.leaves[at as usize];
        let new = low_bits(self.words.next_u64(), self.tree.height());
        (old, new)
    }
}

impl<R: Rng + Drop> Bank for PathOram<R> {
    ghost contents = { λ p. p.contents };

    ghost width = { λ p. p.width };

    ghost shows = { λ p blocks. paths_ahead p.places (R.stream p.words) blocks };

    ghost comes = { λ before blocks now.
        ComesBy before.places (R.stream before.words) blocks now.places (R.stream now.words) };

    fn blocks(&self) -> u32 {
        self.tree.blocks()
    }

    fn block_words(&self) -> u32 {
        self.tree.block_words()
    }

    /// An access: copies a block into the slice. It shows the path of the block's leaf. A word is drawn and determines
    /// the block's new leaf, and the path is written back.
    fn read(&mut self, at: u32, into: &mut [i64]) -> Leaves
        requires exists { at < length self.old.contents }
        requires size { length into.old ≡ self.old.width }
        ensures filled { into.new ≡ block_numbered self.old.contents at }
        ensures contents { self.new.contents ≡ self.old.contents }
        ensures width { self.new.width ≡ self.old.width }
        ensures leaves { AreLeaves result }
        ensures now { result ≡ one_leaf (slice_index self.old.places.leaves at) }
        ensures drawn { R.stream self.new.words ≡ (next_u64 (R.stream self.old.words)).1 }
        ensures new_leaf { self.new.places.leaves
            ≡ slice_set self.old.places.leaves at
            (leaf_of self.old.places.height (next_u64 (R.stream self.old.words)).0) }
        ensures written_back { GreedyPath self.old.places at (slice_index self.old.places.leaves at) self.new.places }
        ensures whole { IsWhole self.new.places }
        ensures shown { (later : List ℕ)
            → paths_ahead self.old.places (R.stream self.old.words) (at ∷ later)
            ≡ result ∷ paths_ahead self.new.places (R.stream self.new.words) later }
        ensures came { ComesBy self.old.places (R.stream self.old.words) (at ∷ []) self.new.places
            (R.stream self.new.words) }
    {
        let (old, new) = self.leaves_of(at);
        self.tree.fetch(at, old, new, into);
        self.leaves[at as usize] = new;
        Leaves::one(old)
    }

    /// An access: replaces one block by the slice's words. It shows a path, draws a word and writes the path back as
    /// `read` does.
    fn write(&mut self, at: u32, from: &[i64]) -> Leaves
        requires exists { at < length self.old.contents }
        requires size { length from.now ≡ self.old.width }
        ensures contents { self.new.contents ≡ slice_set self.old.contents at from.now }
        ensures width { self.new.width ≡ self.old.width }
        ensures leaves { AreLeaves result }
        ensures now { result ≡ one_leaf (slice_index self.old.places.leaves at) }
        ensures drawn { R.stream self.new.words ≡ (next_u64 (R.stream self.old.words)).1 }
        ensures new_leaf { self.new.places.leaves
            ≡ slice_set self.old.places.leaves at
            (leaf_of self.old.places.height (next_u64 (R.stream self.old.words)).0) }
        ensures written_back { GreedyPath self.old.places at (slice_index self.old.places.leaves at) self.new.places }
        ensures whole { IsWhole self.new.places }
        ensures shown { (later : List ℕ)
            → paths_ahead self.old.places (R.stream self.old.words) (at ∷ later)
            ≡ result ∷ paths_ahead self.new.places (R.stream self.new.words) later }
        ensures came { ComesBy self.old.places (R.stream self.old.words) (at ∷ []) self.new.places
            (R.stream self.new.words) }
    {
        let (old, new) = self.leaves_of(at);
        self.tree.store(at, old, new, from);
        self.leaves[at as usize] = new;
        Leaves::one(old)
    }

    fn word(&self, at: u32, index: u32) -> i64 {
        self.tree.word(at, index)
    }

    ghost shows_each = { λ bank blocks. paths-each bank.places (R.stream bank.words) blocks };

    ghost comes_none = { λ bank. comes-none bank.places (R.stream bank.words) };

    ghost comes_then = { λ first second third blocks more one two. comes-then first.places second.places third.places
        (R.stream first.words) (R.stream second.words) (R.stream third.words) blocks more one two };
}
