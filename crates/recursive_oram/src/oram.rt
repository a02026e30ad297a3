ghost use Rattle.std.specs.Prelude.{◌≡◌, ℕ, ◌+◌, ◌*◌, ◌/◌, ◌%◌, ◌<◌, ◌≤◌, ◌∷◌, pos, List, Some, IfOk, length, map, slice_get, slice_index, slice_set};
ghost use Rattle.std.specs.List.{All};
ghost use Rattle.lt_isa.specs.Prelude.{most_blocks, word_in};
ghost use Rattle.banks.specs.Prelude.{AreLeaves, block_numbered, listed_leaves, in_blocks};
ghost use Rattle.path_oram.specs.Prelude.{IsTree, BlockTree, first_words, words_left};
ghost use Rattle.recursive_oram.specs.FirstTrees.{AreFirst};
ghost use Rattle.recursive_oram.specs.Levels.{leaves_now, shown_ahead};
ghost use Rattle.recursive_oram.specs.PositionMaps.{IsPositionMap, kept_leaf};
ghost use Rattle.recursive_oram.specs.RecLeaves.{AreSizes, rec_leaves, size_of, words_made};
ghost use Rattle.recursive_oram.specs.RecursiveOrams.{LeadsEach, levels_of, all_trees};
ghost use Rattle.recursive_oram.specs.Showing.{shown-each};

use crate::leading::lead;
use crate::making::trees_above;
use banks::{Bank, Leaves, PlainBank};
use gr_base::Memory;
use path_oram::{PathTree, first_leaves, height_for};
use rand_core::Rng;
use std::alloc::Global;
use std::marker::Model;

/// An oblivious bank whose positions are kept in smaller oblivious trees. Seen as its trees, the leaves of the last
/// one, and the source of words.
#[derive(Drop)]
pub struct RecursiveOram<R: Rng + Drop> {
    words: R,
    tree: PathTree,
    above: Vec<PathTree>,
    last: Vec<u32>,
}

impl<R: Rng + Drop> Model for RecursiveOram<R> {
    ghost use Rattle.std.specs.Prelude.{◌≤◌, length};
    ghost use Rattle.path_oram.specs.Trees.{IsTree};
    ghost use Rattle.recursive_oram.specs.PositionMaps.{IsPositionMap};
    ghost use Rattle.recursive_oram.specs.RecursiveOrams.{Recursive};

    ghost Value = { Recursive R };

    ghost view = { λ o. record { tree = o.tree; above = o.above.items; last = o.last.items; words = o.words } };

    ghost invariant = { λ o. record {
      tree : IsTree o.tree;
      map : IsPositionMap o.tree.places.leaves o.above.items o.last.items;
      few : length o.above.items ≤ 5;
    } };
}

impl<R: Rng + Drop> RecursiveOram<R> {
    /// A bank of these words, which are its blocks in order. It draws a word for each block of each tree, in order,
    /// which makes the block's first leaf, and no others. Every block begins in the stash of its tree. All memory is
    /// allocated here.
    pub fn new(
        alloc: Global,
        words: R,
        blocks: Vec<i64>,
        block_words: u32,
    ) -> Result<RecursiveOram<R>, Memory>
        requires least_words { 8 ≤ block_words }
        requires most_words { block_words ≤ 512 }
        requires whole_blocks { length blocks.items % block_words ≡ 0 }
        requires some_block { 1 ≤ length blocks.items }
        requires most_blocks { length blocks.items / block_words ≤ most_blocks 2 }
        ensures contents { IfOk result (λ oram. oram.tree.contents ≡ in_blocks block_words blocks.items) }
        ensures width { IfOk result (λ oram. oram.tree.width ≡ block_words) }
        ensures sizes { IfOk result
            (λ oram. AreSizes (length blocks.items / block_words) (map size_of (all_trees oram))) }
        ensures first { IfOk result (λ oram. AreFirst (R.stream words) 0 (all_trees oram)) }
        ensures words { IfOk result
            (λ oram. R.stream oram.words
            ≡ words_left (words_made (map size_of (all_trees oram))) (R.stream words)) }
        ensures position_map { IfOk result (λ oram. IsPositionMap oram.tree.places.leaves oram.above oram.last) }
        ensures shown { IfOk result
            (λ oram. (list : List ℕ) → All (λ block. block < length blocks.items / block_words) list
            → shown_ahead (levels_of (all_trees oram)) (R.stream oram.words) list
            ≡ rec_leaves
            (first_words
            (words_made (map size_of (all_trees oram)) + length list * length (all_trees oram)) (R.stream words))
            (map size_of (all_trees oram)) list) }
    {
        RecursiveOram::over(alloc, words, PlainBank::new(blocks, block_words))
    }

    /// A bank of these blocks. It draws a word for each block of each tree, in order, which makes the block's first
    /// leaf, and no others. Every block begins in the stash of its tree. All memory is allocated here.
    pub fn over(alloc: Global, words: R, blocks: PlainBank) -> Result<RecursiveOram<R>, Memory>
        requires { length blocks.contents ≤ most_blocks 2 }
        ensures contents { IfOk result (λ oram. oram.tree.contents ≡ blocks.contents) }
        ensures width { IfOk result (λ oram. oram.tree.width ≡ blocks.width) }
        ensures sizes { IfOk result (λ oram. AreSizes (length blocks.contents) (map size_of (all_trees oram))) }
        ensures first { IfOk result (λ oram. AreFirst (R.stream words) 0 (all_trees oram)) }
        ensures words { IfOk result
            (λ oram. R.stream oram.words
            ≡ words_left (words_made (map size_of (all_trees oram))) (R.stream words)) }
        ensures position_map { IfOk result (λ oram. IsPositionMap oram.tree.places.leaves oram.above oram.last) }
        ensures shown { IfOk result
            (λ oram. (list : List ℕ) → All (λ block. block < length blocks.contents) list
            → shown_ahead (levels_of (all_trees oram)) (R.stream oram.words) list
            ≡ rec_leaves
            (first_words
            (words_made (map size_of (all_trees oram)) + length list * length (all_trees oram)) (R.stream words))
            (map size_of (all_trees oram)) list) }
    {
        let mut words = words;
        let count = blocks.blocks();
        let height = height_for(count);
        let leaves = first_leaves(alloc, &mut words, height, count)?;
        let own = leaves.as_slice().to_vec(alloc)?;
        let tree = PathTree::over(alloc, blocks, height, own)?;
        let (above, last) = trees_above(alloc, &mut words, &tree, leaves)?;
        Ok(RecursiveOram {
            words,
            tree,
            above,
            last,
        })
    }

    /// How many trees there are.
    pub fn levels(&self) -> u8
        ensures count { result ≡ length (all_trees self.now) }
        ensures few { result ≤ 6 }
    {
        self.above.len() as u8 + 1
    }

    /// The tree of a level: that of the blocks is number 0, and each other keeps the leaves of the one below it, four a
    /// block. The leaves of the last tree are kept as a plain list.
    pub fn tree(&self, level: u8) -> &PathTree
        requires { level < length (all_trees self.now) }
        ensures tree { slice_get (all_trees self.now) level ≡ Some result.now }
        ensures whole { IsTree result.now }
        ensures keeps { (next : BlockTree) → slice_get (all_trees self.now) (level + 1) ≡ Some next
            → (block : ℕ) → block < length result.now.contents
            → kept_leaf next.contents block ≡ pos (slice_index result.now.places.leaves block) }
        ensures width { 1 ≤ level → result.now.width ≡ 4 }
        ensures last { level + 1 ≡ length (all_trees self.now) → result.now.places.leaves ≡ self.now.last }
    {
        if level == 0 {
            return &self.tree;
        }
        &self.above[level as usize - 1]
    }
}

impl<R: Rng + Drop> Bank for RecursiveOram<R> {
    ghost contents = { λ o. o.tree.contents };

    ghost width = { λ o. o.tree.width };

    ghost shows = { λ o blocks. shown_ahead (levels_of (all_trees o)) (R.stream o.words) blocks };

    ghost comes = { λ before blocks now. Unit {0} };

    fn blocks(&self) -> u32 {
        self.tree.blocks()
    }

    fn block_words(&self) -> u32 {
        self.tree.block_words()
    }

    fn read(&mut self, at: u32, into: &mut [i64]) -> Leaves
        requires exists { at < length self.old.tree.contents }
        requires size { length into.old ≡ self.old.tree.width }
        ensures filled { into.new ≡ block_numbered self.old.tree.contents at }
        ensures contents { self.new.tree.contents ≡ self.old.tree.contents }
        ensures width { self.new.tree.width ≡ self.old.tree.width }
        ensures leaves { AreLeaves result }
        ensures now { result ≡ listed_leaves (leaves_now (levels_of (all_trees self.old)) at) }
        ensures led { LeadsEach (all_trees self.old) at (R.stream self.old.words) (all_trees self.new) }
        ensures drawn { R.stream self.new.words
            ≡ words_left (length (all_trees self.old)) (R.stream self.old.words) }
        ensures shown { (later : List ℕ)
            → shown_ahead (levels_of (all_trees self.old)) (R.stream self.old.words) (at ∷ later)
            ≡ result ∷ shown_ahead (levels_of (all_trees self.new)) (R.stream self.new.words) later }
    {
        let way = lead(
            &self.tree,
            self.above.as_mut_slice(),
            self.last.as_mut_slice(),
            &mut self.words,
            at,
        );
        self.tree.fetch(at, way.was, way.becomes, into);
        way.shown
    }

    fn write(&mut self, at: u32, from: &[i64]) -> Leaves
        requires exists { at < length self.old.tree.contents }
        requires size { length from.now ≡ self.old.tree.width }
        ensures contents { self.new.tree.contents ≡ slice_set self.old.tree.contents at from.now }
        ensures width { self.new.tree.width ≡ self.old.tree.width }
        ensures leaves { AreLeaves result }
        ensures now { result ≡ listed_leaves (leaves_now (levels_of (all_trees self.old)) at) }
        ensures led { LeadsEach (all_trees self.old) at (R.stream self.old.words) (all_trees self.new) }
        ensures drawn { R.stream self.new.words
            ≡ words_left (length (all_trees self.old)) (R.stream self.old.words) }
        ensures shown { (later : List ℕ)
            → shown_ahead (levels_of (all_trees self.old)) (R.stream self.old.words) (at ∷ later)
            ≡ result ∷ shown_ahead (levels_of (all_trees self.new)) (R.stream self.new.words) later }
    {
        let way = lead(
            &self.tree,
            self.above.as_mut_slice(),
            self.last.as_mut_slice(),
            &mut self.words,
            at,
        );
        self.tree.store(at, way.was, way.becomes, from);
        way.shown
    }

    fn word(&self, at: u32, index: u32) -> i64 {
        self.tree.word(at, index)
    }

    ghost shows_each = { λ bank blocks. shown-each (levels_of (all_trees bank)) (R.stream bank.words) blocks };

    ghost comes_none = { λ bank. tt };

    ghost comes_then = { λ first second third blocks more one two. tt };
}
