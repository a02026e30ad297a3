ghost use Rattle.std.specs.Prelude.{◌≡◌, ◌<◌, ◌≤◌, ◌+◌, ◌*◌, ◌/◌, ◌%◌, ◌^◌, ◌∷◌, List, ℕ, length, map, slice_set, vec_capacity};
ghost use Rattle.lt_isa.specs.Prelude.{word_in};
ghost use Rattle.banks.specs.Banks.{AreLeaves, block_numbered, no_leaves};
ghost use Rattle.banks.specs.Blocks.{cut, filled_up, in_blocks};

use crate::bank::{Bank, Leaves};
use crate::fronts::{read_at, word_at, write_at};
use std::marker::Model;

/// A bank that stores its blocks in sequence, and shows no paths. It stores the words up to the last one that was given
/// or written. The words after that are 0, and the room that is reserved for them is never touched. Contracts see the
/// bank as its blocks and their width.
#[derive(Debug, Drop)]
pub struct PlainBank {
    words: Vec<i64>,
    count: u32,
    block_words: u32,
}

impl Model for PlainBank {
    ghost use Rattle.std.specs.Prelude.{◌≡◌, ◌≤◌, ◌*◌, length, vec_capacity};
    ghost use Rattle.banks.specs.Blocks.{Blocks, cut, filled_up};

    ghost Value = { Blocks };

    ghost view = { λ b. record {
      contents = cut b.block_words b.count (filled_up (b.count * b.block_words) b.words.items);
      width = b.block_words;
    } };

    ghost invariant = { λ b. record {
      small : b.block_words ≤ 512;
      within : length b.words.items ≤ b.count * b.block_words;
      room : b.count * b.block_words ≤ vec_capacity b.words;
    } };
}

impl PlainBank {
    /// A bank of these words, which are its blocks in sequence.
    pub fn new(blocks: Vec<i64>, block_words: u32) -> PlainBank
        requires some_word { 1 ≤ block_words }
        requires most_words { block_words ≤ 512 }
        requires whole_blocks { length blocks.items % block_words ≡ 0 }
        requires some_block { 1 ≤ length blocks.items }
        requires fewer { length blocks.items / block_words < 2 ^ 32 }
        ensures contents { result.contents ≡ in_blocks block_words blocks.items }
        ensures width { result.width ≡ block_words }
    {
        let count = (blocks.len() / (block_words as usize)) as u32;
        PlainBank::with_front(blocks, count, block_words)
    }

    /// Replaces one word of a block. This isn't an access: it shows nothing. It takes no memory.
    #[tactic(auto, using(crate::proofs::Blocks::block_end))]
    pub fn set_word(&mut self, at: u32, index: u32, word: i64)
        requires exists { at < length self.old.contents }
        requires within { index < self.old.width }
        ensures { self.new ≡ record self.old {
          contents =
              slice_set self.old.contents at (slice_set (block_numbered self.old.contents at) index word);
        } }
    {
        let start = first_word_number(at, self.count, self.block_words);
        write_at(&mut self.words, start + index as usize, &[word]);
    }

    /// A bank of `count` blocks whose first words are these, in a vector with room for all; the other words are 0.
    pub fn with_front(words: Vec<i64>, count: u32, block_words: u32) -> PlainBank
        requires small { block_words ≤ 512 }
        requires within { length words.items ≤ count * block_words }
        requires room { count * block_words ≤ vec_capacity words }
        ensures contents { result.contents ≡ cut block_words count (filled_up (count * block_words) words.items) }
        ensures width { result.width ≡ block_words }
    {
        PlainBank {
            words,
            count,
            block_words,
        }
    }
}

impl Bank for PlainBank {
    ghost use Rattle.std.proofs.lemmas.List.{length-map};

    ghost contents = { λ b. b.contents };

    ghost width = { λ b. b.width };

    ghost shows = { λ b blocks. map (λ at. no_leaves) blocks };

    ghost comes = { λ before blocks now. Unit {0} };

    fn blocks(&self) -> u32 {
        self.count
    }

    fn block_words(&self) -> u32 {
        self.block_words
    }

    fn read(&mut self, at: u32, into: &mut [i64]) -> Leaves
        requires exists { at < length self.old.contents }
        requires size { length into.old ≡ self.old.width }
        ensures filled { into.new ≡ block_numbered self.old.contents at }
        ensures stays { self.new ≡ self.old }
        ensures leaves { AreLeaves result }
        ensures no_path { result ≡ no_leaves }
    {
        let start = first_word_number(at, self.count, self.block_words);
        read_at(self.words.as_slice(), start, into);
        Leaves::none()
    }

    fn write(&mut self, at: u32, from: &[i64]) -> Leaves
        requires exists { at < length self.old.contents }
        requires size { length from.now ≡ self.old.width }
        ensures written { self.new ≡ record self.old { contents = slice_set self.old.contents at from.now } }
        ensures leaves { AreLeaves result }
        ensures no_path { result ≡ no_leaves }
    {
        let start = first_word_number(at, self.count, self.block_words);
        write_at(&mut self.words, start, from);
        Leaves::none()
    }

    fn word(&self, at: u32, index: u32) -> i64 {
        let start = first_word_number(at, self.count, self.block_words);
        word_at(self.words.as_slice(), start + index as usize)
    }

    ghost shows_each = { λ bank blocks. length-map blocks (λ at. no_leaves) };

    ghost comes_none = { λ bank. tt };

    ghost comes_then = { λ first second third blocks more one two. tt };
}

// The number of a block's first word among the words of the bank.
#[tactic(auto, using(crate::proofs::Blocks::block_end))]
fn first_word_number(at: u32, count: u32, width: u32) -> usize
    requires exists { at < count }
    requires small { width ≤ 512 }
    ensures start { result ≡ at * width }
    ensures inside { result + width ≤ count * width }
    ensures far { result < 2 ^ 41 }
{
    at as usize * width as usize
}
