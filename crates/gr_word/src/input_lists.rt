ghost use Rattle.std.specs.Prelude.{◌≡◌, ◌==◌, ◌<◌, ◌++◌, ◌∷◌, [], length, slice_set, OnOk, OnErr};
ghost use Rattle.gr_word.specs.Fitting.{words_at};

use gr_base::Memory;
use std::alloc::Global;
use std::marker::Model;

/// The words of variables, one list of words for each. Contracts see them as a list of lists of words.
#[derive(Drop)]
pub struct Inputs {
    lists: Vec<Vec<i64>>,
}

impl Model for Inputs {
    ghost use Rattle.std.specs.Prelude.{List, ℤ, map};

    ghost Value = { List (List ℤ) };

    ghost view = { λ inputs. map (λ words. words.items) inputs.lists.items };
}

impl Inputs {
    /// No lists yet.
    pub fn new(alloc: Global) -> Inputs
        ensures { result ≡ [] }
    {
        Inputs {
            lists: Vec::new(alloc),
        }
    }

    /// Adds the words of the next variable. Running out of memory leaves the lists as they were, and drops the words.
    pub fn push(&mut self, words: Vec<i64>) -> Result<(), Memory>
        ensures added { OnOk result (self.new ≡ self.old ++ words.items ∷ []) }
        ensures unchanged { OnErr result (self.new ≡ self.old) }
    {
        self.lists.push(words)?;
        Ok(())
    }

    /// The number of lists.
    pub fn len(&self) -> usize
        ensures { result ≡ length self.now }
    {
        self.lists.len()
    }

    /// Whether there are no lists.
    pub fn is_empty(&self) -> bool
        ensures { result ≡ (length self.now == 0) }
    {
        self.lists.is_empty()
    }

    /// The words of list number `i`.
    pub fn words(&self, i: usize) -> &[i64]
        requires { i < length self.now }
        ensures { result.now ≡ words_at self.now i }
    {
        self.lists[i].as_slice()
    }

    /// Replaces word number `at` of list number `i`.
    pub fn set(&mut self, i: usize, at: usize, word: i64)
        requires list { i < length self.old }
        requires word { at < length (words_at self.old i) }
        ensures { self.new ≡ slice_set self.old i (slice_set (words_at self.old i) at word) }
    {
        self.lists[i][at] = word;
    }
}
