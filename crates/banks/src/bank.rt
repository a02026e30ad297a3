ghost use Rattle.std.specs.Prelude.{◌≡◌, ◌<◌, List, ℕ, ℤ, [], ◌∷◌, ◌++◌, length, slice_set};
ghost use Rattle.lt_isa.specs.Prelude.{word_in};
ghost use Rattle.banks.specs.Banks.{AreLeaves, block_numbered, no_leaves, one_leaf};

/// The paths that an access to an oblivious bank showed, each given by its leaf. The first `len` entries of `at`, at
/// most six, are leaves; the others are 0.
#[derive(Clone, Copy, Debug, PartialEq, Eq)]
pub struct Leaves {
    pub len: u8,
    pub at: [u32; 6],
}

impl Leaves {
    /// No path.
    pub fn none() -> Leaves
        ensures none { result ≡ no_leaves }
        ensures listed { AreLeaves result }
    {
        Leaves { len: 0, at: [0; 6] }
    }

    /// One path.
    pub fn one(leaf: u32) -> Leaves
        ensures one { result ≡ one_leaf leaf }
        ensures listed { AreLeaves result }
    {
        Leaves {
            len: 1,
            at: [leaf, 0, 0, 0, 0, 0],
        }
    }
}

/// A bank of memory: a list of blocks of `width` words each. No call fails, and none takes memory.
pub trait Bank {
    ghost use Rattle.banks.specs.declared.bank.Leaves.{Leaves};

    /// The blocks.
    ghost contents: { Self → List (List ℤ) };

    /// The number of words of a block.
    ghost width: { Self → ℕ };

    /// The paths that accesses to these blocks will show, from now on and in this order: one entry for each access.
    /// why: for every list of block numbers, even of blocks that the bank doesn't have, so it needs no premise. Only
    /// accesses to blocks that it has are made.
    ghost shows: { Self → List ℕ → List Leaves };

    /// Whether accesses to these blocks, in this order, can change the first bank into the second.
    ghost comes: { Self → List ℕ → Self → Type 0 };

    /// The number of blocks.
    fn blocks(&self) -> u32
        ensures { result ≡ length (contents self.now) };

    /// The number of words of a block.
    fn block_words(&self) -> u32
        ensures { result ≡ width self.now };

    /// An access: copies a block into the slice, and leaves the blocks as they are.
    fn read(&mut self, at: u32, into: &mut [i64]) -> Leaves
        requires exists { at < length (contents self.old) }
        requires size { length into.old ≡ width self.old }
        ensures filled { into.new ≡ block_numbered (contents self.old) at }
        ensures contents { contents self.new ≡ contents self.old }
        ensures width { width self.new ≡ width self.old }
        ensures leaves { AreLeaves result }
        ensures shown { (later : List ℕ) → shows self.old (at ∷ later) ≡ result ∷ shows self.new later }
        ensures came { comes self.old (at ∷ []) self.new };

    /// An access: replaces one block by the slice's words.
    fn write(&mut self, at: u32, from: &[i64]) -> Leaves
        requires exists { at < length (contents self.old) }
        requires size { length from.now ≡ width self.old }
        ensures contents { contents self.new ≡ slice_set (contents self.old) at from.now }
        ensures width { width self.new ≡ width self.old }
        ensures leaves { AreLeaves result }
        ensures shown { (later : List ℕ) → shows self.old (at ∷ later) ≡ result ∷ shows self.new later }
        ensures came { comes self.old (at ∷ []) self.new };

    /// A word of a block. This isn't an access, and it changes nothing.
    fn word(&self, at: u32, index: u32) -> i64
        requires exists { at < length (contents self.now) }
        requires within { index < width self.now }
        ensures { result ≡ word_in (block_numbered (contents self.now) at) index };

    /// There is one entry for each access, which may list no paths.
    ghost shows_each: { (bank : Self) (blocks : List ℕ) → length (shows bank blocks) ≡ length blocks };

    /// No accesses change a bank into itself.
    ghost comes_none: { (bank : Self) → comes bank [] bank };

    /// If accesses change a first bank into a second, and others change the second into a third, then all of them in
    /// sequence change the first into the third.
    ghost comes_then: { (first second third : Self) (blocks more : List ℕ)
        → comes first blocks second → comes second more third → comes first (blocks ++ more) third };
}
