ghost use Rattle.std.specs.Prelude.{◌≡◌, ◌+◌, ◌<◌, ◌≤◌, [], ◌∷◌, ◌++◌, length, nat_lt};

use std::marker::Model;

/// The most blocks of a bucket.
pub const SIZE: u32 = 4;

/// A slot of a bucket or of the stash: a block and its leaf.
#[derive(Clone, Copy, Debug)]
pub struct Placed {
    pub block: u32,
    pub leaf: u32,
}

/// A bucket of the tree: at most four blocks, each with its leaf. Contracts see it as the list of these slots.
#[derive(Debug, Drop)]
pub struct Bucket {
    len: u32,
    at: [Placed; 4],
}

impl Model for Bucket {
    ghost use Rattle.std.specs.Prelude.{◌≡◌, List, ◌≤◌, length, take};
    ghost use Rattle.path_oram.specs.declared.bucket.Placed.{Placed};

    ghost Value = { List Placed };

    ghost view = { λ b. take b.len b.at };

    ghost invariant = { λ b. record {
      len : b.len ≤ 4;
      at : length b.at ≡ 4;
    } };
}

impl Bucket {
    /// An empty bucket.
    pub fn new() -> Bucket
        ensures { result ≡ [] }
    {
        Bucket {
            len: 0,
            at: [Placed { block: 0, leaf: 0 }; 4],
        }
    }

    /// The slots that hold blocks; the others are dummies.
    pub fn slots(&self) -> &[Placed]
        ensures slots { result.now ≡ self.now }
        ensures most { length self.now ≤ 4 }
    {
        &self.at[..self.len as usize]
    }

    /// Whether there is room for one more block.
    pub fn has_room(&self) -> bool
        ensures { result ≡ nat_lt (length self.now) 4 }
    {
        self.len < SIZE
    }

    /// Adds a block with its leaf at the end.
    pub fn push(&mut self, slot: Placed)
        requires room { length self.old < 4 }
        ensures { self.new ≡ self.old ++ slot ∷ [] }
    {
        self.at[self.len as usize] = slot;
        self.len += 1;
    }

    /// Removes all blocks.
    pub fn clear(&mut self)
        ensures { self.new ≡ [] }
    {
        self.len = 0;
    }
}
