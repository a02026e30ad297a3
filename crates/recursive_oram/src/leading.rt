ghost use Rattle.std.specs.Prelude.{◌≡◌, ℕ, ◌<◌, ◌≤◌, [], ◌∷◌, ◌++◌, List, length};
ghost use Rattle.banks.specs.Prelude.{listed_leaves};
ghost use Rattle.path_oram.specs.Prelude.{IsTree};
ghost use Rattle.recursive_oram.specs.Descending.{IsDescent};
ghost use Rattle.recursive_oram.specs.PositionMaps.{IsPositionMap};

use banks::Leaves;
use path_oram::{PathTree, low_bits};
use rand_core::Rng;

/// How far an access has come, from the highest tree down: the leaf that its block of a tree had, the one that it gets,
/// and the leaves that are shown so far.
#[derive(Clone, Copy, Debug)]
pub(crate) struct Descent {
    pub(crate) was: u32,
    pub(crate) becomes: u32,
    pub(crate) shown: Leaves,
}

// The leaves followed by one more.
fn with_leaf(shown: Leaves, leaf: u32) -> Leaves
    requires room { shown.len < 6 }
    ensures { (leaves : List ℕ) → shown ≡ listed_leaves leaves → result ≡ listed_leaves (leaves ++ leaf ∷ []) }
{
    let mut shown = shown;
    shown.at[shown.len as usize] = leaf;
    shown.len += 1;
    shown
}

/// How an access to a block of a tree changes the trees above it, which keep its leaves: there the block gets the leaf
/// that the next word makes, after those that the trees above draw. The tree itself is still to be accessed.
pub(crate) fn lead<R: Rng + Drop>(
    below: &PathTree,
    above: &mut [PathTree],
    last: &mut [u32],
    words: &mut R,
    block: u32,
) -> Descent
    requires tree { IsTree below.now }
    requires map { IsPositionMap below.now.places.leaves above.old last.old }
    requires few { length above.old ≤ 5 }
    requires exists { block < length below.now.places.leaves }
    ensures { IsDescent below.now above.old above.new last.new (R.stream words.old) (R.stream words.new) block
        result.was result.becomes result.shown }
{
    match above.split_first_mut() {
        None => {
            let drawn = low_bits(words.next_u64(), below.height());
            let was = last[block as usize];
            last[block as usize] = drawn;
            Descent {
                was,
                becomes: drawn,
                shown: Leaves::one(was),
            }
        }
        Some((tree, rest)) => {
            let way = lead(tree, rest, last, words, block / 4);
            let becomes = low_bits(words.next_u64(), below.height());
            let was = tree.swap_word(
                block / 4,
                way.was,
                way.becomes,
                block % 4,
                i64::from(becomes),
            ) as u32;
            Descent {
                was,
                becomes,
                shown: with_leaf(way.shown, was),
            }
        }
    }
}
