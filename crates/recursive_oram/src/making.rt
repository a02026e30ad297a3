ghost use Rattle.std.specs.Prelude.{◌≡◌, [], ◌+◌, ◌*◌, ◌<◌, ◌≤◌, ◌^◌, pos, IfOk, length, map};
ghost use Rattle.banks.specs.Prelude.{filled_up};
ghost use Rattle.rand_core.specs.Stream.{Stream};
ghost use Rattle.path_oram.specs.Prelude.{first_places, IsTree, first_words, leaf_of, words_left};
ghost use Rattle.recursive_oram.specs.Making.{IsMaking};
ghost use Rattle.recursive_oram.specs.PositionMaps.{KeepsLeaves, count_above};

use gr_base::Memory;
use path_oram::{PathTree, first_leaves, height_for};
use rand_core::Rng;
use std::alloc::Global;

// Leaves as words, followed by zeros up to a whole block of four.
fn as_words(alloc: Global, leaves: &[u32]) -> Result<Vec<i64>, Memory>
    requires { length leaves.now ≤ 4096 }
    ensures { IfOk result
        (λ words. words.items ≡ filled_up (count_above (length leaves.now) * 4) (map pos leaves.now)) }
{
    let size = (leaves.len() + 3) / 4 * 4;
    let mut words = Vec::with_capacity(alloc, size)?;
    for leaf in leaves {
        words.push(i64::from(*leaf))?;
    }
    words.resize(size, 0)?;
    Ok(words)
}

/// A tree that keeps these leaves, four a block, and its own leaves, which the next words make.
pub(crate) fn tree_above<R: Rng + Drop>(
    alloc: Global,
    words: &mut R,
    leaves: &[u32],
) -> Result<(PathTree, Vec<u32>), Memory>
    requires more { 4 < length leaves.now }
    requires most { length leaves.now ≤ 4096 }
    ensures keeps { IfOk result (λ made. KeepsLeaves leaves.now made.0) }
    ensures tree { IfOk result (λ made. IsTree made.0) }
    ensures first { IfOk result (λ made. made.0.places ≡ first_places made.0.places.height made.1.items) }
    ensures own { IfOk result (λ made. made.1.items
        ≡ map (leaf_of made.0.places.height) (first_words (count_above (length leaves.now)) (R.stream words.old))) }
    ensures drawn { IfOk result
        (λ made. R.stream words.new ≡ words_left (count_above (length leaves.now)) (R.stream words.old)) }
{
    let kept = as_words(alloc, leaves)?;
    let count = (leaves.len() as u32 + 3) / 4;
    let own = first_leaves(alloc, words, height_for(count), count)?;
    let tree = PathTree::new(alloc, kept, 4, own.as_slice())?;
    Ok((tree, own))
}

/// The trees above one with these leaves, each of which keeps the leaves of the one below it, and the leaves of the
/// last, of which there are at most four.
pub(crate) fn trees_above<R: Rng + Drop>(
    alloc: Global,
    words: &mut R,
    tree: &PathTree,
    leaves: Vec<u32>,
) -> Result<(Vec<PathTree>, Vec<u32>), Memory>
    requires most { length leaves.items ≤ 4096 }
    ensures made { IfOk result (λ made. (start : Stream)
        → IsMaking start tree.now [] leaves.items (R.stream words.old)
        → IsMaking start tree.now made.0.items made.1.items (R.stream words.new)) }
    ensures few { IfOk result (λ made. length made.1.items ≤ 4) }
{
    let mut last = leaves;
    let mut above = Vec::new(alloc);
    'making: while last.len() > 4 {
        let (next, own) = tree_above(alloc, words, last.as_slice())?;
        above.push(next)?;
        last = own;
    }
    Ok((above, last))
}
