ghost use Rattle.std.specs.Prelude.{◌≡◌, ◌<◌, ◌≤◌, ◌^◌, IfOk, length, map};
ghost use Rattle.rand_core.specs.Stream.{next_u64};
ghost use Rattle.path_oram.specs.Words.{first_words, leaf_of, words_left};

use gr_base::Memory;
use rand_core::Rng;
use std::alloc::Global;

/// The leaf that a word determines in a tree of this height: its lowest `height` bits.
#[tactic(auto, using(std::proofs::lemmas::Nat::and_mask, crate::proofs::PathNumbers::calculated, crate::proofs::PathNumbers::small_numbers))]
pub fn low_bits(word: u64, height: u32) -> u32
    requires { height ≤ 12 }
    ensures leaf { result ≡ leaf_of height word }
    ensures exists { result < 2 ^ height }
{
    (word & ((1 << height) - 1)) as u32
}

/// The leaves of `count` blocks. A word is drawn for each block, in order.
pub fn first_leaves<R: Rng>(
    alloc: Global,
    words: &mut R,
    height: u32,
    count: u32,
) -> Result<Vec<u32>, Memory>
    requires { height ≤ 12 }
    ensures leaves { IfOk result
        (λ leaves. leaves.items ≡ map (leaf_of height) (first_words count (R.stream words.old))) }
    ensures words { IfOk result (λ leaves. R.stream words.new ≡ words_left count (R.stream words.old)) }
{
    let mut leaves = Vec::with_capacity(alloc, count as usize)?;
    for _ in 0..count {
        leaves.push(low_bits(words.next_u64(), height))?;
    }
    Ok(leaves)
}
