ghost use Rattle.std.specs.Prelude.{◌≡◌, ℕ, ◌+◌, ◌<◌, ◌^◌, IfOk, length, slice_index};
ghost use Rattle.std.specs.List.{All, range_with_len};
ghost use Rattle.std.specs.List.Sorted.{IsPermutation};
ghost use Rattle.path_oram.specs.Rearranged.{IsRearrangement, IsWordOrder};
ghost use Rattle.path_oram.specs.WordsRead.{words_next, words_read};

use crate::first::every_block;
use gr_base::Memory;
use std::alloc::Global;

/// The numbers of the random words that determine the leaf of each access, if `count` blocks draw the first words and
/// each access draws one. At its first access a block reads its own word, and then the word that the last access to it
/// drew.
pub fn words_read(alloc: Global, count: u32, blocks: &[u32]) -> Result<Vec<u32>, Memory>
    requires exist { All (λ block. block < count) blocks.now }
    requires fits { count + length blocks.now < 2 ^ 32 }
    ensures numbers { IfOk result (λ numbers. numbers.items ≡ words_read count blocks.now) }
{
    let (numbers, _) = read_and_next(alloc, count, blocks)?;
    Ok(numbers)
}

// The words that a run reads, and those that the blocks would read next.
fn read_and_next(alloc: Global, count: u32, blocks: &[u32]) -> Result<(Vec<u32>, Vec<u32>), Memory>
    requires exist { All (λ block. block < count) blocks.now }
    requires fits { count + length blocks.now < 2 ^ 32 }
    ensures numbers { IfOk result (λ words. words.0.items ≡ words_read count blocks.now) }
    ensures next { IfOk result (λ words. words.1.items ≡ words_next count blocks.now) }
{
    let mut last = every_block(alloc, count)?;
    let mut numbers = Vec::with_capacity(alloc, blocks.len())?;
    for (place, block) in blocks.iter().enumerate() {
        numbers.push(last[*block as usize])?;
        last[*block as usize] = count + place as u32;
    }
    Ok((numbers, last))
}

// The words that a run reads, and then all others, in rising order.
fn words_in_order(alloc: Global, count: u32, blocks: &[u32]) -> Result<Vec<u32>, Memory>
    requires exist { All (λ block. block < count) blocks.now }
    requires fits { count + length blocks.now < 2 ^ 32 }
    ensures { IfOk result (λ order. IsWordOrder count blocks.now order.items) }
{
    let (mut order, mut left) = read_and_next(alloc, count, blocks)?;
    left.sort()?;
    order.extend_from_slice(left.as_slice())?;
    Ok(order)
}

// The list that has, at each number of `from`, the number of `to` at the same index.
fn paired(alloc: Global, from: &[u32], to: &[u32]) -> Result<Vec<u32>, Memory>
    requires once { IsPermutation (range_with_len 0 (length from.now)) from.now }
    requires same { length to.now ≡ length from.now }
    ensures size { IfOk result (λ pairs. length pairs.items ≡ length from.now) }
    ensures pairs { IfOk result (λ pairs.
        (i : ℕ) → i < length from.now → slice_index pairs.items (slice_index from.now i) ≡ slice_index to.now i) }
{
    let mut pairs = vec![in alloc; 0; from.len()]?;
    for (place, number) in from.iter().enumerate() {
        pairs[*number as usize] = to[place];
    }
    Ok(pairs)
}

/// A rearrangement of the words of one run for another run with as many accesses: if each word of the first run is
/// moved to the number that this list has for it, the second run shows the same leaves.
pub fn rearrange(
    alloc: Global,
    count: u32,
    first: &[u32],
    second: &[u32],
) -> Result<Vec<u32>, Memory>
    requires same { length second.now ≡ length first.now }
    requires first_exist { All (λ block. block < count) first.now }
    requires second_exist { All (λ block. block < count) second.now }
    requires fits { count + length first.now < 2 ^ 32 }
    ensures { IfOk result (λ pairs. IsRearrangement count first.now second.now pairs.items) }
{
    let from = words_in_order(alloc, count, first)?;
    let to = words_in_order(alloc, count, second)?;
    let pairs = paired(alloc, from.as_slice(), to.as_slice())?;
    Ok(pairs)
}
