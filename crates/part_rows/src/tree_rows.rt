use crate::bank_rows::Octal;
use processor::Bank;
use rand_core::Rng;
use recursive_oram::RecursiveOram;
use std::alloc::Global;
use std::test::Fail;

/// A recursive bank of this many blocks of 8 words, each 0.
fn recursive<R: Rng + Drop>(
    alloc: Global,
    words: R,
    blocks: usize,
) -> Result<RecursiveOram<R>, Fail> {
    if blocks == 0 || blocks > 4096 {
        return Err(Fail::from("no such bank"));
    }
    let image = vec![in alloc; 0; 8 * blocks]?;
    Ok(RecursiveOram::new(alloc, words, image, 8)?)
}

/// What reading a block shows, its first two leaves, and the block's first word.
fn read<B: Bank>(bank: &mut B, at: u32) -> Result<(u8, u32, u32, i64), Fail> {
    if at >= bank.blocks() || bank.block_words() != 8 {
        return Err(Fail::from("no such block"));
    }
    let mut block = [0; 8];
    let leaves = bank.read(at, block.as_mut_slice());
    Ok((leaves.len, leaves.at[0], leaves.at[1], block[0]))
}

/// The heights of both trees of five blocks, the leaf of a block, and the word that the upper tree has of it.
fn kept_above<R: Rng + Drop>(
    alloc: Global,
    bank: &RecursiveOram<R>,
    at: u32,
) -> Result<String, Fail> {
    if bank.levels() != 2 {
        return Err(Fail::from("other trees"));
    }
    let (below, above) = (bank.tree(0), bank.tree(1));
    if at >= below.blocks() || at / 4 >= above.blocks() || above.block_words() != 4 {
        return Err(Fail::from("no such block"));
    }
    let (lower, upper) = (below.height(), above.height());
    let (leaf, word) = (below.leaf(at), above.word(at / 4, at % 4));
    Ok(format!(in alloc; "{lower} {upper}: {leaf} {word}")?)
}

/// Blocks, and what is kept of each at the start.
const KEPT: &[(u32, &str)] = &[(0, "3 1: 3 3"), (1, "3 1: 6 6"), (4, "3 1: 5 5")];

/// Blocks that are read, what each read shows, and what is kept of the block after it.
const READS: &[(u32, (u8, u32, u32, i64), &str)] = &[
    (4, (2, 0, 5, 0), "3 1: 2 2"),
    (4, (2, 1, 2, 0), "3 1: 7 7"),
    (0, (2, 1, 3, 0), "3 1: 0 0"),
];

// What each read shows, and that the upper tree keeps the leaves of the lower one.
#[test]
fn five_blocks_show_what_the_words_say(rt: HostRuntime) -> Result<(), Fail> {
    let alloc = rt.alloc();
    let mut bank = recursive(alloc, Octal(0o0070210150163), 5)?;
    for (at, wanted) in KEPT {
        assert_eq!(rt; kept_above(alloc, &bank, *at)?.as_str(), *wanted);
    }
    for (at, shown, wanted) in READS {
        assert_eq!(rt; read(&mut bank, *at)?, *shown);
        assert_eq!(rt; kept_above(alloc, &bank, *at)?.as_str(), *wanted);
    }
    Ok(())
}
