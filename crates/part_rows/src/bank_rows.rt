ghost use Rattle.std.specs.Prelude.{◌≡◌, ◌%◌, ◌/◌, ℕ};
ghost use Rattle.rand_core.specs.Steps.{stream_of, steps_u64_low};

use path_oram::{PathOram, rearrange};
use processor::Bank;
use rand_core::utils::NextWord;
use rand_core::{Rng, utils};
use std::alloc::Global;
use std::marker::Model;
use std::test::Fail;

/// A source whose words are the digits of a number to the base 8, the lowest first, and then 0.
#[derive(Drop)]
pub(crate) struct Octal(pub(crate) u64);

impl Model for Octal {
    ghost Value = { ℕ };

    ghost view = { λ s. s.0 };
}

impl NextWord<u64> for Octal {
    ghost step = { λ s. (s % 8, s / 8) };

    fn next_word(&mut self) -> u64 {
        let word = self.0 % 8;
        self.0 /= 8;
        word
    }
}

impl Rng for Octal {
    ghost stream = { stream_of (steps_u64_low (λ s. (s % 8, s / 8))) };

    fn next_u32(&mut self) -> u32 {
        self.next_word() as u32
    }

    fn next_u64(&mut self) -> u64 {
        self.next_word()
    }

    fn fill_bytes(&mut self, dst: &mut [u8]) {
        utils::fill_bytes_via_u64(self, dst)
    }
}

/// A bank of this many blocks of 8 words, each 0.
fn bank_of<R: Rng + Drop>(alloc: Global, words: R, blocks: usize) -> Result<PathOram<R>, Fail> {
    if blocks == 0 || blocks > 4096 {
        return Err(Fail::from("no such bank"));
    }
    let image = vec![in alloc; 0; 8 * blocks]?;
    Ok(PathOram::new(alloc, words, image, 8)?)
}

/// The leaf that reading a block shows, and the block's first word.
fn read<R: Rng + Drop>(bank: &mut PathOram<R>, at: u32) -> Result<(u32, i64), Fail> {
    if at >= bank.blocks() || bank.block_words() != 8 {
        return Err(Fail::from("no such block"));
    }
    let mut block = [0; 8];
    let leaves = bank.read(at, block.as_mut_slice());
    Ok((leaves.at[0], block[0]))
}

/// Whether a bucket holds a block.
fn holds<R: Rng + Drop>(bank: &PathOram<R>, level: u32, index: u32, block: u32) -> bool {
    if level > bank.height() || level > 12 || index >= 1 << level {
        return false;
    }
    for place in 0..4 {
        if bank.bucket(level, index, place) == Some(block) {
            return true;
        }
    }
    false
}

/// What reading a block shows, and the state of three blocks afterwards: their leaves, how many are in the stash, and
/// each bucket of four leaves that holds one, as its level and number.
fn shown<R: Rng + Drop>(alloc: Global, bank: &mut PathOram<R>, at: u32) -> Result<String, Fail> {
    let (leaf, word) = read(bank, at)?;
    if bank.blocks() != 3 {
        return Err(Fail::from("other blocks"));
    }
    let stash = bank.stash_len();
    let leaves = [bank.leaf(0), bank.leaf(1), bank.leaf(2)];
    let [first, second, third] = leaves;
    let mut text = format!(in alloc; "{leaf} {word}: {first} {second} {third}, stash {stash}")?;
    for (level, index) in BUCKETS {
        put_held(alloc, bank, *level, *index, &mut text)?;
    }
    Ok(text)
}

/// The buckets of four leaves, by level and number.
const BUCKETS: &[(u32, u32)] = &[(0, 0), (1, 0), (1, 1), (2, 0), (2, 1), (2, 2), (2, 3)];

/// Appends those of three blocks that a bucket holds.
fn put_held<R: Rng + Drop>(
    alloc: Global,
    bank: &PathOram<R>,
    level: u32,
    index: u32,
    text: &mut String,
) -> Result<(), Fail> {
    for block in 0..3 {
        if holds(bank, level, index, block) {
            text.push_str(format!(in alloc; ", {block} in {level}.{index}")?.as_str())?;
        }
    }
    Ok(())
}

#[test]
fn three_blocks_go_as_the_words_say(rt: HostRuntime) -> Result<(), Fail> {
    let alloc = rt.alloc();
    let mut bank = bank_of(alloc, Octal(0o416725), 3)?;
    assert_eq!(rt; (bank.height(), bank.stash_len()), (2, 3));
    for (at, wanted) in [
        (1, "2 0: 1 2 3, stash 0, 0 in 0.0, 2 in 1.1, 1 in 2.2"),
        (1, "2 0: 1 1 3, stash 0, 0 in 0.0, 1 in 0.0, 2 in 1.1"),
        (0, "1 0: 0 1 3, stash 0, 0 in 1.0, 2 in 1.1, 1 in 2.1"),
    ] {
        assert_eq!(rt; shown(alloc, &mut bank, at)?.as_str(), wanted);
    }
    Ok(())
}

#[test]
fn rearranged_words_show_the_same(rt: HostRuntime) -> Result<(), Fail> {
    let pairs = rearrange(rt.alloc(), 3, &[1, 1, 0], &[0, 0, 2])?;
    assert_eq!(rt; pairs.as_slice(), [2, 0, 1, 3, 4, 5].as_slice());
    let mut bank = bank_of(rt.alloc(), Octal(0o416572), 3)?;
    assert_eq!(rt;
        (
            read(&mut bank, 0)?,
            read(&mut bank, 0)?,
            read(&mut bank, 2)?
        ),
        ((2, 0), (2, 0), (1, 0))
    );
    Ok(())
}

/// How many blocks stay in the stash after an access, if all of this many have leaf 0.
fn left_over(alloc: Global, count: usize) -> Result<u32, Fail> {
    let mut bank = bank_of(alloc, Octal(0), count)?;
    read(&mut bank, 0)?;
    Ok(bank.stash_len())
}

#[test]
fn one_path_holds_four_blocks_a_level(rt: HostRuntime) -> Result<(), Fail> {
    assert_eq!(rt;
        (left_over(rt.alloc(), 1)?, left_over(rt.alloc(), 16)?),
        (0, 0)
    );
    assert_eq!(rt;
        (left_over(rt.alloc(), 64)?, left_over(rt.alloc(), 4096)?),
        (36, 4044)
    );
    Ok(())
}
