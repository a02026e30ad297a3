ghost use Rattle.std.specs.Prelude.{◌≡◌, ◌≤◌, map, IfOk};
ghost use Rattle.lt_isa.specs.Prelude.{most_block_log};
ghost use Rattle.lt_assembler.specs.Faults.{Becomes};
ghost use Rattle.lt_assembler.specs.Reading.{is_version, cycles_read, window_read, versioned_read, profile_read, object_line, bank_with, bank_read, bank_line};
ghost use Rattle.lt_assembler.specs.Seen.{draft_of};

use crate::draft::Draft;
use crate::faults::Fault;
use crate::numbers::{number_within, u8_in, u32_in};
use crate::stages::takes_bank;
use lt_isa::limits::{
    LEAST_BLOCK_LOG, MOST_BANKS, MOST_BLOCK_LOG, MOST_CYCLES, MOST_LATENCY, MOST_PERIOD,
    MOST_TAKEN, most_blocks,
};
use lt_isa::{BankSpec, Profile};

/// The block size and the cycles of instructions from their words, with memory that is always open.
#[tactic(auto, unfolding(crate::specs::Reading::cycles_read))]
fn cycles_of(
    block_log: &[u8],
    alu: &[u8],
    mul: &[u8],
    word: &[u8],
    taken: &[u8],
) -> Result<Profile, Fault>
    ensures read { result ≡ cycles_read block_log.now alu.now mul.now word.now taken.now }
    ensures small { IfOk result (λ p. p.block_log ≤ most_block_log) }
{
    let block_log = u8_in(LEAST_BLOCK_LOG, MOST_BLOCK_LOG, block_log)?;
    let alu = u8_in(1, MOST_CYCLES, alu)?;
    let mul = u8_in(1, MOST_CYCLES, mul)?;
    let word = u8_in(1, MOST_CYCLES, word)?;
    let taken = u8_in(1, MOST_TAKEN, taken)?;
    Ok(Profile {
        block_log,
        alu,
        mul,
        word,
        taken,
        period: 1,
        opens: 0,
        closes: 1,
    })
}

/// The profile of these cycles, with the window in three words.
#[tactic(auto, unfolding(crate::specs::Reading::window_read))]
fn with_window(
    cycles: Result<Profile, Fault>,
    period: &[u8],
    opens: &[u8],
    closes: &[u8],
) -> Result<Profile, Fault>
    requires { IfOk cycles (λ p. p.block_log ≤ most_block_log) }
    ensures read { result ≡ window_read cycles period.now opens.now closes.now }
    ensures small { IfOk result (λ p. p.block_log ≤ most_block_log) }
{
    let profile = cycles?;
    let period = u32_in(2, MOST_PERIOD, period)?;
    let opens = u32_in(0, period - 1, opens)?;
    let closes = u32_in(opens + 1, period, closes)?;
    Ok(Profile {
        period,
        opens,
        closes,
        ..profile
    })
}

/// Whether a word is the number of this version.
fn is_version(version: u64, word: &[u8]) -> bool
    ensures { result ≡ is_version version word.now }
{
    number_within(version, version, word).is_some()
}

/// The profile of these cycles, in version 1 with memory that is always open and in version 2 with a window.
fn versioned(
    version: &[u8],
    cycles: Result<Profile, Fault>,
    window: &[&[u8]],
) -> Result<Profile, Fault>
    requires { IfOk cycles (λ p. p.block_log ≤ most_block_log) }
    ensures read { result ≡ versioned_read version.now cycles (map (λ w. w.now) window.now) }
    ensures small { IfOk result (λ p. p.block_log ≤ most_block_log) }
{
    match window {
        [] => {
            if !is_version(1, version) {
                return Err(Fault::Number);
            }
            cycles
        }
        [period, opens, closes] => {
            if !is_version(2, version) {
                return Err(Fault::Number);
            }
            with_window(cycles, period, opens, closes)
        }
        _ => Err(Fault::WrongForm),
    }
}

/// The profile of the first line, from the words after the first.
#[tactic(auto, unfolding(crate::specs::Reading::profile_read))]
fn profile_of(words: &[&[u8]]) -> Result<Profile, Fault>
    ensures read { result ≡ profile_read (map (λ w. w.now) words.now) }
    ensures small { IfOk result (λ p. p.block_log ≤ most_block_log) }
{
    match words {
        [version, block_log, alu, mul, word, taken, window @ ..] => {
            let cycles = cycles_of(block_log, alu, mul, word, taken);
            versioned(version, cycles, window)
        }
        _ => Err(Fault::WrongForm),
    }
}

/// Reads the first line.
#[tactic(auto, unfolding(crate::specs::Reading::object_line))]
pub fn object_line(draft: &mut Draft, words: &[&[u8]]) -> Result<(), Fault>
    ensures { Becomes result (draft_of draft.new) (object_line (map (λ w. w.now) words.now) (draft_of draft.old)) }
{
    if draft.profile.is_some() {
        return Err(Fault::WrongForm);
    }
    let profile = profile_of(words)?;
    draft.profile = Some(profile);
    Ok(())
}

/// Bank number `index`, with the number of its blocks and its latency.
fn bank_with(index: usize, blocks: &[u8], latency: &[u8]) -> Result<BankSpec, Fault>
    ensures { result ≡ bank_with index blocks.now latency.now }
{
    let blocks = u32_in(1, most_blocks(index), blocks)?;
    let latency = u32_in(1, MOST_LATENCY, latency)?;
    Ok(BankSpec { blocks, latency })
}

/// Bank number `index`, from the words after the first.
#[tactic(auto, unfolding(crate::specs::Reading::bank_read))]
fn bank_of(index: usize, words: &[&[u8]]) -> Result<BankSpec, Fault>
    ensures { result ≡ bank_read index (map (λ w. w.now) words.now) }
{
    match words {
        [blocks, latency] => bank_with(index, blocks, latency),
        _ => Err(Fault::WrongForm),
    }
}

/// Reads a bank's line.
#[tactic(auto, unfolding(crate::specs::Reading::bank_line))]
pub fn bank_line(draft: &mut Draft, words: &[&[u8]]) -> Result<(), Fault>
    ensures { Becomes result (draft_of draft.new) (bank_line (map (λ w. w.now) words.now) (draft_of draft.old)) }
{
    if !takes_bank(draft) {
        return Err(Fault::WrongForm);
    }
    let bank = bank_of(draft.banks.len(), words)?;
    if draft.banks.len() >= MOST_BANKS {
        return Err(Fault::Limit);
    }
    draft.banks.push(bank)?;
    Ok(())
}
