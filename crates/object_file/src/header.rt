ghost use Rattle.std.specs.Prelude.{◌≡◌, ◌≤◌, ◌==◌, ◌||◌, [], length, IfOk, vec_len};
ghost use Rattle.lt_isa.specs.Prelude.{most_banks, most_block_log};
ghost use Rattle.object_file.specs.Reading.{Decodes, magic_at, version_at, cycles_at, window_at, profile_at, bank_at, items_at, banks_at};

use crate::errors::DecodeError;
use crate::fields::{Read, u8_field, u16_at, u32_at, u32_field};
use lt_isa::limits::{
    FEWEST_BANKS, LEAST_BLOCK_LOG, MOST_BANKS, MOST_BLOCK_LOG, MOST_CYCLES, MOST_LATENCY,
    MOST_PERIOD, MOST_TAKEN, most_blocks,
};
use lt_isa::{BankSpec, Profile};
use std::alloc::Global;

/// The bytes `GRLT`, with which every object file begins, as a number.
pub const MAGIC: u32 = 0x544c_5247;

/// The version of the format without a window: the period is one cycle.
pub const ALWAYS_OPEN: u16 = 1;

/// The version of the format with a window of each period in which memory is open.
pub const WINDOWED: u16 = 2;

/// The most bytes of all fields other than those of symbols, notes and instructions.
pub const HEADER_BYTES: usize = 114;

/// The bytes after the magic bytes.
#[tactic(auto, unfolding(crate::specs::Reading::magic_at))]
pub fn behind_magic(all: u32, bytes: &[u8]) -> Result<&[u8], DecodeError>
    ensures { Decodes (λ x. x.now) result (magic_at all bytes.now) }
{
    let (magic, rest) = u32_at(all, bytes)?;
    if magic != MAGIC {
        return Err(DecodeError::BadMagic);
    }
    Ok(rest)
}

fn is_version(version: u16) -> bool
    ensures { result ≡ ((version == 1) || (version == 2)) }
{
    version == ALWAYS_OPEN || version == WINDOWED
}

/// The version, and the bytes after it.
#[tactic(auto, unfolding(crate::specs::Reading::version_at))]
fn version(all: u32, bytes: &[u8]) -> Read<'_, u16>
    ensures { Decodes (λ x. (x.0, x.1.now)) result (version_at all bytes.now) }
{
    let (version, rest) = u16_at(all, bytes)?;
    if !is_version(version) {
        return Err(DecodeError::BadVersion(version));
    }
    Ok((version, rest))
}

/// The size of blocks and the cycles of instructions, and the bytes after them.
#[tactic(auto, unfolding(crate::specs::Reading::cycles_at))]
fn cycles(all: u32, bytes: &[u8]) -> Read<'_, Profile>
    ensures read { Decodes (λ x. (x.0, x.1.now)) result (cycles_at all bytes.now) }
    ensures small { IfOk result (λ x. x.0.block_log ≤ most_block_log) }
{
    let (block_log, rest) = u8_field(
        all,
        u64::from(LEAST_BLOCK_LOG),
        u64::from(MOST_BLOCK_LOG),
        bytes,
    )?;
    let (alu, rest) = u8_field(all, 1, u64::from(MOST_CYCLES), rest)?;
    let (mul, rest) = u8_field(all, 1, u64::from(MOST_CYCLES), rest)?;
    let (word, rest) = u8_field(all, 1, u64::from(MOST_CYCLES), rest)?;
    let (taken, rest) = u8_field(all, 1, u64::from(MOST_TAKEN), rest)?;
    let profile = Profile {
        block_log,
        alu,
        mul,
        word,
        taken,
        period: 1,
        opens: 0,
        closes: 1,
    };
    Ok((profile, rest))
}

/// The profile with the window that is read, and the bytes after it.
#[tactic(auto, unfolding(crate::specs::Reading::window_at))]
fn window(all: u32, profile: Profile, bytes: &[u8]) -> Read<'_, Profile>
    ensures read { Decodes (λ x. (x.0, x.1.now)) result (window_at all profile bytes.now) }
    ensures same { IfOk result (λ x. x.0.block_log ≡ profile.block_log) }
{
    let (period, rest) = u32_field(all, 2, u64::from(MOST_PERIOD), bytes)?;
    let (opens, rest) = u32_field(all, 0, u64::from(period) - 1, rest)?;
    let (closes, rest) = u32_field(all, u64::from(opens) + 1, u64::from(period), rest)?;
    let profile = Profile {
        period,
        opens,
        closes,
        ..profile
    };
    Ok((profile, rest))
}

/// The version and the profile, and the bytes after them.
#[tactic(auto, unfolding(crate::specs::Reading::profile_at))]
pub fn profile(all: u32, bytes: &[u8]) -> Read<'_, Profile>
    ensures read { Decodes (λ x. (x.0, x.1.now)) result (profile_at all bytes.now) }
    ensures small { IfOk result (λ x. x.0.block_log ≤ most_block_log) }
{
    let (version, rest) = version(all, bytes)?;
    let (profile, rest) = cycles(all, rest)?;
    if version == ALWAYS_OPEN {
        return Ok((profile, rest));
    }
    window(all, profile, rest)
}

/// The next bank after the banks `before`, and the bytes after it.
#[tactic(auto, unfolding(crate::specs::Reading::bank_at))]
fn bank<'a>(all: u32, before: &[BankSpec], bytes: &'a [u8]) -> Read<'a, BankSpec>
    ensures { Decodes (λ x. (x.0, x.1.now)) result (bank_at all before.now bytes.now) }
{
    let (blocks, rest) = u32_field(all, 1, u64::from(most_blocks(before.len())), bytes)?;
    let (latency, rest) = u32_field(all, 1, u64::from(MOST_LATENCY), rest)?;
    Ok((BankSpec { blocks, latency }, rest))
}

fn bank_list(alloc: Global, all: u32, count: u8, bytes: &[u8]) -> Read<'_, Vec<BankSpec>>
    ensures read { Decodes (λ x. (x.0.items, x.1.now)) result (items_at (bank_at all) count [] bytes.now) }
    ensures count { IfOk result (λ x. vec_len x.0 ≡ count) }
{
    let mut banks = Vec::new(alloc);
    let mut rest = bytes;
    for _ in 0..count {
        let (bank, after) = bank(all, &banks, rest)?;
        banks.push(bank)?;
        rest = after;
    }
    Ok((banks, rest))
}

/// The banks: their number, and then as many banks. The bytes after them are returned too.
#[tactic(auto, unfolding(crate::specs::Reading::banks_at, crate::specs::Reading::list_at))]
pub fn banks(alloc: Global, all: u32, bytes: &[u8]) -> Read<'_, Vec<BankSpec>>
    ensures read { Decodes (λ x. (x.0.items, x.1.now)) result (banks_at all bytes.now) }
    ensures few { IfOk result (λ x. vec_len x.0 ≤ most_banks) }
{
    let (count, rest) = u8_field(all, FEWEST_BANKS as u64, MOST_BANKS as u64, bytes)?;
    bank_list(alloc, all, count, rest)
}
