ghost use Rattle.std.specs.Prelude.{◌≡◌, ◌≤◌, ◌<◌, slice_index, IfOk, IfSome};
ghost use Rattle.std.specs.Char.{is_ascii_digit};
ghost use Rattle.gr_base.specs.Prelude.{Within};
ghost use Rattle.lt_assembler.specs.Faults.{number_or};
ghost use Rattle.lt_assembler.specs.Numbers.{begins_with, but_first, is_number, number_within, constant_of, forward_of, backward_of};

use crate::faults::Fault;
use gr_base::numerals::{digits_value, is_canonical_numeral};

/// The most digits of a number. Longer numbers aren't in any range.
const MOST_DIGITS: usize = 19;

/// Whether a word begins with this byte, which isn't 0.
pub fn begins_with(byte: u8, word: &[u8]) -> bool
    requires { 0 < byte }
    ensures { result ≡ begins_with byte word.now }
{
    match word {
        [] => false,
        [first, ..] => *first == byte,
    }
}

/// Whether a word begins with a digit.
pub fn begins_with_digit(word: &[u8]) -> bool
    ensures { result ≡ is_ascii_digit (slice_index word.now 0) }
{
    match word {
        [] => false,
        [first, ..] => first.is_ascii_digit(),
    }
}

/// All bytes of a word except the first.
pub fn but_first(word: &[u8]) -> &[u8]
    ensures { result.now ≡ but_first word.now }
{
    match word {
        [] => word,
        [_, rest @ ..] => rest,
    }
}

/// Whether a word is a number: a canonical numeral of at most 19 digits.
#[tactic(auto, unfolding(crate::specs::Numbers::is_number))]
fn is_number(word: &[u8]) -> bool
    ensures { result ≡ is_number word.now }
{
    word.len() <= MOST_DIGITS && is_canonical_numeral(word)
}

/// The number that a word writes, if it is from `low` to `high`.
#[tactic(auto, unfolding(crate::specs::Numbers::number_within, gr_base::specs::Lists::is_within))]
pub fn number_within(low: u64, high: u64, word: &[u8]) -> Option<u64>
    ensures value { result ≡ number_within low high word.now }
    ensures range { IfSome result (λ n. Within low high n) }
{
    if !is_number(word) {
        return None;
    }
    let number = digits_value(10, word);
    if low <= number && number <= high {
        Some(number)
    } else {
        None
    }
}

/// The number that a word writes, from `low` to `high`, or the error of its line.
pub fn number_in(low: u64, high: u64, word: &[u8]) -> Result<u64, Fault>
    ensures value { result ≡ number_or (number_within low high word.now) }
    ensures range { IfOk result (λ n. Within low high n) }
{
    number_within(low, high, word).ok_or(Fault::Number)
}

/// The number of 8 bits that a word writes, from `low` to `high`, or the error of its line.
pub fn u8_in(low: u8, high: u8, word: &[u8]) -> Result<u8, Fault>
    ensures value { result ≡ number_or (number_within low high word.now) }
    ensures range { IfOk result (λ n. Within low high n) }
{
    let number = number_in(u64::from(low), u64::from(high), word)?;
    Ok(number as u8)
}

/// The number of 32 bits that a word writes, from `low` to `high`, or the error of its line.
pub fn u32_in(low: u32, high: u32, word: &[u8]) -> Result<u32, Fault>
    ensures value { result ≡ number_or (number_within low high word.now) }
    ensures range { IfOk result (λ n. Within low high n) }
{
    let number = number_in(u64::from(low), u64::from(high), word)?;
    Ok(number as u32)
}

/// The constant that a word writes: a number of 64 bits, which may follow a `-`.
#[tactic(auto, unfolding(crate::specs::Numbers::constant_of))]
pub fn constant_of(word: &[u8]) -> Result<i64, Fault>
    ensures { result ≡ number_or (constant_of word.now) }
{
    if begins_with(b'-', word) {
        let number = number_in(1, 1 << 63, but_first(word))?;
        return Ok(-1 - (number - 1) as i64);
    }
    let number = number_in(0, (1 << 63) - 1, word)?;
    Ok(number as i64)
}

/// The offset that a word after a `+` writes.
#[tactic(auto, unfolding(crate::specs::Numbers::forward_of))]
pub fn forward_of(word: &[u8]) -> Result<i32, Fault>
    ensures { result ≡ number_or (forward_of word.now) }
{
    let number = number_in(0, (1 << 31) - 1, word)?;
    Ok(number as i32)
}

/// The offset that a word after a `-` writes.
#[tactic(auto, unfolding(crate::specs::Numbers::backward_of))]
pub fn backward_of(word: &[u8]) -> Result<i32, Fault>
    ensures { result ≡ number_or (backward_of word.now) }
{
    let number = number_in(1, 1 << 31, word)?;
    Ok(-1 - (number - 1) as i32)
}
