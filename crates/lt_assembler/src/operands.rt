ghost use Rattle.std.specs.Prelude.{◌≡◌, ◌≤◌, ◌<◌, ◌^◌, IfSome, option_map, map};
ghost use Rattle.std.specs.List.{list_all};
ghost use Rattle.gr_base.specs.Prelude.{Within};
ghost use Rattle.lt_isa.specs.Prelude.{most_banks};
ghost use Rattle.lt_assembler.specs.Faults.{form, number_or};
ghost use Rattle.lt_assembler.specs.Operands.{register_of, slot_named, bank_named, is_hex, mask_of, claim_of, claims_of};

use crate::faults::Fault;
use crate::mnemonics::same;
use crate::numbers::{begins_with, but_first, number_within};
use gr_base::numerals::digits_value;
use lt_isa::limits::{FEWEST_BANKS, MOST_BANKS};

/// The register that a word names, or the error of its line.
#[tactic(auto, unfolding(crate::specs::Operands::register_of))]
pub fn register_of(word: &[u8]) -> Result<u8, Fault>
    ensures { result ≡ form (register_of word.now) }
{
    if !begins_with(b'r', word) {
        return Err(Fault::WrongForm);
    }
    match number_within(0, 31, but_first(word)) {
        Some(number) => Ok(number as u8),
        None => Err(Fault::WrongForm),
    }
}

/// The slot of the scratchpad that a word names, or the error of its line.
#[tactic(auto, unfolding(crate::specs::Operands::slot_named))]
pub fn slot_of(word: &[u8]) -> Result<u8, Fault>
    ensures { result ≡ number_or (slot_named word.now) }
{
    match number_within(0, 7, word) {
        Some(number) => Ok(number as u8),
        None => Err(Fault::Number),
    }
}

/// The bank that a word names as an operand, or the error of its line.
#[tactic(auto, unfolding(crate::specs::Operands::bank_named))]
pub fn bank_named(word: &[u8]) -> Result<u8, Fault>
    ensures { result ≡ form (bank_named word.now) }
{
    if same(word, b"D") {
        return Ok(0);
    }
    if same(word, b"E") {
        return Ok(1);
    }
    if !begins_with(b'O', word) {
        return Err(Fault::WrongForm);
    }
    match number_within(FEWEST_BANKS as u64, MOST_BANKS as u64 - 1, but_first(word)) {
        Some(number) => Ok(number as u8),
        None => Err(Fault::WrongForm),
    }
}

fn is_hex(byte: u8) -> bool
    ensures { result ≡ is_hex byte }
{
    byte.is_ascii_digit() || (97 <= byte && byte <= 102)
}

fn are_hex(word: &[u8]) -> bool
    ensures { result ≡ list_all is_hex word.now }
{
    word.iter().all(|byte| is_hex(*byte))
}

/// The mask that a word of eight hexadecimal digits writes.
#[tactic(auto, unfolding(crate::specs::Operands::mask_of))]
pub fn mask_of(word: &[u8]) -> Option<u32>
    ensures { result ≡ mask_of word.now }
{
    if word.len() != 8 || !are_hex(word) {
        return None;
    }
    Some(digits_value(16, word) as u32)
}

/// The claim about a slot that a word of a note makes, in an object with `banks` banks.
#[tactic(auto, unfolding(crate::specs::Operands::claim_of))]
pub fn claim_of(banks: usize, word: &[u8]) -> Option<u8>
    requires { banks ≤ most_banks }
    ensures { result ≡ claim_of banks word.now }
{
    if same(word, b"-") {
        return Some(255);
    }
    let most = (banks as u64).saturating_sub(1);
    let number = number_within(0, most, word)?;
    Some(number as u8)
}
