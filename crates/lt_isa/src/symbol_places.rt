ghost use Rattle.std.specs.Prelude.{◌≡◌, ◌↔◌, ◌≤◌, IsTrue};
ghost use Rattle.lt_isa.specs.Object.{first_word, end_word};
ghost use Rattle.lt_isa.specs.SymbolPlaces.{FieldsFit, LiesBehind, blocks_in, first_free_word, last_bank, last_end, most_length};

use crate::limits::most_words;
use crate::profiles::BankSpec;
use crate::symbols::Symbol;
use gr_word::Shape;

/// The number of a symbol's first word in its bank, if a block has `block_words` words.
pub fn first_word(block_words: u32, symbol: &Symbol) -> u64
    requires { block_words ≤ 512 }
    ensures { result ≡ first_word block_words symbol.now }
{
    let block = u64::from(symbol.block);
    let word = u64::from(symbol.word);
    block * u64::from(block_words) + word
}

/// The number of the word after a symbol's last one in its bank, if a block has `block_words` words.
pub fn end_word(block_words: u32, symbol: &Symbol) -> u64
    requires { block_words ≤ 512 }
    ensures { result ≡ end_word block_words symbol.now }
{
    first_word(block_words, symbol) + u64::from(symbol.length)
}

/// The bank of the last of some symbols, or 0 if there are none.
#[tactic(auto, using(gr_base::proofs::AtLast::at_last_read))]
pub fn last_bank(before: &[Symbol]) -> u8
    ensures { result ≡ last_bank before.now }
{
    match before {
        [] => 0,
        [.., last] => last.bank,
    }
}

/// The number of the word after the last of some symbols in its bank, or 0 if there are none.
#[tactic(auto, using(gr_base::proofs::AtLast::at_last_read))]
pub fn last_end(block_words: u32, before: &[Symbol]) -> u64
    requires { block_words ≤ 512 }
    ensures { result ≡ last_end block_words before.now }
{
    match before {
        [] => 0,
        [.., last] => end_word(block_words, last),
    }
}

/// The number of blocks of a bank, or 0 if there is no such bank.
pub fn blocks_in(banks: &[BankSpec], bank: u8) -> u32
    ensures { result ≡ blocks_in banks.now bank }
{
    match banks.get(bank as usize) {
        Some(spec) => spec.blocks,
        None => 0,
    }
}

/// The first word of a block that is free after some symbols, if a block has `block_words` words.
#[tactic(auto, unfolding(crate::specs::SymbolPlaces::first_free_word))]
pub fn first_free(block_words: u32, before: &[Symbol], bank: u8, block: u32) -> u64
    requires { block_words ≤ 512 }
    ensures { result ≡ first_free_word block_words before.now bank block }
{
    if bank != last_bank(before) {
        return 0;
    }
    let start = u64::from(block) * u64::from(block_words);
    last_end(block_words, before).saturating_sub(start)
}

/// The most words that a symbol may have if it begins at word number `start` of a bank and a block has `block_words`
/// words.
#[tactic(auto, unfolding(crate::specs::SymbolPlaces::most_length))]
pub fn most_length(block_words: u32, banks: &[BankSpec], shape: Shape, bank: u8, start: u64) -> u64
    requires { block_words ≤ 512 }
    ensures value { result ≡ most_length block_words banks.now shape bank start }
    ensures most { result ≤ 1048576 }
{
    let bank_words = u64::from(blocks_in(banks, bank)) * u64::from(block_words);
    u64::from(most_words(shape)).min(bank_words.saturating_sub(start))
}

// Whether each field is in the range that the fields before it determine.
fn fields_fit(block_words: u32, banks: &[BankSpec], before: &[Symbol], symbol: &Symbol) -> bool
    requires { block_words ≤ 512 }
    ensures { IsTrue result ↔ FieldsFit block_words banks.now before.now symbol.now }
{
    let start = first_word(block_words, symbol);
    let most = most_length(block_words, banks, symbol.shape, symbol.bank, start);
    last_bank(before) <= symbol.bank
        && (symbol.bank as usize) < banks.len()
        && symbol.block < blocks_in(banks, symbol.bank)
        && first_free(block_words, before, symbol.bank, symbol.block) <= u64::from(symbol.word)
        && u32::from(symbol.word) < block_words
        && 1 <= symbol.length
        && u64::from(symbol.length) <= most
}

/// Whether a symbol may have its place, after the symbols `before`, if a block has `block_words` words.
#[tactic(auto, using(crate::proofs::SymbolPlaces::lies_by_fields, crate::proofs::SymbolPlaces::fields_of_lies))]
pub fn lies_behind(block_words: u32, banks: &[BankSpec], before: &[Symbol], symbol: &Symbol) -> bool
    requires { block_words ≤ 512 }
    ensures { IsTrue result ↔ LiesBehind block_words banks.now before.now symbol.now }
{
    fields_fit(block_words, banks, before, symbol)
}
