ghost use Rattle.std.specs.Prelude.{◌≡◌, ◌≤◌, ◌<◌, ◌+◌, ◌-◌, ◌*◌, length, map, Some, Ok, IsTrue};
ghost use Rattle.gr_word.specs.Prelude.{is_name};
ghost use Rattle.lt_isa.specs.Prelude.{most_banks, most_block_log, most_symbols, last_bank, blocks_in, total_length, first_free_word, most_length};
ghost use Rattle.lt_assembler.specs.Faults.{number_or, Becomes, Assembles};
ghost use Rattle.lt_assembler.specs.Numbers.{number_within};
ghost use Rattle.lt_assembler.specs.Reading.{site_at_read, site_read, symbol_at, symbol_with, symbol_read, width, is_new, has_room, add_symbol, symbol_line};
ghost use Rattle.lt_assembler.specs.Seen.{draft_of};

use crate::draft::Draft;
use crate::faults::Fault;
use crate::mnemonics::{label_named, same, shape_named};
use crate::numbers::{number_in, u32_in};
use crate::stages::takes_symbol;
use gr_word::{Label, Name, Shape, name_fits};
use lt_isa::limits::{MOST_SYMBOL_WORDS, MOST_SYMBOLS};
use lt_isa::symbol_places::{blocks_in, first_free, last_bank, most_length};
use lt_isa::{BankSpec, Profile, Symbol};
use std::alloc::Global;

/// The place of a symbol, and its length.
#[derive(Clone, Copy)]
pub struct Site {
    pub bank: u8,
    pub block: u32,
    pub word: u16,
    pub length: u32,
}

/// The number of a symbol's first word in its bank.
fn word_in_bank(words: u32, block: u32, word: u16) -> u64
    requires { words ≤ 512 }
    ensures { result ≡ block * words + word }
{
    u64::from(block) * u64::from(words) + u64::from(word)
}

/// The bank of the next symbol, from the last symbol's bank on.
fn bank_of(banks: &[BankSpec], before: &[Symbol], word: &[u8]) -> Result<u8, Fault>
    requires { length banks.now ≤ most_banks }
    ensures { result ≡ number_or (number_within (last_bank before.now) (length banks.now - 1) word.now) }
{
    let last = (banks.len() as u64).saturating_sub(1);
    let bank = number_in(u64::from(last_bank(before)), last, word)?;
    Ok(bank as u8)
}

/// The block of the next symbol in its bank.
fn block_of(banks: &[BankSpec], bank: u8, word: &[u8]) -> Result<u32, Fault>
    ensures { result ≡ number_or (number_within 0 (blocks_in banks.now bank - 1) word.now) }
{
    u32_in(0, blocks_in(banks, bank).saturating_sub(1), word)
}

/// The first word of the next symbol in its block, of those that are free; a block has `words` words.
fn word_of(words: u32, before: &[Symbol], bank: u8, block: u32, word: &[u8]) -> Result<u16, Fault>
    requires { words ≤ 512 }
    ensures { result ≡ number_or (number_within (first_free_word words before.now bank block) (words - 1) word.now) }
{
    let free = first_free(words, before, bank, block);
    let last = u64::from(words).saturating_sub(1);
    let number = number_in(free, last, word)?;
    Ok(number as u16)
}

/// The length of a symbol that begins at word number `start` of its bank; a block has `words` words.
fn length_of(
    words: u32,
    banks: &[BankSpec],
    shape: Shape,
    bank: u8,
    start: u64,
    word: &[u8],
) -> Result<u32, Fault>
    requires { words ≤ 512 }
    ensures { result ≡ number_or (number_within 1 (most_length words banks.now shape bank start) word.now) }
{
    let most = most_length(words, banks, shape, bank, start);
    let length = number_in(1, most, word)?;
    Ok(length as u32)
}

/// What is read before a symbol's line.
#[derive(Clone, Copy)]
struct Before<'a> {
    /// The number of words of a block.
    words: u32,
    banks: &'a [BankSpec],
    symbols: &'a [Symbol],
    ghost small_blocks: { words ≤ 512 },
    ghost few_banks: { length banks.now ≤ most_banks },
}

/// The place of the next symbol, from four words.
fn site_at(
    before: Before<'_>,
    shape: Shape,
    bank: &[u8],
    block: &[u8],
    word: &[u8],
    length: &[u8],
) -> Result<Site, Fault>
    ensures { result ≡ site_at_read before.entry.words before.entry.banks.now before.entry.symbols.now shape
        bank.now block.now word.now length.now }
{
    let Before {
        words,
        banks,
        symbols,
    } = before;
    let bank = bank_of(banks, symbols, bank)?;
    let block = block_of(banks, bank, block)?;
    let word = word_of(words, symbols, bank, block, word)?;
    let start = word_in_bank(words, block, word);
    let length = length_of(words, banks, shape, bank, start, length)?;
    Ok(Site {
        bank,
        block,
        word,
        length,
    })
}

/// The place of the next symbol, from the words after its shape.
#[tactic(auto, unfolding(crate::specs::Reading::site_read))]
fn site_of(before: Before<'_>, shape: Shape, site: &[&[u8]]) -> Result<Site, Fault>
    ensures { result ≡ site_read before.entry.words before.entry.banks.now before.entry.symbols.now shape
        (map (λ w. w.now) site.now) }
{
    match site {
        [bank, block, word, length] => site_at(before, shape, bank, block, word, length),
        _ => Err(Fault::WrongForm),
    }
}

/// The symbol with this name at a place.
fn symbol_at(
    alloc: Global,
    name: &[u8],
    label: Label,
    shape: Shape,
    site: Site,
) -> Result<Symbol, Fault>
    requires { IsTrue (is_name name.now) }
    ensures { Assembles result (Ok (symbol_at name.now label shape site)) }
{
    Ok(Symbol {
        name: Name::new(alloc, name)?,
        label,
        shape,
        bank: site.bank,
        block: site.block,
        word: site.word,
        length: site.length,
    })
}

/// The next symbol, from its name, its label, its shape and the words after them.
fn symbol_with(
    alloc: Global,
    before: Before<'_>,
    name: &[u8],
    label: &[u8],
    shape: &[u8],
    site: &[&[u8]],
) -> Result<Symbol, Fault>
    ensures { Assembles result (symbol_with before.entry.words before.entry.banks.now before.entry.symbols.now
        name.now label.now shape.now (map (λ w. w.now) site.now)) }
{
    if site.len() != 4 || !name_fits(name) {
        return Err(Fault::WrongForm);
    }
    let label = label_named(label)?;
    let shape = shape_named(shape)?;
    let site = site_of(before, shape, site)?;
    symbol_at(alloc, name, label, shape, site)
}

/// The next symbol, from the words after the first.
#[tactic(auto, unfolding(crate::specs::Reading::symbol_read))]
fn symbol_of(alloc: Global, before: Before<'_>, line: &[&[u8]]) -> Result<Symbol, Fault>
    ensures { Assembles result (symbol_read before.entry.words before.entry.banks.now before.entry.symbols.now
        (map (λ w. w.now) line.now)) }
{
    match line {
        [name, label, shape, site @ ..] => symbol_with(alloc, before, name, label, shape, site),
        _ => Err(Fault::WrongForm),
    }
}

/// The number of words of a block.
fn width(profile: &Profile) -> u32
    requires { profile.now.block_log ≤ most_block_log }
    ensures words { result ≡ width (Some profile.now) }
    ensures few { result ≤ 512 }
{
    profile.block_words()
}

/// The total length of some symbols.
fn total_length(symbols: &[Symbol]) -> u64
    requires { length symbols.now ≤ most_symbols }
    ensures value { result ≡ total_length symbols.now }
    ensures small { result ≤ 4398046511104 }
{
    let mut total = 0;
    for symbol in symbols {
        total += u64::from(symbol.length);
    }
    total
}

/// Whether there is room for one more symbol, and for its words.
fn has_room(symbols: &[Symbol], symbol: &Symbol) -> bool
    requires { length symbols.now ≤ most_symbols }
    ensures { result ≡ has_room symbols.now symbol.now }
{
    symbols.len() < MOST_SYMBOLS
        && total_length(symbols) + u64::from(symbol.length) <= u64::from(MOST_SYMBOL_WORDS)
}

/// Whether no symbol has the name.
#[tactic(auto, unfolding(crate::specs::Reading::is_new))]
fn is_new(symbols: &[Symbol], name: &Name) -> bool
    ensures { result ≡ is_new symbols.now name.now }
{
    symbols
        .iter()
        .all(|symbol| !same(symbol.name.bytes(), name.bytes()))
}

/// Adds a symbol, unless its name is repeated or there is no room for it.
fn add_symbol(draft: &mut Draft, symbol: Symbol) -> Result<(), Fault>
    ensures { Becomes result (draft_of draft.new) (add_symbol symbol (draft_of draft.old)) }
{
    if !is_new(&draft.symbols, &symbol.name) {
        return Err(Fault::RepeatedName);
    }
    if !has_room(&draft.symbols, &symbol) {
        return Err(Fault::Limit);
    }
    draft.symbols.push(symbol)?;
    Ok(())
}

/// A symbol's line.
#[tactic(auto, unfolding(crate::specs::Reading::symbol_line))]
pub fn symbol_line(alloc: Global, draft: &mut Draft, words: &[&[u8]]) -> Result<(), Fault>
    ensures { Becomes result (draft_of draft.new) (symbol_line (map (λ w. w.now) words.now) (draft_of draft.old)) }
{
    if !takes_symbol(draft) {
        return Err(Fault::WrongForm);
    }
    let Some(profile) = draft.profile else {
        return Err(Fault::WrongForm);
    };
    let before = Before {
        words: width(&profile),
        banks: &draft.banks,
        symbols: &draft.symbols,
    };
    let symbol = symbol_of(alloc, before, words)?;
    add_symbol(draft, symbol)
}
