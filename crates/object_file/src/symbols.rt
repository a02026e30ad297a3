ghost use Rattle.std.specs.Prelude.{◌≡◌, ◌≤◌, ◌-◌, ◌∷◌, ◌++◌, [], IfErr, IfOk, IsTrue};
ghost use Rattle.gr_word.specs.Prelude.{is_name};
ghost use Rattle.lt_isa.specs.Prelude.{most_symbol_words, total_length};
ghost use Rattle.object_file.specs.declared.errors.DecodeError.TheVariants.{Memory};
ghost use Rattle.object_file.specs.FieldRules.{is_new_name, label_numbered, shape_numbered, most_length_behind};
ghost use Rattle.object_file.specs.KnownNames.{AreNamesOf, GainsName};
ghost use Rattle.object_file.specs.Reading.{Decodes, name_bytes_at, name_at, symbol_at, items_at, symbols_at};

use crate::errors::DecodeError;
use crate::fields::{Read, offset_of, u8_field, u16_field, u32_field};
use gr_word::{Label, Name, Shape, name_fits};
use lt_isa::limits::{MOST_SYMBOL_WORDS, MOST_SYMBOLS};
use lt_isa::symbol_places::{blocks_in, first_free, last_bank, most_length};
use lt_isa::{BankSpec, Symbol};
use std::alloc::Global;
use std::collections::BTreeSet;

/// The most bytes of a symbol.
pub const SYMBOL_BYTES: usize = 46;

/// The names of some symbols.
type Names<'a> = BTreeSet<&'a [u8]>;

/// Whether the bytes are a name that no symbol has so far. `names` has the names of the symbols so far, and gains the
/// new one.
#[tactic(auto, unfolding(crate::specs::FieldRules::is_new_name))]
fn is_new_name<'a>(
    before: &[Symbol],
    names: &mut Names<'a>,
    name: &'a [u8],
) -> Result<bool, DecodeError>
    requires { AreNamesOf names.old before.now }
    ensures memory { IfErr result (λ e. e ≡ Memory) }
    ensures value { IfOk result (λ new. new ≡ is_new_name before.now name.now) }
    ensures name { IfOk result (λ new. IsTrue new → IsTrue (is_name name.now)) }
    ensures gained { IfOk result (λ new. IsTrue new → GainsName names.old names.new name.now) }
{
    if !name_fits(name) {
        return Ok(false);
    }
    match names.insert(name) {
        Ok(new) => Ok(new),
        Err(_) => Err(DecodeError::Memory),
    }
}

/// The `count` bytes of a name.
#[tactic(auto, unfolding(crate::specs::Reading::name_bytes_at))]
fn name_bytes<'a>(
    all: u32,
    count: u8,
    before: &[Symbol],
    names: &mut Names<'a>,
    bytes: &'a [u8],
) -> Read<'a, &'a [u8]>
    requires { AreNamesOf names.old before.now }
    ensures read { Decodes (λ x. (x.0.now, x.1.now)) result (name_bytes_at all count before.now bytes.now) }
    ensures name { IfOk result (λ x. IsTrue (is_name x.0.now)) }
    ensures gained { IfOk result (λ x. GainsName names.old names.new x.0.now) }
{
    let count = count as usize;
    if bytes.len() < count {
        return Err(DecodeError::Truncated(offset_of(all, bytes)));
    }
    let (name, rest) = bytes.split_at(count);
    if !is_new_name(before, names, name)? {
        return Err(DecodeError::BadField(offset_of(all, bytes)));
    }
    Ok((name, rest))
}

#[tactic(auto, unfolding(crate::specs::Reading::name_at))]
fn name<'a>(
    all: u32,
    before: &[Symbol],
    names: &mut Names<'a>,
    bytes: &'a [u8],
) -> Read<'a, &'a [u8]>
    requires { AreNamesOf names.old before.now }
    ensures read { Decodes (λ x. (x.0.now, x.1.now)) result (name_at all before.now bytes.now) }
    ensures name { IfOk result (λ x. IsTrue (is_name x.0.now)) }
    ensures gained { IfOk result (λ x. GainsName names.old names.new x.0.now) }
{
    let (count, rest) = u8_field(all, 1, 32, bytes)?;
    name_bytes(all, count, before, names, rest)
}

fn label_of(code: u8) -> Label
    ensures { result ≡ label_numbered code }
{
    match code {
        0 => Label::Public,
        _ => Label::Secret,
    }
}

fn shape_of(code: u8) -> Shape
    ensures { result ≡ shape_numbered code }
{
    match code {
        0 => Shape::Scalar,
        _ => Shape::Array,
    }
}

// The most words of a symbol from word number `start` of a bank on, if `room` words are left of those that all symbols
// may have together.
#[tactic(auto, unfolding(crate::specs::FieldRules::most_length_behind))]
fn most_length_behind(
    words: u32,
    banks: &[BankSpec],
    before: &[Symbol],
    shape: Shape,
    bank: u8,
    start: u64,
    room: u32,
) -> u64
    requires block_size { words ≤ 512 }
    requires room { room ≡ most_symbol_words - total_length before.now }
    ensures { result ≡ most_length_behind words banks.now before.now shape bank start }
{
    most_length(words, banks, shape, bank, start).min(u64::from(room))
}

/// The next symbol after the symbols `before`, and the bytes after it. `names` has the names of the symbols before, and
/// gains the new one. A block has `words` words, and `room` words are left of those that all symbols may have together.
#[tactic(auto, unfolding(crate::specs::Reading::symbol_at), using(crate::proofs::KnownNames::names_of_more))]
fn symbol<'a>(
    alloc: Global,
    all: u32,
    words: u32,
    banks: &[BankSpec],
    before: &[Symbol],
    names: &mut Names<'a>,
    room: u32,
    bytes: &'a [u8],
) -> Read<'a, Symbol>
    requires block_size { words ≤ 512 }
    requires room { room ≡ most_symbol_words - total_length before.now }
    requires names { AreNamesOf names.old before.now }
    ensures read { Decodes (λ x. (x.0, x.1.now)) result (symbol_at words banks.now all before.now bytes.now) }
    ensures named { IfOk result (λ x. AreNamesOf names.new (before.now ++ x.0 ∷ [])) }
{
    let (name, rest) = name(all, before, names, bytes)?;
    let (label, rest) = u8_field(all, 0, 1, rest)?;
    let (shape, rest) = u8_field(all, 0, 1, rest)?;
    let most_bank = (banks.len() as u64).saturating_sub(1);
    let (bank, rest) = u8_field(all, u64::from(last_bank(before)), most_bank, rest)?;
    let blocks = blocks_in(banks, bank);
    let (block, rest) = u32_field(all, 0, u64::from(blocks).saturating_sub(1), rest)?;
    let most_word = u64::from(words).saturating_sub(1);
    let (word, rest) = u16_field(all, first_free(words, before, bank, block), most_word, rest)?;
    let shape = shape_of(shape);
    let start = u64::from(block) * u64::from(words) + u64::from(word);
    let most = most_length_behind(words, banks, before, shape, bank, start, room);
    let (length, rest) = u32_field(all, 1, most, rest)?;
    let symbol = Symbol {
        name: Name::new(alloc, name)?,
        label: label_of(label),
        shape,
        bank,
        block,
        word,
        length,
    };
    Ok((symbol, rest))
}

fn symbol_list<'a>(
    alloc: Global,
    all: u32,
    words: u32,
    banks: &[BankSpec],
    count: u16,
    bytes: &'a [u8],
) -> Read<'a, Vec<Symbol>>
    requires { words ≤ 512 }
    ensures { Decodes (λ x. (x.0.items, x.1.now)) result (items_at (symbol_at words banks.now all) count [] bytes.now) }
{
    let mut symbols = Vec::new(alloc);
    let mut names = BTreeSet::new(alloc);
    let mut room = MOST_SYMBOL_WORDS;
    let mut rest = bytes;
    for _ in 0..count {
        let (symbol, after) = symbol(alloc, all, words, banks, &symbols, &mut names, room, rest)?;
        room = room.saturating_sub(symbol.length);
        symbols.push(symbol)?;
        rest = after;
    }
    Ok((symbols, rest))
}

/// The symbols: their number, and then as many symbols. The bytes after them are returned too. A block has `words`
/// words.
#[tactic(auto, unfolding(crate::specs::Reading::symbols_at, crate::specs::Reading::list_at))]
pub fn symbols<'a>(
    alloc: Global,
    all: u32,
    words: u32,
    banks: &[BankSpec],
    bytes: &'a [u8],
) -> Read<'a, Vec<Symbol>>
    requires { words ≤ 512 }
    ensures { Decodes (λ x. (x.0.items, x.1.now)) result (symbols_at words banks.now all bytes.now) }
{
    let (count, rest) = u16_field(all, 0, MOST_SYMBOLS as u64, bytes)?;
    symbol_list(alloc, all, words, banks, count, rest)
}
