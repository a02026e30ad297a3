ghost use Rattle.std.specs.Prelude.{◌≡◌, ◌+◌, ◌*◌, ◌^◌, ◌≤◌, ◌<◌, IfOk, OnOk, IsTrue, List, [], length, map, All};
ghost use Rattle.std.specs.List.Sorted.{IsNonDecreasingBy, IsPermutation};
ghost use Rattle.gr_base.specs.Prelude.{EachAfter, Within};
ghost use Rattle.gr_word.specs.Prelude.{is_name};
ghost use Rattle.lt_isa.specs.Prelude.{SymbolFits};
ghost use Rattle.lt_isa.specs.declared.profiles.BankSpec.{BankSpec};
ghost use Rattle.src_tree.specs.Prelude.{IsWithinLimits, source_of, IsTyped};
ghost use Rattle.bank_alloc.specs.Keys.{symbol_key};
ghost use Rattle.bank_alloc.specs.Layout.{ArePlacesIn, AreSymbolsAt, placed_symbol, placed_symbols};

use crate::places::{Place, Places};
use gr_base::Memory;
use gr_word::Name;
use lt_isa::Symbol;
use src_tree::{Decl, Program, shape_of};
use std::alloc::Global;

// A variable at its place.
fn symbol_at(alloc: Global, decl: &Decl, place: Place) -> Result<Symbol, Memory>
    ensures symbol { IfOk result (λ symbol. symbol ≡ placed_symbol decl.now place) }
    ensures named { IfOk result (λ symbol. IsTrue (is_name symbol.name)) }
{
    let name = Name::new(alloc, decl.name.bytes())?;
    Ok(Symbol {
        name,
        label: decl.label,
        shape: shape_of(decl.length),
        bank: place.bank,
        block: place.block,
        word: place.word,
        length: place.length,
    })
}

// Each variable at its place, in order of declaration.
fn symbols_at(alloc: Global, decls: &[Decl], places: &[Place]) -> Result<Vec<Symbol>, Memory>
    requires { length places.now ≡ length decls.now }
    ensures symbols { IfOk result (λ symbols. symbols.items ≡ placed_symbols decls.now places.now) }
    ensures named { IfOk result (λ symbols. All (λ symbol. IsTrue (is_name symbol.name)) symbols.items) }
{
    let mut symbols = Vec::with_capacity(alloc, decls.len())?;
    for (i, decl) in decls.iter().enumerate() {
        symbols.push(symbol_at(alloc, decl, places[i])?)?;
    }
    Ok(symbols)
}

// A number that rises with the bank, then with the block, and then with the word.
fn symbol_key(symbol: &Symbol) -> u64
    ensures { result ≡ symbol_key symbol.now }
{
    let bank = u64::from(symbol.bank);
    let block = u64::from(symbol.block);
    let word = u64::from(symbol.word);
    (bank * 4_294_967_296 + block) * 65_536 + word
}

fn sort(symbols: &mut Vec<Symbol>) -> Result<(), Memory>
    ensures same { IsPermutation symbols.old.items symbols.new.items }
    ensures order { OnOk result (IsNonDecreasingBy symbol_key symbols.new.items) }
{
    match symbols.sort_by_key(|symbol| symbol_key(symbol)) {
        Ok(()) => Ok(()),
        Err(_) => Err(Memory),
    }
}

/// The symbols of an object that a program is compiled to: one for each variable, with its name, label, shape, length
/// and place, in order of bank and place. A block has 2^w words, each variable is within its bank, and no two share a
/// word, as [`crate::banks`] places them. The only error is running out of memory.
pub fn symbols(alloc: Global, p: &Program, w: u8, places: &Places) -> Result<Vec<Symbol>, Memory>
    requires typed { IsTyped (source_of p.now) }
    requires within { IsWithinLimits (source_of p.now) }
    requires block_log { Within 3 9 w }
    requires places { ArePlacesIn (source_of p.now) w places.now.blocks.items places.now.of_var.items }
    ensures symbols { IfOk result (λ symbols. AreSymbolsAt (source_of p.now) w places.now.of_var.items symbols.items) }
    ensures in_range { IfOk result
        (λ symbols. (banks : List BankSpec) → map (λ b. b.blocks) banks ≡ places.now.blocks.items
        → EachAfter (SymbolFits (2 ^ w) banks) [] symbols.items) }
{
    let decls = p.decls.as_slice();
    let mut symbols = symbols_at(alloc, decls, places.of_var.as_slice())?;
    sort(&mut symbols)?;
    Ok(symbols)
}
