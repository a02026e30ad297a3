// An object with other notes.
ghost use Rattle.std.specs.Prelude.{◌≡◌, IfOk};
ghost use Rattle.lt_isa.specs.Prelude.{IsInRange};
ghost use Rattle.note_infer.specs.LeastNotes.{with_notes};

use gr_word::Memory;
use lt_isa::{Note, Object, Symbol};
use std::alloc::Global;

/// The object with other notes, in range.
pub fn copy_with(alloc: Global, object: &Object, notes: Vec<Note>) -> Result<Object, Memory>
    requires { IsInRange object.now → IsInRange (with_notes object.now notes.items) }
    ensures { IfOk result (λ copy. copy ≡ with_notes object.now notes.items) }
{
    let mut banks = Vec::new(alloc);
    match banks.extend_from_slice(object.banks()) {
        Err(_) => return Err(Memory),
        Ok(()) => {}
    }
    let mut code = Vec::new(alloc);
    match code.extend_from_slice(object.code()) {
        Err(_) => return Err(Memory),
        Ok(()) => {}
    }
    match copy_symbols(alloc, object.symbols()) {
        Err(_) => Err(Memory),
        Ok(symbols) => Ok(Object::of_parts(*object.profile(), banks, symbols, notes, code)),
    }
}

// The same variables once more.
fn copy_symbols(alloc: Global, symbols: &[Symbol]) -> Result<Vec<Symbol>, Memory>
    ensures { IfOk result (λ copies. copies.items ≡ symbols.now) }
{
    let mut copies = Vec::new(alloc);
    for symbol in symbols {
        copies.push(copy_symbol(alloc, symbol)?)?;
    }
    Ok(copies)
}

fn copy_symbol(alloc: Global, symbol: &Symbol) -> Result<Symbol, Memory>
    ensures { IfOk result (λ copy. copy ≡ symbol.now) }
{
    Ok(Symbol {
        name: symbol.name.copy(alloc)?,
        label: symbol.label,
        shape: symbol.shape,
        bank: symbol.bank,
        block: symbol.block,
        word: symbol.word,
        length: symbol.length,
    })
}
