ghost use Rattle.std.specs.Prelude.{◌≡◌, ◌+◌, ◌<◌, ◌≤◌, ◌^◌, ◌∷◌, OnOk};
ghost use Rattle.src_tree.specs.Prelude.{expr_tree};
ghost use Rattle.word_selection.specs.Prelude.{selected_read, selected_write};
ghost use Rattle.block_cache_gen.specs.Codes.{effect_of, fixed_index, fixed_word, read_code, store_code, stored_among, stored_code};
ghost use Rattle.block_cache_gen.specs.Emitted.{Appended, CodeGrows, no_notes};
ghost use Rattle.block_cache_gen.specs.Homes.{further_slots, slot_of_word, slots_of_home};
ghost use Rattle.block_cache_gen.specs.Variables.{home_in};

use crate::accesses::{fixed_index, fixed_word, is_resident};
use crate::emitter::Emitter;
use crate::frames::{CodeBuf, Mode, PutResult};
use crate::variables::Variable;
use lt_isa::Instr;
use src_tree::Expr;
use word_selection::Effect;

// The slots of a variable's blocks, of which one more than `further` count.
fn slots_of(array: Variable) -> [u8; 5]
    ensures { result ≡ array.slot ∷ array.more }
{
    let more = array.more;
    [array.slot, more[0], more[1], more[2], more[3]]
}

// The slot that has a word of a resident array, by the word's number from the first word of the first block on.
fn slot_of_word(emitter: &Emitter<'_, '_, '_>, array: Variable, number: u64) -> u8
    requires { array.further ≤ 4 }
    ensures { result ≡ slot_of_word emitter.now (home_in array) number }
{
    let block = number / u64::from(emitter.block_words());
    let slots = slots_of(array);
    let slots = &slots[..usize::from(array.further) + 1];
    match slots.get(block as usize) {
        Some(slot) => *slot,
        None => array.slot,
    }
}

// The number of the word of a resident array that an index names which is a number.
fn fixed_number(array: Variable, index: i64) -> u64
    requires { 1 ≤ array.place.length }
    ensures { result ≡ array.place.word + fixed_word (home_in array) index }
{
    u64::from(array.place.word) + fixed_word(array, index)
}

// Appends the code that selects a word of a resident array among those of its slots.
fn put_selected_read(
    emitter: &Emitter<'_, '_, '_>,
    out: &mut CodeBuf,
    array: Variable,
    to: u8,
) -> PutResult
    requires registers { to + 3 < 28 }
    requires few { array.further ≤ 4 }
    ensures appended { OnOk result (Appended out.old out.new
        (selected_read (2 ^ emitter.now.profile.block_log) (slots_of_home (home_in array)) to) no_notes) }
    ensures grows { CodeGrows out.old out.new }
{
    let slots = slots_of(array);
    let slots = &slots[..usize::from(array.further) + 1];
    let mut code = Vec::new(emitter.alloc());
    word_selection::put_read(&mut code, emitter.block_words() as u16, slots, to)?;
    out.put(&code)
}

/// Appends the code that reads the word of an array whose number is in register `to`. The only error is running out of
/// memory.
pub(crate) fn put_element<'a>(
    emitter: &Emitter<'a, '_, '_>,
    out: &mut CodeBuf,
    array: Variable,
    index: &'a Expr,
    to: u8,
) -> PutResult
    requires length { 1 ≤ array.place.length }
    requires registers { to + 3 < 28 }
    requires few { array.further ≤ 4 }
    ensures appended { OnOk result (Appended out.old out.new
        (read_code emitter.now (home_in array) (fixed_index (home_in array) (expr_tree index.now)) to) no_notes) }
    ensures grows { CodeGrows out.old out.new }
{
    if !is_resident(array) {
        return out.put(&[Instr::Ldw {
            rd: to,
            slot: array.slot,
            off: to,
        }]);
    }
    match fixed_index(array, index) {
        None => put_selected_read(emitter, out, array, to),
        Some(number) => out.put(&[Instr::Ldw {
            rd: to,
            slot: slot_of_word(emitter, array, fixed_number(array, number)),
            off: to,
        }]),
    }
}

// Whether the code of a mode has its effect.
fn effect_of(mode: Mode) -> Effect
    ensures { result ≡ effect_of mode }
{
    match mode {
        Mode::Public => Effect::Stores,
        Mode::Real => Effect::Stores,
        Mode::Mirrored => Effect::Keeps,
    }
}

/// Appends the store of a word to a slot, at the place that register 1 has: the word in register `value`, or in mirrored
/// code the word that was there, so that nothing changes. Secret code reads that word before, or in mirrored code in
/// place of the store if code may access a word `once` only.
pub(crate) fn put_store(out: &mut CodeBuf, once: bool, slot: u8, value: u8, mode: Mode) -> PutResult
    ensures appended { OnOk result (Appended out.old out.new (store_code once mode slot value) no_notes) }
    ensures grows { CodeGrows out.old out.new }
{
    let read = Instr::Ldw {
        rd: 2,
        slot,
        off: 1,
    };
    let write = Instr::Stw {
        rs: value,
        slot,
        off: 1,
    };
    let write_back = Instr::Stw {
        rs: 2,
        slot,
        off: 1,
    };
    let only_read = Instr::Ldw {
        rd: 0,
        slot,
        off: 1,
    };
    match (once, mode) {
        (_, Mode::Public) => out.put(&[write]),
        (true, Mode::Real) => out.put(&[write]),
        (true, Mode::Mirrored) => out.put(&[only_read]),
        (false, Mode::Real) => out.put(&[read, write]),
        (false, Mode::Mirrored) => out.put(&[read, write_back]),
    }
}

// Appends the store of a word of a resident array whose index isn't a number.
fn put_stored_among(
    emitter: &Emitter<'_, '_, '_>,
    out: &mut CodeBuf,
    array: Variable,
    value: u8,
    mode: Mode,
) -> PutResult
    requires few { array.further ≤ 4 }
    ensures appended { OnOk result (Appended out.old out.new
        (stored_among emitter.now mode array.slot (further_slots (home_in array)) value) no_notes) }
    ensures grows { CodeGrows out.old out.new }
{
    if array.further == 0 {
        return put_store(out, emitter.reduces(), array.slot, value, mode);
    }
    let slots = slots_of(array);
    let slots = &slots[..usize::from(array.further) + 1];
    let mut code = Vec::new(emitter.alloc());
    word_selection::put_write(
        &mut code,
        effect_of(mode),
        emitter.block_words() as u16,
        value,
        slots,
        1,
    )?;
    out.put(&code)
}

/// Appends the store of the word in register `value`, where register 1 has the number of the word of an array, and the
/// store of its block, unless slots hold the array for the whole run. The only error is running out of memory.
pub(crate) fn put_stored<'a>(
    emitter: &Emitter<'a, '_, '_>,
    out: &mut CodeBuf,
    array: Variable,
    index: &'a Expr,
    value: u8,
    mode: Mode,
) -> PutResult
    requires length { 1 ≤ array.place.length }
    requires few { array.further ≤ 4 }
    ensures appended { OnOk result (Appended out.old out.new
        (stored_code emitter.now mode (home_in array) (fixed_index (home_in array) (expr_tree index.now)) value) no_notes) }
    ensures grows { CodeGrows out.old out.new }
{
    if !is_resident(array) {
        put_store(out, emitter.reduces(), array.slot, value, mode)?;
        return out.put(&[Instr::Stb { slot: array.slot }]);
    }
    match fixed_index(array, index) {
        None => put_stored_among(emitter, out, array, value, mode),
        Some(number) => {
            let slot = slot_of_word(emitter, array, fixed_number(array, number));
            put_store(out, emitter.reduces(), slot, value, mode)
        }
    }
}
