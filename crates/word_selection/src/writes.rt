ghost use Rattle.std.specs.Prelude.{◌≡◌, ◌+◌, ◌++◌, ◌<◌, ◌≤◌, ◌*◌, Bool, true, false, not, OnOk, length};
ghost use Rattle.word_selection.specs.Selection.{difference_steps, exchange_steps, exchanges_steps, first_steps, mask_register, next_mask_steps, selected_write, written_from};
ghost use Rattle.word_selection.specs.SlotSteps.{code_of};

use crate::effects::Effect;
use crate::instructions::{combine, compute, read, write};
use crate::reads::put_mask;
use gr_base::Memory;
use gr_word::Op;
use lt_isa::Instr;

/// What the codes of all blocks have in common.
#[derive(Clone, Copy)]
struct WordWrite {
    effect: Effect,
    /// How many words a block has.
    size: u16,
    /// The register that has the value.
    value: u8,
    /// The register that has the number of the word. The four after it are overwritten.
    to: u8,
}

/// Appends the code that writes a word of an array with several blocks, or writes each word back. Register `to` has the
/// number of the word, and register `value` the value; the four registers after `to` are overwritten. The blocks are in
/// these slots in order, and have `size` words each. The only error is running out of memory.
pub fn put_write(
    code: &mut Vec<Instr>,
    effect: Effect,
    size: u16,
    value: u8,
    slots: &[u8],
    to: u8,
) -> Result<(), Memory>
    requires registers { to + 4 < 32 }
    requires words { 1 ≤ size }
    requires few { length slots.now ≤ 8 }
    ensures { OnOk result (code.new.items ≡ code.old.items ++ selected_write effect size value slots.now to) }
{
    match slots {
        [] => Ok(()),
        [slot, rest @ ..] => {
            let write = WordWrite {
                effect,
                size,
                value,
                to,
            };
            put_first(code, write, *slot)?;
            put_exchanges(code, write, rest)
        }
    }
}

/// The register of the word that is written.
fn written_from(effect: Effect) -> u8
    ensures value { result ≡ written_from effect }
    ensures low { result ≤ 4 }
{
    match effect {
        Effect::Stores => 2,
        Effect::Keeps => 1,
    }
}

/// One of two registers that have masks alternately.
fn mask_register(turn: bool) -> u8
    ensures value { result ≡ mask_register turn }
    ensures low { result ≤ 4 }
{
    if turn { 4 } else { 3 }
}

/// Appends the code for the first block.
fn put_first(code: &mut Vec<Instr>, w: WordWrite, slot: u8) -> Result<(), Memory>
    requires registers { w.to + 4 < 32 }
    requires words { 1 ≤ w.size }
    ensures { OnOk result (code.new.items
        ≡ code.old.items ++ code_of w.to (first_steps w.effect w.size w.value slot)) }
{
    put_mask(code, w.size as u32, w.to, 3)?;
    put_difference(code, w, slot, 3)?;
    code.push(combine(w.to, Op::Xor, 2, 2, w.value))?;
    code.push(write(w.to, written_from(w.effect), slot, 0))?;
    Ok(())
}

/// Appends the code that finds the bits to change, as far as a mask has ones.
fn put_difference(code: &mut Vec<Instr>, w: WordWrite, slot: u8, mask: u8) -> Result<(), Memory>
    requires registers { w.to + 4 < 32 }
    requires mask { mask ≤ 4 }
    ensures { OnOk result (code.new.items
        ≡ code.old.items ++ code_of w.to (difference_steps w.value slot mask)) }
{
    code.push(read(w.to, 1, slot, 0))?;
    code.push(combine(w.to, Op::Xor, 2, 1, w.value))?;
    code.push(compute(w.to, Op::And, 2, 2, mask))?;
    Ok(())
}

/// Appends the code for a block after the first.
fn put_exchange(code: &mut Vec<Instr>, w: WordWrite, slot: u8, mask: u8) -> Result<(), Memory>
    requires registers { w.to + 4 < 32 }
    requires mask { mask ≤ 4 }
    ensures { OnOk result (code.new.items
        ≡ code.old.items ++ code_of w.to (exchange_steps w.effect w.value slot mask)) }
{
    put_difference(code, w, slot, mask)?;
    code.push(compute(w.to, Op::Xor, 2, 2, 1))?;
    code.push(write(w.to, written_from(w.effect), slot, 0))?;
    Ok(())
}

/// Appends the code that makes the mask for the block after block `i`, if there is one.
fn put_next_mask(
    code: &mut Vec<Instr>,
    w: WordWrite,
    i: u32,
    turn: bool,
    slots: &[u8],
) -> Result<(), Memory>
    requires registers { w.to + 4 < 32 }
    requires words { 1 ≤ w.size }
    requires few { i ≤ 8 }
    ensures { OnOk result (code.new.items
        ≡ code.old.items ++ code_of w.to (next_mask_steps w.size i turn slots.now)) }
{
    if slots.is_empty() {
        return Ok(());
    }
    let mask = mask_register(turn);
    let other = mask_register(!turn);
    put_mask(code, (i + 1) * w.size as u32, w.to, other)?;
    code.push(compute(w.to, Op::Xor, mask, mask, other))?;
    Ok(())
}

/// Appends the code for the blocks after the first, which are in these slots.
fn put_exchanges(code: &mut Vec<Instr>, w: WordWrite, slots: &[u8]) -> Result<(), Memory>
    requires registers { w.to + 4 < 32 }
    requires words { 1 ≤ w.size }
    requires few { length slots.now ≤ 8 }
    ensures { OnOk result (code.new.items ≡ code.old.items
        ++ code_of w.to (exchanges_steps w.effect w.size w.value 1 false slots.now)) }
{
    let mut turn = false;
    for i in 0..slots.len() {
        put_next_mask(code, w, i as u32 + 1, turn, &slots[i + 1..])?;
        put_exchange(code, w, slots[i], mask_register(turn))?;
        turn = !turn;
    }
    Ok(())
}
