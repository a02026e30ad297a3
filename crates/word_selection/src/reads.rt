ghost use Rattle.std.specs.Prelude.{◌≡◌, ◌+◌, ◌++◌, ◌<◌, ◌≤◌, OnOk, length};
ghost use Rattle.word_selection.specs.Selection.{choice_steps, choices_steps, left_register, mask_steps, selected_read};
ghost use Rattle.word_selection.specs.SlotSteps.{code_of};

use crate::instructions::{compute, constant, read};
use gr_base::Memory;
use gr_word::Op;
use lt_isa::Instr;

/// Appends the code that reads a word of an array with several blocks. Register `to` has the number of the word, and
/// becomes the word; the three registers after it are overwritten. The blocks are in these slots in order, and have
/// `size` words each. The only error is running out of memory.
pub fn put_read(code: &mut Vec<Instr>, size: u16, slots: &[u8], to: u8) -> Result<(), Memory>
    requires registers { to + 3 < 32 }
    requires words { 1 ≤ size }
    requires few { length slots.now ≤ 8 }
    ensures { OnOk result (code.new.items ≡ code.old.items ++ selected_read size slots.now to) }
{
    match slots {
        [] => Ok(()),
        [slot, rest @ ..] => {
            code.push(read(to, left_register(rest), *slot, 0))?;
            put_choices(code, size, rest, to)
        }
    }
}

/// Where a word is left, if these slots follow its own.
fn left_register(slots: &[u8]) -> u8
    ensures value { result ≡ left_register slots.now }
    ensures low { result ≤ 1 }
{
    if slots.is_empty() { 0 } else { 1 }
}

/// Appends the code that chooses the word of one of these slots, or the word so far.
fn put_choices(code: &mut Vec<Instr>, size: u16, slots: &[u8], to: u8) -> Result<(), Memory>
    requires registers { to + 3 < 32 }
    requires words { 1 ≤ size }
    requires few { length slots.now ≤ 8 }
    ensures { OnOk result (code.new.items ≡ code.old.items ++ code_of to (choices_steps size 1 slots.now)) }
{
    for i in 0..slots.len() {
        let left = left_register(&slots[i + 1..]);
        put_choice(code, (i as u32 + 1) * size as u32, slots[i], to, left)?;
    }
    Ok(())
}

/// Appends the code that chooses the word of a slot if the number is at least a limit.
fn put_choice(code: &mut Vec<Instr>, limit: u32, slot: u8, to: u8, left: u8) -> Result<(), Memory>
    requires registers { to + 3 < 32 }
    requires limit { 1 ≤ limit }
    requires left { left ≤ 1 }
    ensures { OnOk result (code.new.items ≡ code.old.items ++ code_of to (choice_steps limit slot left)) }
{
    put_mask(code, limit, to, 3)?;
    code.push(read(to, 2, slot, 0))?;
    code.push(compute(to, Op::Xor, 2, 2, 1))?;
    code.push(compute(to, Op::And, 2, 2, 3))?;
    code.push(compute(to, Op::Xor, left, 1, 2))?;
    Ok(())
}

/// Appends the code that makes the mask for a limit.
pub(crate) fn put_mask(code: &mut Vec<Instr>, limit: u32, to: u8, mask: u8) -> Result<(), Memory>
    requires registers { to + 4 ≤ 32 }
    requires mask { to + mask < 32 }
    requires limit { 1 ≤ limit }
    ensures { OnOk result (code.new.items ≡ code.old.items ++ code_of to (mask_steps limit mask)) }
{
    code.push(constant(to, 2, i64::from(limit - 1)))?;
    code.push(compute(to, Op::Sub, mask, 2, 0))?;
    code.push(compute(to, Op::Shr, mask, mask, 2))?;
    Ok(())
}
