ghost use Rattle.std.specs.Prelude.{◌≡◌, ◌<◌, ◌+◌, ◌^◌, length, false};
ghost use Rattle.lt_isa.specs.Prelude.{cost_of, IsInRange, InstrFits};
ghost use Rattle.symbolic_values.specs.Prelude.{IsTable};
ghost use Rattle.trace_patterns.specs.Prelude.{jump_refused};
ghost use Rattle.region_walk.specs.States.{StateFits};
ghost use Rattle.region_walk.specs.Shows.{quiet_after, shown_load, shown_store, if_bound, if_stored};
ghost use Rattle.region_walk.specs.Singles.{IsSingle};

use crate::behind::{bind_block, hold_block_number, hold_constant, hold_operation, hold_word};
use crate::states::{RegionState, Slot};
use gr_word::Memory;
use lt_isa::{Instr, Object, latency};
use symbolic_values::Values;
use trace_patterns::{Reason, SymEvent};

/// The result of one instruction of an arm.
#[derive(Clone, Copy, Debug, PartialEq, Eq)]
pub enum Single {
    /// It is refused.
    Refuses(Reason),
    /// It shows no event, and takes this number of cycles.
    Quiet(u32),
    /// It shows an event.
    Shows(SymEvent),
    /// It is a branch with this offset, which opens another region.
    Branches(i32),
    /// Memory ran out.
    Memory,
}

/// The result of an instruction, if a state is known before it. The state becomes what is known after it. It adds at
/// most 4 values. An instruction without an event takes fewer than 128 cycles.
// This is the loop that the check spends its time in, so an instruction is matched once.
pub fn single_at(
    object: &Object,
    values: &mut Values,
    state: &mut RegionState,
    instr: Instr,
) -> Single
    requires range { IsInRange object.now }
    requires operands { InstrFits (length object.now.banks) instr }
    requires table { IsTable values.old }
    requires room { length values.old + 4 < 2 ^ 32 }
    requires fits { StateFits (length values.old) state.old }
    ensures { IsSingle object.now values.old state.old instr result values.new state.new }
{
    match instr {
        Instr::Nop => quiet(object, instr, Ok(())),
        Instr::Halt => Single::Refuses(Reason::HaltInSecret),
        Instr::Li { rd, value } => {
            let held = hold_constant(values, state, rd, value);
            quiet(object, instr, held)
        }
        Instr::Alu { op, rd, ra, rb } => {
            let held = hold_operation(values, state, op, rd, ra, rb);
            quiet(object, instr, held)
        }
        Instr::Ldb { slot, bank, reg } => {
            let held = bind_block(object, values, state, slot, bank, reg);
            loaded(held, state.slot(slot))
        }
        Instr::Stb { slot } => stored(state.slot(slot)),
        Instr::Idb { rd, slot } => {
            let bound = state.slot(slot);
            hold_block_number(state, rd, slot);
            if_bound(bound, quiet(object, instr, Ok(())))
        }
        Instr::Ldw { rd, slot, off } => {
            let bound = state.slot(slot);
            let held = hold_word(object, values, state, rd, slot, off);
            if_bound(bound, quiet(object, instr, held))
        }
        Instr::Stw { slot, .. } => if_stored(state.slot(slot), quiet(object, instr, Ok(()))),
        Instr::Jmp { offset } => Single::Refuses(jump_refused(offset)),
        Instr::Br { offset, .. } => Single::Branches(offset),
    }
}

// The result of an instruction without an event, unless memory ran out.
fn quiet(object: &Object, instr: Instr, held: Result<(), Memory>) -> Single
    requires { IsInRange object.now }
    ensures { result ≡ quiet_after held (cost_of object.now instr false 0) }
{
    match held {
        Err(_) => Single::Memory,
        Ok(()) => Single::Quiet(latency(object, &instr, false, 0)),
    }
}

// The result of a load of a block, by what the slot is bound to then. If the observer sees the block's number, the
// number must be known.
fn loaded(held: Result<(), Memory>, bound: Slot) -> Single
    ensures { result ≡ shown_load held bound }
{
    match held {
        Err(_) => Single::Memory,
        Ok(()) => match bound {
            Slot::Any => Single::Refuses(Reason::SecretAddress),
            Slot::Ram(block, _) => Single::Shows(SymEvent::RamRead(block)),
            Slot::Eram(block) => Single::Shows(SymEvent::EncRead(block)),
            Slot::Oram(bank) => Single::Shows(SymEvent::Oram(bank)),
        },
    }
}

// The result of a store of a block, which may not be in plain memory.
fn stored(bound: Slot) -> Single
    ensures { result ≡ shown_store bound }
{
    match bound {
        Slot::Any => Single::Refuses(Reason::UnboundSlot),
        Slot::Ram(..) => Single::Refuses(Reason::RamStoreInSecret),
        Slot::Eram(block) => Single::Shows(SymEvent::EncWrite(block)),
        Slot::Oram(bank) => Single::Shows(SymEvent::Oram(bank)),
    }
}

// The result of an instruction whose slot must be bound.
fn if_bound(bound: Slot, single: Single) -> Single
    ensures { result ≡ if_bound bound single }
{
    match bound {
        Slot::Any => Single::Refuses(Reason::UnboundSlot),
        _ => single,
    }
}

// The result of a store of a word, which may not be in plain memory.
fn if_stored(bound: Slot, single: Single) -> Single
    ensures { result ≡ if_stored bound single }
{
    match bound {
        Slot::Any => Single::Refuses(Reason::UnboundSlot),
        Slot::Ram(_, _) => Single::Refuses(Reason::RamStoreInSecret),
        _ => single,
    }
}

// Why a jump is refused in an arm.
fn jump_refused(offset: i32) -> Reason
    ensures { result ≡ jump_refused offset }
{
    if offset > 0 {
        Reason::BadRegion
    } else {
        Reason::SecretLoop
    }
}
