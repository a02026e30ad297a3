ghost use Rattle.std.specs.Prelude.{◌≡◌, ◌<◌, ◌+◌, ◌^◌, ◌-◌, length, pos, List, ℕ, IfOk, OnOk};
ghost use Rattle.lt_isa.specs.Prelude.{Parts, IsInRange, InstrFits};
ghost use Rattle.symbolic_values.specs.declared.nodes.Node.{Node as OneNode};
ghost use Rattle.symbolic_values.specs.Prelude.{IsTable, Apply, Const, tree_of};
ghost use Rattle.trace_patterns.specs.Prelude.{applied_trees, block_held, named_word, word_held, word_tree};
ghost use Rattle.region_walk.specs.Slots.{NumberedSlotFits, NumberFits, known_tree, origin_of, slot_of};
ghost use Rattle.region_walk.specs.States.{StateFits, slot_at};
ghost use Rattle.region_walk.specs.Tables.{FindsNumber, FindsHeld};
ghost use Rattle.region_walk.specs.Carrying.{HoldsBehind};

use crate::kinds::{is_oblivious, is_plain};
use crate::numbers::number_for;
use crate::states::{Origin, RegionState, Slot};
use gr_word::{Memory, Op};
use lt_isa::{Instr, Object};
use symbolic_values::{Node, Values};

/// `state` becomes what is known after an instruction, whether or not the check refuses it. It adds at most 4 values.
pub fn hold_behind(
    object: &Object,
    values: &mut Values,
    state: &mut RegionState,
    instr: Instr,
) -> Result<(), Memory>
    requires range { IsInRange object.now }
    requires operands { InstrFits (length object.now.banks) instr }
    requires table { IsTable values.old }
    requires room { length values.old + 4 < 2 ^ 32 }
    requires fits { StateFits (length values.old) state.old }
    ensures { OnOk result (HoldsBehind object.now values.old state.old instr values.new state.new) }
{
    match instr {
        Instr::Li { rd, value } => hold_constant(values, state, rd, value),
        Instr::Alu { op, rd, ra, rb } => hold_operation(values, state, op, rd, ra, rb),
        Instr::Ldb { slot, bank, reg } => bind_block(object, values, state, slot, bank, reg),
        Instr::Idb { rd, slot } => {
            hold_block_number(state, rd, slot);
            Ok(())
        }
        Instr::Ldw { rd, slot, off } => hold_word(object, values, state, rd, slot, off),
        Instr::Nop => Ok(()),
        Instr::Halt => Ok(()),
        Instr::Stb { .. } => Ok(()),
        Instr::Stw { .. } => Ok(()),
        Instr::Jmp { .. } => Ok(()),
        Instr::Br { .. } => Ok(()),
    }
}

/// A register holds a constant.
pub fn hold_constant(
    values: &mut Values,
    state: &mut RegionState,
    register: u8,
    word: i64,
) -> Result<(), Memory>
    requires register { register < 32 }
    requires table { IsTable values.old }
    requires room { length values.old + 4 < 2 ^ 32 }
    requires fits { StateFits (length values.old) state.old }
    ensures { (o : Parts) → OnOk result
        (HoldsBehind o values.old state.old (Instr.Li register word) values.new state.new) }
{
    let number = number_for(values, Node::Const(word))?;
    state.hold(register, Some(number));
    Ok(())
}

/// A register holds the value of an operation, if both operands are known.
pub fn hold_operation(
    values: &mut Values,
    state: &mut RegionState,
    op: Op,
    register: u8,
    left: u8,
    right: u8,
) -> Result<(), Memory>
    requires register { register < 32 }
    requires left { left < 32 }
    requires right { right < 32 }
    requires table { IsTable values.old }
    requires room { length values.old + 4 < 2 ^ 32 }
    requires fits { StateFits (length values.old) state.old }
    ensures { (o : Parts) → OnOk result
        (HoldsBehind o values.old state.old (Instr.Alu op register left right) values.new state.new) }
{
    let number = operation(values, op, state.number(left), state.number(right))?;
    state.hold(register, number);
    Ok(())
}

// The number of an operation's value, if both operands are known.
fn operation(
    values: &mut Values,
    op: Op,
    left: Option<u32>,
    right: Option<u32>,
) -> Result<Option<u32>, Memory>
    requires table { IsTable values.old }
    requires room { length values.old + 4 < 2 ^ 32 }
    requires left { NumberFits (length values.old) left }
    requires right { NumberFits (length values.old) right }
    ensures { IfOk result (λ number.
        FindsHeld 1 values.old values.new (applied_trees op (known_tree values.old left) (known_tree values.old right))
        number) }
{
    match (left, right) {
        (Some(left), Some(right)) => match number_for(values, Node::Apply(op, left, right)) {
            Err(_) => Err(Memory),
            Ok(number) => Ok(Some(number)),
        },
        (None, _) => Ok(None),
        (Some(_), None) => Ok(None),
    }
}

/// A slot is bound to a block; if the observer would see the block's number and it isn't known, nothing is known of the
/// slot.
pub fn bind_block(
    object: &Object,
    values: &mut Values,
    state: &mut RegionState,
    slot: u8,
    bank: u8,
    register: u8,
) -> Result<(), Memory>
    requires range { IsInRange object.now }
    requires operands { InstrFits (length object.now.banks) (Instr.Ldb slot bank register) }
    requires table { IsTable values.old }
    requires room { length values.old + 4 < 2 ^ 32 }
    requires fits { StateFits (length values.old) state.old }
    ensures { OnOk result
        (HoldsBehind object.now values.old state.old (Instr.Ldb slot bank register) values.new state.new) }
{
    if is_oblivious(bank) {
        state.bind(slot, Slot::Oram(bank));
        return Ok(());
    }
    match state.number(register) {
        None => {
            state.bind(slot, Slot::Any);
            Ok(())
        }
        Some(number) => match named(values, number, object.banks()[bank as usize].blocks) {
            Err(_) => Err(Memory),
            Ok(block) => {
                if is_plain(bank) {
                    state.bind(slot, Slot::Ram(block, Origin::Loaded));
                } else {
                    state.bind(slot, Slot::Eram(block));
                }
                Ok(())
            }
        },
    }
}

/// A register holds the number of a slot's block, if it is known.
pub fn hold_block_number(state: &mut RegionState, register: u8, slot: u8)
    requires register { register < 32 }
    requires slot { slot < 8 }
    requires small { NumberedSlotFits (2 ^ 32 - 1) (slot_at state.old slot) }
    ensures { (o : Parts) (nodes : List OneNode) → IsTable nodes → StateFits (length nodes) state.old
        → HoldsBehind o nodes state.old (Instr.Idb register slot) nodes state.new }
{
    state.hold(register, block_number(state.slot(slot)));
}

// The number of a slot's block, if it is known.
fn block_number(bound: Slot) -> Option<u32>
    ensures held { (nodes : List OneNode) → known_tree nodes result ≡ block_held (slot_of nodes bound) }
    ensures fits { (count : ℕ) → NumberedSlotFits count bound → NumberFits count result }
{
    match bound {
        Slot::Any => None,
        Slot::Ram(block, _) => Some(block),
        Slot::Eram(block) => Some(block),
        Slot::Oram(_) => None,
    }
}

/// A register holds a word of a slot, if the slot is bound to plain memory and the word's place is known.
pub fn hold_word(
    object: &Object,
    values: &mut Values,
    state: &mut RegionState,
    register: u8,
    slot: u8,
    place: u8,
) -> Result<(), Memory>
    requires range { IsInRange object.now }
    requires register { register < 32 }
    requires slot { slot < 8 }
    requires place { place < 32 }
    requires table { IsTable values.old }
    requires room { length values.old + 4 < 2 ^ 32 }
    requires fits { StateFits (length values.old) state.old }
    ensures { OnOk result
        (HoldsBehind object.now values.old state.old (Instr.Ldw register slot place) values.new state.new) }
{
    let number = word(object, values, state.slot(slot), state.number(place))?;
    state.hold(register, number);
    Ok(())
}

// A slot's word, if the slot is bound to plain memory and the word's place is known.
fn word(
    object: &Object,
    values: &mut Values,
    bound: Slot,
    place: Option<u32>,
) -> Result<Option<u32>, Memory>
    requires range { IsInRange object.now }
    requires table { IsTable values.old }
    requires room { length values.old + 4 < 2 ^ 32 }
    requires bound { NumberedSlotFits (length values.old) bound }
    requires place { NumberFits (length values.old) place }
    ensures { IfOk result (λ number. FindsHeld 3 values.old values.new
        (word_held object.now (slot_of values.old bound) (known_tree values.old place)) number) }
{
    match bound {
        Slot::Any => Ok(None),
        Slot::Eram(_) => Ok(None),
        Slot::Oram(_) => Ok(None),
        Slot::Ram(block, origin) => match place {
            None => Ok(None),
            Some(number) => match word_at(object, values, block, origin, number) {
                Err(_) => Err(Memory),
                Ok(found) => Ok(Some(found)),
            },
        },
    }
}

// A word of a slot that is bound to plain memory, at a place that is known.
fn word_at(
    object: &Object,
    values: &mut Values,
    block: u32,
    origin: Origin,
    place: u32,
) -> Result<u32, Memory>
    requires range { IsInRange object.now }
    requires table { IsTable values.old }
    requires room { length values.old + 4 < 2 ^ 32 }
    requires block { block < length values.old }
    requires place { place < length values.old }
    ensures { IfOk result (λ number. FindsNumber 3 values.old values.new (word_tree (origin_of origin)
        (tree_of values.old block) (named_word object.now (tree_of values.old place))) number) }
{
    match named(values, place, object.profile().block_words()) {
        Err(_) => Err(Memory),
        Ok(place) => match origin {
            Origin::Entry(slot) => number_for(values, Node::SlotWord(slot, place)),
            Origin::Loaded => number_for(values, Node::MemWord(block, place)),
        },
    }
}

// The number of a value's remainder by `count`, by which an address names one of `count` blocks or words.
fn named(values: &mut Values, number: u32, count: u32) -> Result<u32, Memory>
    requires table { IsTable values.old }
    requires room { length values.old + 3 < 2 ^ 32 }
    requires number { number < length values.old }
    ensures { IfOk result
        (λ found. FindsNumber 2 values.old values.new (Apply Op.Remu (tree_of values.old number) (Const (pos count)))
        found) }
{
    match number_for(values, Node::Const(i64::from(count))) {
        Err(_) => Err(Memory),
        Ok(count) => number_for(values, Node::Apply(Op::Remu, number, count)),
    }
}
