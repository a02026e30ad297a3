ghost use Rattle.std.specs.Prelude.{◌≡◌, ◌<◌, ◌≤◌, ◌+◌, ◌^◌, List, ℤ, Some, length};
ghost use Rattle.gr_word.specs.Prelude.{applied};
ghost use Rattle.lt_isa.specs.declared.instructions.Instr.TheVariants.{Li, Alu, Idb, Ldw, Stw, Jmp, Br};
ghost use Rattle.lt_isa.specs.Prelude.{operation_cost, Parts, block_words, IsInRange, InstrFits, target_of, word_named};
ghost use Rattle.processor.specs.Flat.{IsFlatOf, instr_of};
ghost use Rattle.processor.specs.Quick.{CameAlike, PassesQuickly, StandsForStep, state_at};
ghost use Rattle.processor.specs.Stores.{Pad};

use crate::flat::Flat;
use crate::scratchpad::Scratchpad;
use gr_word::{Cmp, Op, apply, holds};
use lt_isa::Object;

/// Where a machine is, and when.
#[derive(Clone, Copy)]
pub(crate) struct Point {
    pub(crate) place: usize,
    pub(crate) cycle: u64,
}

/// Continues from a point as long as the next instruction starts below this cycle and makes no access. Returns the
/// point that it reached. The point is kept apart from the machine, so that it stays in the processor's own registers.
pub(crate) fn run_quickly(
    object: &Object,
    flats: &[Flat],
    registers: &mut [i64; 32],
    pad: &mut Scratchpad,
    from: Point,
    cycles: u32,
) -> Point
    requires flat { IsFlatOf flats.now object.now.code }
    requires words { pad.old.words ≡ block_words object.now }
    requires far { from.cycle < 2 ^ 34 }
    ensures alike { CameAlike object.now cycles registers.old pad.old.slots from registers.new pad.new.slots result }
    ensures left { result.cycle < cycles
        → (banks : List (List (List ℤ)))
        → StandsForStep object.now (state_at registers.new pad.new.slots banks result) }
    ensures words { pad.new.words ≡ pad.old.words }
    ensures later { from.cycle ≤ result.cycle }
    ensures far { result.cycle < 2 ^ 34 }
{
    let _ = object.code();
    let limit = u64::from(cycles);
    let mut now = from;
    'quick: while now.cycle < limit {
        if now.place >= flats.len() {
            return now;
        }
        match pass_quickly(object, registers, pad, &flats[now.place], now) {
            Some(next) => now = next,
            None => return now,
        }
    }
    now
}

// Does what an instruction does, unless it makes an access, halts or is a fault.
#[inline(always)]
fn pass_quickly(
    object: &Object,
    registers: &mut [i64; 32],
    pad: &mut Scratchpad,
    flat: &Flat,
    at: Point,
) -> Option<Point>
    requires in_range { IsInRange object.now }
    requires fits { InstrFits (length object.now.banks) (instr_of flat.now) }
    requires words { pad.old.words ≡ block_words object.now }
    requires place { at.place < 2 ^ 32 }
    requires early { at.cycle < 2 ^ 32 }
    ensures { PassesQuickly object.now (instr_of flat.now) registers.old pad.old at result registers.new pad.new }
{
    match *flat {
        Flat::Access => None,
        Flat::Nop => Some(behind(at, 1)),
        Flat::Li { rd, value } => Some(load_constant(registers, rd, value, at)),
        Flat::Add { rd, ra, rb } => Some(operate(object, registers, Op::Add, rd, ra, rb, at)),
        Flat::Sub { rd, ra, rb } => Some(operate(object, registers, Op::Sub, rd, ra, rb, at)),
        Flat::Mul { rd, ra, rb } => Some(operate(object, registers, Op::Mul, rd, ra, rb, at)),
        Flat::Div { rd, ra, rb } => Some(operate(object, registers, Op::Div, rd, ra, rb, at)),
        Flat::Rem { rd, ra, rb } => Some(operate(object, registers, Op::Rem, rd, ra, rb, at)),
        Flat::Remu { rd, ra, rb } => Some(operate(object, registers, Op::Remu, rd, ra, rb, at)),
        Flat::And { rd, ra, rb } => Some(operate(object, registers, Op::And, rd, ra, rb, at)),
        Flat::Or { rd, ra, rb } => Some(operate(object, registers, Op::Or, rd, ra, rb, at)),
        Flat::Xor { rd, ra, rb } => Some(operate(object, registers, Op::Xor, rd, ra, rb, at)),
        Flat::Shl { rd, ra, rb } => Some(operate(object, registers, Op::Shl, rd, ra, rb, at)),
        Flat::Shr { rd, ra, rb } => Some(operate(object, registers, Op::Shr, rd, ra, rb, at)),
        Flat::Idb { rd, slot } => load_number(registers, pad, rd, slot, at),
        Flat::Ldw { rd, slot, off } => load_word(object, registers, pad, rd, slot, off, at),
        Flat::Stw { rs, slot, off } => store_word(object, registers, pad, rs, slot, off, at),
        Flat::Jmp { offset } => Some(jump(object, offset, at)),
        Flat::Eq { ra, rb, offset } => branch(object, registers, Cmp::Eq, ra, rb, offset, at),
        Flat::Ne { ra, rb, offset } => branch(object, registers, Cmp::Ne, ra, rb, offset, at),
        Flat::Lt { ra, rb, offset } => branch(object, registers, Cmp::Lt, ra, rb, offset, at),
        Flat::Le { ra, rb, offset } => branch(object, registers, Cmp::Le, ra, rb, offset, at),
        Flat::Gt { ra, rb, offset } => branch(object, registers, Cmp::Gt, ra, rb, offset, at),
        Flat::Ge { ra, rb, offset } => branch(object, registers, Cmp::Ge, ra, rb, offset, at),
    }
}

// The point after an instruction of this cost that continues at the next place.
#[inline(always)]
fn behind(at: Point, cost: u32) -> Point
    requires place { at.place < 2 ^ 32 }
    requires early { at.cycle < 2 ^ 32 }
    ensures { result ≡ record { place = at.place + 1; cycle = at.cycle + cost } }
{
    Point {
        place: at.place + 1,
        cycle: at.cycle + u64::from(cost),
    }
}

#[inline(always)]
fn load_constant(registers: &mut [i64; 32], rd: u8, value: i64, at: Point) -> Point
    requires register { rd < 32 }
    requires place { at.place < 2 ^ 32 }
    requires early { at.cycle < 2 ^ 32 }
    ensures { (o : Parts) (pad : Pad)
        → PassesQuickly o (Li rd value) registers.old pad at (Some result) registers.new pad }
{
    registers[rd as usize] = value;
    behind(at, 1)
}

#[inline(always)]
fn operate(
    object: &Object,
    registers: &mut [i64; 32],
    op: Op,
    rd: u8,
    ra: u8,
    rb: u8,
    at: Point,
) -> Point
    requires in_range { IsInRange object.now }
    requires fits { InstrFits (length object.now.banks) (Alu op rd ra rb) }
    requires place { at.place < 2 ^ 32 }
    requires early { at.cycle < 2 ^ 32 }
    ensures { (pad : Pad) → PassesQuickly object.now (Alu op rd ra rb) registers.old pad at (Some result) registers.new
        pad }
{
    let (word, cost) = operated(object, op, registers[ra as usize], registers[rb as usize]);
    registers[rd as usize] = word;
    behind(at, cost)
}

// An operation's result and its cost, which are looked up together.
#[inline(always)]
fn operated(object: &Object, op: Op, a: i64, b: i64) -> (i64, u32)
    ensures word { result.0 ≡ applied op a b }
    ensures cost { result.1 ≡ operation_cost object.now.profile op }
{
    let profile = object.profile();
    let alu = u32::from(profile.alu);
    let mul = u32::from(profile.mul);
    match op {
        Op::Add => (apply(Op::Add, a, b), alu),
        Op::Sub => (apply(Op::Sub, a, b), alu),
        Op::Mul => (apply(Op::Mul, a, b), mul),
        Op::Div => (apply(Op::Div, a, b), mul),
        Op::Rem => (apply(Op::Rem, a, b), mul),
        Op::Remu => (apply(Op::Remu, a, b), mul),
        Op::And => (apply(Op::And, a, b), alu),
        Op::Or => (apply(Op::Or, a, b), alu),
        Op::Xor => (apply(Op::Xor, a, b), alu),
        Op::Shl => (apply(Op::Shl, a, b), alu),
        Op::Shr => (apply(Op::Shr, a, b), alu),
    }
}

#[inline(always)]
fn load_number(
    registers: &mut [i64; 32],
    pad: &Scratchpad,
    rd: u8,
    slot: u8,
    at: Point,
) -> Option<Point>
    requires register { rd < 32 }
    requires slot { slot < 8 }
    requires place { at.place < 2 ^ 32 }
    requires early { at.cycle < 2 ^ 32 }
    ensures { (o : Parts) → PassesQuickly o (Idb rd slot) registers.old pad.now at result registers.new pad.now }
{
    let Some(held) = pad.held(slot) else {
        return None;
    };
    registers[rd as usize] = i64::from(held.block);
    Some(behind(at, 1))
}

#[inline(always)]
fn load_word(
    object: &Object,
    registers: &mut [i64; 32],
    pad: &Scratchpad,
    rd: u8,
    slot: u8,
    off: u8,
    at: Point,
) -> Option<Point>
    requires in_range { IsInRange object.now }
    requires fits { InstrFits (length object.now.banks) (Ldw rd slot off) }
    requires words { pad.now.words ≡ block_words object.now }
    requires place { at.place < 2 ^ 32 }
    requires early { at.cycle < 2 ^ 32 }
    ensures { PassesQuickly object.now (Ldw rd slot off) registers.old pad.now at result registers.new pad.now }
{
    let Some(held) = pad.held(slot) else {
        return None;
    };
    let index = word_at(object, registers[off as usize]);
    registers[rd as usize] = held.words[index];
    Some(behind(at, u32::from(object.profile().word)))
}

#[inline(always)]
fn store_word(
    object: &Object,
    registers: &[i64; 32],
    pad: &mut Scratchpad,
    rs: u8,
    slot: u8,
    off: u8,
    at: Point,
) -> Option<Point>
    requires in_range { IsInRange object.now }
    requires fits { InstrFits (length object.now.banks) (Stw rs slot off) }
    requires words { pad.old.words ≡ block_words object.now }
    requires place { at.place < 2 ^ 32 }
    requires early { at.cycle < 2 ^ 32 }
    ensures { PassesQuickly object.now (Stw rs slot off) registers.now pad.old at result registers.now pad.new }
{
    if pad.held(slot).is_none() {
        return None;
    }
    let index = word_at(object, registers[off as usize]);
    pad.set_word(slot, index, registers[rs as usize]);
    Some(behind(at, u32::from(object.profile().word)))
}

#[inline(always)]
fn jump(object: &Object, offset: i32, at: Point) -> Point
    requires in_range { IsInRange object.now }
    requires place { at.place < 2 ^ 32 }
    requires early { at.cycle < 2 ^ 32 }
    ensures { (registers : List ℤ) (pad : Pad)
        → PassesQuickly object.now (Jmp offset) registers pad at (Some result) registers pad }
{
    Point {
        place: target(object, at.place, offset),
        cycle: at.cycle + u64::from(object.profile().taken),
    }
}

#[inline(always)]
fn branch(
    object: &Object,
    registers: &[i64; 32],
    cmp: Cmp,
    ra: u8,
    rb: u8,
    offset: i32,
    at: Point,
) -> Option<Point>
    requires in_range { IsInRange object.now }
    requires fits { InstrFits (length object.now.banks) (Br cmp ra rb offset) }
    requires place { at.place < 2 ^ 32 }
    requires early { at.cycle < 2 ^ 32 }
    ensures { (pad : Pad)
        → PassesQuickly object.now (Br cmp ra rb offset) registers.now pad at result registers.now pad }
{
    if holds(cmp, registers[ra as usize], registers[rb as usize]) {
        return Some(Point {
            place: target(object, at.place, offset),
            cycle: at.cycle + u64::from(object.profile().taken),
        });
    }
    Some(behind(at, 1))
}

// The word of a block that a word names.
#[inline(always)]
fn word_at(object: &Object, word: i64) -> usize
    ensures value { result ≡ word_named object.now word }
    ensures exists { result < block_words object.now }
{
    let words = object.profile().block_words();
    (word.cast_unsigned() % u64::from(words)) as usize
}

/// The place that an offset leads to, or the one past the code if it leads before it.
#[inline(always)]
pub(crate) fn target(object: &Object, place: usize, offset: i32) -> usize
    requires { place < 2 ^ 32 }
    ensures { result ≡ target_of object.now place offset }
{
    let to = place as i64 + i64::from(offset);
    if to >= 0 {
        to as usize
    } else {
        object.code().len()
    }
}
