//! Where the two paths through a branch on a secret first differ.
//!
//! The paths are followed side by side, access by access. Values are distinguished by hashes, so the words are a hint:
//! whether the paths differ is the check's verdict.

use crate::refusals::{Refused, bank_of, is_secret};
use fault_texts::Words;
use gr_word::Op;
use lt_isa::{Instr, Object, latency};
use trace_patterns::Known;

/// What is seen next on a way: an access, the cycles before it, and its place; at the join no access is left.
#[derive(Clone, Copy)]
struct Sight {
    place: usize,
    gap: u64,
    access: Option<Access>,
}

/// An access to a bank. An oblivious bank has no block.
#[derive(Clone, Copy)]
struct Access {
    bank: u8,
    writes: bool,
    block: Option<u64>,
}

/// A way through a region, and what is known on it.
#[derive(Clone, Copy)]
struct Way {
    at: usize,
    join: usize,
    gap: u64,
    registers: [Option<u64>; 32],
    banks: [u8; 8],
    blocks: [Option<u64>; 8],
}

fn mixed(first: u64, second: u64) -> u64 {
    (first.rotate_left(5) ^ second).wrapping_mul(0x517c_c1b7_2722_0a95)
}

fn both_mixed(kind: u64, first: Option<u64>, second: Option<u64>) -> Option<u64> {
    match (first, second) {
        (Some(first), Some(second)) => Some(mixed(mixed(kind, first), second)),
        _ => None,
    }
}

// The value of a constant.
fn constant(value: i64) -> u64 {
    mixed(if value < 0 { 3 } else { 5 }, value.unsigned_abs())
}

fn operation_number(op: Op) -> u64 {
    u64::from(op as u8).saturating_add(10)
}

impl Way {
    // A way that begins at a place with some cycles, where this is known at the branch.
    fn from(at: usize, join: usize, gap: u64, known: &Known) -> Way {
        let mut way = Way {
            at,
            join,
            gap,
            registers: [None; 32],
            banks: [255; 8],
            blocks: [None; 8],
        };
        for register in 0..32u8 {
            if !is_secret(known, register) {
                way.registers[register as usize] = Some(mixed(1, u64::from(register)));
            }
        }
        for slot in 0..8u8 {
            if let Some(bank) = bank_of(known, slot) {
                way.load(slot, bank, Some(mixed(2, u64::from(slot))));
            }
        }
        way
    }

    fn value(&self, register: u8) -> Option<u64> {
        self.registers.get(register as usize).copied().flatten()
    }

    fn block(&self, slot: u8) -> Option<u64> {
        self.blocks.get(slot as usize).copied().flatten()
    }

    fn bank(&self, slot: u8) -> u8 {
        self.banks.get(slot as usize).copied().unwrap_or(255)
    }

    fn hold(&mut self, register: u8, value: Option<u64>) {
        if register < 32 {
            self.registers[register as usize] = value;
        }
    }

    fn load(&mut self, slot: u8, bank: u8, block: Option<u64>) {
        if slot < 8 {
            self.banks[slot as usize] = bank;
            self.blocks[slot as usize] = block;
        }
    }

    // The access of an instruction, and what is known after it.
    fn access_of(&mut self, instr: Instr) -> Option<Access> {
        match instr {
            Instr::Ldb { slot, bank, reg } => {
                let block = self.value(reg);
                self.load(slot, bank, block);
                Some(access_to(bank, false, block))
            }
            Instr::Stb { slot } => Some(access_to(self.bank(slot), true, self.block(slot))),
            _ => None,
        }
    }

    // What is known after an instruction that accesses no memory.
    fn follow(&mut self, instr: Instr) {
        match instr {
            Instr::Li { rd, value } => self.hold(rd, Some(constant(value))),
            Instr::Alu { op, rd, ra, rb } => {
                let value = both_mixed(operation_number(op), self.value(ra), self.value(rb));
                self.hold(rd, value);
            }
            Instr::Idb { rd, slot } => {
                let block = if self.bank(slot) < 2 {
                    self.block(slot)
                } else {
                    None
                };
                self.hold(rd, block);
            }
            Instr::Ldw { rd, slot, off } => {
                let word = both_mixed(4, self.block(slot), self.value(off));
                self.hold(rd, if self.bank(slot) == 0 { word } else { None });
            }
            _ => {}
        }
    }

    // The place that comes next, and the cycles until then.
    fn go(&mut self, object: &Object, instr: Instr) {
        let ahead = match instr {
            Instr::Jmp { offset } => usize::try_from(offset).unwrap_or(0).max(1),
            _ => 1,
        };
        self.at = self.at.saturating_add(ahead);
        self.gap = self.gap.saturating_add(cycles_of(object, instr));
    }

    // What is seen next on the way.
    fn next(&mut self, object: &Object) -> Sight {
        for _ in self.at..self.join.max(self.at) {
            let Some(instr) = object.code().get(self.at) else {
                break;
            };
            if self.join <= self.at {
                break;
            }
            let place = self.at;
            let gap = self.gap;
            if let Some(access) = self.access_of(*instr) {
                self.at = self.at.saturating_add(1);
                self.gap = 0;
                return Sight {
                    place,
                    gap,
                    access: Some(access),
                };
            }
            self.follow(*instr);
            self.go(object, *instr);
        }
        Sight {
            place: self.at,
            gap: self.gap,
            access: None,
        }
    }
}

fn access_to(bank: u8, writes: bool, block: Option<u64>) -> Access {
    if bank < 2 {
        return Access {
            bank,
            writes,
            block,
        };
    }
    Access {
        bank,
        writes: false,
        block: None,
    }
}

// The cycles of an instruction that accesses no memory.
fn cycles_of(object: &Object, instr: Instr) -> u64 {
    if object.banks().is_empty() {
        return 0;
    }
    u64::from(latency(object, &instr, false, 0))
}

// The two ways of the branch at a place, where it has two arms.
fn ways_of(object: &Object, place: usize, known: &Known) -> Option<(Way, Way)> {
    let Some(Instr::Br { offset, .. }) = object.code().get(place) else {
        return None;
    };
    let second = place.saturating_add(usize::try_from(*offset).ok()?);
    let end = second.checked_sub(1)?;
    let Some(Instr::Jmp { offset }) = object.code().get(end) else {
        return None;
    };
    let join = end.saturating_add(usize::try_from(*offset).ok()?);
    let taken = u64::from(object.profile().taken);
    Some((
        Way::from(place.saturating_add(1), join, 1, known),
        Way::from(second, join, taken, known),
    ))
}

/// Adds where the two paths through the branch at a place first differ.
pub(crate) fn put_difference(refused: &Refused<'_>, place: usize, known: &Known, out: &mut Words) {
    let object = refused.object;
    let Some((mut first, mut second)) = ways_of(object, place, known) else {
        return;
    };
    for _ in object.code() {
        let ours = first.next(object);
        let theirs = second.next(object);
        if ours.gap != theirs.gap || !are_alike(ours.access, theirs.access) {
            out.line("The two paths first differ here:");
            put_sight(refused, "    not taken: ", ours, out);
            return put_sight(refused, "    taken: ", theirs, out);
        }
        if ours.access.is_none() {
            break;
        }
    }
    out.line(
        "Both paths access the same banks at the same cycles, but the check can't tell that they access the same \
        blocks.",
    )
}

// Whether accesses are the same for all that is known.
fn are_alike(first: Option<Access>, second: Option<Access>) -> bool {
    match (first, second) {
        (None, None) => true,
        (Some(first), Some(second)) => {
            let is_hidden = 2 <= first.bank;
            let same_block = first.block.is_some() && first.block == second.block;
            first.bank == second.bank && first.writes == second.writes && (is_hidden || same_block)
        }
        _ => false,
    }
}

fn put_sight(refused: &Refused<'_>, way: &str, sight: Sight, out: &mut Words) {
    let place = sight.place as u64;
    out.say(way);
    if sight.access.is_some() {
        out.fill("place {}: ", &[place]);
        refused.put_instruction(sight.place, out);
        out.say(", after ");
    } else {
        out.fill("reaches the join at place {} after ", &[place]);
    }
    out.counted(sight.gap, "cycle");
    out.line(" without an access");
}
