ghost use Rattle.std.specs.Prelude.{◌≡◌, ◌<◌, ◌||◌, ◌&&◌, length, not, if◌then◌else◌};
ghost use Rattle.lt_isa.specs.Prelude.{is_ram, InstrFits};
ghost use Rattle.trace_patterns.specs.Prelude.{is_secret, bank_known, set_secret, set_bank, shows_block, claimed_at, ruling_of, jumped, at_bank, refused_if};
ghost use Rattle.lt_checker.specs.Effects.{ruled, WhereItOpens};
ghost use Rattle.lt_checker.specs.Tables.{ServesNotes};
ghost use Rattle.trace_patterns.specs.Rules as rule;

use crate::tables;
use lt_isa::instruction_table::target_of;
use lt_isa::{Instr, Object};
use trace_patterns::{Known, Reason, is_ram, shows_block};

/// The ruling on an instruction. What is known after the instruction is stored separately.
#[derive(Clone, Copy, Debug)]
pub enum Ruling {
    /// The instruction is refused.
    Refused(Reason),
    /// The instruction falls through to the next place.
    Falls,
    /// The instruction doesn't fall through to the next place.
    Leaves,
    /// The instruction is a branch on a secret with this offset, and opens a region.
    Opens(i32),
}

/// The ruling on an instruction at a place at which `known` is known. `known` becomes what is known after it; a branch
/// on a secret leaves it as it is. `table` gives the object's note at a place.
#[tactic(auto, unfolding(trace_patterns::specs::Rules::ruling_of))]
pub fn rule_of(
    object: &Object,
    table: &[Option<u32>],
    place: usize,
    known: &mut Known,
    instr: Instr,
) -> Ruling
    requires table { ServesNotes object.now.notes table.now }
    requires inside { place < length object.now.code }
    requires operands { InstrFits (length object.now.banks) instr }
    requires banks { length object.now.banks < 255 }
    ensures rule { ruled result known.new ≡ ruling_of object.now place known.old instr }
    ensures kept { WhereItOpens result (known.new ≡ known.old) }
{
    match instr {
        Instr::Nop => Ruling::Falls,
        Instr::Halt => Ruling::Leaves,
        Instr::Li { rd, .. } => {
            known.set_secret(rd, false);
            Ruling::Falls
        }
        Instr::Alu { rd, ra, rb, .. } => {
            known.label_operation(rd, ra, rb);
            Ruling::Falls
        }
        Instr::Ldb { slot, bank, reg } => load_block(known, slot, bank, reg),
        Instr::Stb { slot } => stored_block(known, slot),
        Instr::Idb { rd, slot } => name_block(known, rd, slot),
        Instr::Ldw { rd, slot, off } => load_word(known, rd, slot, off),
        Instr::Stw { rs, slot, off } => stored_word(known, rs, slot, off),
        Instr::Jmp { offset } => {
            let target = target_of(object, place, offset);
            jumped(object, table, target, known, false)
        }
        Instr::Br { ra, rb, offset, .. } => {
            if known.either_secret(ra, rb) {
                return Ruling::Opens(offset);
            }
            let target = target_of(object, place, offset);
            jumped(object, table, target, known, true)
        }
    }
}

// A load of a block: if the observer sees the block's number, the number must be public.
fn load_block(known: &mut Known, slot: u8, bank: u8, register: u8) -> Ruling
    requires slot { slot < 8 }
    requires bank { bank < 255 }
    requires register { register < 32 }
    ensures rule { ruled result known.new ≡ refused_if (shows_block bank && is_secret known.old register)
        Reason.SecretAddress (rule.Falls (set_bank known.old slot bank)) }
    ensures kept { WhereItOpens result (known.new ≡ known.old) }
{
    if shows_block(bank) && known.is_secret(register) {
        return Ruling::Refused(Reason::SecretAddress);
    }
    known.set_bank(slot, bank);
    Ruling::Falls
}

// A store of a block: its bank must be known.
fn stored_block(known: &Known, slot: u8) -> Ruling
    requires { slot < 8 }
    ensures { ruled result known.now ≡ at_bank (bank_known known.now slot) (λ bank. rule.Falls known.now) }
{
    match known.bank(slot) {
        None => Ruling::Refused(Reason::UnboundSlot),
        Some(_) => Ruling::Falls,
    }
}

// The number of a block, which is public if the observer sees it.
fn name_block(known: &mut Known, register: u8, slot: u8) -> Ruling
    requires register { register < 32 }
    requires slot { slot < 8 }
    ensures rule { ruled result known.new ≡ at_bank (bank_known known.old slot)
        (λ bank. rule.Falls (set_secret known.old register (not (shows_block bank)))) }
    ensures kept { WhereItOpens result (known.new ≡ known.old) }
{
    match known.bank(slot) {
        None => Ruling::Refused(Reason::UnboundSlot),
        Some(_) => {
            known.label_block_number(register, slot);
            Ruling::Falls
        }
    }
}

// A load of a word: it is public if it is in plain memory and its place there isn't secret.
fn load_word(known: &mut Known, register: u8, slot: u8, offset: u8) -> Ruling
    requires register { register < 32 }
    requires slot { slot < 8 }
    requires offset { offset < 32 }
    ensures rule { ruled result known.new ≡ at_bank (bank_known known.old slot)
        (λ bank. rule.Falls (set_secret known.old register (not (is_ram bank) || is_secret known.old offset))) }
    ensures kept { WhereItOpens result (known.new ≡ known.old) }
{
    match known.bank(slot) {
        None => Ruling::Refused(Reason::UnboundSlot),
        Some(_) => {
            known.label_word(register, slot, offset);
            Ruling::Falls
        }
    }
}

// A store of a word: in plain memory the word and its place must be public.
fn stored_word(known: &Known, register: u8, slot: u8, offset: u8) -> Ruling
    requires register { register < 32 }
    requires slot { slot < 8 }
    requires offset { offset < 32 }
    ensures rule { ruled result known.now ≡ at_bank (bank_known known.now slot)
        (λ bank. refused_if (is_ram bank && (is_secret known.now register || is_secret known.now offset))
        Reason.SecretToRam (rule.Falls known.now)) }
{
    match known.bank(slot) {
        None => Ruling::Refused(Reason::UnboundSlot),
        Some(bank) => {
            if is_ram(bank) && known.either_secret(register, offset) {
                return Ruling::Refused(Reason::SecretToRam);
            }
            Ruling::Falls
        }
    }
}

// A jump: its target must be a place of the code with a note, and what is known must fit the note. A branch may fall
// through.
fn jumped(
    object: &Object,
    table: &[Option<u32>],
    target: usize,
    known: &Known,
    falls: bool,
) -> Ruling
    requires table { ServesNotes object.now.notes table.now }
    ensures { ruled result known.now
        ≡ jumped object.now target known.now (if falls then rule.Falls known.now else rule.Leaves) }
{
    if target >= object.code().len() {
        return Ruling::Refused(Reason::JumpOutside);
    }
    match claimed_at(object, table, target) {
        None => Ruling::Refused(Reason::NoNote),
        Some(claimed) => {
            if !known.fits(&claimed) {
                return Ruling::Refused(Reason::NoteTooLow);
            }
            if falls { Ruling::Falls } else { Ruling::Leaves }
        }
    }
}

/// What the note at a place of the code claims, or `None` if the place has no note.
#[tactic(auto, unfolding(trace_patterns::specs::Rules::claimed_at))]
pub fn claimed_at(object: &Object, table: &[Option<u32>], place: usize) -> Option<Known>
    requires table { ServesNotes object.now.notes table.now }
    ensures { result ≡ claimed_at object.now place }
{
    tables::claimed_at(object.notes(), table, place)
}
