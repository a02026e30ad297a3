//! What is known in public code after an instruction.

ghost use Rattle.std.specs.Prelude.{◌≡◌, ◌<◌, ◌||◌, not};
ghost use Rattle.lt_isa.specs.Prelude.{is_ram, InstrFits};
ghost use Rattle.trace_patterns.specs.Carried.{known_behind, slot_is_ram, slot_shows};
ghost use Rattle.trace_patterns.specs.Known.{bank_known, is_secret, set_secret};
ghost use Rattle.trace_patterns.specs.Rules.{shows_block};

use crate::known::Known;
use lt_isa::{BankKind, Instr, bank_kind};

/// What is known after an instruction, whether or not the check refuses it.
pub fn known_behind(known: &Known, instr: Instr, banks: usize) -> Known
    requires operands { InstrFits banks instr }
    requires banks { banks < 255 }
    ensures { result ≡ known_behind known.now instr }
{
    let mut next = known.copied();
    next.follow(instr, banks);
    next
}

impl Known {
    /// `self` becomes what is known after an instruction, whether or not the check refuses it.
    #[tactic(auto, unfolding(crate::specs::Carried::known_behind))]
    pub fn follow(&mut self, instr: Instr, banks: usize)
        requires operands { InstrFits banks instr }
        requires banks { banks < 255 }
        ensures { self.new ≡ known_behind self.old instr }
    {
        match instr {
            Instr::Li { rd, .. } => self.set_secret(rd, false),
            Instr::Alu { rd, ra, rb, .. } => self.label_operation(rd, ra, rb),
            Instr::Ldb { slot, bank, .. } => self.set_bank(slot, bank),
            Instr::Idb { rd, slot } => self.label_block_number(rd, slot),
            Instr::Ldw { rd, slot, off } => self.label_word(rd, slot, off),
            Instr::Nop => {}
            Instr::Halt => {}
            Instr::Stb { .. } => {}
            Instr::Stw { .. } => {}
            Instr::Jmp { .. } => {}
            Instr::Br { .. } => {}
        }
    }

    /// A register holds the value of an operation, which may be secret if one of the operands may be.
    pub fn label_operation(&mut self, register: u8, left: u8, right: u8)
        requires register { register < 32 }
        requires left { left < 32 }
        requires right { right < 32 }
        ensures { self.new ≡ set_secret self.old register (is_secret self.old left || is_secret self.old right) }
    {
        let secret = self.either_secret(left, right);
        self.set_secret(register, secret);
    }

    /// A register holds the number of a slot's block, which is public if the observer sees it.
    pub fn label_block_number(&mut self, register: u8, slot: u8)
        requires register { register < 32 }
        requires slot { slot < 8 }
        ensures { self.new ≡ set_secret self.old register (not (slot_shows (bank_known self.old slot))) }
    {
        let shows = slot_shows(self.bank(slot));
        self.set_secret(register, !shows);
    }

    /// A register holds a word of a slot, which is public if it is in plain memory and its place there isn't secret.
    pub fn label_word(&mut self, register: u8, slot: u8, place: u8)
        requires register { register < 32 }
        requires slot { slot < 8 }
        requires place { place < 32 }
        ensures { self.new
            ≡ set_secret self.old register (not (slot_is_ram (bank_known self.old slot)) || is_secret self.old place) }
    {
        let secret = !slot_is_ram(self.bank(slot)) || self.is_secret(place);
        self.set_secret(register, secret);
    }
}

// Whether the observer sees the number of a slot's block.
fn slot_shows(bank: Option<u8>) -> bool
    ensures { result ≡ slot_shows bank }
{
    match bank {
        None => false,
        Some(bank) => shows_block(bank),
    }
}

// Whether a slot is bound to plain memory.
fn slot_is_ram(bank: Option<u8>) -> bool
    ensures { result ≡ slot_is_ram bank }
{
    match bank {
        None => false,
        Some(bank) => is_ram(bank),
    }
}

/// Whether the observer sees the number of the block in an access to this bank.
pub fn shows_block(bank: u8) -> bool
    ensures { result ≡ shows_block bank }
{
    match bank_kind(bank) {
        BankKind::Plain => true,
        BankKind::Encrypted => true,
        BankKind::Oblivious => false,
    }
}

/// Whether a bank is plain memory.
pub fn is_ram(bank: u8) -> bool
    ensures { result ≡ is_ram bank }
{
    match bank_kind(bank) {
        BankKind::Plain => true,
        BankKind::Encrypted => false,
        BankKind::Oblivious => false,
    }
}
