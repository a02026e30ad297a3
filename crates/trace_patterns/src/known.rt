ghost use Rattle.std.specs.Prelude.{◌≡◌, ◌<◌, ◌||◌, IfSome};
ghost use Rattle.trace_patterns.specs.Known.{is_secret, bank_known, set_secret, set_bank, start_known, note_known, claimed_bank, bank_fits, registers_fit, slots_fit, fits};

use lt_isa::Note;
use lt_isa::ranges::ANY_BANK;
use std::marker::Model;

/// What is known at a place of the code, for any secrets. Contracts see it as a label for each register and, for each
/// slot, the bank to which it is bound, if that is known.
#[derive(Debug, Drop)]
pub struct Known {
    // Bit r is set if register r may hold a secret.
    secrets: u32,
    // For each slot the number of its bank, or 255 if that isn't known.
    slots: [u8; 8],
}

impl Model for Known {
    ghost use Rattle.trace_patterns.specs.Known as labels;

    ghost Value = { labels.Known };

    ghost view = { λ k. record { secret = labels.marks 32 k.secrets; banks = labels.claims 8 k.slots } };
}

impl Known {
    /// What is known at the start: every register is public, and no slot's bank is known.
    pub fn start() -> Known
        ensures { result ≡ start_known }
    {
        Known {
            secrets: 0,
            slots: [ANY_BANK; 8],
        }
    }

    /// What a note claims.
    pub fn of_note(note: &Note) -> Known
        ensures { result ≡ note_known note.now }
    {
        Known {
            secrets: note.secrets,
            slots: note.slots,
        }
    }

    /// The note at place `pc` that claims exactly this.
    pub fn note(&self, pc: u32) -> Note
        ensures place { result.pc ≡ pc }
        ensures claim { note_known result ≡ self.now }
    {
        Note {
            pc,
            secrets: self.secrets,
            slots: self.slots,
        }
    }

    /// Whether a register may hold a secret.
    pub fn is_secret(&self, register: u8) -> bool
        requires { register < 32 }
        ensures { result ≡ is_secret self.now register }
    {
        (self.secrets >> register) & 1 == 1
    }

    /// Whether one of two registers may hold a secret.
    pub fn either_secret(&self, first: u8, second: u8) -> bool
        requires first { first < 32 }
        requires second { second < 32 }
        ensures { result ≡ (is_secret self.now first || is_secret self.now second) }
    {
        self.is_secret(first) || self.is_secret(second)
    }

    /// The bank to which a slot is bound, if it is known.
    pub fn bank(&self, slot: u8) -> Option<u8>
        requires { slot < 8 }
        ensures bank { result ≡ bank_known self.now slot }
        ensures told { IfSome result (λ bank. bank < 255) }
    {
        claimed_bank(self.slots[slot as usize])
    }

    /// Sets the label of a register.
    pub fn set_secret(&mut self, register: u8, secret: bool)
        requires { register < 32 }
        ensures { self.new ≡ set_secret self.old register secret }
    {
        let bit = 1u32 << register;
        if secret {
            self.secrets |= bit;
        } else {
            self.secrets &= !bit;
        }
    }

    /// Binds a slot to a bank.
    pub fn set_bank(&mut self, slot: u8, bank: u8)
        requires slot { slot < 8 }
        requires bank { bank < 255 }
        ensures { self.new ≡ set_bank self.old slot bank }
    {
        self.slots[slot as usize] = bank;
    }

    /// A copy.
    pub fn copied(&self) -> Known
        ensures { result ≡ self.now }
    {
        Known {
            secrets: self.secrets,
            slots: self.slots,
        }
    }

    /// Whether what is known fits a claim: the claim marks each register that may hold a secret, and each slot is bound
    /// to the bank that the claim names for it, if it names one.
    pub fn fits(&self, claimed: &Known) -> bool
        ensures { result ≡ fits self.now claimed.now }
    {
        self.registers_fit(claimed) && self.slots_fit(claimed)
    }

    fn registers_fit(&self, claimed: &Known) -> bool
        ensures { result ≡ registers_fit 32 self.now claimed.now }
    {
        self.secrets & !claimed.secrets == 0
    }

    fn slots_fit(&self, claimed: &Known) -> bool
        ensures { result ≡ slots_fit 8 self.now claimed.now }
    {
        for slot in 0..8u8 {
            if !bank_fits(self.bank(slot), claimed.bank(slot)) {
                return false;
            }
        }
        true
    }
}

fn bank_fits(known: Option<u8>, claimed: Option<u8>) -> bool
    ensures { result ≡ bank_fits known claimed }
{
    match (known, claimed) {
        (_, None) => true,
        (None, Some(_)) => false,
        (Some(bank), Some(claim)) => bank == claim,
    }
}

fn claimed_bank(claim: u8) -> Option<u8>
    ensures { result ≡ claimed_bank claim }
{
    if claim == ANY_BANK { None } else { Some(claim) }
}
