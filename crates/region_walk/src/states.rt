ghost use Rattle.std.specs.Prelude.{◌≡◌, ◌<◌, ◌^◌, ◌-◌, ℕ, length, if◌then◌else◌, None, Some, IfSome};
ghost use Rattle.region_walk.specs.Slots.{IsCommonOf, bank_of};
ghost use Rattle.symbolic_values.specs.Prelude.{Reg};
ghost use Rattle.region_walk.specs.Entries.{HasEntries, IsEntryNumber, IsEntrySlot};

use crate::held_numbers::HeldNumber;
use crate::kinds::{is_oblivious, is_plain};
use crate::region_values::EntryTable;
use trace_patterns::Known;

/// The origin of the words of a slot that is bound to plain memory.
#[derive(Clone, Copy, Debug, PartialEq, Eq)]
pub enum Origin {
    /// A slot at the entry.
    Entry(u8),
    /// A load since the entry.
    Loaded,
}

/// What is known about a slot. Numbers are those of one table of values.
#[derive(Clone, Copy, Debug, PartialEq, Eq)]
pub enum Slot {
    /// It may be bound to any bank, or to none.
    Any,
    /// It is bound to a block of plain memory.
    Ram(u32, Origin),
    /// It is bound to a block of encrypted memory.
    Eram(u32),
    /// It is bound to an oblivious bank.
    Oram(u8),
}

/// What is known in a region: for each register the number of its value, if it is known, and for each slot to what it
/// is bound.
#[derive(Clone, Copy, Debug)]
pub struct RegionState {
    pub registers: [HeldNumber; 32],
    pub slots: [Slot; 8],
}

impl RegionState {
    ghost use Rattle.region_walk.specs.States.{with_number, with_known_slot, number_in, slot_at};

    /// The number of a register's value, if it is known.
    pub fn number(&self, register: u8) -> Option<u32>
        requires { register < 32 }
        ensures { result ≡ number_in self.now register }
    {
        self.registers[register as usize].number()
    }

    /// What is known about a slot.
    pub fn slot(&self, slot: u8) -> Slot
        requires { slot < 8 }
        ensures { result ≡ slot_at self.now slot }
    {
        self.slots[slot as usize]
    }

    /// Gives a register another value, or one that isn't known.
    pub fn hold(&mut self, register: u8, number: Option<u32>)
        requires register { register < 32 }
        requires small { IfSome number (λ n. n < 2 ^ 32 - 1) }
        ensures { self.new ≡ with_number self.old register number }
    {
        self.registers[register as usize] = HeldNumber::of(number);
    }

    /// Binds a slot.
    pub fn bind(&mut self, slot: u8, bound: Slot)
        requires { slot < 8 }
        ensures { self.new ≡ with_known_slot self.old slot bound }
    {
        self.slots[slot as usize] = bound;
    }
}

impl RegionState {
    ghost use Rattle.region_walk.specs.States.{IsCommon};

    /// Keeps only what another state also knows: the same values, and slots that are bound alike.
    pub fn keep_common(&mut self, other: &RegionState)
        ensures { IsCommon self.old other.now self.new }
    {
        // A copy is apart from the state, so that several registers can be compared at once.
        let theirs = other.registers;
        for register in 0..32usize {
            self.registers[register] = self.registers[register].common(theirs[register]);
        }
        for slot in 0..8usize {
            keep_common_slot(&mut self.slots[slot], other.slots[slot]);
        }
    }
}

// Keeps what is known of a slot only if another state knows the same of it. A slot that is kept isn't written.
#[inline(always)]
fn keep_common_slot(ours: &mut Slot, theirs: Slot)
    ensures { IsCommonOf Slot.Any ours.old theirs ours.new }
{
    if *ours == theirs {
        return;
    }
    *ours = Slot::Any;
}

impl RegionState {
    ghost use Rattle.region_walk.specs.States.{known_of, number_in, slot_at};
    ghost use Rattle.region_walk.specs.Entries.{HasEntries, IsAtEntry, HoldsEntry, BindsEntry};

    /// What is known at the entry of a region: a public register holds what it holds there, and a slot is bound to the
    /// bank that is known.
    pub fn at_entry(table: &EntryTable, known: &Known) -> RegionState
        requires entries { HasEntries table.now }
        ensures { IsAtEntry known.now table.now.values result }
    {
        let mut state = RegionState::unknown();
        state.hold_entry(table, known);
        state.bind_entry(table, known);
        state
    }

    // A state in which nothing is known.
    fn unknown() -> RegionState
        ensures registers { (r : ℕ) → number_in result r ≡ None }
        ensures slots { (k : ℕ) → slot_at result k ≡ Slot.Any }
        ensures register_count { length result.registers ≡ 32 }
        ensures slot_count { length result.slots ≡ 8 }
    {
        RegionState {
            registers: [HeldNumber::none(); 32],
            slots: [Slot::Any; 8],
        }
    }

    // Each public register holds what it holds at the entry.
    fn hold_entry(&mut self, table: &EntryTable, known: &Known)
        requires entries { HasEntries table.now }
        requires size { length self.old.registers ≡ 32 }
        requires nothing { (r : ℕ) → number_in self.old r ≡ None }
        ensures { HoldsEntry 32 known.now table.now.values self.old self.new }
    {
        for register in 0..32u8 {
            self.hold(
                register,
                entry_number(table, known.is_secret(register), register),
            );
        }
    }

    // Each slot is bound to the bank that is known.
    fn bind_entry(&mut self, table: &EntryTable, known: &Known)
        requires entries { HasEntries table.now }
        requires size { length self.old.slots ≡ 8 }
        requires nothing { (k : ℕ) → slot_at self.old k ≡ Slot.Any }
        ensures { BindsEntry 8 known.now table.now.values self.old self.new }
    {
        for slot in 0..8u8 {
            self.bind(slot, entry_slot(table, known.bank(slot), slot));
        }
    }

    /// What is known after the region, in public code: a register whose value is known is public, and slots keep their
    /// banks.
    pub fn known_after(&self) -> Known
        requires { (k : ℕ) → IfSome (bank_of (slot_at self.now k)) (λ bank. bank < 255) }
        ensures { result ≡ known_of self.now }
    {
        let mut known = Known::start();
        for register in 0..32u8 {
            known.set_secret(register, self.number(register).is_none());
        }
        for slot in 0..8u8 {
            if let Some(bank) = self.slot(slot).bank() {
                known.set_bank(slot, bank);
            }
        }
        known
    }
}

impl Slot {
    ghost use Rattle.region_walk.specs.Slots.{bank_of};

    // The bank to which the slot is bound, if it is known.
    fn bank(self) -> Option<u8>
        ensures { result ≡ bank_of self }
    {
        match self {
            Slot::Any => None,
            Slot::Ram(_, _) => Some(0),
            Slot::Eram(_) => Some(1),
            Slot::Oram(bank) => Some(bank),
        }
    }
}

// What a register holds at the entry, if it is public. The number is read in any case, so that no branch is needed.
fn entry_number(table: &EntryTable, secret: bool, register: u8) -> Option<u32>
    requires entries { HasEntries table.now }
    requires register { register < 32 }
    ensures { IsEntryNumber (if secret then None else Some (Reg register)) table.now.values result }
{
    let number = table.registers[register as usize];
    if secret { None } else { Some(number) }
}

// What a slot is bound to at the entry, if its bank is known.
fn entry_slot(table: &EntryTable, bank: Option<u8>, slot: u8) -> Slot
    requires entries { HasEntries table.now }
    requires slot { slot < 8 }
    requires told { IfSome bank (λ b. b < 255) }
    ensures { IsEntrySlot bank slot table.now.values result }
{
    match bank {
        None => Slot::Any,
        Some(bank) => {
            if is_oblivious(bank) {
                return Slot::Oram(bank);
            }
            let block = table.slots[slot as usize];
            if is_plain(bank) {
                Slot::Ram(block, Origin::Entry(slot))
            } else {
                Slot::Eram(block)
            }
        }
    }
}
