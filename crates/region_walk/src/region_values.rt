ghost use Rattle.std.specs.Prelude.{◌≡◌, ◌+◌, ◌^◌, ◌<◌, None, length, IfOk};
ghost use Rattle.symbolic_values.specs.Prelude.{IsTable, Reg, SlotAt};
ghost use Rattle.region_walk.specs.Entries.{Numbers, HasEntries, BeginsWithEntries};

use crate::numbers::number_for;
use gr_base::Memory;
use lt_isa::Object;
use std::alloc::Global;
use std::marker::Model;
use symbolic_values::{Node, Values};

/// A table of values with numbers for what is known at an entry: what each register holds there, and the block to which
/// each slot is bound.
#[derive(Drop)]
pub struct EntryTable {
    pub values: Values,
    pub registers: [u32; 32],
    pub slots: [u32; 8],
}

/// The table of values for the regions of an object, which use its memory in sequence. It is made when the first region
/// is walked, so that an object without regions doesn't pay for it. It changes no result. It is on the heap, so that
/// only a pointer is moved out and back.
#[derive(Drop)]
pub struct RegionValues {
    kept: Option<Box<EntryTable>>,
}

impl Model for RegionValues {
    ghost use Rattle.std.specs.Prelude.{Option, IfSome};
    ghost use Rattle.std.specs.Option.{option_map};
    ghost use Rattle.region_walk.specs.declared.region_values.EntryTable.{EntryTable as Table};
    ghost use Rattle.region_walk.specs.Entries.{HasEntries};

    ghost Value = { Option Table };

    ghost view = { λ v. option_map (λ table. table.value) v.kept };

    ghost invariant = { λ v. IfSome v.kept (λ table. HasEntries table.value) };
}

impl RegionValues {
    /// No table yet.
    pub fn new() -> RegionValues
        ensures { result ≡ None }
    {
        RegionValues { kept: None }
    }

    // Moves the table out. It has only the values of an entry.
    pub(crate) fn take(&mut self, alloc: Global, object: &Object) -> Result<Box<EntryTable>, Memory>
        ensures { IfOk result (λ table. HasEntries table.value) }
    {
        match self.kept.take() {
            Some(table) => Ok(table),
            None => entry_table(alloc, object),
        }
    }

    // Keeps a table for the next region.
    pub(crate) fn give_back(&mut self, table: Box<EntryTable>)
        requires { HasEntries table.value }
    {
        self.kept = Some(table);
    }
}

impl EntryTable {
    // Keeps the first `count` nodes, which are those of an entry.
    pub(crate) fn keep_entries(&mut self, count: u32)
        requires { BeginsWithEntries count self.old }
        ensures { HasEntries self.new }
    {
        self.values.keep(count);
    }
}

// A table with only the values of an entry, for the regions of this object.
fn entry_table(alloc: Global, object: &Object) -> Result<Box<EntryTable>, Memory>
    ensures { IfOk result (λ table. HasEntries table.value) }
{
    let mut values = Values::for_code(alloc, object.code());
    let registers = match register_numbers(&mut values) {
        Err(_) => return Err(Memory),
        Ok(numbers) => numbers,
    };
    let slots = match slot_numbers(&mut values) {
        Err(_) => return Err(Memory),
        Ok(numbers) => numbers,
    };
    let table = EntryTable {
        values,
        registers,
        slots,
    };
    match Box::new(alloc, table) {
        Err(_) => Err(Memory),
        Ok(boxed) => Ok(boxed),
    }
}

// The numbers of what registers hold at the entry.
fn register_numbers(values: &mut Values) -> Result<[u32; 32], Memory>
    requires table { IsTable values.old }
    requires room { length values.old + 40 < 2 ^ 32 }
    ensures { IfOk result (λ numbers. Numbers 32 Reg values.old values.new numbers) }
{
    let mut numbers = [0u32; 32];
    for register in 0..32u8 {
        match number_for(values, Node::Reg(register)) {
            Err(_) => return Err(Memory),
            Ok(number) => numbers[register as usize] = number,
        }
    }
    Ok(numbers)
}

// The numbers of the blocks to which slots are bound at the entry.
fn slot_numbers(values: &mut Values) -> Result<[u32; 8], Memory>
    requires table { IsTable values.old }
    requires room { length values.old + 8 < 2 ^ 32 }
    ensures { IfOk result (λ numbers. Numbers 8 SlotAt values.old values.new numbers) }
{
    let mut numbers = [0u32; 8];
    for slot in 0..8u8 {
        match number_for(values, Node::SlotAt(slot)) {
            Err(_) => return Err(Memory),
            Ok(number) => numbers[slot as usize] = number,
        }
    }
    Ok(numbers)
}
