ghost use Rattle.std.specs.Prelude.{◌≡◌, ◌≤◌, ℕ, List, Some, IfOk, OnOk, bytes_eq, if◌then◌else◌, length};
ghost use Rattle.gr_base.specs.Prelude.{found_under};
ghost use Rattle.block_cache_gen.specs.Settings.{four_slots, further_blocks, slot_from};
ghost use Rattle.block_cache_gen.specs.Variables.{variable_of};

use crate::pins::{is_pin_to, is_pinned};
use bank_alloc::Place;
use gr_base::Memory;
use gr_word::Label;
use held_registers::{Held, register_of_scalar};
use scratch_alloc::Pin;
use src_tree::Decl;
use std::alloc::Global;
use std::collections::BTreeMap;

/// What a name of a program refers to: a label, the place where the variable is stored, the slot that serves it, and
/// whether that slot holds one block for the whole run.
#[derive(Clone, Copy, Debug, PartialEq, Eq)]
pub(crate) struct Variable {
    pub label: Label,
    pub place: Place,
    pub slot: u8,
    pub resident: bool,
    /// How many further blocks slots hold for the whole run, and the slots of the four that follow the first block. The
    /// slots of those that aren't held mean nothing.
    pub further: u8,
    pub more: [u8; 4],
    /// The register that holds a scalar for the whole run.
    pub held: Option<u8>,
}

/// The variable of each name that is declared.
pub(crate) type Variables<'a> = BTreeMap<&'a [u8], Variable>;

/// What a name refers to; `None` for one that isn't declared.
pub(crate) fn variable_at<'a>(variables: &Variables<'a>, name: &'a [u8]) -> Option<Variable>
    ensures { result ≡ found_under variables.now name.now }
{
    variables.get(&name).copied()
}

// Adds a name, in place of what it referred to.
fn add_variable<'a>(
    variables: &mut Variables<'a>,
    name: &'a [u8],
    variable: Variable,
) -> Result<(), Memory>
    ensures { OnOk result ((x : List ℕ)
        → found_under variables.new x ≡ (if bytes_eq name.now x then Some variable else found_under variables.old x)) }
{
    match variables.insert(name, variable) {
        Ok(_) => Ok(()),
        Err(_) => Err(Memory),
    }
}

// The first slot that is pinned to a block; the number of slots if none is.
#[tactic(auto, using(crate::proofs::SlotSearch::slot_here, crate::proofs::SlotSearch::slot_later, crate::proofs::SlotSearch::slot_none))]
fn slot_from(pins: &[Option<Pin>], bank: u8, block: u64) -> u8
    requires { length pins.now ≤ 8 }
    ensures { result ≡ slot_from 0 pins.now bank block }
{
    for (slot, pin) in pins.iter().enumerate() {
        if is_pin_to(*pin, bank, block) {
            return slot as u8;
        }
    }
    pins.len() as u8
}

// How many blocks follow the first block of a place, up to four, if a slot holds that one for the whole run.
fn further_blocks(pins: &[Option<Pin>], w: u8, place: Place, slot: u8) -> u8
    requires { w ≤ 9 }
    ensures count { result ≡ further_blocks pins.now w place slot }
    ensures few { result ≤ 4 }
{
    if !is_pinned(pins, slot) {
        return 0;
    }
    let size = 1_u64 << w;
    let blocks = (u64::from(place.length) + (size - 1)) / size;
    blocks.saturating_sub(1).min(4) as u8
}

// The slots of the four blocks that follow the first block of a place.
fn four_slots(pins: &[Option<Pin>], place: Place) -> [u8; 4]
    requires { length pins.now ≤ 8 }
    ensures { result ≡ four_slots pins.now place }
{
    let block = u64::from(place.block);
    [
        slot_from(pins, place.bank, block + 1),
        slot_from(pins, place.bank, block + 2),
        slot_from(pins, place.bank, block + 3),
        slot_from(pins, place.bank, block + 4),
    ]
}

/// The variables of declarations, each with its place and its slot. The first declaration of a name counts. The only
/// error is running out of memory.
pub(crate) fn gather<'a>(
    alloc: Global,
    decls: &'a [Decl],
    places: &[Place],
    slots: &[u8],
    pins: &[Option<Pin>],
    w: u8,
    held: &[Held],
) -> Result<Variables<'a>, Memory>
    requires places { length places.now ≡ length decls.now }
    requires slots { length slots.now ≡ length decls.now }
    requires few { length decls.now ≤ 256 }
    requires pins { length pins.now ≤ 8 }
    requires block_log { w ≤ 9 }
    requires held { length held.now ≤ 13 }
    ensures { IfOk result
        (λ variables. (x : List ℕ) → found_under variables x ≡ variable_of pins.now w held.now 0 decls.now places.now slots.now x) }
{
    let mut variables = BTreeMap::new(alloc);
    // from the last, so that the first of a name stays
    let mut left = decls.len();
    while left > 0 {
        left -= 1;
        let decl = &decls[left];
        let variable = Variable {
            label: decl.label,
            place: places[left],
            slot: slots[left],
            resident: is_pinned(pins, slots[left]),
            further: further_blocks(pins, w, places[left], slots[left]),
            more: four_slots(pins, places[left]),
            held: register_of_scalar(held, left as u32),
        };
        add_variable(&mut variables, decl.name.bytes(), variable)?;
    }
    Ok(variables)
}
