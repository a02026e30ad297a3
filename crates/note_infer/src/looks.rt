// One place is looked at: what its ways carry is brought to their ends.
ghost use Rattle.std.specs.Prelude.{◌<◌, ◌≡◌, ◌^◌, OnOk, Some, None, true, false, [], length, slice_get, slice_index_or};
ghost use Rattle.lt_isa.specs.Prelude.{IsInRange, InstrFits, IsOffset};
ghost use Rattle.trace_patterns.specs.Prelude.{only_goes_on};
ghost use Rattle.region_walk.specs.Prelude.{BranchStands};
ghost use Rattle.note_infer.specs.Ways.{is_crossed};
ghost use Rattle.note_infer.specs.Least.{IsFull};
ghost use Rattle.note_infer.specs.Brings.{AllFull, BringsInside, IsAt, Looks};

use crate::brings::bring;
use crate::crossed::Crossed;
use gr_word::Memory;
use lt_isa::instruction_table::target_of;
use lt_isa::{Instr, Object};
use region_walk::{Carried, NextStep, RegionValues, carry, next_step_of};
use std::alloc::Global;
use trace_patterns::{Known, known_behind};

/// A place that is looked at, and what is known there.
#[derive(Clone, Copy)]
pub struct Spot<'a> {
    pub object: &'a Object,
    pub crossed: &'a Crossed,
    pub place: u32,
    pub known: &'a Known,
}

/// Brings what is known to a place, if it is one of the code.
#[tactic(auto, using(crate::proofs::Looking::full_at))]
pub fn bring_inside(
    states: &mut [Option<Known>],
    stack: &mut Vec<u32>,
    place: usize,
    next: Known,
) -> Result<(), Memory>
    requires few { length states.old < 2 ^ 32 }
    requires full { AllFull states.old }
    requires next { IsFull next }
    ensures { OnOk result (BringsInside states.old stack.old.items place next states.new stack.new.items) }
{
    if place < states.len() {
        bring(states, stack, place as u32, next)
    } else {
        Ok(())
    }
}

/// Looks at a place whose instruction only continues: what is known after it is brought to the next place.
pub fn look_on(
    spot: Spot,
    states: &mut [Option<Known>],
    stack: &mut Vec<u32>,
    instr: Instr,
) -> Result<(), Memory>
    requires spot { IsAt spot states.old }
    requires code { slice_get spot.object.now.code spot.place ≡ Some instr }
    requires goes { only_goes_on instr ≡ true }
    ensures { OnOk result (Looks spot.entry.object.now spot.entry.crossed.now.list spot.entry.place states.old
        stack.old.items states.new stack.new.items) }
{
    let next = known_behind(spot.known, instr, spot.object.banks().len());
    bring_inside(states, stack, spot.place as usize + 1, next)
}

/// Looks at a place whose instruction jumps.
pub fn look_jump(
    spot: Spot,
    states: &mut [Option<Known>],
    stack: &mut Vec<u32>,
    offset: i32,
) -> Result<(), Memory>
    requires spot { IsAt spot states.old }
    requires code { slice_get spot.object.now.code spot.place ≡ Some (Instr.Jmp offset) }
    ensures { OnOk result (Looks spot.entry.object.now spot.entry.crossed.now.list spot.entry.place states.old
        stack.old.items states.new stack.new.items) }
{
    let target = target_of(spot.object, spot.place as usize, offset);
    bring_inside(states, stack, target, spot.known.copied())
}

/// Looks at a place whose branch isn't crossed.
pub fn look_branch(
    spot: Spot,
    states: &mut [Option<Known>],
    stack: &mut Vec<u32>,
    offset: i32,
) -> Result<(), Memory>
    requires spot { IsAt spot states.old }
    requires code { BranchStands spot.object.now spot.place offset }
    requires apart { is_crossed spot.crossed.now.list spot.place ≡ false }
    ensures { OnOk result (Looks spot.entry.object.now spot.entry.crossed.now.list spot.entry.place states.old
        stack.old.items states.new stack.new.items) }
{
    let target = target_of(spot.object, spot.place as usize, offset);
    match bring_inside(states, stack, spot.place as usize + 1, spot.known.copied()) {
        Err(_) => Err(Memory),
        Ok(()) => bring_inside(states, stack, target, spot.known.copied()),
    }
}

/// Looks at a place whose branch is crossed.
pub fn look_over(
    alloc: Global,
    spot: Spot,
    shared: &mut RegionValues,
    states: &mut [Option<Known>],
    stack: &mut Vec<u32>,
    offset: i32,
) -> Result<(), Memory>
    requires spot { IsAt spot states.old }
    requires bare { spot.object.now.notes ≡ [] }
    requires code { BranchStands spot.object.now spot.place offset }
    requires offset { IsOffset offset }
    requires among { is_crossed spot.crossed.now.list spot.place ≡ true }
    ensures { OnOk result (Looks spot.entry.object.now spot.entry.crossed.now.list spot.entry.place states.old
        stack.old.items states.new stack.new.items) }
{
    match carry(alloc, spot.object, shared, spot.known, spot.place, offset) {
        Carried::Memory => Err(Memory),
        Carried::Unshaped => Ok(()),
        Carried::Joins { join, known: next } => bring_inside(states, stack, join as usize, next),
    }
}

/// Looks at a place that has this instruction and this state.
#[tactic(auto, using(crate::proofs::Looking::looks_halt_at, crate::proofs::Looking::branches_at, crate::proofs::Looking::jumps_at))]
pub fn look_by(
    alloc: Global,
    spot: Spot,
    shared: &mut RegionValues,
    states: &mut [Option<Known>],
    stack: &mut Vec<u32>,
    instr: Instr,
) -> Result<(), Memory>
    requires spot { IsAt spot states.old }
    requires bare { spot.object.now.notes ≡ [] }
    requires code { slice_get spot.object.now.code spot.place ≡ Some instr }
    ensures { OnOk result (Looks spot.entry.object.now spot.entry.crossed.now.list spot.entry.place states.old
        stack.old.items states.new stack.new.items) }
{
    match next_step_of(instr) {
        NextStep::Goes => look_on(spot, states, stack, instr),
        NextStep::Halts => Ok(()),
        NextStep::Jumps(offset) => look_jump(spot, states, stack, offset),
        NextStep::Branches(offset) => {
            if spot.crossed.has(spot.place) {
                look_over(alloc, spot, shared, states, stack, offset)
            } else {
                look_branch(spot, states, stack, offset)
            }
        }
    }
}

/// Looks at a place.
#[tactic(auto, using(crate::proofs::Looking::looks_none))]
pub fn look_at(
    alloc: Global,
    object: &Object,
    crossed: &Crossed,
    shared: &mut RegionValues,
    states: &mut [Option<Known>],
    stack: &mut Vec<u32>,
    place: u32,
) -> Result<(), Memory>
    requires range { IsInRange object.now }
    requires bare { object.now.notes ≡ [] }
    requires size { length states.old ≡ length object.now.code }
    requires inside { place < length states.old }
    requires full { AllFull states.old }
    ensures { OnOk result (Looks object.now crossed.now.list place states.old stack.old.items states.new
        stack.new.items) }
{
    match copy_at(states, place as usize) {
        None => Ok(()),
        Some(known) => {
            let instr = object.code()[place as usize];
            let spot = Spot {
                object,
                crossed,
                place,
                known: &known,
            };
            look_by(alloc, spot, shared, states, stack, instr)
        }
    }
}

/// What is known at a place.
pub fn copy_at(states: &[Option<Known>], place: usize) -> Option<Known>
    requires { place < length states.now }
    ensures { result ≡ slice_index_or states.now place None }
{
    match &states[place] {
        None => None,
        Some(known) => Some(known.copied()),
    }
}
