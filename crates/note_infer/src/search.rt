// The search for the least states: places that wait are looked at until none does.
ghost use Rattle.std.specs.Prelude.{◌≡◌, ◌<◌, ℕ, IfOk, OnOk, [], length, None, slice_index_or};
ghost use Rattle.std.specs.List.{Contains};
ghost use Rattle.lt_isa.specs.Prelude.{IsInRange};
ghost use Rattle.note_infer.specs.Least.{MayJoin};
ghost use Rattle.note_infer.specs.Brings.{LoopHolds, at_places};
ghost use Rattle.note_infer.specs.Growth.{HasLeast};
ghost use Rattle.note_infer.specs.Kept.{ListsJoiners};

use crate::crossed::Crossed;
use crate::joiners::Joiners;
use crate::joining::candidate_at;
use crate::looks::look_at;
use gr_word::Memory;
use lt_isa::Object;
use region_walk::RegionValues;
use std::alloc::Global;
use trace_patterns::Known;

/// The least states under some branches that are crossed, with the branches that may join them.
pub fn least_states(
    alloc: Global,
    object: &Object,
    crossed: &Crossed,
    shared: &mut RegionValues,
    joiners: &mut Joiners,
) -> Result<Vec<Option<Known>>, Memory>
    requires range { IsInRange object.now }
    requires bare { object.now.notes ≡ [] }
    ensures least { IfOk result (λ states. HasLeast object.now crossed.now.list states.items) }
    ensures joiners { IfOk result
        (λ states. ListsJoiners object.now crossed.now.list states.items [] joiners.new) }
{
    match nothing_known(alloc, object.code().len()) {
        Err(_) => Err(Memory),
        Ok(empty) => {
            let mut states = empty;
            let mut stack = Vec::new(alloc);
            states[0] = Some(Known::start());
            match stack.push(0u32) {
                Err(_) => Err(Memory),
                Ok(()) => {
                    match raise_all(
                        alloc,
                        object,
                        crossed,
                        shared,
                        &mut states,
                        &mut stack,
                        joiners,
                    ) {
                        Err(_) => Err(Memory),
                        Ok(()) => Ok(states),
                    }
                }
            }
        }
    }
}

// Nothing is known at this many places.
fn nothing_known(alloc: Global, count: usize) -> Result<Vec<Option<Known>>, Memory>
    ensures size { IfOk result (λ states. length states.items ≡ count) }
    ensures nothing { IfOk result (λ states. (p : ℕ) → slice_index_or states.items p None ≡ None) }
{
    let mut states = Vec::new(alloc);
    'filling: while states.len() < count {
        match states.push(None) {
            Err(_) => return Err(Memory),
            Ok(()) => {}
        }
    }
    Ok(states)
}

/// Raises states until they are the least. Each branch is listed that may join then.
#[tactic(auto, using(crate::proofs::JoinersListed::listed_ended))]
pub fn raise_all(
    alloc: Global,
    object: &Object,
    crossed: &Crossed,
    shared: &mut RegionValues,
    states: &mut [Option<Known>],
    stack: &mut Vec<u32>,
    joiners: &mut Joiners,
) -> Result<(), Memory>
    requires range { IsInRange object.now }
    requires bare { object.now.notes ≡ [] }
    requires holds { LoopHolds object.now crossed.now.list states.old stack.old.items }
    requires listed { ListsJoiners object.now crossed.now.list states.old stack.old.items joiners.old }
    ensures holds { OnOk result (LoopHolds object.now crossed.now.list states.new []) }
    ensures listed { OnOk result (ListsJoiners object.now crossed.now.list states.new [] joiners.new) }
{
    'looking: while let Some(place) = stack.pop() {
        match list_joiner(object, crossed, states, place, joiners) {
            Err(_) => return Err(Memory),
            Ok(()) => {}
        }
        match look_at(alloc, object, crossed, shared, states, stack, place) {
            Err(_) => return Err(Memory),
            Ok(()) => {}
        }
    }
    Ok(())
}

// Lists the branch at a place, if it may join.
#[tactic(auto, using(crate::proofs::JoinersListed::listed_keeps, crate::proofs::JoinersListed::listed_here))]
fn list_joiner(
    object: &Object,
    crossed: &Crossed,
    states: &[Option<Known>],
    place: u32,
    joiners: &mut Joiners,
) -> Result<(), Memory>
    requires range { IsInRange object.now }
    requires size { length states.now ≡ length object.now.code }
    requires inside { place < length states.now }
    ensures keeps { OnOk result ((q : ℕ) → Contains joiners.old q → Contains joiners.new q) }
    ensures here { OnOk result (MayJoin object.now crossed.now.list (at_places states.now) place
        → Contains joiners.new place) }
{
    match candidate_at(object, crossed, states, place) {
        None => Ok(()),
        Some(_) => joiners.push(place),
    }
}
