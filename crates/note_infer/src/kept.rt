// One more branch joins: the states that stay as they are, and those that are searched again.
ghost use Rattle.std.specs.Prelude.{◌≡◌, ◌<◌, ◌≤◌, ◌∷◌, [], true, false, ℕ, List, Option, None, length, IfOk, OnOk, slice_index_or};
ghost use Rattle.lt_isa.specs.Prelude.{IsInRange};
ghost use Rattle.trace_patterns.specs.Prelude.{Known};
ghost use Rattle.note_infer.specs.Ways.{is_crossed};
ghost use Rattle.note_infer.specs.Brings.{LoopHolds};
ghost use Rattle.note_infer.specs.Growth.{HasLeast, IsLowestToJoin};
ghost use Rattle.note_infer.specs.Kept.{TellsOrigins, LinksFall, LedFromWithin, IsReadOf, KnowsBlockAt, IsApart, IsAwaiting, IsWithout, ListsJoiners, ListsOthers};

use crate::crossed::Crossed;
use crate::joiners::Joiners;
use crate::joining::Joining;
use crate::origins::{Origins, await_origins, is_entered};
use crate::search::{least_states, raise_all};
use gr_word::Memory;
use lt_isa::{Instr, Object};
use region_walk::RegionValues;
use std::alloc::Global;
use trace_patterns::Known;

/// Crosses one more branch, the lowest that may join, and returns the least states with all branches that are crossed
/// then. States outside its region stay as they are if the region is apart; otherwise the search begins anew.
pub fn join_next(
    alloc: Global,
    object: &Object,
    crossed: &mut Crossed,
    shared: &mut RegionValues,
    origins: &Origins,
    states: Vec<Option<Known>>,
    joiners: &mut Joiners,
    found: Joining,
) -> Result<Vec<Option<Known>>, Memory>
    requires range { IsInRange object.now }
    requires bare { object.now.notes ≡ [] }
    requires origins { TellsOrigins object.now origins.now.last.items origins.now.before.items }
    requires size { crossed.old.size ≡ length object.now.code }
    requires least { HasLeast object.now crossed.old.list states.items }
    requires lowest { IsLowestToJoin object.now crossed.old.list states.items found.place found.join }
    requires others { ListsOthers object.now crossed.old.list states.items joiners.old found.place }
    ensures joined { OnOk result
        (crossed.new ≡ record { size = crossed.old.size; list = found.place ∷ crossed.old.list }) }
    ensures least { IfOk result (λ next. HasLeast object.now (found.place ∷ crossed.old.list) next.items) }
    ensures joiners { IfOk result
        (λ next. ListsJoiners object.now (found.place ∷ crossed.old.list) next.items [] joiners.new) }
{
    let apart = stands_apart(object, crossed, &states, origins, found.place, found.join);
    match crossed.join(found.place) {
        Err(_) => return Err(Memory),
        Ok(()) => {}
    }
    if apart {
        kept_states(
            alloc, object, crossed, shared, origins, states, joiners, found,
        )
    } else {
        *joiners = Joiners::new(alloc);
        least_states(alloc, object, crossed, shared, joiners)
    }
}

// The same, where what is kept is under way again once the states in the region are forgotten: the branch waits, and
// each place that leads into the region from outside.
fn kept_states(
    alloc: Global,
    object: &Object,
    crossed: &Crossed,
    shared: &mut RegionValues,
    origins: &Origins,
    states: Vec<Option<Known>>,
    joiners: &mut Joiners,
    found: Joining,
) -> Result<Vec<Option<Known>>, Memory>
    requires range { IsInRange object.now }
    requires bare { object.now.notes ≡ [] }
    requires before { found.place < found.join }
    requires inside { found.join ≤ length states.items }
    requires origins { TellsOrigins object.now origins.now.last.items origins.now.before.items }
    requires size { length states.items ≡ length object.now.code }
    requires begins { (after : List (Option Known)) → (stack : List ℕ)
        → IsWithout found.place found.join states.items after
        → IsAwaiting origins.now.last.items origins.now.before.items found.place found.join stack
        → LoopHolds object.now crossed.now.list after stack }
    requires listed { (after : List (Option Known)) → (stack : List ℕ)
        → IsWithout found.place found.join states.items after
        → IsAwaiting origins.now.last.items origins.now.before.items found.place found.join stack
        → ListsJoiners object.now crossed.now.list after stack joiners.old }
    ensures least { IfOk result (λ next. HasLeast object.now crossed.now.list next.items) }
    ensures joiners { IfOk result (λ next. ListsJoiners object.now crossed.now.list next.items [] joiners.new) }
{
    let mut kept = states;
    forget_within(&mut kept, found.place, found.join);
    match awaited(alloc, origins, found.place, found.join) {
        Err(_) => Err(Memory),
        Ok(waiting) => {
            let mut stack = waiting;
            match raise_all(
                alloc, object, crossed, shared, &mut kept, &mut stack, joiners,
            ) {
                Err(_) => Err(Memory),
                Ok(()) => Ok(kept),
            }
        }
    }
}

// The places that wait when a region is forgotten: its branch, and those that lead into it from outside.
#[tactic(auto, using(crate::proofs::OriginTables::awaits_begun, crate::proofs::OriginTables::awaits_more))]
fn awaited(alloc: Global, origins: &Origins, place: u32, join: u32) -> Result<Vec<u32>, Memory>
    requires before { place < join }
    requires inside { join ≤ length origins.now.last.items }
    requires same { length origins.now.before.items ≡ length origins.now.last.items }
    requires links { LinksFall origins.now.last.items origins.now.before.items }
    ensures { IfOk result (λ stack. IsAwaiting origins.now.last.items origins.now.before.items place join stack.items) }
{
    let mut stack = Vec::new(alloc);
    match stack.push(place) {
        Err(_) => return Err(Memory),
        Ok(()) => {}
    }
    for inner in place + 1..join {
        match await_origins(origins, place, join, inner, &mut stack) {
            Err(_) => return Err(Memory),
            Ok(()) => {}
        }
    }
    Ok(stack)
}

// Whether the states outside the region of a branch stay the least when it joins. They may fall if a branch within is
// crossed: a region that is crossed by itself leaves less than one that is carried through with those around it. They
// may also fall if ways from outside lead to a place that reads the address of a block whose bank isn't known. If two
// ways met there with two banks that show addresses, the address was public on each way, but secret once they had met.
fn stands_apart(
    object: &Object,
    crossed: &Crossed,
    states: &[Option<Known>],
    origins: &Origins,
    place: u32,
    join: u32,
) -> bool
    requires range { IsInRange object.now }
    requires before { place < join }
    requires inside { join ≤ length object.now.code }
    requires origins { TellsOrigins object.now origins.now.last.items origins.now.before.items }
    requires size { length states.now ≡ length object.now.code }
    ensures { result ≡ true → IsApart object.now crossed.now.list states.now place join }
{
    if crosses_within(crossed, place, join) {
        return false;
    }
    let first = first_entered(origins, place, join);
    knows_blocks(object, states, first, join)
}

// Whether a branch of a region is crossed.
fn crosses_within(crossed: &Crossed, place: u32, join: u32) -> bool
    requires before { place < join }
    ensures { result ≡ false → (q : ℕ) → place < q → q < join → is_crossed crossed.now.list q ≡ false }
{
    for inner in place + 1..join {
        if crossed.has(inner) {
            return true;
        }
    }
    false
}

// The first place of a region to which a step leads from outside; the join, if there is none.
fn first_entered(origins: &Origins, place: u32, join: u32) -> u32
    requires before { place < join }
    requires inside { join ≤ length origins.now.last.items }
    requires links { LinksFall origins.now.last.items origins.now.before.items }
    ensures within { result ≤ join }
    ensures early { (q : ℕ) → place < q → q < result
        → LedFromWithin origins.now.last.items origins.now.before.items place q }
{
    for inner in place + 1..join {
        if is_entered(origins, place, inner) {
            return inner;
        }
    }
    join
}

// Whether, from a first place up to a join, the bank of each block is known whose address is read.
fn knows_blocks(object: &Object, states: &[Option<Known>], first: u32, join: u32) -> bool
    requires range { IsInRange object.now }
    requires before { first ≤ join }
    requires inside { join ≤ length object.now.code }
    requires size { length states.now ≡ length object.now.code }
    ensures { result ≡ true → (q : ℕ) → first ≤ q → q < join → KnowsBlockAt object.now states.now q }
{
    for inner in first..join {
        if !knows_block(object, states, inner) {
            return false;
        }
    }
    true
}

// The same at one place.
fn knows_block(object: &Object, states: &[Option<Known>], place: u32) -> bool
    requires range { IsInRange object.now }
    requires inside { place < length object.now.code }
    requires size { length states.now ≡ length object.now.code }
    ensures { result ≡ true → KnowsBlockAt object.now states.now place }
{
    match slot_read(object.code()[place as usize]) {
        None => true,
        Some(slot) => match &states[place as usize] {
            None => true,
            Some(known) => known.bank(slot).is_some(),
        },
    }
}

// The slot whose block's address an instruction reads, if it reads one.
fn slot_read(instr: Instr) -> Option<u8>
    ensures { IsReadOf instr result }
{
    match instr {
        Instr::Idb { slot, .. } => Some(slot),
        _ => None,
    }
}

// Forgets what is known between two places.
#[tactic(auto, using(crate::proofs::OriginTables::without_begun, crate::proofs::OriginTables::without_more))]
fn forget_within(states: &mut Vec<Option<Known>>, place: u32, join: u32)
    requires before { place < join }
    requires inside { join ≤ length states.old.items }
    ensures { IsWithout place join states.old.items states.new.items }
{
    for inner in place + 1..join {
        states[inner as usize] = None;
    }
}
