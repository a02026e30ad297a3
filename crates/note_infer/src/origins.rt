// From where jumps and branches lead to each place.
ghost use Rattle.std.specs.Prelude.{◌≡◌, ◌<◌, ◌+◌, ◌^◌, false, length, slice_get, Some, IfOk, OnOk};
ghost use Rattle.lt_isa.specs.Prelude.{IsInRange};
ghost use Rattle.note_infer.specs.Kept.{TellsOrigins, OriginsBelow, TellsOne, LinksFall, LedFromWithin, AwaitsOne, Awaits, IsLinked, link_at};

use gr_word::Memory;
use lt_isa::instruction_table::target_of;
use lt_isa::{Instr, Object};
use region_walk::{NextStep, next_step_of};
use std::alloc::Global;

/// For each place the places that jump or branch to it, as a linked list.
#[derive(Drop)]
pub struct Origins {
    // one more than the last place that leads to each place; 0 if none does
    pub last: Vec<u32>,
    // one more than the place before each place in its list; 0 if it is the first
    pub before: Vec<u32>,
}

/// From where jumps and branches lead to each place of the code.
pub fn origins_of(alloc: Global, object: &Object) -> Result<Origins, Memory>
    requires { IsInRange object.now }
    ensures { IfOk result (λ origins. TellsOrigins object.now origins.last.items origins.before.items) }
{
    match vec![in alloc; 0u32; object.code().len()] {
        Err(_) => Err(Memory),
        Ok(last) => match vec![in alloc; 0u32; object.code().len()] {
            Err(_) => Err(Memory),
            Ok(before) => Ok(told_origins(object, last, before)),
        },
    }
}

// Lists all places, in tables that list none.
#[tactic(auto, using(crate::proofs::OriginTables::origins_begun, crate::proofs::OriginTables::origins_ended))]
fn told_origins(object: &Object, none_last: Vec<u32>, none_before: Vec<u32>) -> Origins
    requires range { IsInRange object.now }
    requires begun { OriginsBelow object.now 0 none_last.items none_before.items }
    ensures { TellsOrigins object.now result.last.items result.before.items }
{
    let mut last = none_last;
    let mut before = none_before;
    for place in 0..object.code().len() {
        tell_from(
            object,
            &mut last,
            &mut before,
            place as u32,
            object.code()[place],
        );
    }
    Origins { last, before }
}

// Lists a place for the target to which its instruction jumps or branches, if it does.
fn tell_from(object: &Object, last: &mut Vec<u32>, before: &mut Vec<u32>, place: u32, instr: Instr)
    requires range { IsInRange object.now }
    requires inside { place < length object.now.code }
    requires code { slice_get object.now.code place ≡ Some instr }
    requires below { OriginsBelow object.now place last.old.items before.old.items }
    ensures { OriginsBelow object.now (place + 1) last.new.items before.new.items }
{
    let at = place as usize;
    match next_step_of(instr) {
        NextStep::Goes => {}
        NextStep::Halts => {}
        NextStep::Jumps(offset) => tell(last, before, place, target_of(object, at, offset)),
        NextStep::Branches(offset) => tell(last, before, place, target_of(object, at, offset)),
    }
}

// Lists one place for its target, if that is one of the code.
fn tell(last: &mut Vec<u32>, before: &mut Vec<u32>, place: u32, target: usize)
    requires small { place + 1 < 2 ^ 32 }
    requires inside { place < length before.old.items }
    ensures { TellsOne place target last.old.items before.old.items last.new.items before.new.items }
{
    if target < last.len() {
        before[place as usize] = last[target];
        last[target] = place + 1;
    }
}

/// Whether a jump or a branch leads to a place of a region from before the region, or from that place or a later one.
pub fn is_entered(origins: &Origins, place: u32, inner: u32) -> bool
    requires inside { inner < length origins.now.last.items }
    requires links { LinksFall origins.now.last.items origins.now.before.items }
    ensures { result ≡ false → LedFromWithin origins.now.last.items origins.now.before.items place inner }
{
    let mut link = origins.last[inner as usize];
    'following: while link > 0 {
        let origin = link - 1;
        if origin < place {
            return true;
        }
        if inner <= origin {
            return true;
        }
        link = origins.before[origin as usize];
    }
    false
}

/// Makes each place wait that jumps or branches to a place of a region from outside the region.
pub fn await_origins(
    origins: &Origins,
    place: u32,
    join: u32,
    inner: u32,
    stack: &mut Vec<u32>,
) -> Result<(), Memory>
    requires inside { inner < length origins.now.last.items }
    requires links { LinksFall origins.now.last.items origins.now.before.items }
    ensures { OnOk result (Awaits place join (length origins.now.before.items)
        (IsLinked origins.now.before.items (link_at origins.now.last.items inner)) stack.old.items stack.new.items) }
{
    let mut link = origins.last[inner as usize];
    'following: while link > 0 {
        let origin = link - 1;
        match await_one(place, join, origin, stack) {
            Err(_) => return Err(Memory),
            Ok(()) => {}
        }
        link = origins.before[origin as usize];
    }
    Ok(())
}

// Makes a place wait, unless it is within a region.
fn await_one(place: u32, join: u32, origin: u32, stack: &mut Vec<u32>) -> Result<(), Memory>
    ensures { OnOk result (AwaitsOne place join origin stack.old.items stack.new.items) }
{
    if place <= origin {
        if origin < join {
            return Ok(());
        }
    }
    match stack.push(origin) {
        Err(_) => Err(Memory),
        Ok(()) => Ok(()),
    }
}
