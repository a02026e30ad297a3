ghost use Rattle.std.specs.Prelude.{◌≡◌, ◌<◌, length, Some, None, if◌then◌else◌, IfOk, IfSome, IfNone};
ghost use Rattle.lt_isa.specs.Prelude.{IsOffset};
ghost use Rattle.trace_patterns.specs.Known.{Known as Labels};
ghost use Rattle.trace_patterns.specs.Prelude.{claimed_at, ruling_at};
ghost use Rattle.lt_checker.specs.ByPlace.{Effect as OneEffect, entered, on_entry, visited, falls_to, effect_of, effect_at, effect_from, NoneBelow, IsFirstFound};
ghost use Rattle.lt_checker.specs.Effects.{ruled, on_entered, made, arrived, OffsetFits, WhereItOpens};
ghost use Rattle.lt_checker.specs.Tables.{ServesNotes};
ghost use Rattle.trace_patterns.specs.Rules as rule;

use crate::effects::{Arrival, Effect, Entry, Refusal};
use crate::rules::{Ruling, claimed_at, rule_of};
use gr_base::Memory;
use lt_isa::Object;
use region_walk::{Crossing, RegionValues, cross};
use std::alloc::Global;
use trace_patterns::{Known, Reason};

/// The first refusal, that of the lowest place of public code that has one, or `None` if no place is refused. `table`
/// gives the object's note at a place. Each place of public code is examined once, and each region is walked once.
pub fn lowest_refusal(
    alloc: Global,
    object: &Object,
    table: &[Option<u32>],
) -> Result<Option<Refusal>, Memory>
    requires table { ServesNotes object.now.notes table.now }
    ensures none { IfOk result (λ found. IfNone found (NoneBelow object.now (length object.now.code))) }
    ensures lowest { IfOk result (λ found. IfSome found (λ r. IsFirstFound object.now r.pc r.reason)) }
{
    let mut shared = RegionValues::new();
    let mut known = Known::start();
    let mut arrival = Arrival::Here;
    for place in 0..object.code().len() {
        let effect = match effect_from(
            alloc,
            object,
            &mut shared,
            table,
            place,
            arrival,
            &mut known,
        ) {
            Ok(effect) => effect,
            Err(error) => return Err(error),
        };
        if let Some(refusal) = effect.refusal(place as u32) {
            return Ok(Some(refusal));
        }
        arrival = effect.arrival(place + 1);
    }
    Ok(None)
}

// The check's result for a place, from how it is reached. `known` becomes what is known at the next place that is
// reached.
#[tactic(auto, unfolding(crate::specs::ByPlace::effect_from))]
fn effect_from(
    alloc: Global,
    object: &Object,
    shared: &mut RegionValues,
    table: &[Option<u32>],
    place: usize,
    arrival: Arrival,
    known: &mut Known,
) -> Result<Effect, Memory>
    requires table { ServesNotes object.now.notes table.now }
    requires inside { place < length object.now.code }
    ensures { IfOk result (λ e. made e known.new ≡ effect_from object.now place (arrived arrival known.old)) }
{
    match enter(object, table, place, arrival, known) {
        Entry::Refused(reason) => Ok(Effect::Refused(reason)),
        Entry::Passes(join) => Ok(Effect::Joins(join)),
        Entry::Enters => effect_at(alloc, object, shared, table, place, known),
    }
}

// Enters a place, from how it is reached, unless it is inside a region that was crossed. If the place has a note,
// `known` becomes what the note claims.
fn enter(
    object: &Object,
    table: &[Option<u32>],
    place: usize,
    arrival: Arrival,
    known: &mut Known,
) -> Entry
    requires table { ServesNotes object.now.notes table.now }
    ensures { (go : Labels → OneEffect)
        → on_entered result known.new go
        ≡ visited (arrived arrival known.old) (λ reached. on_entry (entered (claimed_at object.now place) reached) go) }
{
    match arrival {
        Arrival::Unreached => enter_visited(claimed_at(object, table, place), false, known),
        Arrival::Here => enter_visited(claimed_at(object, table, place), true, known),
        Arrival::Inside(join) => Entry::Passes(join),
    }
}

// Enters a visited place, from what its note claims and whether the place before reaches it.
fn enter_visited(claimed: Option<Known>, is_reached: bool, known: &mut Known) -> Entry
    ensures { (go : Labels → OneEffect)
        → on_entered result known.new go ≡ on_entry (entered claimed (if is_reached then Some known.old else None)) go }
{
    match claimed {
        None => {
            if is_reached {
                Entry::Enters
            } else {
                Entry::Refused(Reason::NoNote)
            }
        }
        Some(claim) => {
            if is_reached && !known.fits(&claim) {
                return Entry::Refused(Reason::NoteTooLow);
            }
            *known = claim;
            Entry::Enters
        }
    }
}

// The check's result for a place at which `known` is known. It takes memory only if a branch on a secret opens a
// region.
#[tactic(auto, unfolding(crate::specs::ByPlace::effect_at))]
fn effect_at(
    alloc: Global,
    object: &Object,
    shared: &mut RegionValues,
    table: &[Option<u32>],
    place: usize,
    known: &mut Known,
) -> Result<Effect, Memory>
    requires table { ServesNotes object.now.notes table.now }
    requires inside { place < length object.now.code }
    ensures { IfOk result (λ e. made e known.new ≡ effect_at object.now place known.old) }
{
    match rule_at(object, table, place, known) {
        Ruling::Refused(reason) => Ok(Effect::Refused(reason)),
        Ruling::Falls => Ok(falls(object, place)),
        Ruling::Leaves => Ok(Effect::Leaves),
        Ruling::Opens(offset) => opened(alloc, object, shared, place, known, offset),
    }
}

// The ruling on a place. If the place falls through, `known` becomes what is known at the next place.
#[tactic(auto, unfolding(trace_patterns::specs::Rules::ruling_at))]
fn rule_at(object: &Object, table: &[Option<u32>], place: usize, known: &mut Known) -> Ruling
    requires table { ServesNotes object.now.notes table.now }
    requires inside { place < length object.now.code }
    ensures rule { ruled result known.new ≡ ruling_at object.now place known.old }
    ensures offset { OffsetFits (ruled result known.new) }
    ensures kept { WhereItOpens result (known.new ≡ known.old) }
{
    rule_of(object, table, place, known, object.code()[place])
}

// The last place must not fall through.
fn falls(object: &Object, place: usize) -> Effect
    requires { place < length object.now.code }
    ensures { (k : Labels) → made result k ≡ falls_to object.now place k }
{
    let size = object.code().len();
    if place + 1 == size {
        return Effect::Refused(Reason::RunsOffEnd);
    }
    Effect::Falls
}

// A branch on a secret: the region that it opens is crossed, or refused at one of its places. `known` becomes what is
// known at the join. Such branches are rare.
#[inline(never)]
fn opened(
    alloc: Global,
    object: &Object,
    shared: &mut RegionValues,
    place: usize,
    known: &mut Known,
    offset: i32,
) -> Result<Effect, Memory>
    requires inside { place < length object.now.code }
    requires offset { IsOffset offset }
    ensures { IfOk result (λ e. made e known.new ≡ effect_of object.now place known.old (rule.Opens offset)) }
{
    let _size = object.code().len();
    match cross(alloc, object, shared, known, place as u32, offset) {
        Crossing::Crosses { join, known: after } => {
            *known = after;
            Ok(Effect::Joins(join))
        }
        Crossing::Blocked { place, reason } => Ok(Effect::Stuck { place, reason }),
        Crossing::Memory => Err(Memory),
    }
}
