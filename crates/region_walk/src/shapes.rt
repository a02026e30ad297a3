ghost use Rattle.std.specs.Prelude.{◌≡◌, ◌<◌, ◌^◌, false, length, slice_get, ◌+◌, ◌-◌};
ghost use Rattle.lt_isa.specs.Prelude.{IsInRange, IsOffset};
ghost use Rattle.trace_patterns.specs.Prelude.{shape, has_note_between, leads_back, places_on};
ghost use Rattle.region_walk.specs.Shapes.{region_shape_of, ended_by, joined_by};

use lt_isa::{Instr, Object};
use trace_patterns::Reason;

/// The number of regions that may be around a place.
const MOST_REGIONS: u32 = 64;

/// The shape of the region of a branch.
#[derive(Clone, Copy, Debug, PartialEq, Eq)]
pub enum RegionShape {
    /// It has none, and is refused at a place.
    BadShape { place: u32, reason: Reason },
    /// Its second arm begins at one place, and both arms join at another.
    Arms { second: u32, join: u32 },
}

/// The shape of the region of a branch at `place` with `offset`, inside `depth` regions. Its join is at `end` at the
/// latest.
#[tactic(auto, unfolding(trace_patterns::specs::Shape::shape))]
pub fn shape_at(object: &Object, depth: u32, place: u32, end: u32, offset: i32) -> RegionShape
    requires place { place < length object.now.code }
    requires offset { IsOffset offset }
    requires range { IsInRange object.now }
    ensures { region_shape_of result ≡ shape object.now depth end place offset }
{
    if depth >= MOST_REGIONS {
        return bad_region(place);
    }
    if leads_back(offset) {
        return RegionShape::BadShape {
            place,
            reason: Reason::SecretLoop,
        };
    }
    let second = place + places_on(offset);
    if second as usize >= object.code().len() {
        return RegionShape::BadShape {
            place,
            reason: Reason::JumpOutside,
        };
    }
    if second == place + 1 || second > end {
        return bad_region(place);
    }
    ended_by(object, place, end, second)
}

// The region whose second arm begins at place `second`: the instruction before that jumps to the join.
fn ended_by(object: &Object, place: u32, end: u32, second: u32) -> RegionShape
    requires second { second < length object.now.code }
    requires first { place + 1 < second }
    requires range { IsInRange object.now }
    ensures { region_shape_of result ≡ ended_by object.now end place second (slice_get object.now.code (second - 1)) }
{
    match object.code()[second as usize - 1] {
        Instr::Jmp { offset } => joined_by(object, place, end, second, offset),
        _ => bad_region(place),
    }
}

fn bad_region(place: u32) -> RegionShape
    ensures { result ≡ RegionShape.BadShape place Reason.BadRegion }
{
    RegionShape::BadShape {
        place,
        reason: Reason::BadRegion,
    }
}

// The same, if the instruction before the second arm jumps by `offset`.
fn joined_by(object: &Object, place: u32, end: u32, second: u32, offset: i32) -> RegionShape
    requires second { second < length object.now.code }
    requires first { place + 1 < second }
    requires offset { IsOffset offset }
    requires range { IsInRange object.now }
    ensures { region_shape_of result ≡ joined_by object.now end place second offset }
{
    if leads_back(offset) {
        return RegionShape::BadShape {
            place: second - 1,
            reason: Reason::SecretLoop,
        };
    }
    let join = (second - 1) + places_on(offset);
    if join as usize >= object.code().len() {
        return RegionShape::BadShape {
            place: second - 1,
            reason: Reason::JumpOutside,
        };
    }
    if join > end || has_note_between(object, place, join) {
        return bad_region(place);
    }
    RegionShape::Arms { second, join }
}

// Whether an offset leads back or to the same place.
fn leads_back(offset: i32) -> bool
    ensures { result ≡ leads_back offset }
{
    offset <= 0
}

// How many places ahead an offset leads that leads forward.
fn places_on(offset: i32) -> u32
    requires range { IsOffset offset }
    requires forward { leads_back offset ≡ false }
    ensures places { result ≡ places_on offset }
    ensures some { 0 < result }
    ensures bound { result < 2 ^ 31 }
{
    offset.unsigned_abs()
}

// Whether there is a note after one place and before another. Notes are in rising order of place.
fn has_note_between(object: &Object, low: u32, high: u32) -> bool
    requires { IsInRange object.now }
    ensures { result ≡ has_note_between object.now low high }
{
    let notes = object.notes();
    let next = notes.partition_point(|note| note.pc <= low);
    next < notes.len() && notes[next].pc < high
}
