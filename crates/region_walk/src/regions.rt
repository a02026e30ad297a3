ghost use Rattle.std.specs.Prelude.{length, ◌<◌, ◌≡◌, []};
ghost use Rattle.lt_isa.specs.Prelude.{IsOffset};
ghost use Rattle.region_walk.specs.Carrying.{IsCarried};
ghost use Rattle.region_walk.specs.Crossings.{IsCrossing};
ghost use Rattle.region_walk.specs.Entries.{HasEntries, KeepsEntries, KeepsCarried};

use crate::arms::Arm;
use crate::carries::{Led, carry_over};
use crate::region_values::{EntryTable, RegionValues};
use crate::states::RegionState;
use crate::walks::{Region, region_of};
use lt_isa::Object;
use std::alloc::Global;
use trace_patterns::{Known, Reason};

/// The outcome of the region that a branch on a secret opens in public code.
#[derive(Debug, Drop)]
pub enum Crossing {
    /// Both paths through the region show the same events. They meet at the join, a place after the branch, and this is
    /// known there.
    Crosses { join: u32, known: Known },
    /// The region is refused, for a reason, at the place that blocks it first: for its shape; or where the walk of the
    /// first arm stops; or where that of the second stops; or at the branch, if the two ways show different things.
    Blocked { place: u32, reason: Reason },
    /// Memory ran out.
    Memory,
}

/// Crosses the region that a branch on a secret opens in public code. The branch is at `place` and has `offset`, and
/// `known` is known at it. The join is at the last place at the latest. The walk takes memory for the values and the
/// pattern of the region, and examines each of its places once. `shared` is kept from one region of the object to the
/// next.
pub fn cross(
    alloc: Global,
    object: &Object,
    shared: &mut RegionValues,
    known: &Known,
    place: u32,
    offset: i32,
) -> Crossing
    requires place { place < length object.now.code }
    requires offset { IsOffset offset }
    ensures { IsCrossing object.now place offset known.now result }
{
    match shared.take(alloc, object) {
        Err(_) => Crossing::Memory,
        Ok(taken) => {
            let mut table = taken;
            match cross_in(alloc, object, &mut table, known, place, offset) {
                Crossing::Crosses { join, known } => {
                    shared.give_back(table);
                    Crossing::Crosses { join, known }
                }
                Crossing::Blocked { place, reason } => Crossing::Blocked { place, reason },
                Crossing::Memory => Crossing::Memory,
            }
        }
    }
}

// Crosses the region with a table that has only the values of an entry. If the region is crossed, the table has only
// those again.
fn cross_in(
    alloc: Global,
    object: &Object,
    table: &mut EntryTable,
    known: &Known,
    place: u32,
    offset: i32,
) -> Crossing
    requires entries { HasEntries table.old }
    requires place { place < length object.now.code }
    requires offset { IsOffset offset }
    ensures crossing { IsCrossing object.now place offset known.now result }
    ensures entries { KeepsEntries result table.new }
{
    let count = table.values.len();
    let state = RegionState::at_entry(table, known);
    let code = Arm {
        object,
        depth: 0,
        end: (object.code().len() - 1) as u32,
    };
    match region_of(alloc, &code, place, offset, &mut table.values, &state) {
        Region::Blocked { place, reason } => Crossing::Blocked { place, reason },
        Region::Memory => Crossing::Memory,
        Region::Crosses { join, way } => {
            table.keep_entries(count);
            Crossing::Crosses {
                join,
                known: way.state.known_after(),
            }
        }
    }
}

/// The outcome of carrying what is known at a branch over its region.
#[derive(Debug, Drop)]
pub enum Carried {
    /// What is known reaches the join, a place after the branch, and this is known there.
    Joins { join: u32, known: Known },
    /// What is known can't be carried over: the region or one inside it doesn't have the shape of two arms, or an arm
    /// has a halt or a jump.
    Unshaped,
    /// Memory ran out.
    Memory,
}

/// Carries what is known at a branch of public code over the region that it opens, in an object without notes, whether
/// or not the check refuses the region: what both arms leave alike is known at the join. The join is at the last place
/// at the latest. This takes memory for the values of the region, and examines each of its places once. `shared` is
/// kept from one region of the object to the next.
pub fn carry(
    alloc: Global,
    object: &Object,
    shared: &mut RegionValues,
    known: &Known,
    place: u32,
    offset: i32,
) -> Carried
    requires bare { object.now.notes ≡ [] }
    requires place { place < length object.now.code }
    requires offset { IsOffset offset }
    ensures { IsCarried object.now place offset known.now result }
{
    match shared.take(alloc, object) {
        Err(_) => Carried::Memory,
        Ok(taken) => {
            let mut table = taken;
            match carry_in(object, &mut table, known, place, offset) {
                Carried::Joins { join, known } => {
                    shared.give_back(table);
                    Carried::Joins { join, known }
                }
                Carried::Unshaped => {
                    shared.give_back(table);
                    Carried::Unshaped
                }
                Carried::Memory => Carried::Memory,
            }
        }
    }
}

// Carries over the region with a table that has only the values of an entry, and has only those again afterwards.
fn carry_in(
    object: &Object,
    table: &mut EntryTable,
    known: &Known,
    place: u32,
    offset: i32,
) -> Carried
    requires bare { object.now.notes ≡ [] }
    requires entries { HasEntries table.old }
    requires place { place < length object.now.code }
    requires offset { IsOffset offset }
    ensures carried { IsCarried object.now place offset known.now result }
    ensures entries { KeepsCarried result table.new }
{
    let count = table.values.len();
    let mut state = RegionState::at_entry(table, known);
    let code = Arm {
        object,
        depth: 0,
        end: (object.code().len() - 1) as u32,
    };
    match carry_over(&code, place, offset, &mut table.values, &mut state) {
        Led::Unshaped => {
            table.keep_entries(count);
            Carried::Unshaped
        }
        Led::Memory => Carried::Memory,
        Led::Reaches(join) => {
            table.keep_entries(count);
            Carried::Joins {
                join,
                known: state.known_after(),
            }
        }
    }
}
