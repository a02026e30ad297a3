ghost use Rattle.std.specs.Prelude.{◌≡◌, ◌<◌, ◌≤◌, ◌+◌, ◌^◌, length};
ghost use Rattle.lt_isa.specs.Prelude.{IsOffset};
ghost use Rattle.trace_patterns.specs.Prelude.{first_gap, no_events, with_gap};
ghost use Rattle.region_walk.specs.Singles.{BranchesAt};
ghost use Rattle.region_walk.specs.Carrying.{StateIsReady};
ghost use Rattle.region_walk.specs.Ways.{IsArm, WayIsReady, IsWalk, IsNext, IsRegionWalk};
ghost use Rattle.region_walk.specs.Arms.{GoesOnAt, IsCompared};

use crate::arms::Arm;
use crate::shapes::{RegionShape, shape_at};
use crate::singles::{Single, single_at};
use crate::states::RegionState;
use std::alloc::Global;
use symbolic_values::Values;
use trace_patterns::{Pattern, Reason};

/// What was shown on the way to a place of a region, and what is known there.
#[derive(Debug, Drop)]
pub struct Way {
    pub pattern: Pattern,
    pub state: RegionState,
}

/// The outcome of a walk.
#[derive(Clone, Copy, Debug, PartialEq, Eq)]
pub enum Found {
    /// It reaches a place.
    Reaches(u32),
    /// It stops at a place that is refused.
    Stops { place: u32, reason: Reason },
    /// Memory ran out.
    Memory,
}

/// The outcome of a region.
#[derive(Debug, Drop)]
pub enum Region {
    /// It is crossed: its join, and what is shown on the way there and known there.
    Crosses { join: u32, way: Way },
    /// A place blocks it.
    Blocked { place: u32, reason: Reason },
    /// Memory ran out.
    Memory,
}

/// Walks an arm from a place up to its end. `way` becomes what was shown up to there and what is known there.
#[cycle(walks)]
pub fn walk(alloc: Global, arm: &Arm<'_>, values: &mut Values, way: &mut Way, start: u32) -> Found
    requires arm { IsArm arm.now }
    requires ready { WayIsReady start values.old way.old }
    requires order { start ≤ arm.now.end }
    ensures { IsWalk arm.now.object.now arm.now.depth arm.now.end start values.old way.old result values.new way.new }
{
    let mut place = start;
    while place < arm.end {
        match next_place(alloc, arm, values, way, place) {
            Found::Reaches(next) => place = next,
            Found::Stops { place, reason } => return Found::Stops { place, reason },
            Found::Memory => return Found::Memory,
        }
    }
    Found::Reaches(place)
}

// Walks one instruction and, if it is a branch, the region that it opens. Each instruction of an arm passes here, so
// this is inlined into the loop.
#[cycle(walks)]
#[inline(always)]
fn next_place(alloc: Global, arm: &Arm<'_>, values: &mut Values, way: &mut Way, place: u32) -> Found
    requires arm { IsArm arm.now }
    requires ready { WayIsReady place values.old way.old }
    requires order { place < arm.now.end }
    ensures { IsNext arm.now.object.now arm.now.depth arm.now.end place values.old way.old result values.new way.new }
{
    let instr = arm.object.code()[place as usize];
    match single_at(arm.object, values, &mut way.state, instr) {
        Single::Refuses(reason) => Found::Stops { place, reason },
        Single::Memory => Found::Memory,
        Single::Quiet(cycles) => {
            way.pattern.push_gap(cycles);
            Found::Reaches(place + 1)
        }
        Single::Shows(event) => match way.pattern.push_event(event) {
            Err(_) => Found::Memory,
            Ok(()) => Found::Reaches(place + 1),
        },
        Single::Branches(offset) => beyond_region(alloc, arm, values, way, place, offset),
    }
}

// Walks the region of a branch, and continues at its join. It is a function of its own, since otherwise the stack for a
// region would be cleared at each instruction.
#[cycle(walks)]
#[inline(never)]
fn beyond_region(
    alloc: Global,
    arm: &Arm<'_>,
    values: &mut Values,
    way: &mut Way,
    place: u32,
    offset: i32,
) -> Found
    requires arm { IsArm arm.now }
    requires ready { WayIsReady place values.old way.old }
    requires order { place < arm.now.end }
    requires offset { IsOffset offset }
    requires branches { BranchesAt arm.now.object.now place values.old way.old.state offset }
    ensures { IsNext arm.now.object.now arm.now.depth arm.now.end place values.old way.old result values.new way.new }
{
    match region_of(alloc, arm, place, offset, values, &way.state) {
        Region::Blocked { place, reason } => Found::Stops { place, reason },
        Region::Memory => Found::Memory,
        Region::Crosses { join, way: crossed } => go_on(way, crossed, join),
    }
}

// Continues at the join of a region that was crossed.
fn go_on(way: &mut Way, crossed: Way, join: u32) -> Found
    requires { way.old.pattern.last + first_gap crossed.pattern < 2 ^ 63 }
    ensures { GoesOnAt way.old crossed join result way.new }
{
    match way.pattern.append(&crossed.pattern) {
        Err(_) => Found::Memory,
        Ok(()) => {
            way.state = crossed.state;
            Found::Reaches(join)
        }
    }
}

/// Crosses the region of a branch at `place` with `offset`; its join is at the end of `arm` at the latest. Both arms
/// are walked from one state, the first arm first, and must show the same events.
// Each arm of a match returns, since a way is large and would be copied once more if it were the value of the match.
#[cycle(walks)]
pub fn region_of(
    alloc: Global,
    arm: &Arm<'_>,
    place: u32,
    offset: i32,
    values: &mut Values,
    state: &RegionState,
) -> Region
    requires arm { IsArm arm.now }
    requires offset { IsOffset offset }
    requires ready { StateIsReady place values.old state.now }
    requires order { place < length arm.now.object.now.code }
    ensures { IsRegionWalk arm.now.object.now arm.now.depth arm.now.end place offset values.old state.now result
        values.new }
{
    let Arm { object, depth, end } = *arm;
    match shape_at(object, depth, place, end, offset) {
        RegionShape::BadShape { place, reason } => return Region::Blocked { place, reason },
        RegionShape::Arms { second, join } => {
            let first_arm = Arm {
                object,
                depth: depth + 1,
                end: second - 1,
            };
            let second_arm = Arm {
                object,
                depth: depth + 1,
                end: join,
            };
            let mut untaken = way_from(alloc, 1, state);
            match walk(alloc, &first_arm, values, &mut untaken, place + 1) {
                Found::Stops { place, reason } => return Region::Blocked { place, reason },
                Found::Memory => return Region::Memory,
                Found::Reaches(_) => {
                    let jump = u32::from(object.profile().taken);
                    let mut taken = way_from(alloc, jump, state);
                    match walk(alloc, &second_arm, values, &mut taken, second) {
                        Found::Stops { place, reason } => return Region::Blocked { place, reason },
                        Found::Memory => return Region::Memory,
                        Found::Reaches(_) => return compared(place, join, jump, untaken, &taken),
                    }
                }
            }
        }
    }
}

// A way that begins with some cycles and no event.
#[inline(always)]
fn way_from(alloc: Global, cycles: u32, state: &RegionState) -> Way
    ensures pattern { result.pattern ≡ with_gap no_events cycles }
    ensures state { result.state ≡ state.now }
{
    let mut pattern = Pattern::new(alloc);
    pattern.push_gap(cycles);
    Way {
        pattern,
        state: *state,
    }
}

// Compares the two ways through the region of a branch at `place`. The first way ends with a jump, which takes `jump`
// cycles.
#[inline(always)]
fn compared(place: u32, join: u32, jump: u32, untaken: Way, taken: &Way) -> Region
    requires { untaken.pattern.last + jump < 2 ^ 63 }
    ensures { IsCompared place join jump untaken taken.now result }
{
    let mut way = untaken;
    way.pattern.push_gap(jump);
    if way.pattern.same(&taken.pattern) {
        way.state.keep_common(&taken.state);
        Region::Crosses { join, way }
    } else {
        Region::Blocked {
            place,
            reason: Reason::UnequalArms,
        }
    }
}
