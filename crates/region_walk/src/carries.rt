ghost use Rattle.std.specs.Prelude.{◌≡◌, ◌<◌, ◌≤◌, [], length};
ghost use Rattle.lt_isa.specs.Prelude.{IsOffset};
ghost use Rattle.region_walk.specs.Ways.{IsArm};
ghost use Rattle.region_walk.specs.Carrying.{StateIsReady, IsLed, IsLedOn, IsLedOver};

use crate::arms::Arm;
use crate::behind::hold_behind;
use crate::next_steps::{NextStep, next_step_of};
use crate::shapes::{RegionShape, shape_at};
use crate::states::RegionState;
use symbolic_values::Values;

/// How far a state is carried.
#[derive(Clone, Copy, Debug, PartialEq, Eq)]
pub enum Led {
    /// To this place.
    Reaches(u32),
    /// Nowhere: an arm has a jump or a halt, or a region doesn't have the shape of two arms.
    Unshaped,
    /// Memory ran out.
    Memory,
}

/// Carries a state over an arm from a place up to its end, whether or not the check refuses something there. The state
/// becomes what is known at the end.
#[cycle(carries)]
pub fn carry_to(arm: &Arm<'_>, values: &mut Values, state: &mut RegionState, start: u32) -> Led
    requires arm { IsArm arm.now }
    requires bare { arm.now.object.now.notes ≡ [] }
    requires ready { StateIsReady start values.old state.old }
    requires order { start ≤ arm.now.end }
    ensures { IsLed arm.now.object.now arm.now.depth arm.now.end start values.old state.old result values.new state.new }
{
    let mut place = start;
    while place < arm.end {
        match carry_on(arm, values, state, place) {
            Led::Reaches(next) => place = next,
            Led::Unshaped => return Led::Unshaped,
            Led::Memory => return Led::Memory,
        }
    }
    Led::Reaches(place)
}

// Carries a state over one instruction and, if it is a branch, over the region that it opens.
#[cycle(carries)]
fn carry_on(arm: &Arm<'_>, values: &mut Values, state: &mut RegionState, place: u32) -> Led
    requires bare { arm.now.object.now.notes ≡ [] }
    requires arm { IsArm arm.now }
    requires ready { StateIsReady place values.old state.old }
    requires order { place < arm.now.end }
    ensures { IsLedOn arm.now.object.now arm.now.depth arm.now.end place values.old state.old result values.new
        state.new }
{
    let instr = arm.object.code()[place as usize];
    match next_step_of(instr) {
        NextStep::Halts => Led::Unshaped,
        NextStep::Jumps(_) => Led::Unshaped,
        NextStep::Branches(offset) => carry_over(arm, place, offset, values, state),
        NextStep::Goes => match hold_behind(arm.object, values, state, instr) {
            Err(_) => Led::Memory,
            Ok(()) => Led::Reaches(place + 1),
        },
    }
}

/// Carries a state over the region of a branch at `place` with `offset`, through both arms, the first arm first. Its
/// join is at the end of `arm` at the latest. The state becomes what both arms leave alike.
#[cycle(carries)]
pub fn carry_over(
    arm: &Arm<'_>,
    place: u32,
    offset: i32,
    values: &mut Values,
    state: &mut RegionState,
) -> Led
    requires arm { IsArm arm.now }
    requires bare { arm.now.object.now.notes ≡ [] }
    requires offset { IsOffset offset }
    requires ready { StateIsReady place values.old state.old }
    requires order { place < length arm.now.object.now.code }
    ensures { IsLedOver arm.now.object.now arm.now.depth arm.now.end place offset values.old state.old result values.new
        state.new }
{
    let Arm { object, depth, end } = *arm;
    match shape_at(object, depth, place, end, offset) {
        RegionShape::BadShape { .. } => Led::Unshaped,
        RegionShape::Arms { second, join } => {
            let first_arm = Arm {
                object,
                depth: depth + 1,
                end: second - 1,
            };
            let second_arm = Arm {
                object,
                depth: depth + 1,
                end: join,
            };
            let mut taken = *state;
            match carry_to(&first_arm, values, state, place + 1) {
                Led::Unshaped => Led::Unshaped,
                Led::Memory => Led::Memory,
                Led::Reaches(_) => match carry_to(&second_arm, values, &mut taken, second) {
                    Led::Unshaped => Led::Unshaped,
                    Led::Memory => Led::Memory,
                    Led::Reaches(_) => {
                        state.keep_common(&taken);
                        Led::Reaches(join)
                    }
                },
            }
        }
    }
}
