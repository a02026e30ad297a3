ghost use Rattle.region_walk.specs.NextSteps.{IsNextStep};

use lt_isa::Instr;

/// Where an instruction leads, and nothing else about it.
#[derive(Clone, Copy, Debug, PartialEq, Eq)]
pub enum NextStep {
    /// Only to the next place.
    Goes,
    /// Nowhere.
    Halts,
    /// Only to its target, which has this offset.
    Jumps(i32),
    /// To the next place, and to its target, which has this offset.
    Branches(i32),
}

/// Where an instruction leads.
pub fn next_step_of(instr: Instr) -> NextStep
    ensures { IsNextStep instr result }
{
    match instr {
        Instr::Halt => NextStep::Halts,
        Instr::Jmp { offset } => NextStep::Jumps(offset),
        Instr::Br { offset, .. } => NextStep::Branches(offset),
        Instr::Nop => NextStep::Goes,
        Instr::Li { .. } => NextStep::Goes,
        Instr::Alu { .. } => NextStep::Goes,
        Instr::Ldb { .. } => NextStep::Goes,
        Instr::Stb { .. } => NextStep::Goes,
        Instr::Idb { .. } => NextStep::Goes,
        Instr::Ldw { .. } => NextStep::Goes,
        Instr::Stw { .. } => NextStep::Goes,
    }
}
