ghost use Rattle.std.specs.Prelude.{◌≡◌, ◌<◌, ◌+◌, IsTrue, length, slice_get};
ghost use Rattle.line_costs.specs.Costs.{accesses_made};
ghost use Rattle.line_costs.specs.Steps.{IsLiveIfOn, StepsSo, next_of};

use lt_isa::instruction_table::target_of;
use lt_isa::{Instr, Object};
use processor::{Bank, End, Machine, NoWatch};

/// What a machine does next.
#[derive(Clone, Copy)]
pub(crate) enum Went {
    /// It executes this instruction, and is at the next one after this many cycles.
    On(Instr, u64),
    /// It halts at this cycle.
    Halted(u32),
    /// The next instruction starts at the last cycle or later, or is a fault.
    Spent,
}

/// Executes the next instruction of a machine, at this place, if it starts below a cycle.
pub(crate) fn step<B: Bank + Drop>(machine: &mut Machine<'_, B>, place: usize, cycles: u32) -> Went
    requires live { IsTrue machine.old.live }
    requires place { place ≡ machine.old.state.place }
    ensures object { machine.new.object ≡ machine.old.object }
    ensures live { IsLiveIfOn result machine.new.live }
    ensures went { StepsSo machine.old.object machine.old.state cycles machine.new.state result }
{
    let before = machine.cycle();
    if before >= u64::from(cycles) {
        return Went::Spent;
    }
    let start = machine.run_to_access(before as u32);
    if start >= u64::from(cycles) {
        return Went::Spent;
    }
    let Some(instruction) = instruction_at(machine.object(), place) else {
        return Went::Spent;
    };
    match machine.run(start as u32 + 1, &mut NoWatch::new()) {
        Ok(End::Halted(at)) => Went::Halted(at),
        Ok(End::Spent) => {
            let after = machine.cycle();
            if after <= before {
                return Went::Spent;
            }
            Went::On(instruction, after - before)
        }
        Err(_) => unreachable!(),
    }
}

fn instruction_at(object: &Object, place: usize) -> Option<Instr>
    ensures { result ≡ slice_get object.now.code place }
{
    match object.code().get(place) {
        Some(instruction) => Some(*instruction),
        None => None,
    }
}

/// How many accesses to banks an instruction makes.
pub(crate) fn accesses_at(instruction: Instr) -> u64
    ensures { result ≡ accesses_made instruction }
{
    match instruction {
        Instr::Ldb { .. } | Instr::Stb { .. } => 1,
        Instr::Nop | Instr::Halt | Instr::Li { .. } | Instr::Alu { .. } => 0,
        Instr::Idb { .. } | Instr::Ldw { .. } | Instr::Stw { .. } => 0,
        Instr::Jmp { .. } | Instr::Br { .. } => 0,
    }
}

/// The place after an instruction that took this many cycles.
/// why: the machine doesn't report its place. A branch that is taken takes more than one cycle, so the place follows
/// from the instruction and its cycles.
pub(crate) fn next_place(object: &Object, place: usize, instruction: Instr, took: u64) -> usize
    requires { place < length object.now.code }
    ensures { result ≡ next_of object.now place instruction took }
{
    match instruction {
        Instr::Jmp { offset } => target_of(object, place, offset),
        Instr::Br { offset, .. } => {
            if took > 1 {
                return target_of(object, place, offset);
            }
            following(object, place)
        }
        Instr::Nop | Instr::Halt | Instr::Li { .. } | Instr::Alu { .. } => following(object, place),
        Instr::Ldb { .. } | Instr::Stb { .. } | Instr::Idb { .. } => following(object, place),
        Instr::Ldw { .. } | Instr::Stw { .. } => following(object, place),
    }
}

fn following(object: &Object, place: usize) -> usize
    requires { place < length object.now.code }
    ensures { result ≡ place + 1 }
{
    let _ = object.code();
    place + 1
}
