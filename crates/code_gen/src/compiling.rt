ghost use Rattle.std.specs.Prelude.{◌≡◌, ◌+◌, ◌*◌, ◌≤◌, [], true, false, IfOk, IfErr, OnOk, length};
ghost use Rattle.lt_isa.specs.Prelude.{IsInRange, ProfileFits};
ghost use Rattle.src_tree.specs.Prelude.{IsWithinLimits, weight_of, source_of, IsTyped};
ghost use Rattle.trace_patterns.specs.Prelude.{Accepts};
ghost use Rattle.bank_alloc.specs.Prelude.{Fits, HasLayout, IsPlacesOf};
ghost use Rattle.resident_alloc.specs.Prelude.{ResidentsFit};
ghost use Rattle.held_registers.specs.Prelude.{IsSoundHeld};
ghost use Rattle.block_cache_gen.specs.Prelude.{BlockHasWords, IsFastFrame, fast_plan_of, fast_setting, stored_words};
ghost use Rattle.scratch_alloc.specs.Prelude.{IsSoundPlan, plan_from, standard_plan};
ghost use Rattle.compiled_objects.specs.Prelude.{ExplainsResidents, ExplainsRoom, IsFor, LatenciesFit, stores_in, stores_with_residents, HasFastLayout, Implements, held_for};
ghost use Rattle.code_gen.specs.Emitted.{padding_of};
ghost use Rattle.code_gen.specs.Made.{IsMadeOf};
ghost use Rattle.code_gen.specs.Programs.{program_code, program_notes};
ghost use Rattle.source_folding.specs.Prelude.{folded_source, BlockNumbersFit};

use crate::banks::bank_specs;
use crate::numbers::held_for;
use crate::programs::program_code;
use bank_alloc::{Places, banks, symbols};
use block_cache_gen::{CodeBuf, Emitter, FastFrame, Prepared};
use compiled_objects::{CompileError, fast_plan};
use flow_types::Typed;
use gr_base::Memory;
use held_registers::Held;
use lt_isa::{Latencies, Object, Profile};
use scratch_alloc::{PinnedPlan, scalar_pins, slots};
use source_folding::folded;
use src_tree::Program;
use std::alloc::Global;

// The object of a program whose code and notes are made.
fn assembled(
    alloc: Global,
    f: &FastFrame<'_>,
    l: &Latencies,
    made: CodeBuf,
) -> Result<Object, Memory>
    requires frame { IsFastFrame f.now }
    requires latencies { LatenciesFit l.now }
    requires words { BlockHasWords (source_of f.now.program.now).body }
    requires code { made.code.items
        ≡ program_code (fast_setting f.now) padding_of (source_of f.now.program.now).body }
    requires notes { made.notes.items
        ≡ program_notes (fast_setting f.now) padding_of (source_of f.now.program.now).body }
    ensures { IfOk result (λ o. IsMadeOf (source_of f.now.program.now) (fast_plan_of f.now) f.now.profile.now f.now.reduces
        f.now.held.now l.now o) }
{
    let symbols = symbols(alloc, f.program, f.profile.block_log, f.places)?;
    let banks = bank_specs(alloc, f.places.blocks.as_slice(), l)?;
    Ok(Object::of_parts(*f.profile, banks, symbols, made.notes, made.code))
}

// The object of a program by a plan of its memory, with or without steps in the place of operations by numbers, and with
// what registers hold for the whole run.
fn planned(
    alloc: Global,
    program: &Program,
    places: &Places,
    slots: &PinnedPlan,
    p: &Profile,
    reduces: bool,
    held: &[Held],
    l: &Latencies,
) -> Result<Object, Memory>
    requires typed { IsTyped (source_of program.now) }
    requires within { IsWithinLimits (source_of program.now) }
    requires held { IsSoundHeld (source_of program.now).decls held.now }
    requires plan { IsSoundPlan (source_of program.now) p.now.block_log (plan_from places.now slots.now) }
    requires profile { ProfileFits p.now }
    requires latencies { LatenciesFit l.now }
    ensures { IfOk result (λ o. IsMadeOf (source_of program.now) (plan_from places.now slots.now) p.now reduces
        held.now l.now o) }
{
    let frame = FastFrame {
        program,
        places,
        slots: &slots.plan,
        pins: slots.pins,
        profile: p,
        reduces,
        held,
    };
    let prepared = Prepared::new(alloc, &frame)?;
    let emitter = Emitter::new(&prepared);
    let made = program_code(alloc, &emitter, &frame, program.body.as_slice())?;
    assembled(alloc, &frame, l, made)
}

// The object of a program, made of cheaper expressions.
fn planned_folded(
    alloc: Global,
    program: &Program,
    places: &Places,
    slots: &PinnedPlan,
    p: &Profile,
    l: &Latencies,
) -> Result<Object, Memory>
    requires typed { IsTyped (source_of program.now) }
    requires within { IsWithinLimits (source_of program.now) }
    requires plan { IsSoundPlan (source_of program.now) p.now.block_log (plan_from places.now slots.now) }
    requires profile { ProfileFits p.now }
    requires latencies { LatenciesFit l.now }
    ensures made { IfOk result (λ o. IsMadeOf (folded_source (source_of program.now)) (plan_from places.now slots.now) p.now
        true (held_for (folded_source (source_of program.now)) places.now.of_var.items) l.now o) }
    ensures numbers { OnOk result (BlockNumbersFit (source_of program.now).body) }
    ensures words { OnOk result (BlockHasWords (folded_source (source_of program.now)).body) }
{
    let program = folded(alloc, program)?;
    let held = held_for(alloc, &program, places.of_var.as_slice())?;
    planned(alloc, &program, places, slots, p, true, held.as_slice(), l)
}

// The object of a program whose variables have their places.
fn compiled(
    alloc: Global,
    program: &Program,
    places: &Places,
    p: &Profile,
    l: &Latencies,
) -> Result<Object, Memory>
    requires typed { IsTyped (source_of program.now) }
    requires within { IsWithinLimits (source_of program.now) }
    requires fits { Fits (source_of program.now) p.now.block_log }
    requires places { IsPlacesOf (source_of program.now) p.now.block_log places.now }
    requires profile { ProfileFits p.now }
    requires latencies { LatenciesFit l.now }
    ensures { IfOk result (λ o. IsMadeOf (source_of program.now) (standard_plan (source_of program.now) p.now.block_log) p.now
        false [] l.now o) }
{
    let plan = slots(alloc, places)?;
    let pins = scalar_pins();
    let slots = PinnedPlan { plan, pins };
    let held: Vec<Held> = Vec::new(alloc);
    planned(alloc, program, places, &slots, p, false, held.as_slice(), l)
}

/// Compiles a program for a machine: the object is accepted, computes what the program means, has its layout, and has
/// these cycles and latencies. It has at most 120 instructions for each unit of the program's weight and 64 more, the
/// number of stores of a word that follows from the program and the profile (`stores`), and is in its ranges. It fails
/// exactly if the program's variables lack room, with the first cause: the public scalars, the secret ones, or a bank.
/// The only other error is running out of memory.
pub fn compile(alloc: Global, t: &Typed, p: &Profile, l: &Latencies) -> Result<Object, CompileError>
    requires profile { ProfileFits p.now }
    requires latencies { LatenciesFit l.now }
    ensures accepted { IfOk result (λ o. Accepts o) }
    ensures implements { IfOk result (λ o. Implements (source_of t.now) o) }
    ensures laid_out { IfOk result (λ o. HasLayout (source_of t.now) p.now.block_log o) }
    ensures machine { IfOk result (λ o. IsFor p.now l.now o) }
    ensures size { IfOk result (λ o. length o.code ≤ 120 * weight_of (source_of t.now) + 64) }
    ensures stores { IfOk result (λ o. stored_words false o.code ≡ stores_in (source_of t.now) p.now) }
    ensures in_range { IfOk result (λ o. IsInRange o) }
    ensures fits { OnOk result (Fits (source_of t.now) p.now.block_log) }
    ensures refused { IfErr result (λ e. ExplainsRoom e (source_of t.now) p.now.block_log) }
{
    let program = t.program();
    match banks(alloc, program, p.block_log) {
        Err(lack) => Err(CompileError::from(lack)),
        Ok(places) => match compiled(alloc, program, &places, p, l) {
            Ok(object) => Ok(object),
            Err(_) => Err(CompileError::Memory),
        },
    }
}

/// Compiles a program as [`compile`] does, for `--fast`: arrays stay in the scratchpad for the whole run if there is room
/// for them, so that an access of them shows nothing on the bus. The first scalars and numbers stay in registers, and are
/// operands there. Expressions are made cheaper ([`source_folding::folded`]), and steps replace products, quotients and
/// remainders by numbers (`strength_reduction`). Each variable is at the place that [`fast_plan`] gives it. A program is
/// rejected exactly if its variables lack room before arrays of several blocks are spread over slots, with the first
/// cause. In an arm without its effect, a word may be read in place of being stored: `stores` counts such reads too.
pub fn compile_fast(
    alloc: Global,
    t: &Typed,
    p: &Profile,
    l: &Latencies,
) -> Result<Object, CompileError>
    requires profile { ProfileFits p.now }
    requires latencies { LatenciesFit l.now }
    ensures accepted { IfOk result (λ o. Accepts o) }
    ensures implements { IfOk result (λ o. Implements (source_of t.now) o) }
    ensures laid_out { IfOk result (λ o. HasFastLayout (source_of t.now) p.now.block_log o) }
    ensures machine { IfOk result (λ o. IsFor p.now l.now o) }
    ensures size { IfOk result (λ o. length o.code ≤ 120 * weight_of (source_of t.now) + 116) }
    ensures stores { IfOk result (λ o. stored_words true o.code ≡ stores_with_residents (source_of t.now) p.now) }
    ensures in_range { IfOk result (λ o. IsInRange o) }
    ensures fits { OnOk result (ResidentsFit (source_of t.now) p.now.block_log) }
    ensures refused { IfErr result (λ e. ExplainsResidents e (source_of t.now) p.now.block_log) }
{
    let program = t.program();
    match fast_plan(alloc, program, p.block_log) {
        Err(lack) => Err(CompileError::from(lack)),
        Ok(plan) => match planned_folded(alloc, program, &plan.places, &plan.slots, p, l) {
            Ok(object) => Ok(object),
            Err(_) => Err(CompileError::Memory),
        },
    }
}
