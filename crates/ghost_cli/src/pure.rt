ghost use Rattle.std.specs.Prelude.{◌≡◌, ◌≤◌, ℤ, IfErr, IfOk, List, Ok, length};
ghost use Rattle.lt_isa.specs.Prelude.{IsOblivious, ProfileFits, FitsObject, wants_of};
ghost use Rattle.trace_patterns.specs.Prelude.{Accepts};
ghost use Rattle.call_laws.specs.Prelude.{IsObjectOf, SpellsProgram};
ghost use Rattle.call_steps.specs.Prelude.{SpellsObject, object_limit, EndsWorkWith, AreInputs, WhichInputs, source_limit, input_limit, or_ends, Work};
ghost use Rattle.ghost_cli.specs.Pure.{NotChecked, NotCompiled, NotRun, RunsTo, TracesTo};
ghost use Rattle.call_replies.specs.Prelude.{said};
ghost use Rattle.call_replies.specs.declared.replies.Verdict.TheVariants.{BadInput};

use call_replies::replies::Reply;
use call_steps::oblivious::SeededOram;
use call_steps::reading::{checked, inputs_in, object_in};
use call_steps::sources::source_in;
use call_steps::targets::Target;
use compile_step::object_bytes;
use gr_word::Inputs;
use lt_checker::Accepted;
use machine_verbs::run::{Ran, run_to_end};
use machine_verbs::trace::trace_text;
use std::alloc::Global;

/// The accepted object that these bytes encode: `check` over bytes. The bytes are at most 33,554,432.
///
/// `Err` if they don't encode an object, if the check rejects it, or if memory runs out: the reply says which, as the
/// program would print it.
pub fn checked_bytes<'a>(alloc: Global, bytes: &[u8]) -> Result<Accepted, Reply<'a>>
    requires { length bytes.now ≤ object_limit }
    ensures spelled { IfOk result (λ o. SpellsObject bytes.now o) }
    ensures oblivious { IfOk result (λ o. IsOblivious o) }
    ensures refused { IfErr result (λ reply. NotChecked bytes.now (said reply)) }
{
    let object = object_in(alloc, bytes)?;
    checked(alloc, object)
}

/// The bytes of the object file of this text's program, for this target: `compile` over bytes. With `procs` the text
/// may have procedures. It has at most 1,048,576 bytes.
///
/// `Err` if the text isn't a program, if the program has no room on the machine, or if memory runs out: the reply says
/// which, as the program would print it.
pub fn compiled_bytes<'a>(
    alloc: Global,
    text: &[u8],
    procs: bool,
    target: &Target,
) -> Result<Vec<u8>, Reply<'a>>
    requires short { length text.now ≤ source_limit }
    requires fits { ProfileFits target.now.profile }
    ensures compiled { IfOk result (λ bytes.
        IsObjectOf Accepts (SpellsProgram procs) target.now.profile text.now bytes.items) }
    ensures refused { IfErr result (λ reply. NotCompiled procs text.now target.now (said reply)) }
{
    let program = source_in(alloc, text, procs)?;
    object_bytes(alloc, &program, target)
}

/// Runs the accepted object that the first bytes encode on the inputs that the second give as JSON, for at most that
/// many cycles: `run` over bytes. The object has at most 33,554,432 bytes, the input 67,108,864.
///
/// `Err` if there isn't an accepted object, if the input gives it no inputs, or if memory runs out: the reply says
/// which, as the program would print it. A run that uses up its cycles is `Ok`.
pub fn run_bytes<'a>(
    alloc: Global,
    object: &[u8],
    input: &[u8],
    cycles: u32,
) -> Result<Ran, Reply<'a>>
    requires object { length object.now ≤ object_limit }
    requires input { length input.now ≤ input_limit }
    requires some_cycle { 1 ≤ cycles }
    ensures ran { IfOk result (λ ran. RunsTo object.now input.now cycles ran) }
    ensures refused { IfErr result (λ reply. NotRun object.now input.now (said reply)) }
{
    let accepted = checked_bytes(alloc, object)?;
    let inputs = given_inputs(alloc, &accepted, input)?;
    Ok(run_to_end::<SeededOram>(alloc, &accepted, &inputs, cycles, 0)?)
}

/// The text of the trace of the accepted object that the first bytes encode, on the inputs that the second give as JSON,
/// for at most that many cycles: `trace` without `--paths` over bytes. The last line says whether the run halted. The
/// object has at most 33,554,432 bytes, the input 67,108,864.
///
/// `Err` if there isn't an accepted object, if the input gives it no inputs, or if memory runs out: the reply says
/// which, as the program would print it.
pub fn trace_bytes<'a>(
    alloc: Global,
    object: &[u8],
    input: &[u8],
    cycles: u32,
) -> Result<Vec<u8>, Reply<'a>>
    requires object { length object.now ≤ object_limit }
    requires input { length input.now ≤ input_limit }
    requires some_cycle { 1 ≤ cycles }
    ensures traced { IfOk result (λ text. TracesTo object.now input.now cycles text.items) }
    ensures refused { IfErr result (λ reply. NotRun object.now input.now (said reply)) }
{
    let accepted = checked_bytes(alloc, object)?;
    let inputs = given_inputs(alloc, &accepted, input)?;
    Ok(trace_text(alloc, &accepted, &inputs, cycles)?)
}

/// The inputs of an object that these bytes give.
fn given_inputs<'a>(alloc: Global, accepted: &Accepted, json: &[u8]) -> Result<Inputs, Reply<'a>>
    requires { length json.now ≤ input_limit }
    ensures given { IfOk result (λ inputs. AreInputs (wants_of accepted.now) json.now (Ok inputs)) }
    ensures fits { IfOk result (λ inputs. FitsObject accepted.now inputs) }
    ensures refused { IfErr result (λ reply. (next : List (List ℤ) → Work)
        → EndsWorkWith (WhichInputs (wants_of accepted.now) json.now) (or_ends BadInput next) (said reply)) }
{
    let wants = accepted.object().wants(alloc)?;
    inputs_in(alloc, &wants, json)
}
