//! The object of a program, or the reply if it has none.
ghost use Rattle.std.specs.Prelude.{IfErr, IfOk, List, ℕ, ◌≡◌};
ghost use Rattle.lt_isa.specs.Prelude.{IsInRange, ProfileFits};
ghost use Rattle.object_file.specs.Prelude.{spelling};
ghost use Rattle.src_tree.specs.Prelude.{source_of};
ghost use Rattle.call_steps.specs.Prelude.{on_compiled, IsCompiledTo, LacksRoom, room_fault, EndsWorkWith, SaysSource, WhichCompiled};
ghost use Rattle.call_replies.specs.Prelude.{said};

use call_replies::replies::{Reply, Verdict};
use call_replies::source_faults::SourceFault;
use call_steps::targets::Target;
use compiled_objects::CompileError;
use flow_types::Typed;
use lt_isa::{Latencies, Object};
use object_file::encode;
use std::alloc::Global;

/// The bytes of the program's object file for this target, or the reply if it has none.
pub fn object_bytes<'a>(
    alloc: Global,
    program: &Typed,
    target: &Target,
) -> Result<Vec<u8>, Reply<'a>>
    requires { ProfileFits target.now.profile }
    ensures compiled { IfOk result (λ bytes. IsCompiledTo (source_of program.now) target.now bytes.items) }
    ensures refused { IfErr result (λ reply. (output : List ℕ)
        → EndsWorkWith (WhichCompiled (source_of program.now) target.now) (on_compiled output) (said reply)) }
{
    let object = object_of(alloc, program, target)?;
    Ok(encode(alloc, &object)?)
}

/// The program's object for this target, or the reply if it has none.
pub fn object_of<'a>(alloc: Global, program: &Typed, target: &Target) -> Result<Object, Reply<'a>>
    requires { ProfileFits target.now.profile }
    ensures in_range { IfOk result (λ o. IsInRange o) }
    ensures compiled { IfOk result (λ o. IsCompiledTo (source_of program.now) target.now (spelling o)) }
    ensures refused { IfErr result (λ reply. (output : List ℕ)
        → EndsWorkWith (WhichCompiled (source_of program.now) target.now) (on_compiled output) (said reply)) }
{
    match compiled(alloc, program, target) {
        Ok(object) => Ok(object),
        Err(fault) => Err(no_room(fault)),
    }
}

/// Compiles a program for this target.
fn compiled(alloc: Global, program: &Typed, target: &Target) -> Result<Object, CompileError>
    requires { ProfileFits target.now.profile }
    ensures compiled { IfOk result (λ o. IsCompiledTo (source_of program.now) target.now (spelling o)) }
    ensures in_range { IfOk result (λ o. IsInRange o) }
    ensures refused { IfErr result (λ e.
        LacksRoom target.now.fast e (source_of program.now) target.now.profile.block_log) }
{
    let latencies = Latencies::usual();
    if target.fast {
        code_gen::compile_fast(alloc, program, &target.profile, &latencies)
    } else {
        code_gen::compile(alloc, program, &target.profile, &latencies)
    }
}

/// The reply for a program that wasn't compiled: what lacks room, or that memory ran out.
fn no_room<'a>(fault: CompileError) -> Reply<'a>
    ensures { SaysSource (room_fault fault) (said result) }
{
    match room_fault(fault) {
        Some(shown) => Reply::Comes(Verdict::BadSource(shown)),
        None => Reply::NoMemory,
    }
}

/// What lacks room as it is shown; running out of memory isn't one.
fn room_fault(fault: CompileError) -> Option<SourceFault>
    ensures { result ≡ room_fault fault }
{
    match fault {
        CompileError::TooManyScalars(label) => Some(SourceFault::Scalars(label)),
        CompileError::BankFull(bank) => Some(SourceFault::BankFull(bank)),
        CompileError::Memory => None,
    }
}
