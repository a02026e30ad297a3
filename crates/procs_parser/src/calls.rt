ghost use Rattle.std.specs.Prelude.{◌≡◌, IfOk, option_map};
ghost use Rattle.src_tree.specs.Prelude.{expr_tree};
ghost use Rattle.src_parser.specs.Prelude.{limits, reads, reading_of};
ghost use Rattle.procs_tree.specs.Prelude.{trees_of};
ghost use Rattle.procs_parser.specs.Calls.{argument_ends, behind_argument, call_advanced, in_argument, InCall};
ghost use Rattle.procs_parser.specs.StatesSeen.{call_advance_of, call_phase_of};

use crate::states::{CallAdvance, CallPhase};
use gr_base::Memory;
use src_lexer::Kind;
use src_parser::expressions::{finish, fresh, read};
use src_parser::putting::put;
use src_parser::readings::{Reading, TokenStep};
use src_tree::Expr;
use std::alloc::Global;

// Reads a token after an argument.
fn behind_argument(
    alloc: Global,
    arguments: &mut Vec<Expr>,
    phase: &mut CallPhase,
    used: u32,
    kind: &Kind,
) -> CallAdvance
    ensures { call_advance_of result (InCall (trees_of arguments.new.items) (call_phase_of phase.new))
        ≡ behind_argument (trees_of arguments.old.items) used kind.now }
{
    match kind {
        Kind::Semi => {
            put(phase, CallPhase::Argument(fresh(alloc, 0, used)));
            CallAdvance::Goes
        }
        Kind::RParen => {
            arguments.shrink_to_fit();
            put(phase, CallPhase::Called);
            CallAdvance::Goes
        }
        _ => CallAdvance::Wrong,
    }
}

// Ends an argument, if it is complete, and reads the token after it.
fn end_argument(
    alloc: Global,
    arguments: &mut Vec<Expr>,
    phase: &mut CallPhase,
    argument: Option<Expr>,
    used: u32,
    kind: &Kind,
) -> Result<CallAdvance, Memory>
    ensures { IfOk result (λ t. call_advance_of t (InCall (trees_of arguments.new.items) (call_phase_of phase.new))
        ≡ argument_ends (trees_of arguments.old.items) (option_map expr_tree argument) used kind.now) }
{
    match argument {
        None => Ok(CallAdvance::Wrong),
        Some(tree) => {
            arguments.push(tree)?;
            Ok(behind_argument(alloc, arguments, phase, used, kind))
        }
    }
}

// Reads the first token of the first argument.
fn begin_argument(
    alloc: Global,
    arguments: &mut Vec<Expr>,
    phase: &mut CallPhase,
    mut reading: Reading,
    kind: &Kind,
) -> Result<CallAdvance, Memory>
    ensures { IfOk result (λ t. call_advance_of t (InCall (trees_of arguments.new.items) (call_phase_of phase.new))
        ≡ in_argument (trees_of arguments.old.items) kind.now (reads limits (reading_of reading) kind.now)) }
{
    let Ok(step) = read(alloc, &mut reading, kind) else {
        drop(reading);
        return Err(Memory);
    };
    match step {
        TokenStep::Moves => {
            put(phase, CallPhase::Argument(reading));
            Ok(CallAdvance::Goes)
        }
        TokenStep::Stops => {
            let used = reading.used;
            let argument = finish(&mut reading);
            end_argument(alloc, arguments, phase, argument, used, kind)
        }
        TokenStep::Deep => {
            drop(reading);
            Ok(CallAdvance::TooMuch)
        }
    }
}

// Reads the next token of a call after its `(`.
pub(crate) fn read_call(
    alloc: Global,
    arguments: &mut Vec<Expr>,
    phase: &mut CallPhase,
    kind: &Kind,
) -> Result<CallAdvance, Memory>
    ensures { IfOk result (λ t. call_advance_of t (InCall (trees_of arguments.new.items) (call_phase_of phase.new))
        ≡ call_advanced limits (InCall (trees_of arguments.old.items) (call_phase_of phase.old)) kind.now) }
{
    match phase {
        CallPhase::Opened => match kind {
            Kind::RParen => {
                put(phase, CallPhase::Called);
                Ok(CallAdvance::Goes)
            }
            _ => begin_argument(alloc, arguments, phase, fresh(alloc, 0, 0), kind),
        },
        CallPhase::Argument(reading) => match read(alloc, reading, kind)? {
            TokenStep::Moves => Ok(CallAdvance::Goes),
            TokenStep::Stops => {
                let used = reading.used;
                let argument = finish(reading);
                end_argument(alloc, arguments, phase, argument, used, kind)
            }
            TokenStep::Deep => Ok(CallAdvance::TooMuch),
        },
        CallPhase::Called => match kind {
            Kind::Semi => Ok(CallAdvance::Ends),
            _ => Ok(CallAdvance::Wrong),
        },
    }
}
