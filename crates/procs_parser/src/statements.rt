ghost use Rattle.std.specs.Prelude.{◌≡◌, [], IfOk, Some, bytes_eq, map};
ghost use Rattle.src_parser.specs.Prelude.{limits, among, outers_of, phase_of, complete_of, Among, Ready};
ghost use Rattle.procs_tree.specs.Prelude.{statement_of};
ghost use Rattle.procs_parser.specs.FileAdvances.{advanced, ending, front_depth, opening, performs, target_of, with_calls, Doing};
ghost use Rattle.procs_parser.specs.FileGrammar.{proc_word};
ghost use Rattle.procs_parser.specs.StatesSeen.{advance_of, doing, front_of, opened};

use crate::calls::read_call;
use crate::languages::ProcFiles;
use crate::states::{CallAdvance, CallPhase, FileAdvance, Front, Head, Mode};
use gr_base::Memory;
use gr_word::Name;
use procs_tree::{PStmt, Proc};
use src_lexer::Kind;
use src_parser::parts::{Lead, Part};
use src_parser::putting::put;
use src_parser::statements::{complete, is_complete, perform};
use src_parser::states::{Advance, Blocks, Pause, Phase};
use std::alloc::Global;
use std::mem;

// The braces that are open around the statements.
fn front_depth(front: &Front) -> usize
    ensures { result ≡ front_depth (front_of front.now) }
{
    match front {
        Front::Outside(_, _) => 0,
        Front::InProcedure(_, _, _) => 1,
    }
}

// Reads a token of a statement that isn't a call.
fn read_other(
    alloc: Global,
    front: &Front,
    blocks: &mut Blocks<PStmt>,
    phase: &mut Phase<PStmt>,
    kind: &Kind,
) -> Result<FileAdvance, Memory>
    ensures { IfOk result (λ t.
        advance_of t (Doing (front_of front.now) (among statement_of blocks.new (phase_of statement_of phase.new)))
        ≡ performs limits (front_of front.now) (among statement_of blocks.old (phase_of statement_of phase.old))
        kind.now) }
{
    match perform::<ProcFiles>(alloc, front_depth(front), blocks, phase, kind)? {
        Advance::Goes => Ok(FileAdvance::Goes),
        Advance::Wrong => Ok(FileAdvance::Wrong),
        Advance::TooMuch => Ok(FileAdvance::TooMuch),
    }
}

// The name that a statement begins with, if no more of it was read.
fn target(alloc: Global, phase: &Phase<PStmt>) -> Result<Option<Name>, Memory>
    ensures { IfOk result (λ o. o ≡ target_of (phase_of statement_of phase.now)) }
{
    match phase {
        Phase::InPart(part) => match part {
            Part::Before(lead) => match lead {
                Lead::Target(name) => Ok(Some(name.copy(alloc)?)),
                Lead::Placed(_, _, _) => Ok(None),
                Lead::Guarding(_) => Ok(None),
            },
            Part::Inside(_, _) => Ok(None),
        },
        Phase::Between(pause) => match pause {
            Pause::Ready => Ok(None),
            Pause::MayElse(_, _) => Ok(None),
            Pause::Guarded(_, _) => Ok(None),
            Pause::Otherwise(_, _) => Ok(None),
        },
    }
}

// Whether a name is `proc`.
fn is_proc(name: &Name) -> bool
    ensures { result ≡ bytes_eq name.now proc_word }
{
    name.bytes() == b"proc".as_slice()
}

// What comes before a procedure that begins with its name after `proc`, if no statement comes before it.
fn open(
    alloc: Global,
    front: &mut Front,
    blocks: &Blocks<PStmt>,
    is_proc: bool,
    name: Name,
) -> Option<Head>
    ensures { opened result ≡ opening (front_of front.old) (outers_of statement_of blocks.now.outer.items)
        (map statement_of blocks.now.here.items) is_proc name }
{
    if !is_proc {
        return None;
    }
    if !blocks.outer.is_empty() {
        return None;
    }
    if !blocks.here.is_empty() {
        return None;
    }
    let outside = Front::Outside(Vec::new(alloc), Vec::new(alloc));
    match mem::replace(front, outside) {
        Front::Outside(decls, procs) => Some(Head { decls, procs, name }),
        Front::InProcedure(_head, _params, _locals) => None,
    }
}

// Ends a procedure with these statements, if one is open.
fn end_procedure(
    alloc: Global,
    front: &mut Front,
    mut body: Vec<PStmt>,
) -> Result<FileAdvance, Memory>
    ensures { IfOk result (λ t. advance_of t (Doing (front_of front.new) (Among [] [] Ready))
        ≡ ending (front_of front.old) (Some (map statement_of body.items))) }
{
    let outside = Front::Outside(Vec::new(alloc), Vec::new(alloc));
    match mem::replace(front, outside) {
        Front::Outside(_decls, _procs) => Ok(FileAdvance::Wrong),
        Front::InProcedure(head, params, locals) => {
            let Head {
                decls,
                mut procs,
                name,
            } = head;
            body.shrink_to_fit();
            procs.push(Proc {
                name,
                params,
                locals,
                body,
            })?;
            put(front, Front::Outside(decls, procs));
            Ok(FileAdvance::Goes)
        }
    }
}

// Reads the closing brace of a procedure after its statements.
fn close(
    alloc: Global,
    front: &mut Front,
    blocks: &mut Blocks<PStmt>,
    phase: &mut Phase<PStmt>,
) -> Result<FileAdvance, Memory>
    ensures { IfOk result (λ t.
        advance_of t (Doing (front_of front.new) (among statement_of blocks.new (phase_of statement_of phase.new)))
        ≡ ending (front_of front.old)
        (complete_of with_calls (among statement_of blocks.old (phase_of statement_of phase.old)))) }
{
    let none = Blocks {
        outer: Vec::new(alloc),
        here: Vec::new(alloc),
    };
    let all = mem::replace(blocks, none);
    let last = mem::replace(phase, Phase::Between(Pause::Ready));
    match complete::<ProcFiles>(alloc, all, last)? {
        Some(body) => end_procedure(alloc, front, body),
        None => Ok(FileAdvance::Wrong),
    }
}

// Reads the next token of statements.
pub(crate) fn read_statement(
    alloc: Global,
    front: &mut Front,
    blocks: &mut Blocks<PStmt>,
    mode: &mut Mode,
    kind: &Kind,
) -> Result<FileAdvance, Memory>
    ensures { IfOk result (λ t. advance_of t (doing front.new blocks.new mode.new)
        ≡ advanced limits (doing front.old blocks.old mode.old) kind.now) }
{
    match mode {
        Mode::Reading(phase) => match kind {
            Kind::LParen => match target(alloc, phase)? {
                Some(name) => {
                    put(
                        mode,
                        Mode::Calling(name, Vec::new(alloc), CallPhase::Opened),
                    );
                    Ok(FileAdvance::Goes)
                }
                None => read_other(alloc, front, blocks, phase, kind),
            },
            Kind::Word(other) => match target(alloc, phase)? {
                Some(name) => {
                    match open(alloc, front, blocks, is_proc(&name), other.copy(alloc)?) {
                        Some(head) => Ok(FileAdvance::Opens(head)),
                        None => Ok(FileAdvance::Wrong),
                    }
                }
                None => read_other(alloc, front, blocks, phase, kind),
            },
            Kind::RBrace => {
                if is_complete::<ProcFiles>(blocks, phase) {
                    close(alloc, front, blocks, phase)
                } else {
                    read_other(alloc, front, blocks, phase, kind)
                }
            }
            _ => read_other(alloc, front, blocks, phase, kind),
        },
        Mode::Calling(name, arguments, phase) => match read_call(alloc, arguments, phase, kind)? {
            CallAdvance::Goes => Ok(FileAdvance::Goes),
            CallAdvance::Ends => {
                let name = name.copy(alloc)?;
                let arguments = mem::replace(arguments, Vec::new(alloc));
                blocks.here.push(PStmt::Call(name, arguments))?;
                put(mode, Mode::Reading(Phase::Between(Pause::Ready)));
                Ok(FileAdvance::Goes)
            }
            CallAdvance::Wrong => Ok(FileAdvance::Wrong),
            CallAdvance::TooMuch => Ok(FileAdvance::TooMuch),
        },
    }
}
