ghost use Rattle.std.specs.Prelude.{◌≤◌, IfErr, IfOk, IfSome, false, length, true};
ghost use Rattle.src_tree.specs.Prelude.{Source, source_of};
ghost use Rattle.call_steps.specs.Progress.{EndsWorkWith, SaysSource};
ghost use Rattle.call_steps.specs.Questions.{WhichSource};
ghost use Rattle.call_steps.specs.Outside.{stage};
ghost use Rattle.call_steps.specs.Reached.{Finds, FindsNone};
ghost use Rattle.call_steps.specs.Sources.{IsFirstSourceFault, Spells, SpellsTyped, source_limit};
ghost use Rattle.call_replies.specs.declared.replies.Verdict.TheVariants.{BadSource};
ghost use Rattle.call_steps.specs.Steps.{or_ends, with_source};
ghost use Rattle.call_replies.specs.Prelude.{said};
ghost use Rattle.call_steps.specs.Work.{Work};

use crate::reading::read_whole;
use crate::source_faults::{program_fault, shown_call_fault, text_fault};
use call_replies::replies::{Reply, Verdict};
use call_replies::source_faults::SourceFault;
use flow_types::{Typed, type_program};
use gr_base::Fail;
use gr_outside::Shelf;
use procs_parser::read_file;
use src_parser::read_source;
use src_procs::inline_owned;
use src_tree::Program;
use std::alloc::Global;

/// The most bytes that a source text may have.
const SOURCE_BYTES: u32 = 1_048_576;

/// The well-typed program of the file of this name, read with procedures or without, or the reply if it has none.
pub fn find_source<'a, F: Shelf>(
    alloc: Global,
    name: &'a str,
    procs: bool,
    shelf: &mut F,
) -> Result<Typed, Reply<'a>>
    ensures found { IfOk result (λ p. Finds (stage (F.seen shelf.old) (F.log shelf.old))
        (stage (F.seen shelf.new) (F.log shelf.new)) (with_source procs name.now) (source_of p)) }
    ensures stopped { IfErr result (λ reply. FindsNone (stage (F.seen shelf.old) (F.log shelf.old))
        (stage (F.seen shelf.new) (F.log shelf.new)) (with_source procs name.now) (said reply)) }
{
    let bytes = read_whole(name, SOURCE_BYTES, shelf)?;
    source_in(alloc, &bytes, procs)
}

/// The well-typed program of the text, read with procedures or without.
pub fn source_in<'a>(alloc: Global, text: &[u8], procs: bool) -> Result<Typed, Reply<'a>>
    requires { length text.now ≤ source_limit }
    ensures found { IfOk result (λ p. SpellsTyped procs text.now (source_of p)) }
    ensures refused { IfErr result
        (λ reply. (next : Source → Work)
        → EndsWorkWith (WhichSource procs text.now) (or_ends BadSource next) (said reply)) }
{
    match program_in(alloc, text, procs) {
        Ok(program) => match type_program(alloc, program) {
            Ok(typed) => Ok(typed),
            Err(fault) => Err(not_a_program(program_fault(fault))),
        },
        Err(shown) => Err(not_a_program(shown)),
    }
}

/// The program of the text, with procedures or without, or what is shown of its first fault; nothing is shown where
/// memory ran out. When it returns, only the program is left in memory of what was read.
fn program_in(alloc: Global, text: &[u8], procs: bool) -> Result<Program, Option<SourceFault>>
    requires { length text.now ≤ source_limit }
    ensures found { IfOk result (λ p. Spells procs text.now (source_of p)) }
    ensures refused { IfErr result (λ shown. IfSome shown (IsFirstSourceFault procs text.now)) }
{
    if procs {
        return inlined(alloc, text);
    }
    parsed(alloc, text)
}

/// The program of the text, without procedures.
fn parsed(alloc: Global, text: &[u8]) -> Result<Program, Option<SourceFault>>
    requires { length text.now ≤ source_limit }
    ensures found { IfOk result (λ p. Spells false text.now (source_of p)) }
    ensures refused { IfErr result (λ shown. IfSome shown (IsFirstSourceFault false text.now)) }
{
    match read_source(alloc, text) {
        Ok(program) => Ok(program),
        Err(Fail::Fault(fault)) => Err(text_fault(fault)),
        Err(Fail::Memory) => Err(None),
    }
}

/// The program that is made of the text's file with procedures.
fn inlined(alloc: Global, text: &[u8]) -> Result<Program, Option<SourceFault>>
    requires { length text.now ≤ source_limit }
    ensures found { IfOk result (λ p. Spells true text.now (source_of p)) }
    ensures refused { IfErr result (λ shown. IfSome shown (IsFirstSourceFault true text.now)) }
{
    match read_file(alloc, text) {
        Ok(file) => match inline_owned(alloc, file) {
            Ok(program) => Ok(program),
            Err(fault) => Err(shown_call_fault(fault)),
        },
        Err(Fail::Fault(fault)) => Err(text_fault(fault)),
        Err(Fail::Memory) => Err(None),
    }
}

/// The reply for a text that isn't a program: its fault, or that memory ran out.
fn not_a_program<'a>(shown: Option<SourceFault>) -> Reply<'a>
    ensures { SaysSource shown (said result) }
{
    match shown {
        Some(fault) => Reply::Comes(Verdict::BadSource(fault)),
        None => Reply::NoMemory,
    }
}
