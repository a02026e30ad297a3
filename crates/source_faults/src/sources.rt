//! Why a source is refused.

ghost use Rattle.std.specs.Prelude.{◌≤◌, ◌^◌, length};

use crate::call_faults::explain_calls_fault;
use crate::typing::explain_typing;
use bank_alloc::{PlaceError, banks};
use fault_texts::{Source, Words};
use flow_types::{TypeError, Typed, type_program};
use gr_base::Fail;
use gr_word::Label;
use procs_parser::read_file;
use procs_tree::InlineError;
use resident_alloc::resident_plan;
use source_tokens::{SOURCE_BYTES, Tokens};
use src_lexer::{LexFault, lex};
use src_parser::{ParseFault, TextFault, read_source};
use src_procs::inline_owned;
use src_tree::Program;
use std::alloc::Global;
use token_faults::{explain_byte, explain_tokens};

/// Whether a program has to have room in blocks of 2^`block_log` words, `block_log` from 3 to 9, and whether for `--fast`.
#[derive(Clone, Copy)]
pub enum Room {
    Unasked,
    Blocks { block_log: u8, is_fast: bool },
}

/// Explains why a source is refused. `has_procs` says whether it may have procedures.
pub fn explain_source(
    alloc: Global,
    name: &str,
    text: &[u8],
    has_procs: bool,
    room: Room,
    out: &mut Words,
) {
    if text.len() > SOURCE_BYTES {
        return;
    }
    let found = if has_procs {
        typed_file(alloc, text)
    } else {
        typed_source(alloc, text)
    };
    match found {
        Ok(typed) => explain_room(alloc, name, &typed, room, out),
        Err(Fault::Memory) => out.starve(),
        Err(Fault::Piece(fault)) => explain_piece(alloc, Source { name, text }, fault, out),
        Err(fault) => match lex(alloc, text) {
            Ok(all) => {
                let all = all.as_slice();
                explain_fault(alloc, Tokens { name, text, all }, has_procs, fault, out)
            }
            Err(_) => out.starve(),
        },
    }
}

// The first fault of a source: of its pieces, of its tokens, of its calls, or of its program; or memory ran out.
#[derive(Drop)]
enum Fault {
    Piece(LexFault),
    Token(ParseFault),
    Call(InlineError),
    Program(TypeError),
    Memory,
}

impl From<Fail<TextFault>> for Fault {
    fn from(fail: Fail<TextFault>) -> Fault {
        match fail {
            Fail::Fault(TextFault::Pieces(fault)) => Fault::Piece(fault),
            Fail::Fault(TextFault::Tokens(fault)) => Fault::Token(fault),
            Fail::Memory => Fault::Memory,
        }
    }
}

// The program of a source. No list of its tokens is kept beside its tree.
fn typed_source(alloc: Global, text: &[u8]) -> Result<Typed, Fault>
    requires { length text.now ≤ 2 ^ 20 }
{
    typed(alloc, read_source(alloc, text)?)
}

// The program without calls of a source with procedures.
fn typed_file(alloc: Global, text: &[u8]) -> Result<Typed, Fault>
    requires { length text.now ≤ 2 ^ 20 }
{
    let file = read_file(alloc, text)?;
    match inline_owned(alloc, file) {
        Ok(program) => typed(alloc, program),
        Err(fault) => Err(Fault::Call(fault)),
    }
}

fn typed(alloc: Global, program: Program) -> Result<Typed, Fault> {
    match type_program(alloc, program) {
        Ok(typed) => Ok(typed),
        Err(fault) => Err(Fault::Program(fault)),
    }
}

// Explains a fault of the tokens or of what they are.
fn explain_fault(
    alloc: Global,
    tokens: Tokens<'_>,
    has_procs: bool,
    fault: Fault,
    out: &mut Words,
) {
    match fault {
        Fault::Piece(_) | Fault::Memory => {}
        Fault::Token(fault) => explain_tokens(alloc, tokens, has_procs, fault, out),
        Fault::Call(fault) => explain_calls_fault(alloc, tokens, fault, out),
        Fault::Program(fault) => explain_typing(alloc, tokens, fault, out),
    }
}

fn explain_piece(alloc: Global, source: Source<'_>, fault: LexFault, out: &mut Words) {
    match fault {
        LexFault::BadByte(at) => explain_byte(alloc, source, at as usize, out),
        LexFault::NumberTooBig(at) => source.put(
            at as usize,
            "the number is too big",
            "The greatest number is 9223372036854775807; the least is written `-9223372036854775807 - 1`.",
            out,
        ),
        LexFault::NameTooLong(at) => source.put(
            at as usize,
            "the name is too long",
            "A name has at most 32 bytes.",
            out,
        ),
    }
}

fn explain_room(alloc: Global, name: &str, typed: &Typed, room: Room, out: &mut Words) {
    let Room::Blocks { block_log, is_fast } = room else {
        return;
    };
    if block_log < 3 || 9 < block_log {
        return;
    }
    let lack = if is_fast {
        resident_plan(alloc, typed.program(), block_log).err()
    } else {
        banks(alloc, typed.program(), block_log).err()
    };
    if let Some(lack) = lack {
        put_lack(name, lack, 1u64 << block_log, out);
    }
}

// Explains what has no room in blocks of this many words.
fn put_lack(name: &str, lack: PlaceError, words: u64, out: &mut Words) {
    let (what, numbers) = match lack {
        PlaceError::TooManyScalars(Label::Public) => (
            ": there are more public scalars than the {} words of a block\nPut some of them into an array",
            [words, 0],
        ),
        PlaceError::TooManyScalars(Label::Secret) => (
            ": there are more secret scalars than the {} words of a block\nPut some of them into an array",
            [words, 0],
        ),
        PlaceError::BankFull(bank) => (
            ": the arrays of bank {} need more blocks of {} words than a bank can have\nShorten them",
            [u64::from(bank), words],
        ),
        PlaceError::Memory => return out.starve(),
    };
    out.name(name);
    out.fill(what, &numbers);
    out.line(", or choose larger blocks with --block-log.");
}
