ghost use Rattle.std.specs.Prelude.{◌≡◌, None, ◌^◌, ◌<◌, ◌≤◌, IfErr, IfOk, OnOk, Some, if◌then◌else◌, length, map, option_map};
ghost use Rattle.gr_base.specs.Prelude.{IfFault};
ghost use Rattle.src_parser.specs.Prelude.{fail_of, limits, ReadsTo, token_kinds, Wrong, among, phase_of};
ghost use Rattle.src_parser.specs.Readers.{Stops};
ghost use Rattle.procs_parser.specs.FileGrammar.{SpellsFile};
ghost use Rattle.procs_parser.specs.FileRefusals.{ExplainsFile};
ghost use Rattle.procs_parser.specs.FileText.{ExplainsFileText, SpellsFileText};
ghost use Rattle.procs_parser.specs.FileAdvances.{advanced, taken, is_hidden_token, file_at, program_of, Doing};
ghost use Rattle.procs_tree.specs.Prelude.{ArePlain, file_of, statement_of};
ghost use Rattle.procs_parser.specs.StatesSeen.{advance_of, front_of, start_of, state_of};

use crate::declarations::{begin_declaration, declare};
use crate::heads::name_next;
use crate::languages::ProcFiles;
use crate::statements::read_statement;
use crate::states::{CallPhase, FileAdvance, Front, HeadPhase, Mode, ParserState, Start};
use gr_base::{Fail, Memory};
use procs_tree::{PStmt, ProcFile, is_hidden};
use src_lexer::{Kind, Token};
use src_parser::putting::put;
use src_parser::statements::complete;
use src_parser::states::{Blocks, Phase};
use src_parser::{ParseError, ParseFault, TextFault, TokenReader, read_text, read_tree};
use std::alloc::Global;
use std::mem;

// Whether a token is a name that begins with `__`.
fn is_hidden_token(kind: &Kind) -> bool
    ensures { result ≡ is_hidden_token kind.now }
{
    match kind {
        Kind::Word(name) => is_hidden(name.bytes()),
        _ => false,
    }
}

// Reads a token before the first statement.
fn start(
    alloc: Global,
    state: &mut ParserState,
    start: Start,
    kind: &Kind,
) -> Result<FileAdvance, Memory>
    ensures { IfOk result (λ t. advance_of t (state_of state.new) ≡ advanced limits (start_of start) kind.now) }
{
    match start {
        Start::Between(decls) => begin_declaration(alloc, state, decls, kind),
        Start::Declaring(decls, heading) => declare(alloc, state, decls, heading, kind),
        Start::Naming(head, phase) => name_next(alloc, state, head, phase, kind),
    }
}

// The next token of a file, for any name.
fn advance(alloc: Global, state: &mut ParserState, kind: &Kind) -> Result<FileAdvance, Memory>
    ensures { IfOk result (λ t. advance_of t (state_of state.new) ≡ advanced limits (state_of state.old) kind.now) }
{
    match state {
        ParserState::Doing(front, blocks, mode) => {
            read_statement(alloc, front, blocks, mode, kind)
        }
        ParserState::Before(before) => {
            let before = mem::replace(before, Start::Between(Vec::new(alloc)));
            start(alloc, state, before, kind)
        }
    }
}

// The next token of a file.
fn take(alloc: Global, state: &mut ParserState, kind: &Kind) -> Result<FileAdvance, Memory>
    ensures { IfOk result (λ t. advance_of t (state_of state.new) ≡ taken limits (state_of state.old) kind.now) }
{
    if is_hidden_token(kind) {
        return Ok(FileAdvance::Wrong);
    }
    advance(alloc, state, kind)
}

// The file with these statements, if they are in no procedure.
fn file_with(front: Front, body: Vec<PStmt>) -> Option<ProcFile>
    ensures { option_map file_of result ≡ file_at (front_of front) (Some (map statement_of body.items)) }
{
    match front {
        Front::Outside(decls, procs) => Some(ProcFile { decls, procs, body }),
        Front::InProcedure(_head, _params, _locals) => None,
    }
}

// No file, where a call isn't complete. What was read is dropped by this call: what is dropped in line is proved at each
// exit.
fn unfinished(_front: Front, _blocks: Blocks<PStmt>, _phase: CallPhase) -> Option<ProcFile>
    ensures { result ≡ None }
{
    None
}

// The file, where its statements are whole.
fn settle(
    alloc: Global,
    front: Front,
    blocks: Blocks<PStmt>,
    phase: Phase<PStmt>,
) -> Result<Option<ProcFile>, Memory>
    ensures { IfOk result (λ p. option_map file_of p
        ≡ program_of (Doing (front_of front) (among statement_of blocks (phase_of statement_of phase)))) }
{
    match complete::<ProcFiles>(alloc, blocks, phase) {
        Ok(Some(body)) => Ok(file_with(front, body)),
        Ok(None) => {
            drop(front);
            Ok(None)
        }
        Err(error) => {
            drop(front);
            Err(error)
        }
    }
}

// The file, where no statement was read.
fn unbegun(alloc: Global, start: Start) -> Option<ProcFile>
    ensures { option_map file_of result ≡ program_of (start_of start) }
{
    match start {
        Start::Between(decls) => Some(ProcFile {
            decls,
            procs: Vec::new(alloc),
            body: Vec::new(alloc),
        }),
        Start::Declaring(_decls, heading) => {
            drop(heading);
            None
        }
        Start::Naming(head, phase) => {
            drop(head);
            drop(phase);
            None
        }
    }
}

// The file, if it is complete.
fn conclude(alloc: Global, state: ParserState) -> Result<Option<ProcFile>, Memory>
    ensures { IfOk result (λ p. option_map file_of p ≡ program_of (state_of state)) }
{
    match state {
        ParserState::Doing(front, blocks, mode) => match mode {
            Mode::Reading(phase) => settle(alloc, front, blocks, phase),
            Mode::Calling(_name, _arguments, phase) => Ok(unfinished(front, blocks, phase)),
        },
        ParserState::Before(start) => Ok(unbegun(alloc, start)),
    }
}

// Reads tokens one by one.
fn read_tokens(
    alloc: Global,
    state: &mut ParserState,
    tokens: &[Token],
) -> Result<(), Fail<ParseFault>>
    ensures leads { OnOk result (ReadsTo taken (state_of state.old) tokens.now (state_of state.new)) }
    ensures stops { IfErr result (IfFault (Stops taken (state_of state.old) tokens.now)) }
{
    for token in tokens {
        let Ok(advance) = take(alloc, state, &token.kind) else {
            return Err(Fail::Memory);
        };
        match advance {
            FileAdvance::Goes => {}
            FileAdvance::Opens(head) => {
                let start = Start::Naming(head, HeadPhase::Opening);
                put(state, ParserState::Before(start));
            }
            FileAdvance::Wrong => return Err(Fail::Fault(ParseFault::Unexpected(token.start))),
            FileAdvance::TooMuch => return Err(Fail::Fault(ParseFault::TooDeep(token.start))),
        }
    }
    Ok(())
}

/// A reader of files with procedures: it is passed a file's tokens in several lists.
#[derive(Drop)]
pub struct FileReader {
    state: ParserState,
}

impl TokenReader for FileReader {
    ghost use Rattle.std.specs.Prelude.{[]};
    ghost use Rattle.src_parser.specs.Prelude.{limits, ReadsTo, token_kinds};
    ghost use Rattle.procs_tree.specs.Prelude.{file_of};
    ghost use Rattle.procs_parser.specs.FileAdvances.{taken, Between};
    ghost use Rattle.procs_parser.specs.FileGrammar.{SpellsFile};
    ghost use Rattle.procs_parser.specs.FileRefusals.{ExplainsFile};
    ghost use Rattle.procs_parser.specs.StatesSeen.{state_of};

    type Tree = ProcFile;

    ghost IsTree = { λ tokens file. SpellsFile limits (token_kinds tokens) (file_of file) };

    ghost Explains = { ExplainsFile };

    ghost HasRead = { λ tokens reader. ReadsTo taken (Between []) tokens (state_of reader.state) };

    fn new(alloc: Global) -> FileReader {
        FileReader {
            state: ParserState::Before(Start::Between(Vec::new(alloc))),
        }
    }

    fn read(&mut self, alloc: Global, tokens: &[Token]) -> Result<(), Fail<ParseFault>> {
        read_tokens(alloc, &mut self.state, tokens)
    }

    fn finish(self, alloc: Global) -> Result<ProcFile, Fail<ParseFault>> {
        match conclude(alloc, self.state)? {
            Some(file) => Ok(file),
            None => Err(Fail::Fault(ParseFault::EndOfText)),
        }
    }
}

/// The tree of a file with procedures. The tokens are read once, from the first to the last, with what is open on a
/// stack.
///
/// `Unexpected` and `TooDeep` name the first byte of the first token at fault: with `Unexpected` no file continues with
/// it, as with a name that begins with `__`; with `TooDeep` it exceeds a limit of nesting (those of programs; the brace
/// of a procedure counts, and the arguments of a call are one statement's expressions). `EndOfText` means that the
/// tokens begin a file but aren't one. `Memory` says nothing about the tokens.
///
/// No declared name of a file begins with `__`, as `inline` of `src_procs` requires.
pub fn parse_procs(alloc: Global, tokens: &[Token]) -> Result<ProcFile, ParseError>
    ensures parsed { IfOk result (λ f. SpellsFile limits (token_kinds tokens.now) (file_of f)) }
    ensures plain { IfOk result (λ f. ArePlain f.decls.items) }
    ensures refused { IfErr result (λ error. IfFault (λ fault. ExplainsFile fault tokens.now) (fail_of error)) }
{
    let file = read_tree::<FileReader>(alloc, tokens)?;
    Ok(file)
}

/// The file with procedures of a text of at most 1,048,576 bytes, or the text's first fault. The tokens are read some at
/// a time.
///
/// No declared name of a file begins with `__`, as `inline` of `src_procs` requires.
pub fn read_file(alloc: Global, text: &[u8]) -> Result<ProcFile, Fail<TextFault>>
    requires { length text.now ≤ 2 ^ 20 }
    ensures spelled { IfOk result (λ f. SpellsFileText text.now (file_of f)) }
    ensures plain { IfOk result (λ f. ArePlain f.decls.items) }
    ensures refused { IfErr result (IfFault (λ fault. ExplainsFileText fault text.now)) }
{
    read_text::<FileReader>(alloc, text)
}
