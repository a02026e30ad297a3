ghost use Rattle.std.specs.Prelude.{◌≡◌, ◌++◌, ◌∷◌, [], IfOk, IfErr, OnOk, option_map};
ghost use Rattle.gr_base.specs.Prelude.{IfFault};
ghost use Rattle.src_tree.specs.Prelude.{source_of, statement_of};
ghost use Rattle.src_parser.specs.Explained.{ExplainsTokens};
ghost use Rattle.src_parser.specs.Fails.{fail_of};
ghost use Rattle.src_parser.specs.Grammar.{limits, Sentence};
ghost use Rattle.src_parser.specs.Readers.{ReadsTo, Stops};
ghost use Rattle.src_parser.specs.Refusals.{token_kinds};
ghost use Rattle.src_parser.specs.Seen.{advance_of, among, state_of, heading_of, phase_of};
ghost use Rattle.src_parser.specs.Advances.{between, advanced, programs, program_of, Between, Declaring, Doing};
ghost use Rattle.src_parser.specs.Statements.{between_statements};
ghost use Rattle.src_parser.specs.Tokenwise.{mapped};

use crate::assignments::read_assignment;
use crate::errors::{ParseError, ParseFault};
use crate::headings::{Heading, HeadingAdvance, read_heading};
use crate::languages::Programs;
use crate::putting::{push, put};
use crate::readers::{TokenReader, read_tree};
use crate::statements::{begin, complete, perform};
use crate::states::{Advance, Blocks, ParserState, Pause, Phase};
use gr_base::{Fail, Memory};
use gr_word::Label;
use src_lexer::{Kind, Token};
use src_tree::{Decl, Program, Stmt};
use std::alloc::Global;
use std::mem;

// Reads the first token of the statements.
#[tactic(auto, using(crate::proofs::ProgramSteps::in_program))]
fn start(
    alloc: Global,
    state: &mut ParserState,
    decls: Vec<Decl>,
    kind: &Kind,
) -> Result<Advance, Memory>
    ensures { IfOk result (λ t. advance_of t (state_of state.new)
        ≡ mapped (Doing decls.items) (between_statements programs [] [] kind.now)) }
{
    let mut blocks = Blocks {
        outer: Vec::new(alloc),
        here: Vec::new(alloc),
    };
    let mut phase = Phase::Between(Pause::Ready);
    let advance = begin::<Programs>(alloc, &mut blocks, &mut phase, kind);
    put(state, ParserState::Doing(decls, blocks, phase));
    advance
}

// Reads a token between declarations, or the first token of the statements.
fn begin_declaration(
    alloc: Global,
    state: &mut ParserState,
    decls: Vec<Decl>,
    kind: &Kind,
) -> Result<Advance, Memory>
    ensures { IfOk result (λ t. advance_of t (state_of state.new) ≡ between decls.items kind.now) }
{
    match kind {
        Kind::Public => {
            put(
                state,
                ParserState::Declaring(decls, Heading::Labelled(Label::Public)),
            );
            Ok(Advance::Goes)
        }
        Kind::Secret => {
            put(
                state,
                ParserState::Declaring(decls, Heading::Labelled(Label::Secret)),
            );
            Ok(Advance::Goes)
        }
        _ => start(alloc, state, decls, kind),
    }
}

// Adds a declaration that is complete; the next one may begin.
fn add_declaration(state: &mut ParserState, mut decls: Vec<Decl>, decl: Decl) -> Result<(), Memory>
    ensures { IfOk result (λ _. state_of state.new ≡ Between (decls.items ++ decl ∷ [])) }
{
    push(&mut decls, decl)?;
    put(state, ParserState::Between(decls));
    Ok(())
}

// Reads the next token of a declaration.
fn declare(
    alloc: Global,
    state: &mut ParserState,
    decls: Vec<Decl>,
    heading: Heading,
    kind: &Kind,
) -> Result<Advance, Memory>
    ensures { IfOk result (λ t. advance_of t (state_of state.new)
        ≡ advanced limits (Declaring decls.items (heading_of heading)) kind.now) }
{
    match read_heading(alloc, heading, kind)? {
        HeadingAdvance::Goes(next) => {
            put(state, ParserState::Declaring(decls, next));
            Ok(Advance::Goes)
        }
        HeadingAdvance::Ends(decl) => {
            add_declaration(state, decls, decl)?;
            Ok(Advance::Goes)
        }
        HeadingAdvance::Wrong => Ok(Advance::Wrong),
    }
}

// Reads the next token of a program.
fn take(alloc: Global, state: &mut ParserState, kind: &Kind) -> Result<Advance, Memory>
    ensures { IfOk result (λ t. advance_of t (state_of state.new) ≡ advanced limits (state_of state.old) kind.now) }
{
    match state {
        ParserState::Doing(_decls, blocks, phase) => {
            perform::<Programs>(alloc, 0, blocks, phase, kind)
        }
        ParserState::Between(decls) => {
            let decls = mem::replace(decls, Vec::new(alloc));
            begin_declaration(alloc, state, decls, kind)
        }
        ParserState::Declaring(decls, heading) => {
            let decls = mem::replace(decls, Vec::new(alloc));
            let heading = mem::replace(heading, Heading::Labelled(Label::Public));
            declare(alloc, state, decls, heading, kind)
        }
    }
}

// The program, if its statements are complete.
fn settle(
    alloc: Global,
    decls: Vec<Decl>,
    blocks: Blocks<Stmt>,
    phase: Phase<Stmt>,
) -> Result<Option<Program>, Memory>
    ensures { IfOk result (λ p. option_map source_of p
        ≡ program_of (Doing decls.items (among statement_of blocks (phase_of statement_of phase)))) }
{
    match complete::<Programs>(alloc, blocks, phase)? {
        Some(body) => Ok(Some(Program { decls, body })),
        None => Ok(None),
    }
}

// The program, if it is complete.
fn conclude(alloc: Global, state: ParserState) -> Result<Option<Program>, Memory>
    ensures { IfOk result (λ p. option_map source_of p ≡ program_of (state_of state)) }
{
    match state {
        ParserState::Doing(decls, blocks, phase) => settle(alloc, decls, blocks, phase),
        ParserState::Between(decls) => Ok(Some(Program {
            decls,
            body: Vec::new(alloc),
        })),
        ParserState::Declaring(_decls, heading) => {
            drop(heading);
            Ok(None)
        }
    }
}

// Reads tokens, each assignment in one go.
fn read_tokens(
    alloc: Global,
    state: &mut ParserState,
    tokens: &[Token],
) -> Result<(), Fail<ParseFault>>
    ensures leads { OnOk result (ReadsTo advanced (state_of state.old) tokens.now (state_of state.new)) }
    ensures stops { IfErr result (IfFault (Stops advanced (state_of state.old) tokens.now)) }
{
    let mut at = 0;
    while at < tokens.len() {
        let Ok(count) = read_assignment(alloc, state, tokens.split_at(at).1) else {
            return Err(Fail::Memory);
        };
        if count > 0 {
            at += count;
            continue;
        }
        let token = &tokens[at];
        let Ok(advance) = take(alloc, state, &token.kind) else {
            return Err(Fail::Memory);
        };
        match advance {
            Advance::Goes => at += 1,
            Advance::Wrong => return Err(Fail::Fault(ParseFault::Unexpected(token.start))),
            Advance::TooMuch => return Err(Fail::Fault(ParseFault::TooDeep(token.start))),
        }
    }
    Ok(())
}

/// A reader of programs: it is passed a program's tokens in several lists.
#[derive(Drop)]
pub struct ProgramReader {
    state: ParserState,
}

impl TokenReader for ProgramReader {
    ghost use Rattle.std.specs.Prelude.{[]};
    ghost use Rattle.src_tree.specs.Trees.{source_of};
    ghost use Rattle.src_parser.specs.Advances.{advanced, Between};
    ghost use Rattle.src_parser.specs.Explained.{ExplainsTokens};
    ghost use Rattle.src_parser.specs.Grammar.{limits, Sentence};
    ghost use Rattle.src_parser.specs.Readers.{ReadsTo};
    ghost use Rattle.src_parser.specs.Refusals.{token_kinds};
    ghost use Rattle.src_parser.specs.Seen.{state_of};

    type Tree = Program;

    ghost IsTree = { λ tokens program. Sentence limits (token_kinds tokens) (source_of program) };

    ghost Explains = { ExplainsTokens };

    ghost HasRead = { λ tokens reader. ReadsTo advanced (Between []) tokens (state_of reader.state) };

    fn new(alloc: Global) -> ProgramReader {
        ProgramReader {
            state: ParserState::Between(Vec::new(alloc)),
        }
    }

    fn read(&mut self, alloc: Global, tokens: &[Token]) -> Result<(), Fail<ParseFault>> {
        read_tokens(alloc, &mut self.state, tokens)
    }

    fn finish(self, alloc: Global) -> Result<Program, Fail<ParseFault>> {
        match conclude(alloc, self.state)? {
            Some(program) => Ok(program),
            None => Err(Fail::Fault(ParseFault::EndOfText)),
        }
    }
}

/// The tree of a program. The tokens are read once, from the first to the last, with a stack of what is open.
///
/// `Unexpected` and `TooDeep` name the first byte of the token with the first error. With `Unexpected`, no program can
/// continue with that token. With `TooDeep`, it exceeds a limit of nesting: 32 open brackets and signs of a statement's
/// own expressions, 32 open braces, 256 operators and signs of a statement's own expressions. `EndOfText` means that
/// the tokens begin a program but aren't one. `Memory` says nothing about the tokens.
pub fn parse(alloc: Global, tokens: &[Token]) -> Result<Program, ParseError>
    ensures parsed { IfOk result (λ program. Sentence limits (token_kinds tokens.now) (source_of program)) }
    ensures refused { IfErr result (λ error. IfFault (λ fault. ExplainsTokens fault tokens.now) (fail_of error)) }
{
    let program = read_tree::<ProgramReader>(alloc, tokens)?;
    Ok(program)
}
