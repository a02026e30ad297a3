ghost use Rattle.std.specs.Prelude.{◌≡◌, IfOk};
ghost use Rattle.src_parser.specs.Prelude.{limits, heading_of};
ghost use Rattle.procs_parser.specs.FileAdvances.{between, starts, advanced, Declaring};
ghost use Rattle.procs_parser.specs.StatesSeen.{advance_of, state_of, front_of};

use crate::statements::read_statement;
use crate::states::{FileAdvance, Front, Mode, ParserState, Start};
use gr_base::Memory;
use gr_word::Label;
use src_lexer::Kind;
use src_parser::headings::{Heading, HeadingAdvance, read_heading};
use src_parser::putting::put;
use src_parser::states::{Blocks, Pause, Phase};
use src_tree::Decl;
use std::alloc::Global;

// The first token of the statements of a file or of a procedure.
pub(crate) fn start_statements(
    alloc: Global,
    state: &mut ParserState,
    mut front: Front,
    kind: &Kind,
) -> Result<FileAdvance, Memory>
    ensures { IfOk result (λ t. advance_of t (state_of state.new) ≡ starts limits (front_of front) kind.now) }
{
    let mut blocks = Blocks {
        outer: Vec::new(alloc),
        here: Vec::new(alloc),
    };
    let mut mode = Mode::Reading(Phase::Between(Pause::Ready));
    let advance = read_statement(alloc, &mut front, &mut blocks, &mut mode, kind);
    put(state, ParserState::Doing(front, blocks, mode));
    advance
}

// A token between declarations, or the first of the statements.
pub(crate) fn begin_declaration(
    alloc: Global,
    state: &mut ParserState,
    decls: Vec<Decl>,
    kind: &Kind,
) -> Result<FileAdvance, Memory>
    ensures { IfOk result (λ t. advance_of t (state_of state.new) ≡ between limits decls.items kind.now) }
{
    match kind {
        Kind::Public => {
            put(
                state,
                ParserState::Before(Start::Declaring(decls, Heading::Labelled(Label::Public))),
            );
            Ok(FileAdvance::Goes)
        }
        Kind::Secret => {
            put(
                state,
                ParserState::Before(Start::Declaring(decls, Heading::Labelled(Label::Secret))),
            );
            Ok(FileAdvance::Goes)
        }
        _ => start_statements(alloc, state, Front::Outside(decls, Vec::new(alloc)), kind),
    }
}

// The next token of a declaration.
pub(crate) fn declare(
    alloc: Global,
    state: &mut ParserState,
    mut decls: Vec<Decl>,
    heading: Heading,
    kind: &Kind,
) -> Result<FileAdvance, Memory>
    ensures { IfOk result (λ t. advance_of t (state_of state.new)
        ≡ advanced limits (Declaring decls.items (heading_of heading)) kind.now) }
{
    match read_heading(alloc, heading, kind)? {
        HeadingAdvance::Goes(next) => {
            put(state, ParserState::Before(Start::Declaring(decls, next)));
            Ok(FileAdvance::Goes)
        }
        HeadingAdvance::Ends(decl) => {
            decls.push(decl)?;
            put(state, ParserState::Before(Start::Between(decls)));
            Ok(FileAdvance::Goes)
        }
        HeadingAdvance::Wrong => Ok(FileAdvance::Wrong),
    }
}
