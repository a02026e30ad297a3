ghost use Rattle.std.specs.Prelude.{◌≡◌, ◌++◌, ◌∷◌, [], IfOk, None, map};
ghost use Rattle.src_parser.specs.Prelude.{limits, Goes, declared};
ghost use Rattle.procs_parser.specs.FileAdvances.{parameter_begins, Behind, ScalarTyped, ArrayTyped, ArrayTitled, NoneYet, LocalFresh, LocalTyped};
ghost use Rattle.procs_tree.specs.Prelude.{parameter_of, procedure_of};
ghost use Rattle.procs_parser.specs.StatesSeen.{advance_of, state_of, named, head_next, head_phase_of};

use crate::declarations::start_statements;
use crate::states::{FileAdvance, Front, Head, HeadPhase, ParserState, Start};
use gr_base::Memory;
use gr_word::{Label, Name};
use procs_tree::Param;
use src_lexer::Kind;
use src_parser::putting::put;
use src_tree::Decl;
use std::alloc::Global;

// The token has no place in a head, which is dropped by this call: what is dropped in line is proved at each exit.
fn wrong(_head: Head) -> FileAdvance
    ensures { result ≡ FileAdvance.Wrong }
{
    FileAdvance::Wrong
}

fn goes(state: &mut ParserState, head: Head, phase: HeadPhase) -> FileAdvance
    ensures { advance_of result (state_of state.new) ≡ Goes (named head (head_phase_of phase)) }
{
    put(state, ParserState::Before(Start::Naming(head, phase)));
    FileAdvance::Goes
}

// The first token of a parameter.
fn parameter(state: &mut ParserState, head: Head, params: Vec<Param>, kind: &Kind) -> FileAdvance
    ensures { advance_of result (state_of state.new)
        ≡ parameter_begins head.decls.items (map procedure_of head.procs.items) head.name
        (map parameter_of params.items) kind.now }
{
    match kind {
        Kind::Public => goes(
            state,
            head,
            HeadPhase::ScalarLabelled(params, Label::Public),
        ),
        Kind::Secret => goes(
            state,
            head,
            HeadPhase::ScalarLabelled(params, Label::Secret),
        ),
        Kind::Int => goes(state, head, HeadPhase::ArrayTyped(params)),
        _ => wrong(head),
    }
}

// The first token after the bracket of a head.
fn first(alloc: Global, state: &mut ParserState, head: Head, kind: &Kind) -> FileAdvance
    ensures { advance_of result (state_of state.new)
        ≡ head_next head NoneYet kind.now }
{
    match kind {
        Kind::RParen => goes(state, head, HeadPhase::AllRead(Vec::new(alloc))),
        _ => parameter(state, head, Vec::new(alloc), kind),
    }
}

// One more parameter.
fn add(
    state: &mut ParserState,
    head: Head,
    mut params: Vec<Param>,
    param: Param,
) -> Result<FileAdvance, Memory>
    ensures { IfOk result (λ t. advance_of t (state_of state.new)
        ≡ Goes (named head (Behind (map parameter_of params.items ++ parameter_of param ∷ [])))) }
{
    params.push(param)?;
    Ok(goes(state, head, HeadPhase::Behind(params)))
}

// The name of a scalar parameter.
fn scalar_name(
    alloc: Global,
    state: &mut ParserState,
    head: Head,
    params: Vec<Param>,
    label: Label,
    kind: &Kind,
) -> Result<FileAdvance, Memory>
    ensures { IfOk result (λ t. advance_of t (state_of state.new)
        ≡ head_next head (ScalarTyped (map parameter_of params.items) label) kind.now) }
{
    match kind {
        Kind::Word(name) => {
            let name = name.copy(alloc)?;
            add(state, head, params, Param::Scalar(label, name))
        }
        _ => Ok(wrong(head)),
    }
}

// The name of an array parameter.
fn array_name(
    alloc: Global,
    state: &mut ParserState,
    head: Head,
    params: Vec<Param>,
    kind: &Kind,
) -> Result<FileAdvance, Memory>
    ensures { IfOk result (λ t. advance_of t (state_of state.new)
        ≡ head_next head (ArrayTyped (map parameter_of params.items)) kind.now) }
{
    match kind {
        Kind::Word(name) => {
            let name = name.copy(alloc)?;
            Ok(goes(state, head, HeadPhase::ArrayTitled(params, name)))
        }
        _ => Ok(wrong(head)),
    }
}

// A token where a local may begin, or the first statement.
fn start(
    alloc: Global,
    state: &mut ParserState,
    head: Head,
    params: Vec<Param>,
    locals: Vec<Decl>,
    kind: &Kind,
) -> Result<FileAdvance, Memory>
    ensures { IfOk result (λ t. advance_of t (state_of state.new)
        ≡ head_next head (LocalFresh (map parameter_of params.items) locals.items) kind.now) }
{
    match kind {
        Kind::Public => Ok(goes(
            state,
            head,
            HeadPhase::LocalLabelled(params, locals, Label::Public),
        )),
        Kind::Secret => Ok(goes(
            state,
            head,
            HeadPhase::LocalLabelled(params, locals, Label::Secret),
        )),
        _ => { start_statements(alloc, state, Front::InProcedure(head, params, locals), kind) }
    }
}

// The name of a local.
fn local_name(
    alloc: Global,
    state: &mut ParserState,
    head: Head,
    params: Vec<Param>,
    locals: Vec<Decl>,
    label: Label,
    kind: &Kind,
) -> Result<FileAdvance, Memory>
    ensures { IfOk result (λ t. advance_of t (state_of state.new)
        ≡ head_next head (LocalTyped (map parameter_of params.items) locals.items label) kind.now) }
{
    match kind {
        Kind::Word(name) => {
            let name = name.copy(alloc)?;
            Ok(goes(
                state,
                head,
                HeadPhase::LocalTitled(params, locals, label, name),
            ))
        }
        _ => Ok(wrong(head)),
    }
}

// One more local.
fn add_local(
    state: &mut ParserState,
    head: Head,
    params: Vec<Param>,
    mut locals: Vec<Decl>,
    label: Label,
    name: Name,
) -> Result<FileAdvance, Memory>
    ensures { IfOk result (λ t. advance_of t (state_of state.new)
        ≡ Goes (named head (LocalFresh (map parameter_of params.items)
        (locals.items ++ declared label name None ∷ [])))) }
{
    locals.push(Decl {
        name,
        label,
        length: None,
    })?;
    Ok(goes(state, head, HeadPhase::LocalFresh(params, locals)))
}

// The next token of a procedure's head, or of its locals.
pub(crate) fn name_next(
    alloc: Global,
    state: &mut ParserState,
    head: Head,
    phase: HeadPhase,
    kind: &Kind,
) -> Result<FileAdvance, Memory>
    ensures { IfOk result (λ t. advance_of t (state_of state.new)
        ≡ head_next head (head_phase_of phase) kind.now) }
{
    match phase {
        HeadPhase::Opening => match kind {
            Kind::LParen => Ok(goes(state, head, HeadPhase::NoneYet)),
            _ => Ok(wrong(head)),
        },
        HeadPhase::NoneYet => Ok(first(alloc, state, head, kind)),
        HeadPhase::OneMore(params) => Ok(parameter(state, head, params, kind)),
        HeadPhase::ScalarLabelled(params, label) => match kind {
            Kind::Int => Ok(goes(state, head, HeadPhase::ScalarTyped(params, label))),
            _ => Ok(wrong(head)),
        },
        HeadPhase::ScalarTyped(params, label) => scalar_name(
            alloc, state, head, params, label, kind,
        ),
        HeadPhase::ArrayTyped(params) => array_name(alloc, state, head, params, kind),
        HeadPhase::ArrayTitled(params, name) => match kind {
            Kind::LBracket => Ok(goes(state, head, HeadPhase::ArrayClosing(params, name))),
            _ => Ok(wrong(head)),
        },
        HeadPhase::ArrayClosing(params, name) => match kind {
            Kind::RBracket => add(state, head, params, Param::Array(name)),
            _ => Ok(wrong(head)),
        },
        HeadPhase::Behind(params) => match kind {
            Kind::Semi => Ok(goes(state, head, HeadPhase::OneMore(params))),
            Kind::RParen => Ok(goes(state, head, HeadPhase::AllRead(params))),
            _ => Ok(wrong(head)),
        },
        HeadPhase::AllRead(params) => match kind {
            Kind::LBrace => Ok(goes(state, head, HeadPhase::LocalFresh(params, Vec::new(alloc)))),
            _ => Ok(wrong(head)),
        },
        HeadPhase::LocalFresh(params, locals) => start(alloc, state, head, params, locals, kind),
        HeadPhase::LocalLabelled(params, locals, label) => match kind {
            Kind::Int => Ok(goes(state, head, HeadPhase::LocalTyped(params, locals, label))),
            _ => Ok(wrong(head)),
        },
        HeadPhase::LocalTyped(params, locals, label) => {
            local_name(alloc, state, head, params, locals, label, kind)
        }
        HeadPhase::LocalTitled(params, locals, label, name) => match kind {
            Kind::Semi => add_local(state, head, params, locals, label, name),
            _ => Ok(wrong(head)),
        },
    }
}
