//! Assignments that are read in one go. Most statements are assignments, and the state between two tokens of one is
//! large. An assignment with an error is left to the reading token by token, which finds the first error.

ghost use Rattle.std.specs.Prelude.{◌≡◌, List, ◌≤◌, ◌<◌, ◌+◌, ◌++◌, ◌∷◌, [], take, length, IfOk, IfSome, true};
ghost use Rattle.src_lexer.specs.declared.tokens.Kind.TheVariants.{Word, Assign, LBracket, RBracket, Semi};
ghost use Rattle.src_tree.specs.Prelude.{expr_tree, statement_of, SetElement};
ghost use Rattle.src_parser.specs.Assignments.{Adds, Assigned, EndedBy, Leads};
ghost use Rattle.src_parser.specs.Expressions.{FoundExpression};
ghost use Rattle.src_parser.specs.Refusals.{token_kinds};
ghost use Rattle.src_parser.specs.Seen.{among, phase_of, state_of};
ghost use Rattle.src_parser.specs.Advances.{Doing};
ghost use Rattle.src_tree.specs.declared.trees.Decl.{Decl};
ghost use Rattle.src_parser.specs.Statements.{Ready};

use crate::languages::{Language, Programs};
use crate::lone_expressions::expression;
use crate::putting::push;
use crate::readings::MAX_OPERATORS;
use crate::states::{Blocks, ParserState, Pause, Phase};
use gr_base::{Fail, Memory};
use gr_word::Name;
use src_lexer::{Kind, Token};
use src_tree::{Expr, Stmt};
use std::alloc::Global;

// The expression at the beginning of the tokens and its number of tokens, or `None` if it has an error.
fn found(
    alloc: Global,
    tokens: &[Token],
    opened: u32,
    used: u32,
) -> Result<Option<(Expr, usize)>, Memory>
    requires { used ≤ 256 }
    ensures { IfOk result (λ o. IfSome o (λ r. FoundExpression tokens.now opened used (expr_tree r.0) r.1)) }
{
    match expression(alloc, tokens, opened, used) {
        Ok((tree, count)) => Ok(Some((tree, count))),
        Err(Fail::Memory) => Err(Memory),
        Err(Fail::Fault(_)) => Ok(None),
    }
}

// Whether the token of this number is a `]`.
#[tactic(auto, using(crate::proofs::AssignmentTokens::kinds_with))]
fn is_bracket(tokens: &[Token], at: usize) -> bool
    ensures within { result ≡ true → at < length tokens.now }
    ensures is { result ≡ true
        → token_kinds (take (at + 1) tokens.now) ≡ token_kinds (take at tokens.now) ++ RBracket ∷ [] }
{
    if at >= tokens.len() {
        return false;
    }
    matches!(tokens[at].kind, Kind::RBracket)
}

// Whether the token of this number is a `;`.
#[tactic(auto, using(crate::proofs::AssignmentTokens::kinds_with))]
fn is_semicolon(tokens: &[Token], at: usize) -> bool
    ensures within { result ≡ true → at < length tokens.now }
    ensures is { result ≡ true
        → token_kinds (take (at + 1) tokens.now) ≡ token_kinds (take at tokens.now) ++ Semi ∷ [] }
{
    if at >= tokens.len() {
        return false;
    }
    matches!(tokens[at].kind, Kind::Semi)
}

// The index that a `]` ends, and the number of tokens with the `]`. An index has no more operators than tokens, and one
// of more tokens than a statement may have operators is left to the reading token by token.
#[tactic(auto, using(crate::proofs::AssignmentTokens::ended_by))]
fn index(alloc: Global, tokens: &[Token]) -> Result<Option<(Expr, usize)>, Memory>
    ensures within { IfOk result (λ o. IfSome o (λ r. r.1 ≤ length tokens.now)) }
    ensures few { IfOk result (λ o. IfSome o (λ r. r.1 ≤ 256)) }
    ensures is { IfOk result (λ o. IfSome o (λ r.
        EndedBy RBracket 1 0 (token_kinds (take r.1 tokens.now)) (expr_tree r.0))) }
{
    let Some((index, count)) = found(alloc, tokens, 1, 0)? else {
        return Ok(None);
    };
    if count >= MAX_OPERATORS as usize {
        return Ok(None);
    }
    if !is_bracket(tokens, count) {
        return Ok(None);
    }
    Ok(Some((index, count + 1)))
}

// The value that a `;` ends, and the number of tokens with the `;`. `used` of the statement's operators were used.
#[tactic(auto, using(crate::proofs::AssignmentTokens::ended_by))]
fn value(alloc: Global, tokens: &[Token], used: u32) -> Result<Option<(Expr, usize)>, Memory>
    requires { used ≤ 256 }
    ensures within { IfOk result (λ o. IfSome o (λ r. r.1 ≤ length tokens.now)) }
    ensures is { IfOk result (λ o. IfSome o (λ r.
        EndedBy Semi 0 used (token_kinds (take r.1 tokens.now)) (expr_tree r.0))) }
{
    let Some((value, count)) = found(alloc, tokens, 0, used)? else {
        return Ok(None);
    };
    if !is_semicolon(tokens, count) {
        return Ok(None);
    }
    Ok(Some((value, count + 1)))
}

fn assigns(kind: &Kind) -> bool
    ensures { result ≡ true → kind.now ≡ Assign }
{
    matches!(kind, Kind::Assign)
}

// The value between a `=` and a `;`, and the number of tokens with both.
fn assigned(alloc: Global, tokens: &[Token], used: u32) -> Result<Option<(Expr, usize)>, Memory>
    requires { used ≤ 256 }
    ensures within { IfOk result (λ o. IfSome o (λ r. r.1 ≤ length tokens.now)) }
    ensures is { IfOk result (λ o. IfSome o (λ r.
        Assigned used (token_kinds (take r.1 tokens.now)) (expr_tree r.0))) }
{
    match tokens {
        [sign, rest @ ..] => {
            if !assigns(&sign.kind) {
                return Ok(None);
            }
            match value(alloc, rest, used)? {
                Some((value, inside)) => Ok(Some((value, inside + 1))),
                None => Ok(None),
            }
        }
        _ => Ok(None),
    }
}

// An assignment to a variable, after the `=`.
fn variable(alloc: Global, name: &Name, tokens: &[Token]) -> Result<Option<(Stmt, usize)>, Memory>
    ensures within { IfOk result (λ o. IfSome o (λ r. r.1 ≤ length tokens.now)) }
    ensures adds { IfOk result (λ o. IfSome o (λ r.
        Adds (Word name.now ∷ Assign ∷ token_kinds (take r.1 tokens.now)) (statement_of r.0))) }
{
    let name = name.copy(alloc)?;
    match value(alloc, tokens, 0)? {
        Some((value, count)) => Ok(Some((Programs::variable_set(name, value), count))),
        None => Ok(None),
    }
}

// The assignment of a value to an element, with a copy of its name.
fn element_set(alloc: Global, name: &Name, index: Expr, value: Expr) -> Result<Stmt, Memory>
    ensures { IfOk result (λ s. statement_of s ≡ SetElement name.now (expr_tree index) (expr_tree value)) }
{
    Ok(Programs::element_set(name.copy(alloc)?, index, value))
}

// An assignment to an element, after the `[`.
fn element(alloc: Global, name: &Name, tokens: &[Token]) -> Result<Option<(Stmt, usize)>, Memory>
    ensures within { IfOk result (λ o. IfSome o (λ r. r.1 ≤ length tokens.now)) }
    ensures adds { IfOk result (λ o. IfSome o (λ r.
        Adds (Word name.now ∷ LBracket ∷ token_kinds (take r.1 tokens.now)) (statement_of r.0))) }
{
    let Some((index, inside)) = index(alloc, tokens)? else {
        return Ok(None);
    };
    let (_, after) = tokens.split_at(inside);
    let Some((value, count)) = assigned(alloc, after, inside as u32)? else {
        return Ok(None);
    };
    let statement = element_set(alloc, name, index, value)?;
    Ok(Some((statement, inside + count)))
}

// An assignment, after its name and the sign that follows the name.
fn target(
    alloc: Global,
    name: &Name,
    sign: &Kind,
    tokens: &[Token],
) -> Result<Option<(Stmt, usize)>, Memory>
    ensures within { IfOk result (λ o. IfSome o (λ r. r.1 ≤ length tokens.now)) }
    ensures adds { IfOk result (λ o. IfSome o (λ r.
        Adds (Word name.now ∷ sign.now ∷ token_kinds (take r.1 tokens.now)) (statement_of r.0))) }
{
    match sign {
        Kind::Assign => variable(alloc, name, tokens),
        Kind::LBracket => element(alloc, name, tokens),
        _ => Ok(None),
    }
}

// The assignment at the beginning of the tokens and its number of tokens, or `None` if the tokens begin with none, or
// if it has an error.
fn assignment(alloc: Global, tokens: &[Token]) -> Result<Option<(Stmt, usize)>, Memory>
    ensures within { IfOk result (λ o. IfSome o (λ r. r.1 ≤ length tokens.now)) }
    ensures adds { IfOk result (λ o. IfSome o (λ r. Adds (token_kinds (take r.1 tokens.now)) (statement_of r.0))) }
{
    match tokens {
        [word, sign, rest @ ..] => {
            let Kind::Word(name) = &word.kind else {
                return Ok(None);
            };
            match target(alloc, name, &sign.kind, rest)? {
                Some((statement, count)) => Ok(Some((statement, count + 2))),
                None => Ok(None),
            }
        }
        _ => Ok(None),
    }
}

// Whether a statement may begin.
fn is_ready(phase: &Phase<Stmt>) -> bool
    ensures { result ≡ true → phase_of statement_of phase.now ≡ Ready }
{
    match phase {
        Phase::Between(pause) => match pause {
            Pause::Ready => true,
            Pause::MayElse(_, _) => false,
            Pause::Guarded(_, _) => false,
            Pause::Otherwise(_, _) => false,
        },
        Phase::InPart(_) => false,
    }
}

// Adds the assignment at the beginning of the tokens to the statements, between two of which the tokens are.
fn add_assignment(
    alloc: Global,
    blocks: &mut Blocks<Stmt>,
    tokens: &[Token],
) -> Result<usize, Memory>
    ensures within { IfOk result (λ n. n ≤ length tokens.now) }
    ensures leads { IfOk result (λ n. (decls : List Decl)
        → Leads (Doing decls (among statement_of blocks.old Ready)) (token_kinds (take n tokens.now))
        (Doing decls (among statement_of blocks.new Ready))) }
{
    match assignment(alloc, tokens)? {
        Some((statement, count)) => {
            push(&mut blocks.here, statement)?;
            Ok(count)
        }
        None => Ok(0),
    }
}

// Reads the assignment at the beginning of the tokens, if a statement may begin. Returns how many tokens were read: 0 if
// the tokens begin with no assignment, or if it has an error.
pub(crate) fn read_assignment(
    alloc: Global,
    state: &mut ParserState,
    tokens: &[Token],
) -> Result<usize, Memory>
    ensures within { IfOk result (λ n. n ≤ length tokens.now) }
    ensures leads { IfOk result (λ n. Leads (state_of state.old) (token_kinds (take n tokens.now)) (state_of state.new)) }
{
    match state {
        ParserState::Doing(_decls, blocks, phase) => {
            if !is_ready(phase) {
                return Ok(0);
            }
            add_assignment(alloc, blocks, tokens)
        }
        ParserState::Between(_decls) => Ok(0),
        ParserState::Declaring(_decls, _heading) => Ok(0),
    }
}
