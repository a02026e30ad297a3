ghost use Rattle.std.specs.Prelude.{◌≡◌, ℕ, IfOk, option_map};
ghost use Rattle.src_tree.specs.Prelude.{expr_tree};
ghost use Rattle.src_parser.specs.Grammar.{limits, comparison_of};
ghost use Rattle.src_parser.specs.Parts.{behind_expression, comparing, ending_where, guarding, part_advanced, placing, targeting, Place, Right, Stored, Value};
ghost use Rattle.src_parser.specs.Seen.{asked_seen, form_of, lead_of, part_of, part_advance_of};

use crate::expressions::{finish, fresh, read};
use crate::putting::put;
use crate::readings::{Reading, TokenStep};
use gr_base::Memory;
use gr_word::{Cmp, Name};
use src_lexer::Kind;
use src_tree::{Expr, Guard};
use std::alloc::Global;
use std::mem;

/// Whether a guard belongs to a choice or to a loop.
#[derive(Clone, Copy)]
pub enum Form {
    Choice,
    Loop,
}

/// The purpose of an expression: a variable's value; an element's index, and then its value; the left and the right
/// side of a guard.
#[derive(Drop)]
pub enum Asked {
    Value(Name),
    Place(Name),
    Stored(Name, Expr),
    Left(Form),
    Right(Form, Cmp, Expr),
}

/// The tokens before an expression: the name in an assignment; a name with its index, and the operators and signs that
/// were used; the keyword before a guard.
#[derive(Drop)]
pub enum Lead {
    Target(Name),
    Placed(Name, Expr, u32),
    Guarding(Form),
}

/// How far a part of a statement was read: an assignment, or a guard.
#[derive(Drop)]
pub enum Part {
    Before(Lead),
    Inside(Asked, Reading),
}

/// A part that is complete.
#[derive(Drop)]
pub enum Made {
    Variable(Name, Expr),
    Element(Name, Expr, Expr),
    Guard(Form, Guard),
}

/// The effect of a token on a part: it is read; it ends the part; no part can continue with it; it exceeds a limit.
#[derive(Drop)]
pub enum PartAdvance {
    Moves,
    Ends(Made),
    Wrong,
    TooMuch,
}

// The comparison of a sign.
fn comparison(kind: &Kind) -> Option<Cmp>
    ensures { result ≡ comparison_of kind.now }
{
    match kind {
        Kind::Eq => Some(Cmp::Eq),
        Kind::Ne => Some(Cmp::Ne),
        Kind::Lt => Some(Cmp::Lt),
        Kind::Le => Some(Cmp::Le),
        Kind::Gt => Some(Cmp::Gt),
        Kind::Ge => Some(Cmp::Ge),
        _ => None,
    }
}

// Reads a token after the name in an assignment.
fn name_on(alloc: Global, part: &mut Part, name: Name, kind: &Kind) -> PartAdvance
    ensures { part_advance_of result (part_of part.new) ≡ targeting name kind.now }
{
    match kind {
        Kind::Assign => {
            put(part, Part::Inside(Asked::Value(name), fresh(alloc, 0, 0)));
            PartAdvance::Moves
        }
        Kind::LBracket => {
            put(part, Part::Inside(Asked::Place(name), fresh(alloc, 1, 0)));
            PartAdvance::Moves
        }
        _ => PartAdvance::Wrong,
    }
}

// Reads a token after the index in an assignment.
fn index_on(
    alloc: Global,
    part: &mut Part,
    name: Name,
    index: Expr,
    used: u32,
    kind: &Kind,
) -> PartAdvance
    ensures { part_advance_of result (part_of part.new) ≡ placing name (expr_tree index) used kind.now }
{
    match kind {
        Kind::Assign => {
            put(
                part,
                Part::Inside(Asked::Stored(name, index), fresh(alloc, 0, used)),
            );
            PartAdvance::Moves
        }
        _ => PartAdvance::Wrong,
    }
}

// Reads a token after the keyword of a guard.
fn guard_on(alloc: Global, part: &mut Part, form: Form, kind: &Kind) -> PartAdvance
    ensures { part_advance_of result (part_of part.new) ≡ guarding (form_of form) kind.now }
{
    match kind {
        Kind::LParen => {
            put(part, Part::Inside(Asked::Left(form), fresh(alloc, 0, 0)));
            PartAdvance::Moves
        }
        _ => PartAdvance::Wrong,
    }
}

// Reads a token before an expression.
fn lead_on(alloc: Global, part: &mut Part, lead: Lead, kind: &Kind) -> PartAdvance
    ensures { part_advance_of result (part_of part.new) ≡ part_advanced limits (lead_of lead) kind.now }
{
    match lead {
        Lead::Target(name) => name_on(alloc, part, name, kind),
        Lead::Placed(name, index, used) => index_on(alloc, part, name, index, used, kind),
        Lead::Guarding(form) => guard_on(alloc, part, form, kind),
    }
}

// Reads a token after the left side of a guard.
fn compare(
    alloc: Global,
    part: &mut Part,
    form: Form,
    left: Expr,
    used: u32,
    kind: &Kind,
) -> PartAdvance
    ensures { part_advance_of result (part_of part.new)
        ≡ comparing (form_of form) (expr_tree left) used (comparison_of kind.now) }
{
    match comparison(kind) {
        Some(cmp) => {
            put(
                part,
                Part::Inside(Asked::Right(form, cmp, left), fresh(alloc, 0, used)),
            );
            PartAdvance::Moves
        }
        None => PartAdvance::Wrong,
    }
}

// Reads a token after the value of a variable.
fn end_variable(name: Name, value: Expr, kind: &Kind) -> PartAdvance
    ensures { (part : Part) (used : ℕ)
        → part_advance_of result (part_of part) ≡ behind_expression (Value name) (expr_tree value) used kind.now }
{
    match kind {
        Kind::Semi => PartAdvance::Ends(Made::Variable(name, value)),
        _ => PartAdvance::Wrong,
    }
}

// Reads a token after the index of an element.
fn end_index(part: &mut Part, name: Name, index: Expr, used: u32, kind: &Kind) -> PartAdvance
    ensures { part_advance_of result (part_of part.new)
        ≡ behind_expression (Place name) (expr_tree index) used kind.now }
{
    match kind {
        Kind::RBracket => {
            put(part, Part::Before(Lead::Placed(name, index, used)));
            PartAdvance::Moves
        }
        _ => PartAdvance::Wrong,
    }
}

// Reads a token after the value of an element.
fn end_element(name: Name, index: Expr, value: Expr, kind: &Kind) -> PartAdvance
    ensures { (part : Part) (used : ℕ) → part_advance_of result (part_of part)
        ≡ behind_expression (Stored name (expr_tree index)) (expr_tree value) used kind.now }
{
    match kind {
        Kind::Semi => PartAdvance::Ends(Made::Element(name, index, value)),
        _ => PartAdvance::Wrong,
    }
}

// Reads a token after the right side of a guard.
fn end_guard(form: Form, cmp: Cmp, left: Expr, right: Expr, kind: &Kind) -> PartAdvance
    ensures { (part : Part) (used : ℕ) → part_advance_of result (part_of part)
        ≡ behind_expression (Right (form_of form) cmp (expr_tree left)) (expr_tree right) used kind.now }
{
    match kind {
        Kind::RParen => PartAdvance::Ends(Made::Guard(form, Guard { cmp, left, right })),
        _ => PartAdvance::Wrong,
    }
}

// Reads a token after the whole expression.
fn end(
    alloc: Global,
    part: &mut Part,
    asked: Asked,
    tree: Expr,
    used: u32,
    kind: &Kind,
) -> PartAdvance
    ensures { part_advance_of result (part_of part.new)
        ≡ behind_expression (asked_seen asked) (expr_tree tree) used kind.now }
{
    match asked {
        Asked::Value(name) => end_variable(name, tree, kind),
        Asked::Place(name) => end_index(part, name, tree, used, kind),
        Asked::Stored(name, index) => end_element(name, index, tree, kind),
        Asked::Left(form) => compare(alloc, part, form, tree, used, kind),
        Asked::Right(form, cmp, left) => end_guard(form, cmp, left, tree, kind),
    }
}

// Reads a token where an expression ends, if it is whole.
fn end_if_whole(
    alloc: Global,
    part: &mut Part,
    asked: Asked,
    tree: Option<Expr>,
    used: u32,
    kind: &Kind,
) -> PartAdvance
    ensures { part_advance_of result (part_of part.new)
        ≡ ending_where (asked_seen asked) (option_map expr_tree tree) used kind.now }
{
    match tree {
        Some(tree) => end(alloc, part, asked, tree, used, kind),
        None => PartAdvance::Wrong,
    }
}

/// Reads the next token of a part. `Memory` says nothing about the tokens.
pub fn read_part(alloc: Global, part: &mut Part, kind: &Kind) -> Result<PartAdvance, Memory>
    ensures { IfOk result (λ t. part_advance_of t (part_of part.new) ≡ part_advanced limits (part_of part.old) kind.now) }
{
    match part {
        Part::Before(lead) => {
            let lead = mem::replace(lead, Lead::Guarding(Form::Choice));
            Ok(lead_on(alloc, part, lead, kind))
        }
        Part::Inside(asked, reading) => match read(alloc, reading, kind)? {
            TokenStep::Moves => Ok(PartAdvance::Moves),
            TokenStep::Stops => {
                let used = reading.used;
                let tree = finish(reading);
                let asked = mem::replace(asked, Asked::Left(Form::Choice));
                Ok(end_if_whole(alloc, part, asked, tree, used, kind))
            }
            TokenStep::Deep => Ok(PartAdvance::TooMuch),
        },
    }
}
