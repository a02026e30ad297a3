ghost use Rattle.std.specs.Prelude.{◌≡◌, ◌+◌};
ghost use Rattle.std.specs.Option.{option_or};
ghost use Rattle.gr_word.specs.declared.variables.Label.TheVariants.{Public};
ghost use Rattle.src_tree.specs.Prelude.{where_true, names_fault, flow_fault, guard_fault, loop_fault, typing_fault, height_fault, too_high, SetVariable, SetElement, Element, expr_tree, test_of, statement_of, block_of_all};
ghost use Rattle.gr_base.specs.Prelude.{found_under};
ghost use Rattle.flow_types.specs.Walk.{cause_of, finish, walk_statement, walk_block};

use crate::names::{
    indexed, inside, is_secret, leaks, look, look_at_guard, names_fault, place, use_fault,
};
use gr_word::{Label, Name, Shape};
use src_tree::{Expr, Guard, Names, Stmt, TypeError, Which, height, higher, label_at};

// The greatest height of an expression.
pub(crate) const MAX_HEIGHT: u32 = 16;

// The kind of error for which each statement is tested.
#[derive(Clone, Copy)]
pub(crate) enum Question {
    IsTyped,
    IsLow,
}

// An error if a test is true.
pub(crate) fn where_true(test: bool, fault: TypeError) -> Option<TypeError>
    ensures { result ≡ where_true test fault }
{
    if test { Some(fault) } else { None }
}

// The first error of an assignment apart from its names: a secret index of a public array, or otherwise a flow to a
// public variable.
fn flow_fault(value: Label, target: Label, indexes: bool, number: u64) -> Option<TypeError>
    ensures { result ≡ flow_fault number indexes value target }
{
    if indexes {
        return Some(TypeError::SecretIndexOfPublic(place(number)));
    }
    where_true(leaks(value, target), TypeError::FlowToPublic(place(number)))
}

fn set_fault<'a>(
    names: &Names<'a>,
    code: Label,
    number: u64,
    name: &'a Name,
    value: &'a Expr,
) -> Option<TypeError>
    ensures { result ≡ typing_fault (found_under names.now) code number (SetVariable name.now (expr_tree value.now)) }
{
    let target = name.bytes();
    match use_fault(names, number, Shape::Scalar, target) {
        Some(fault) => Some(fault),
        None => match names_fault(names, number, value) {
            Some(fault) => Some(fault),
            None => {
                let shown = look(names, value);
                flow_fault(
                    higher(code, shown.label),
                    label_at(names, target),
                    shown.leaks,
                    number,
                )
            }
        },
    }
}

// The first error of the names of an assignment to an element, in the order of the text.
fn put_names_fault<'a>(
    names: &Names<'a>,
    number: u64,
    name: &'a Name,
    index: &'a Expr,
    value: &'a Expr,
) -> Option<TypeError>
    ensures { result ≡ option_or (names_fault (found_under names.now) number (Element name.now (expr_tree index.now)))
        (names_fault (found_under names.now) number (expr_tree value.now)) }
{
    match use_fault(names, number, Shape::Array, name.bytes()) {
        Some(fault) => Some(fault),
        None => match names_fault(names, number, index) {
            Some(fault) => Some(fault),
            None => names_fault(names, number, value),
        },
    }
}

fn put_fault<'a>(
    names: &Names<'a>,
    code: Label,
    number: u64,
    name: &'a Name,
    index: &'a Expr,
    value: &'a Expr,
) -> Option<TypeError>
    ensures { result ≡ typing_fault (found_under names.now) code number
        (SetElement name.now (expr_tree index.now) (expr_tree value.now)) }
{
    match put_names_fault(names, number, name, index, value) {
        Some(fault) => Some(fault),
        None => {
            let target = label_at(names, name.bytes());
            let shown = look(names, value);
            let element = indexed(target, look(names, index));
            flow_fault(
                higher(code, shown.label),
                target,
                element.leaks || shown.leaks,
                number,
            )
        }
    }
}

// The first error of a guard: of its names, or otherwise a secret index of a public array.
fn guard_fault<'a>(names: &Names<'a>, number: u64, guard: &'a Guard) -> Option<TypeError>
    ensures { result ≡ guard_fault (found_under names.now) number (test_of guard.now) }
{
    match names_fault(names, number, &guard.left) {
        Some(fault) => Some(fault),
        None => match names_fault(names, number, &guard.right) {
            Some(fault) => Some(fault),
            None => where_true(
                look_at_guard(names, guard).leaks,
                TypeError::SecretIndexOfPublic(place(number)),
            ),
        },
    }
}

// The first error of a loop apart from its guard's: a secret guard, or otherwise that it is in secret code.
fn loop_fault(guard: Label, code: Label, number: u64) -> Option<TypeError>
    ensures { result ≡ loop_fault number guard code }
{
    if is_secret(guard) {
        return Some(TypeError::SecretGuardOfLoop(place(number)));
    }
    where_true(is_secret(code), TypeError::LoopInSecret(place(number)))
}

// The error of typing of a statement, apart from the statements in its blocks.
fn typing_fault<'a>(names: &Names<'a>, code: Label, number: u64, s: &'a Stmt) -> Option<TypeError>
    ensures { result ≡ typing_fault (found_under names.now) code number (statement_of s.now) }
{
    match s {
        Stmt::Set(name, value) => set_fault(names, code, number, name, value),
        Stmt::Put(name, index, value) => put_fault(names, code, number, name, index, value),
        Stmt::If(guard, _, _) => guard_fault(names, number, guard),
        Stmt::While(guard, _) => match guard_fault(names, number, guard) {
            Some(fault) => Some(fault),
            None => loop_fault(look_at_guard(names, guard).label, code, number),
        },
    }
}

fn too_high(e: &Expr) -> bool
    ensures { result ≡ too_high (expr_tree e.now) }
{
    height(e) > MAX_HEIGHT
}

// The error that an expression of a statement is too high.
fn height_fault(number: u64, s: &Stmt) -> Option<TypeError>
    ensures { result ≡ height_fault Public number (statement_of s.now) }
{
    let fault = TypeError::Limit(Which::Height, number);
    match s {
        Stmt::Set(_, value) => where_true(too_high(value), fault),
        Stmt::Put(_, index, value) => where_true(too_high(index) || too_high(value), fault),
        Stmt::If(guard, _, _) => where_true(too_high(&guard.left) || too_high(&guard.right), fault),
        Stmt::While(guard, _) => where_true(too_high(&guard.left) || too_high(&guard.right), fault),
    }
}

fn cause<'a>(
    question: Question,
    names: &Names<'a>,
    code: Label,
    number: u64,
    s: &'a Stmt,
) -> Option<TypeError>
    ensures { result ≡ cause_of question (found_under names.now) code number (statement_of s.now) }
{
    match question {
        Question::IsTyped => typing_fault(names, code, number, s),
        Question::IsLow => height_fault(number, s),
    }
}

// The number of the next statement, or the error of this one.
fn next(fault: Option<TypeError>, number: u64) -> Result<u64, TypeError>
    ensures { result ≡ finish fault (number + 1) }
{
    match fault {
        None => Ok(number.saturating_add(1)),
        Some(fault) => Err(fault),
    }
}

// Tests one statement, which has this number and is in code with this label, and the statements in its blocks. Returns
// the number of the statement after it, or the first error.
#[cycle(walks)]
fn walk_statement<'a>(
    question: Question,
    names: &Names<'a>,
    code: Label,
    number: u64,
    s: &'a Stmt,
) -> Result<u64, TypeError>
    ensures { result ≡ walk_statement (found_under names.now)
        (cause_of question (found_under names.now)) code number (statement_of s.now) }
{
    let inner = next(cause(question, names, code, number, s), number)?;
    match s {
        Stmt::Set(_, _) => Ok(inner),
        Stmt::Put(_, _, _) => Ok(inner),
        Stmt::If(guard, first, second) => {
            let inside = inside(names, code, guard);
            let middle = walk_block(question, names, inside, inner, first.as_slice())?;
            walk_block(question, names, inside, middle, second.as_slice())
        }
        Stmt::While(_, body) => walk_block(question, names, code, inner, body.as_slice()),
    }
}

// The same for statements in order, of which the first has this number.
#[cycle(walks)]
pub(crate) fn walk_block<'a>(
    question: Question,
    names: &Names<'a>,
    code: Label,
    number: u64,
    statements: &'a [Stmt],
) -> Result<u64, TypeError>
    ensures { result ≡ walk_block (found_under names.now) (cause_of question (found_under names.now)) code number
        (block_of_all statements.now) }
{
    let mut number = number;
    for statement in statements {
        number = walk_statement(question, names, code, number, statement)?;
    }
    Ok(number)
}
