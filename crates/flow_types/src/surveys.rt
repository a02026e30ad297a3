ghost use Rattle.std.specs.Prelude.{◌≡◌, ◌||◌, ◌+◌, ◌-◌, ◌^◌, max, min};
ghost use Rattle.gr_base.specs.Prelude.{found_under};
ghost use Rattle.gr_word.specs.declared.variables.Shape.TheVariants.{Array};
ghost use Rattle.src_tree.specs.Prelude.{leaks, height_of, higher, label_of, label_of_test, label_or_public, tree_weight, test_weight, parts_weight, statement_weight, block_weight, SetVariable, SetElement, expr_tree, test_of, statement_of, block_of_all};
ghost use Rattle.flow_types.specs.Surveys.{has_other_shape, is_wrong, is_faulty, is_faulty_test, is_faulty_statement, is_faulty_block};

use crate::names::{is_secret, leaks, same_shape};
use crate::walks::MAX_HEIGHT;
use gr_word::{Label, Name, Shape};
use src_tree::{Expr, Guard, Names, Stmt, higher, kind_at};

// What one look at an expression finds. It is wrong if a name in it isn't declared with the shape that it needs, or if
// a public array in it has a secret index. Weights and heights stop at the greatest number of their type.
#[derive(Clone, Copy)]
struct Survey {
    label: Label,
    height: u32,
    weight: u64,
    wrong: bool,
}

// What a statement needs to know of an expression or a guard. It is faulty if it is wrong or too high.
#[derive(Clone, Copy)]
struct Part {
    label: Label,
    weight: u64,
    faulty: bool,
}

// The weight of statements, and whether one of them has an error of typing or is too high.
#[derive(Clone, Copy)]
pub(crate) struct Weighed {
    pub weight: u64,
    pub faulty: bool,
}

// The label of what a name was declared as, or public if it wasn't declared.
fn label_or_public(kind: Option<(Label, Shape)>) -> Label
    ensures { result ≡ label_or_public kind }
{
    match kind {
        None => Label::Public,
        Some(kind) => kind.0,
    }
}

// Whether a name wasn't declared with this shape.
fn has_other_shape(shape: Shape, kind: Option<(Label, Shape)>) -> bool
    ensures { result ≡ has_other_shape shape kind }
{
    match kind {
        None => true,
        Some(kind) => !same_shape(kind.1, shape),
    }
}

// An element of an array that was declared so, from its index.
fn element(kind: Option<(Label, Shape)>, index: Survey) -> Survey
    ensures label { result.label ≡ higher (label_or_public kind) index.label }
    ensures height { result.height ≡ min (index.height + 1) (2 ^ 32 - 1) }
    ensures weight { result.weight ≡ min (1 + index.weight) (2 ^ 64 - 1) }
    ensures wrong { result.wrong
        ≡ ((has_other_shape Array kind || index.wrong) || leaks index.label (label_or_public kind)) }
{
    let array = label_or_public(kind);
    let other = has_other_shape(Shape::Array, kind);
    let leak = leaks(index.label, array);
    Survey {
        label: higher(array, index.label),
        height: index.height.saturating_add(1),
        weight: index.weight.saturating_add(1),
        wrong: other || index.wrong || leak,
    }
}

// An operation on two expressions.
fn operation(left: Survey, right: Survey) -> Survey
    ensures label { result.label ≡ higher left.label right.label }
    ensures height { result.height ≡ min (max left.height right.height + 1) (2 ^ 32 - 1) }
    ensures weight { result.weight ≡ min (1 + (left.weight + right.weight)) (2 ^ 64 - 1) }
    ensures wrong { result.wrong ≡ (left.wrong || right.wrong) }
{
    Survey {
        label: higher(left.label, right.label),
        height: left.height.max(right.height).saturating_add(1),
        weight: left.weight.saturating_add(right.weight).saturating_add(1),
        wrong: left.wrong || right.wrong,
    }
}

fn survey_expression<'a>(names: &Names<'a>, e: &'a Expr) -> Survey
    ensures label { result.label ≡ label_of (found_under names.now) (expr_tree e.now) }
    ensures height { result.height ≡ min (height_of (expr_tree e.now)) (2 ^ 32 - 1) }
    ensures weight { result.weight ≡ min (tree_weight (expr_tree e.now)) (2 ^ 64 - 1) }
    ensures wrong { result.wrong ≡ is_wrong (found_under names.now) (expr_tree e.now) }
{
    match e {
        Expr::Num(_) => Survey {
            label: Label::Public,
            height: 1,
            weight: 1,
            wrong: false,
        },
        Expr::Var(name) => {
            let kind = kind_at(names, name.bytes());
            Survey {
                label: label_or_public(kind),
                height: 1,
                weight: 1,
                wrong: has_other_shape(Shape::Scalar, kind),
            }
        }
        Expr::Item(name, index) => {
            let kind = kind_at(names, name.bytes());
            element(kind, survey_expression(names, index))
        }
        Expr::Bin(_, left, right) => {
            let left = survey_expression(names, left);
            let right = survey_expression(names, right);
            operation(left, right)
        }
    }
}

fn survey_part<'a>(names: &Names<'a>, e: &'a Expr) -> Part
    ensures label { result.label ≡ label_of (found_under names.now) (expr_tree e.now) }
    ensures weight { result.weight ≡ min (tree_weight (expr_tree e.now)) (2 ^ 64 - 1) }
    ensures faulty { result.faulty ≡ is_faulty (found_under names.now) (expr_tree e.now) }
{
    let found = survey_expression(names, e);
    let high = found.height > MAX_HEIGHT;
    Part {
        label: found.label,
        weight: found.weight,
        faulty: found.wrong || high,
    }
}

// A guard. It weighs what its two expressions weigh together.
fn survey_guard<'a>(names: &Names<'a>, guard: &'a Guard) -> Part
    ensures label { result.label ≡ label_of_test (found_under names.now) (test_of guard.now) }
    ensures weight { result.weight ≡ min (test_weight (test_of guard.now)) (2 ^ 64 - 1) }
    ensures faulty { result.faulty ≡ is_faulty_test (found_under names.now) (test_of guard.now) }
{
    let left = survey_part(names, &guard.left);
    let right = survey_part(names, &guard.right);
    Part {
        label: higher(left.label, right.label),
        weight: left.weight.saturating_add(right.weight),
        faulty: left.faulty || right.faulty,
    }
}

fn survey_set<'a>(names: &Names<'a>, code: Label, name: &'a Name, value: &'a Expr) -> Weighed
    ensures weight { result.weight ≡ min (1 + tree_weight (expr_tree value.now)) (2 ^ 64 - 1) }
    ensures faulty { result.faulty
        ≡ is_faulty_statement (found_under names.now) code (SetVariable name.now (expr_tree value.now)) }
{
    let kind = kind_at(names, name.bytes());
    let value = survey_part(names, value);
    let other = has_other_shape(Shape::Scalar, kind);
    let leak = leaks(higher(code, value.label), label_or_public(kind));
    Weighed {
        weight: value.weight.saturating_add(1),
        faulty: other || value.faulty || leak,
    }
}

fn survey_put<'a>(
    names: &Names<'a>,
    code: Label,
    name: &'a Name,
    index: &'a Expr,
    value: &'a Expr,
) -> Weighed
    ensures weight { result.weight
        ≡ min (1 + (tree_weight (expr_tree index.now) + tree_weight (expr_tree value.now))) (2 ^ 64 - 1) }
    ensures faulty { result.faulty ≡ is_faulty_statement (found_under names.now) code
        (SetElement name.now (expr_tree index.now) (expr_tree value.now)) }
{
    let kind = kind_at(names, name.bytes());
    let index = survey_expression(names, index);
    let value = survey_part(names, value);
    let target = element(kind, index);
    let high = index.height > MAX_HEIGHT;
    let leak = leaks(higher(code, value.label), label_or_public(kind));
    Weighed {
        weight: index.weight.saturating_add(value.weight).saturating_add(1),
        faulty: target.wrong || high || value.faulty || leak,
    }
}

// The blocks of a choice count twice in secret code.
fn parts_weight(inside: Label, parts: u64) -> u64
    ensures { result ≡ min (parts_weight inside parts) (2 ^ 64 - 1) }
{
    match inside {
        Label::Public => parts,
        Label::Secret => parts.saturating_add(parts),
    }
}

// A statement in code with a label, with the statements in its blocks.
#[cycle(surveys)]
fn survey_statement<'a>(names: &Names<'a>, code: Label, s: &'a Stmt) -> Weighed
    ensures weight { result.weight
        ≡ min (statement_weight (found_under names.now) code (statement_of s.now)) (2 ^ 64 - 1) }
    ensures faulty { result.faulty ≡ is_faulty_statement (found_under names.now) code (statement_of s.now) }
{
    match s {
        Stmt::Set(name, value) => survey_set(names, code, name, value),
        Stmt::Put(name, index, value) => survey_put(names, code, name, index, value),
        Stmt::If(guard, first, second) => {
            let test = survey_guard(names, guard);
            let inside = higher(code, test.label);
            let first = survey_block(names, inside, first.as_slice());
            let second = survey_block(names, inside, second.as_slice());
            let parts = parts_weight(inside, first.weight.saturating_add(second.weight));
            Weighed {
                weight: test.weight.saturating_add(parts).saturating_add(1),
                faulty: test.faulty || first.faulty || second.faulty,
            }
        }
        Stmt::While(guard, body) => {
            let test = survey_guard(names, guard);
            let body = survey_block(names, code, body.as_slice());
            let secret = is_secret(test.label);
            let arm = is_secret(code);
            Weighed {
                weight: test.weight.saturating_add(body.weight).saturating_add(1),
                faulty: test.faulty || secret || arm || body.faulty,
            }
        }
    }
}

// The statements of a block in code with a label.
#[cycle(surveys)]
pub(crate) fn survey_block<'a>(names: &Names<'a>, code: Label, statements: &'a [Stmt]) -> Weighed
    ensures weight { result.weight
        ≡ min (block_weight (found_under names.now) code (block_of_all statements.now)) (2 ^ 64 - 1) }
    ensures faulty { result.faulty ≡ is_faulty_block (found_under names.now) code (block_of_all statements.now) }
{
    let mut weight = 0u64;
    let mut faulty = false;
    for statement in statements {
        let one = survey_statement(names, code, statement);
        weight = weight.saturating_add(one.weight);
        faulty = faulty || one.faulty;
    }
    Weighed { weight, faulty }
}
