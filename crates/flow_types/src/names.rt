ghost use Rattle.std.specs.Prelude.{◌≡◌, ◌||◌, ◌-◌, ◌^◌, min};
ghost use Rattle.src_tree.specs.Prelude.{higher, inside, secret_label, label_of, label_of_test, shown_place, same_shape, leaks, use_fault, names_fault, has_leaking_index, expr_tree, test_of};
ghost use Rattle.gr_base.specs.Prelude.{found_under};

use gr_word::{Label, Shape};
use src_tree::{Expr, Guard, Names, TypeError, higher, kind_at, label_at};

pub(crate) fn is_secret(label: Label) -> bool
    ensures { result ≡ secret_label label }
{
    match label {
        Label::Public => false,
        Label::Secret => true,
    }
}

// Whether a value with the first label must not flow to a variable with the second.
pub(crate) fn leaks(from: Label, to: Label) -> bool
    ensures { result ≡ leaks from to }
{
    is_secret(from) && !is_secret(to)
}

// The place of an error.
pub(crate) fn place(number: u64) -> u32
    ensures { result ≡ shown_place number }
{
    number.min(4294967295) as u32
}

pub(crate) fn same_shape(a: Shape, b: Shape) -> bool
    ensures { result ≡ same_shape a b }
{
    match a {
        Shape::Scalar => match b {
            Shape::Scalar => true,
            Shape::Array => false,
        },
        Shape::Array => match b {
            Shape::Scalar => false,
            Shape::Array => true,
        },
    }
}

// The error of a name that should be declared with this shape.
pub(crate) fn use_fault<'a>(
    names: &Names<'a>,
    number: u64,
    shape: Shape,
    name: &'a [u8],
) -> Option<TypeError>
    ensures { result ≡ use_fault (found_under names.now) number shape name.now }
{
    match kind_at(names, name) {
        None => Some(TypeError::Undeclared(place(number))),
        Some(kind) => {
            if same_shape(kind.1, shape) {
                None
            } else {
                Some(TypeError::WrongShape(place(number)))
            }
        }
    }
}

// The first error of the names of an expression.
pub(crate) fn names_fault<'a>(names: &Names<'a>, number: u64, e: &'a Expr) -> Option<TypeError>
    ensures { result ≡ names_fault (found_under names.now) number (expr_tree e.now) }
{
    match e {
        Expr::Num(_) => None,
        Expr::Var(name) => use_fault(names, number, Shape::Scalar, name.bytes()),
        Expr::Item(name, index) => {
            match use_fault(names, number, Shape::Array, name.bytes()) {
                Some(fault) => Some(fault),
                None => names_fault(names, number, index),
            }
        }
        Expr::Bin(_, left, right) => match names_fault(names, number, left) {
            Some(fault) => Some(fault),
            None => names_fault(names, number, right),
        },
    }
}

// What matters of an expression: its label, and whether a public array has a secret index in it.
#[derive(Clone, Copy)]
pub(crate) struct Shown {
    pub label: Label,
    pub leaks: bool,
}

// Two expressions together.
pub(crate) fn both(a: Shown, b: Shown) -> Shown
    ensures label { result.label ≡ higher a.label b.label }
    ensures leaks { result.leaks ≡ (a.leaks || b.leaks) }
{
    Shown {
        label: higher(a.label, b.label),
        leaks: a.leaks || b.leaks,
    }
}

// An element of an array with a label, from its index.
pub(crate) fn indexed(array: Label, index: Shown) -> Shown
    ensures label { result.label ≡ higher array index.label }
    ensures leaks { result.leaks ≡ (leaks index.label array || index.leaks) }
{
    Shown {
        label: higher(array, index.label),
        leaks: leaks(index.label, array) || index.leaks,
    }
}

pub(crate) fn look<'a>(names: &Names<'a>, e: &'a Expr) -> Shown
    ensures label { result.label ≡ label_of (found_under names.now) (expr_tree e.now) }
    ensures leaks { result.leaks ≡ has_leaking_index (found_under names.now) (expr_tree e.now) }
{
    match e {
        Expr::Num(_) => Shown {
            label: Label::Public,
            leaks: false,
        },
        Expr::Var(name) => Shown {
            label: label_at(names, name.bytes()),
            leaks: false,
        },
        Expr::Item(name, index) => {
            let array = label_at(names, name.bytes());
            indexed(array, look(names, index))
        }
        Expr::Bin(_, left, right) => both(look(names, left), look(names, right)),
    }
}

pub(crate) fn look_at_guard<'a>(names: &Names<'a>, guard: &'a Guard) -> Shown
    ensures label { result.label ≡ label_of_test (found_under names.now) (test_of guard.now) }
    ensures leaks { result.leaks ≡ (has_leaking_index (found_under names.now) (expr_tree guard.now.left)
        || has_leaking_index (found_under names.now) (expr_tree guard.now.right)) }
{
    both(look(names, &guard.left), look(names, &guard.right))
}

// The label of the arms of a choice that is in code with a label.
pub(crate) fn inside<'a>(names: &Names<'a>, code: Label, guard: &'a Guard) -> Label
    ensures { result ≡ inside (found_under names.now) code (test_of guard.now) }
{
    higher(code, look_at_guard(names, guard).label)
}
