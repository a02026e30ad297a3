ghost use Rattle.std.specs.Prelude.{◌≡◌, IfOk, OnOk, Some};
ghost use Rattle.src_tree.specs.Prelude.{Operation, expr_tree, test_of};
ghost use Rattle.source_folding.specs.Numbers.{NumbersFit, TestNumbersFit};
ghost use Rattle.source_folding.specs.Folded.{by_left, by_power, by_right, folded, folded_test, number_of, operation};

use crate::powers::{is_product, is_remainder, mask_of, power_of};
use gr_base::Memory;
use gr_word::{Op, apply};
use src_tree::{Expr, Guard};
use std::alloc::Global;

// The number that an expression is, if it is one.
fn number_of(e: &Expr) -> Option<i64>
    ensures { result ≡ number_of (expr_tree e.now) }
{
    match e {
        Expr::Num(value) => Some(*value),
        Expr::Var(_) => None,
        Expr::Item(_, _) => None,
        Expr::Bin(_, _, _) => None,
    }
}

fn plain(alloc: Global, op: Op, left: Expr, right: Expr) -> Result<Expr, Memory>
    ensures { IfOk result (λ e. expr_tree e ≡ Operation op (expr_tree left) (expr_tree right)) }
{
    let left = Box::new(alloc, left)?;
    let right = Box::new(alloc, right)?;
    Ok(Expr::Bin(op, left, right))
}

// An operation by a power of two.
fn by_power(
    alloc: Global,
    op: Op,
    left: Expr,
    number: i64,
    right: Expr,
    shift: u32,
) -> Result<Expr, Memory>
    ensures { IfOk result (λ e. expr_tree e ≡ by_power op (expr_tree left) number (expr_tree right) (Some shift)) }
{
    if is_product(op) {
        return plain(alloc, Op::Shl, left, Expr::Num(i64::from(shift)));
    }
    if is_remainder(op) {
        return plain(alloc, Op::And, left, Expr::Num(mask_of(number)));
    }
    plain(alloc, op, left, right)
}

// An operation with a number on its right.
fn by_right(alloc: Global, op: Op, left: Expr, number: i64, right: Expr) -> Result<Expr, Memory>
    ensures { IfOk result (λ e. expr_tree e ≡ by_right op (expr_tree left) number (expr_tree right)) }
{
    match power_of(number.cast_unsigned()) {
        Some(shift) => by_power(alloc, op, left, number, right, shift),
        None => plain(alloc, op, left, right),
    }
}

// An operation with a number on its left.
fn by_left(alloc: Global, op: Op, left: Expr, number: i64, right: Expr) -> Result<Expr, Memory>
    ensures { IfOk result (λ e. expr_tree e ≡ by_left op (expr_tree left) number (expr_tree right)) }
{
    if is_product(op) {
        by_right(alloc, op, right, number, left)
    } else {
        plain(alloc, op, left, right)
    }
}

// An operation on two expressions that are folded.
fn operation(alloc: Global, op: Op, left: Expr, right: Expr) -> Result<Expr, Memory>
    ensures { IfOk result (λ e. expr_tree e ≡ operation op (expr_tree left) (expr_tree right)) }
{
    match number_of(&left) {
        Some(first) => match number_of(&right) {
            Some(second) => Ok(Expr::Num(apply(op, first, second))),
            None => by_left(alloc, op, left, first, right),
        },
        None => match number_of(&right) {
            Some(second) => by_right(alloc, op, left, second, right),
            None => plain(alloc, op, left, right),
        },
    }
}

/// An expression with cheaper operations that has the same value.
pub(crate) fn folded(alloc: Global, e: &Expr) -> Result<Expr, Memory>
    ensures folded { IfOk result (λ r. expr_tree r ≡ folded (expr_tree e.now)) }
    ensures numbers { OnOk result (NumbersFit (expr_tree e.now)) }
{
    match e {
        Expr::Num(value) => Ok(Expr::Num(*value)),
        Expr::Var(name) => Ok(Expr::Var(name.copy(alloc)?)),
        Expr::Item(name, index) => {
            let name = name.copy(alloc)?;
            let index = Box::new(alloc, folded(alloc, index)?)?;
            Ok(Expr::Item(name, index))
        }
        Expr::Bin(op, left, right) => {
            let left = folded(alloc, left)?;
            operation(alloc, *op, left, folded(alloc, right)?)
        }
    }
}

/// A guard of cheaper expressions that is true exactly if the given one is.
pub(crate) fn folded_guard(alloc: Global, guard: &Guard) -> Result<Guard, Memory>
    ensures folded { IfOk result (λ g. test_of g ≡ folded_test (test_of guard.now)) }
    ensures numbers { OnOk result (TestNumbersFit (test_of guard.now)) }
{
    let cmp = guard.cmp;
    let left = folded(alloc, &guard.left)?;
    let right = folded(alloc, &guard.right)?;
    Ok(Guard { cmp, left, right })
}
