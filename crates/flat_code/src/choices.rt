ghost use Rattle.std.specs.Prelude.{◌≡◌, IfOk};
ghost use Rattle.flat_passes.specs.Conditions.{assigned, choice, conditions, declared, one_or_zero, with_local};
ghost use Rattle.flat_code.specs.Limits.{light};
ghost use Rattle.flat_code.specs.Owned.{statement_of, term_of};

use crate::copies::statement_copy;
use crate::limits::is_light;
use crate::numbers::reads;
use crate::statements::{in_sequence, plain_choice, plain_local};
use crate::trees::{Flat, Operator, Term};
use gr_base::Memory;
use std::alloc::Global;

// A choice by a condition, which becomes choices by its parts if that is light.
fn choice(alloc: Global, all: bool, test: Term, first: Flat, second: Flat) -> Result<Flat, Memory>
    ensures { IfOk result (λ made. statement_of made
        ≡ choice (light all) (term_of test) (statement_of first) (statement_of second)) }
{
    match test {
        Term::Num(_) | Term::Var(_) | Term::Item(_, _) => plain_choice(alloc, test, first, second),
        Term::Bin(operator, left, right) => match operator {
            Operator::Conjunction => {
                if !is_light(all, &second) {
                    return plain_choice(alloc, Term::Bin(operator, left, right), first, second);
                }
                let again = statement_copy(alloc, &second)?;
                let inner = choice(alloc, all, Box::into_inner(right), first, again)?;
                choice(alloc, all, Box::into_inner(left), inner, second)
            }
            Operator::Disjunction => {
                if !is_light(all, &first) {
                    return plain_choice(alloc, Term::Bin(operator, left, right), first, second);
                }
                let again = statement_copy(alloc, &first)?;
                let inner = choice(alloc, all, Box::into_inner(right), again, second)?;
                choice(alloc, all, Box::into_inner(left), first, inner)
            }
            Operator::Machine(_) | Operator::LogicalShift | Operator::Compare(_) => {
                plain_choice(alloc, Term::Bin(operator, left, right), first, second)
            }
        },
        Term::Select(test, one, other) => {
            if !(is_light(all, &first) && is_light(all, &second)) {
                return plain_choice(alloc, Term::Select(test, one, other), first, second);
            }
            let first_again = statement_copy(alloc, &first)?;
            let second_again = statement_copy(alloc, &second)?;
            let one = choice(alloc, all, Box::into_inner(one), first_again, second_again)?;
            let other = choice(alloc, all, Box::into_inner(other), first, second)?;
            choice(alloc, all, Box::into_inner(test), one, other)
        }
    }
}

fn one_or_zero(alloc: Global, all: bool, k: usize, test: Term) -> Result<Flat, Memory>
    ensures { IfOk result (λ made. statement_of made ≡ one_or_zero (light all) k (term_of test)) }
{
    choice(
        alloc,
        all,
        test,
        Flat::Set(k, Term::Num(1)),
        Flat::Set(k, Term::Num(0)),
    )
}

// An assignment to a scalar, which becomes choices if its value is a condition or a selection.
fn assigned(alloc: Global, all: bool, k: usize, value: Term) -> Result<Flat, Memory>
    ensures { IfOk result (λ made. statement_of made ≡ assigned (light all) k (term_of value)) }
{
    match value {
        Term::Num(value) => Ok(Flat::Set(k, Term::Num(value))),
        Term::Var(j) => Ok(Flat::Set(k, Term::Var(j))),
        Term::Item(j, index) => Ok(Flat::Set(k, Term::Item(j, index))),
        Term::Bin(operator, left, right) => match operator {
            Operator::Machine(_) => Ok(Flat::Set(k, Term::Bin(operator, left, right))),
            Operator::LogicalShift => Ok(Flat::Set(k, Term::Bin(operator, left, right))),
            Operator::Compare(_) => one_or_zero(alloc, all, k, Term::Bin(operator, left, right)),
            Operator::Conjunction => one_or_zero(alloc, all, k, Term::Bin(operator, left, right)),
            Operator::Disjunction => one_or_zero(alloc, all, k, Term::Bin(operator, left, right)),
        },
        Term::Select(test, first, second) => {
            let first = assigned(alloc, all, k, Box::into_inner(first))?;
            let second = assigned(alloc, all, k, Box::into_inner(second))?;
            choice(alloc, all, Box::into_inner(test), first, second)
        }
    }
}

// A local whose first value is a condition.
fn declared(alloc: Global, all: bool, k: usize, value: Term, body: Flat) -> Result<Flat, Memory>
    ensures { IfOk result (λ made. statement_of made ≡ declared (light all) k (term_of value) (statement_of body)) }
{
    if reads(k, &value) {
        return plain_local(alloc, k, value, body);
    }
    let first = assigned(alloc, all, k, value)?;
    let body = in_sequence(alloc, first, body)?;
    plain_local(alloc, k, Term::Num(0), body)
}

fn with_local(alloc: Global, all: bool, k: usize, value: Term, body: Flat) -> Result<Flat, Memory>
    ensures { IfOk result (λ made. statement_of made ≡ with_local (light all) k (term_of value) (statement_of body)) }
{
    match value {
        Term::Num(value) => plain_local(alloc, k, Term::Num(value), body),
        Term::Var(j) => plain_local(alloc, k, Term::Var(j), body),
        Term::Item(j, index) => plain_local(alloc, k, Term::Item(j, index), body),
        Term::Bin(operator, left, right) => match operator {
            Operator::Machine(_) => plain_local(alloc, k, Term::Bin(operator, left, right), body),
            Operator::LogicalShift => plain_local(alloc, k, Term::Bin(operator, left, right), body),
            Operator::Compare(_) => declared(alloc, all, k, Term::Bin(operator, left, right), body),
            Operator::Conjunction => declared(
                alloc,
                all,
                k,
                Term::Bin(operator, left, right),
                body,
            ),
            Operator::Disjunction => declared(
                alloc,
                all,
                k,
                Term::Bin(operator, left, right),
                body,
            ),
        },
        Term::Select(test, first, second) => {
            declared(alloc, all, k, Term::Select(test, first, second), body)
        }
    }
}

/// A statement whose conditions are choices, as far as what is then written twice is light, or everywhere. The only
/// error is that memory ran out.
pub fn conditions(alloc: Global, all: bool, s: Flat) -> Result<Flat, Memory>
    ensures { IfOk result (λ made. statement_of made ≡ conditions (light all) (statement_of s)) }
{
    match s {
        Flat::Skip => Ok(Flat::Skip),
        Flat::Seq(first, second) => {
            let first = conditions(alloc, all, Box::into_inner(first))?;
            let second = conditions(alloc, all, Box::into_inner(second))?;
            in_sequence(alloc, first, second)
        }
        Flat::Set(k, value) => assigned(alloc, all, k, value),
        Flat::Put(k, index, value) => Ok(Flat::Put(k, index, value)),
        Flat::If(test, first, second) => {
            let first = conditions(alloc, all, Box::into_inner(first))?;
            let second = conditions(alloc, all, Box::into_inner(second))?;
            choice(alloc, all, test, first, second)
        }
        Flat::While(test, body) => {
            let body = Box::new(alloc, conditions(alloc, all, Box::into_inner(body))?)?;
            Ok(Flat::While(test, body))
        }
        Flat::Local(k, value, body) => {
            let body = conditions(alloc, all, Box::into_inner(body))?;
            with_local(alloc, all, k, value, body)
        }
    }
}
