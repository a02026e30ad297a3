ghost use Rattle.std.specs.Prelude.{◌≡◌, IfOk};
ghost use Rattle.flat_code.specs.Owned.{term_of, statement_of};

use crate::trees::{Flat, Term};
use gr_base::Memory;
use std::alloc::Global;

pub(crate) fn copy_of(alloc: Global, e: &Term) -> Result<Term, Memory>
    ensures { IfOk result (λ made. term_of made ≡ term_of e.now) }
{
    match e {
        Term::Num(value) => Ok(Term::Num(*value)),
        Term::Var(k) => Ok(Term::Var(*k)),
        Term::Item(k, index) => {
            let index = Box::new(alloc, copy_of(alloc, index)?)?;
            Ok(Term::Item(*k, index))
        }
        Term::Bin(operator, left, right) => {
            let left = Box::new(alloc, copy_of(alloc, left)?)?;
            let right = Box::new(alloc, copy_of(alloc, right)?)?;
            Ok(Term::Bin(*operator, left, right))
        }
        Term::Select(test, first, second) => {
            let test = Box::new(alloc, copy_of(alloc, test)?)?;
            let first = Box::new(alloc, copy_of(alloc, first)?)?;
            let second = Box::new(alloc, copy_of(alloc, second)?)?;
            Ok(Term::Select(test, first, second))
        }
    }
}

pub(crate) fn statement_copy(alloc: Global, s: &Flat) -> Result<Flat, Memory>
    ensures { IfOk result (λ made. statement_of made ≡ statement_of s.now) }
{
    match s {
        Flat::Skip => Ok(Flat::Skip),
        Flat::Seq(first, second) => {
            let first = Box::new(alloc, statement_copy(alloc, first)?)?;
            let second = Box::new(alloc, statement_copy(alloc, second)?)?;
            Ok(Flat::Seq(first, second))
        }
        Flat::Set(k, value) => Ok(Flat::Set(*k, copy_of(alloc, value)?)),
        Flat::Put(k, index, value) => {
            let index = copy_of(alloc, index)?;
            Ok(Flat::Put(*k, index, copy_of(alloc, value)?))
        }
        Flat::If(test, first, second) => {
            let first = Box::new(alloc, statement_copy(alloc, first)?)?;
            let second = Box::new(alloc, statement_copy(alloc, second)?)?;
            Ok(Flat::If(copy_of(alloc, test)?, first, second))
        }
        Flat::While(test, body) => {
            let body = Box::new(alloc, statement_copy(alloc, body)?)?;
            Ok(Flat::While(copy_of(alloc, test)?, body))
        }
        Flat::Local(k, value, body) => {
            let body = Box::new(alloc, statement_copy(alloc, body)?)?;
            Ok(Flat::Local(*k, copy_of(alloc, value)?, body))
        }
    }
}
