ghost use Rattle.std.specs.Prelude.{◌≡◌, ◌+◌, IfOk, max};
ghost use Rattle.flat_tree.specs.Bounds.{bound, term_bound};
ghost use Rattle.flat_tree.specs.Keeps.{reads};
ghost use Rattle.flat_code.specs.Owned.{statement_of, term_of};

use crate::trees::{Flat, Term};
use gr_base::Memory;

/// The number of a variable that is `by` after another. If it is 2^64 or more, memory can't hold that many variables.
pub fn number(n: usize, by: usize) -> Result<usize, Memory>
    ensures { IfOk result (λ k. k ≡ n + by) }
{
    n.checked_add(by).ok_or(Memory)
}

fn term_bound(e: &Term) -> Result<usize, Memory>
    ensures { IfOk result (λ n. n ≡ term_bound (term_of e.now)) }
{
    match e {
        Term::Num(_) => Ok(0),
        Term::Var(k) => number(*k, 1),
        Term::Item(k, index) => {
            let k = number(*k, 1)?;
            Ok(k.max(term_bound(index)?))
        }
        Term::Bin(_, left, right) => {
            let left = term_bound(left)?;
            Ok(left.max(term_bound(right)?))
        }
        Term::Select(test, first, second) => {
            let test = term_bound(test)?;
            let first = term_bound(first)?;
            let second = term_bound(second)?;
            Ok(test.max(first.max(second)))
        }
    }
}

/// A number above those of all variables of a statement.
pub(crate) fn bound(s: &Flat) -> Result<usize, Memory>
    ensures { IfOk result (λ n. n ≡ bound (statement_of s.now)) }
{
    match s {
        Flat::Skip => Ok(0),
        Flat::Seq(first, second) => {
            let first = bound(first)?;
            Ok(first.max(bound(second)?))
        }
        Flat::Set(k, value) => {
            let k = number(*k, 1)?;
            Ok(k.max(term_bound(value)?))
        }
        Flat::Put(k, index, value) => {
            let k = number(*k, 1)?;
            let index = term_bound(index)?;
            Ok(k.max(index.max(term_bound(value)?)))
        }
        Flat::If(test, first, second) => {
            let test = term_bound(test)?;
            let first = bound(first)?;
            Ok(test.max(first.max(bound(second)?)))
        }
        Flat::While(test, body) => {
            let test = term_bound(test)?;
            Ok(test.max(bound(body)?))
        }
        Flat::Local(k, value, body) => {
            let k = number(*k, 1)?;
            let value = term_bound(value)?;
            Ok(k.max(value.max(bound(body)?)))
        }
    }
}

/// Whether a term reads variable number `k`.
pub(crate) fn reads(k: usize, e: &Term) -> bool
    ensures { result ≡ reads k (term_of e.now) }
{
    match e {
        Term::Num(_) => false,
        Term::Var(j) => *j == k,
        Term::Item(j, index) => *j == k || reads(k, index),
        Term::Bin(_, left, right) => reads(k, left) || reads(k, right),
        Term::Select(test, first, second) => {
            reads(k, test) || (reads(k, first) || reads(k, second))
        }
    }
}
