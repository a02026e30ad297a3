ghost use Rattle.std.specs.Prelude.{◌≡◌, IfOk};
ghost use Rattle.flat_passes.specs.Values.{set_again, values, with_locals};
ghost use Rattle.flat_code.specs.Limits.{needs_name};
ghost use Rattle.flat_tree.specs.Trees.{Put, Set};
ghost use Rattle.flat_code.specs.Owned.{statement_of, term_of, terms_of};

use crate::copies::copy_of;
use crate::hoisting::{listed, next, test_of, value_of};
use crate::numbers::number;
use crate::statements::{in_sequence, plain_choice, plain_local, plain_loop};
use crate::trees::{Flat, Term};
use gr_base::Memory;
use std::alloc::Global;

// A statement in the scope of new variables with these values.
fn with_locals(alloc: Global, n: usize, before: Vec<Term>, s: Flat) -> Result<Flat, Memory>
    ensures { IfOk result (λ made. statement_of made
        ≡ with_locals needs_name n (terms_of before.items) (statement_of s)) }
{
    let mut left = before;
    let mut made = s;
    while let Some(value) = left.pop() {
        let k = number(n, left.len())?;
        made = plain_local(alloc, k, value, made)?;
    }
    Ok(made)
}

// Assigns the same values once more.
fn set_again(alloc: Global, n: usize, before: &[Term]) -> Result<Flat, Memory>
    ensures { IfOk result (λ made. statement_of made ≡ set_again needs_name n (terms_of before.now)) }
{
    let mut i = before.len();
    let mut made = Flat::Skip;
    while i > 0 {
        i -= 1;
        let again = Flat::Set(number(n, i)?, copy_of(alloc, &before[i])?);
        made = in_sequence(alloc, again, made)?;
    }
    Ok(made)
}

fn assignment(alloc: Global, n: usize, k: usize, value: Term) -> Result<Flat, Memory>
    ensures { IfOk result (λ made. statement_of made ≡ values needs_name n (Set k (term_of value))) }
{
    let h = value_of(alloc, n, value)?;
    with_locals(alloc, n, h.before, Flat::Set(k, h.term))
}

fn element(alloc: Global, n: usize, k: usize, index: Term, value: Term) -> Result<Flat, Memory>
    ensures { IfOk result (λ made. statement_of made ≡ values needs_name n (Put k (term_of index) (term_of value))) }
{
    let h = value_of(alloc, n, value)?;
    let g = value_of(alloc, next(n, &h)?, index)?;
    let before = listed(h.before, g.before)?;
    with_locals(alloc, n, before, Flat::Put(k, g.term, h.term))
}

/// A statement with new variables, with numbers from `n` on, for what the core lacks. The only error is that memory ran
/// out.
pub fn values(alloc: Global, n: usize, s: Flat) -> Result<Flat, Memory>
    ensures { IfOk result (λ made. statement_of made ≡ values needs_name n (statement_of s)) }
{
    match s {
        Flat::Skip => Ok(Flat::Skip),
        Flat::Seq(first, second) => {
            let first = values(alloc, n, Box::into_inner(first))?;
            let second = values(alloc, n, Box::into_inner(second))?;
            in_sequence(alloc, first, second)
        }
        Flat::Set(k, value) => assignment(alloc, n, k, value),
        Flat::Put(k, index, value) => element(alloc, n, k, index, value),
        Flat::If(test, first, second) => {
            let h = test_of(alloc, n, test)?;
            let first = values(alloc, n, Box::into_inner(first))?;
            let second = values(alloc, n, Box::into_inner(second))?;
            let made = plain_choice(alloc, h.term, first, second)?;
            with_locals(alloc, n, h.before, made)
        }
        Flat::While(test, body) => {
            let h = test_of(alloc, n, test)?;
            let body = values(alloc, n, Box::into_inner(body))?;
            let again = set_again(alloc, n, h.before.as_slice())?;
            let body = in_sequence(alloc, body, again)?;
            let made = plain_loop(alloc, h.term, body)?;
            with_locals(alloc, n, h.before, made)
        }
        Flat::Local(k, value, body) => {
            let h = value_of(alloc, n, value)?;
            let body = values(alloc, n, Box::into_inner(body))?;
            let made = plain_local(alloc, k, h.term, body)?;
            with_locals(alloc, n, h.before, made)
        }
    }
}
