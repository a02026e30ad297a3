ghost use Rattle.std.specs.Prelude.{◌≡◌, IfOk};
ghost use Rattle.flat_tree.specs.Trees.{If, Local, Seq, While};
ghost use Rattle.flat_code.specs.Owned.{statement_of, term_of};

use crate::trees::{Flat, Term};
use gr_base::Memory;
use std::alloc::Global;

/// Two statements in sequence.
pub fn in_sequence(alloc: Global, first: Flat, second: Flat) -> Result<Flat, Memory>
    ensures { IfOk result (λ made. statement_of made ≡ Seq (statement_of first) (statement_of second)) }
{
    let first = Box::new(alloc, first)?;
    let second = Box::new(alloc, second)?;
    Ok(Flat::Seq(first, second))
}

/// A choice between two statements.
pub fn plain_choice(alloc: Global, test: Term, first: Flat, second: Flat) -> Result<Flat, Memory>
    ensures { IfOk result (λ made. statement_of made ≡ If (term_of test) (statement_of first) (statement_of second)) }
{
    let first = Box::new(alloc, first)?;
    let second = Box::new(alloc, second)?;
    Ok(Flat::If(test, first, second))
}

/// A loop with its body.
pub fn plain_loop(alloc: Global, test: Term, body: Flat) -> Result<Flat, Memory>
    ensures { IfOk result (λ made. statement_of made ≡ While (term_of test) (statement_of body)) }
{
    let body = Box::new(alloc, body)?;
    Ok(Flat::While(test, body))
}

/// A statement in the scope of a local variable.
pub fn plain_local(alloc: Global, k: usize, value: Term, body: Flat) -> Result<Flat, Memory>
    ensures { IfOk result (λ made. statement_of made ≡ Local k (term_of value) (statement_of body)) }
{
    let body = Box::new(alloc, body)?;
    Ok(Flat::Local(k, value, body))
}
