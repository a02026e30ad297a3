ghost use Rattle.std.specs.Prelude.{◌≡◌, ◌+◌, ◌++◌, IfOk, [], length};
ghost use Rattle.flat_tree.specs.Trees.{Element, Operation, Select};
ghost use Rattle.flat_passes.specs.Shifts.{shifted};
ghost use Rattle.flat_passes.specs.Values.{hoisted, is_leaf, named, named_if, test_of, tested, value_of};
ghost use Rattle.flat_code.specs.Hoisting.{both, connected, hoisted_of, is_comparison, operand};
ghost use Rattle.flat_code.specs.Limits.{needs_name};
ghost use Rattle.flat_code.specs.Owned.{operator_of, term_of, terms_of};

use crate::copies::copy_of;
use crate::limits::needs_name;
use crate::numbers::number;
use crate::trees::{Operator, Term};
use gr_base::Memory;
use gr_word::{Cmp, Op};
use std::alloc::Global;

/// The values of new variables, in order, and the term that is left.
#[derive(Debug, Drop)]
pub(crate) struct Hoisted {
    pub(crate) before: Vec<Term>,
    pub(crate) term: Term,
}

fn only(alloc: Global, term: Term) -> Hoisted
    ensures before { terms_of result.before.items ≡ [] }
    ensures term { result.term ≡ term }
{
    Hoisted {
        before: Vec::new(alloc),
        term,
    }
}

#[tactic(auto, using(crate::proofs::Listed::terms_more))]
fn named_if(wanted: bool, n: usize, h: Hoisted) -> Result<Hoisted, Memory>
    ensures { IfOk result (λ made. hoisted_of made ≡ named_if wanted n (hoisted_of h)) }
{
    if !wanted {
        return Ok(h);
    }
    let k = next(n, &h)?;
    let mut before = h.before;
    before.push(h.term)?;
    Ok(Hoisted {
        before,
        term: Term::Var(k),
    })
}

// The number of the variable after those of a term.
pub(crate) fn next(n: usize, h: &Hoisted) -> Result<usize, Memory>
    ensures { IfOk result (λ k. k ≡ n + length (hoisted_of h.now).before) }
{
    let k = number(n, h.before.len())?;
    Ok(k)
}

fn named(n: usize, h: Hoisted) -> Result<Hoisted, Memory>
    ensures { IfOk result (λ made. hoisted_of made ≡ named needs_name n (hoisted_of h)) }
{
    let wanted = needs_name(&h.term);
    named_if(wanted, n, h)
}

fn is_leaf(e: &Term) -> bool
    ensures { result ≡ is_leaf (term_of e.now) }
{
    match e {
        Term::Num(_) => true,
        Term::Var(_) => true,
        Term::Item(_, _) => false,
        Term::Bin(_, _, _) => false,
        Term::Select(_, _, _) => false,
    }
}

// Two lists of terms, in order.
#[tactic(auto, using(crate::proofs::Listed::terms_append))]
pub(crate) fn listed(first: Vec<Term>, second: Vec<Term>) -> Result<Vec<Term>, Memory>
    ensures { IfOk result (λ all. terms_of all.items ≡ terms_of first.items ++ terms_of second.items) }
{
    let mut all = first;
    let mut rest = second;
    all.append(&mut rest)?;
    Ok(all)
}

fn operation(alloc: Global, operator: Operator, left: Term, right: Term) -> Result<Term, Memory>
    ensures { IfOk result (λ made. term_of made ≡ Operation (operator_of operator) (term_of left) (term_of right)) }
{
    let left = Box::new(alloc, left)?;
    let right = Box::new(alloc, right)?;
    Ok(Term::Bin(operator, left, right))
}

// A shift to the right that shifts in zeros, in the machine's operations.
fn shifted(alloc: Global, word: Term, count: Term) -> Result<Term, Memory>
    ensures { IfOk result (λ made. term_of made ≡ shifted (term_of word) (term_of count)) }
{
    let again = copy_of(alloc, &count)?;
    let low = operation(alloc, Operator::Machine(Op::Shr), word, again)?;
    let sign = Term::Num(i64::MIN);
    let copies = operation(alloc, Operator::Machine(Op::Shr), sign, count)?;
    let others = operation(alloc, Operator::Machine(Op::Shl), copies, Term::Num(1))?;
    let mask = operation(alloc, Operator::Machine(Op::Xor), others, Term::Num(-1))?;
    operation(alloc, Operator::Machine(Op::And), low, mask)
}

fn joined(alloc: Global, operator: Operator, h: Hoisted, g: Hoisted) -> Result<Hoisted, Memory>
    ensures { IfOk result (λ made. hoisted_of made
        ≡ both (Operation (operator_of operator)) (hoisted_of h) (hoisted_of g)) }
{
    let before = listed(h.before, g.before)?;
    let term = operation(alloc, operator, h.term, g.term)?;
    Ok(Hoisted { before, term })
}

fn joined_shift(alloc: Global, h: Hoisted, g: Hoisted) -> Result<Hoisted, Memory>
    ensures { IfOk result (λ made. hoisted_of made ≡ both shifted (hoisted_of h) (hoisted_of g)) }
{
    let before = listed(h.before, g.before)?;
    let term = shifted(alloc, h.term, g.term)?;
    Ok(Hoisted { before, term })
}

fn selected(alloc: Global, h: Hoisted, x: Hoisted, y: Hoisted) -> Result<Hoisted, Memory>
    ensures before { IfOk result (λ made. terms_of made.before.items
        ≡ terms_of h.before.items ++ (terms_of x.before.items ++ terms_of y.before.items)) }
    ensures term { IfOk result (λ made. term_of made.term ≡ Select (term_of h.term) (term_of x.term) (term_of y.term)) }
{
    let rest = listed(x.before, y.before)?;
    let before = listed(h.before, rest)?;
    let test = Box::new(alloc, h.term)?;
    let first = Box::new(alloc, x.term)?;
    let second = Box::new(alloc, y.term)?;
    Ok(Hoisted {
        before,
        term: Term::Select(test, first, second),
    })
}

fn indexed(alloc: Global, k: usize, h: Hoisted) -> Result<Hoisted, Memory>
    ensures before { IfOk result (λ made. terms_of made.before.items ≡ terms_of h.before.items) }
    ensures term { IfOk result (λ made. term_of made.term ≡ Element k (term_of h.term)) }
{
    let index = Box::new(alloc, h.term)?;
    Ok(Hoisted {
        before: h.before,
        term: Term::Item(k, index),
    })
}

// The first operand, which may stay a condition under `&&` and `||`.
fn operand(n: usize, operator: Operator, h: Hoisted) -> Result<Hoisted, Memory>
    ensures { IfOk result (λ made. hoisted_of made ≡ operand (operator_of operator) n (hoisted_of h)) }
{
    match operator {
        Operator::Conjunction => Ok(h),
        Operator::Disjunction => Ok(h),
        Operator::LogicalShift => named(n, h),
        Operator::Machine(_) => named(n, h),
        Operator::Compare(_) => named(n, h),
    }
}

// An operator with its operands, of which the second has variables from number k on.
fn connected(
    alloc: Global,
    operator: Operator,
    k: usize,
    h: Hoisted,
    g: Hoisted,
) -> Result<Hoisted, Memory>
    ensures { IfOk result (λ made. hoisted_of made ≡ connected (operator_of operator) k (hoisted_of h) (hoisted_of g)) }
{
    match operator {
        Operator::Conjunction => joined(alloc, Operator::Conjunction, h, g),
        Operator::Disjunction => joined(alloc, Operator::Disjunction, h, g),
        Operator::LogicalShift => {
            let wanted = !is_leaf(&g.term);
            joined_shift(alloc, h, named_if(wanted, k, g)?)
        }
        Operator::Machine(op) => joined(alloc, Operator::Machine(op), h, named(k, g)?),
        Operator::Compare(cmp) => joined(alloc, Operator::Compare(cmp), h, named(k, g)?),
    }
}

// A term in which what the core lacks becomes variables, with numbers from n on.
#[tactic(auto, using(crate::proofs::Connected::hoisted_operation))]
pub(crate) fn hoist(alloc: Global, n: usize, e: Term) -> Result<Hoisted, Memory>
    ensures { IfOk result (λ made. hoisted_of made ≡ hoisted needs_name (term_of e) n) }
{
    match e {
        Term::Num(value) => Ok(only(alloc, Term::Num(value))),
        Term::Var(k) => Ok(only(alloc, Term::Var(k))),
        Term::Item(k, index) => {
            let h = hoist(alloc, n, Box::into_inner(index))?;
            indexed(alloc, k, named(n, h)?)
        }
        Term::Bin(operator, left, right) => {
            let h = hoist(alloc, n, Box::into_inner(left))?;
            let h = operand(n, operator, h)?;
            let k = next(n, &h)?;
            let g = hoist(alloc, k, Box::into_inner(right))?;
            connected(alloc, operator, k, h, g)
        }
        Term::Select(test, first, second) => {
            let h = hoist(alloc, n, Box::into_inner(test))?;
            let m = next(n, &h)?;
            let x = hoist(alloc, m, Box::into_inner(first))?;
            let y = hoist(alloc, next(m, &x)?, Box::into_inner(second))?;
            selected(alloc, h, x, y)
        }
    }
}

/// What is left of a value, which may become a variable itself.
pub(crate) fn value_of(alloc: Global, n: usize, e: Term) -> Result<Hoisted, Memory>
    ensures { IfOk result (λ made. hoisted_of made ≡ value_of needs_name n (term_of e)) }
{
    let h = hoist(alloc, n, e)?;
    named(n, h)
}

fn is_comparison(e: &Term) -> bool
    ensures { result ≡ is_comparison (term_of e.now) }
{
    match e {
        Term::Num(_) => false,
        Term::Var(_) => false,
        Term::Item(_, _) => false,
        Term::Bin(operator, _, _) => match operator {
            Operator::Machine(_) => false,
            Operator::LogicalShift => false,
            Operator::Compare(_) => true,
            Operator::Conjunction => false,
            Operator::Disjunction => false,
        },
        Term::Select(_, _, _) => false,
    }
}

fn tested(alloc: Global, n: usize, h: Hoisted) -> Result<Hoisted, Memory>
    ensures { IfOk result (λ made. hoisted_of made ≡ tested needs_name n (hoisted_of h) (term_of h.term)) }
{
    if is_comparison(&h.term) {
        return Ok(h);
    }
    let k = named(n, h)?;
    let term = operation(alloc, Operator::Compare(Cmp::Ne), k.term, Term::Num(0))?;
    Ok(Hoisted {
        before: k.before,
        term,
    })
}

/// What is left of a condition: a comparison.
pub(crate) fn test_of(alloc: Global, n: usize, e: Term) -> Result<Hoisted, Memory>
    ensures { IfOk result (λ made. hoisted_of made ≡ test_of needs_name n (term_of e)) }
{
    let h = hoist(alloc, n, e)?;
    tested(alloc, n, h)
}
