ghost use Rattle.std.specs.Prelude.{◌≡◌};
ghost use Rattle.flat_code.specs.Limits.{fits, is_plain, is_short, light, needs_name};
ghost use Rattle.flat_code.specs.Owned.{statement_of, term_of};

use crate::trees::{Flat, Operator, Term};

// Whether at most `n` operators and indexes are nested in a term.
fn fits(n: u8, e: &Term) -> bool
    ensures { result ≡ fits n (term_of e.now) }
{
    match e {
        Term::Num(_) => true,
        Term::Var(_) => true,
        Term::Item(_, index) => n > 0 && fits(n - 1, index),
        Term::Bin(_, left, right) => n > 0 && (fits(n - 1, left) && fits(n - 1, right)),
        Term::Select(test, first, second) => {
            n > 0 && (fits(n - 1, test) && (fits(n - 1, first) && fits(n - 1, second)))
        }
    }
}

fn is_short(s: &Flat) -> bool
    ensures { result ≡ is_short (statement_of s.now) }
{
    match s {
        Flat::Skip => true,
        Flat::Seq(_, _) => false,
        Flat::Set(_, value) => fits(1, value),
        Flat::Put(_, index, value) => fits(1, index) && fits(1, value),
        Flat::If(_, _, _) => false,
        Flat::While(_, _) => false,
        Flat::Local(_, _, _) => false,
    }
}

/// Whether a statement may be written twice: all may, or the short ones.
pub fn is_light(all: bool, s: &Flat) -> bool
    ensures { result ≡ light all (statement_of s.now) }
{
    all || is_short(s)
}

fn is_plain(e: &Term) -> bool
    ensures { result ≡ is_plain (term_of e.now) }
{
    match e {
        Term::Num(_) => true,
        Term::Var(_) => true,
        Term::Item(_, _) => true,
        Term::Bin(operator, _, _) => match operator {
            Operator::Machine(_) => true,
            Operator::LogicalShift => false,
            Operator::Compare(_) => false,
            Operator::Conjunction => false,
            Operator::Disjunction => false,
        },
        Term::Select(_, _, _) => false,
    }
}

/// Whether a term becomes a variable: the core lacks it, or it is high.
pub fn needs_name(e: &Term) -> bool
    ensures { result ≡ needs_name (term_of e.now) }
{
    !is_plain(e) || !fits(10, e)
}
