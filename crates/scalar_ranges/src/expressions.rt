ghost use Rattle.std.specs.Prelude.{◌≡◌};
ghost use Rattle.src_tree.specs.Prelude.{expr_tree};
ghost use Rattle.scalar_ranges.specs.Known.{is_below, is_within, natural, range_of};
ghost use Rattle.scalar_ranges.specs.Ranges.{range_at};

use crate::names::number_of;
use crate::operations::operated;
use crate::ranges::{Range, range_from};
use src_tree::{Decl, Expr};

// The range of a number.
fn natural(number: i64) -> Option<Range>
    ensures { result ≡ natural number }
{
    if number < 0 {
        return None;
    }
    let number = u128::from(number.cast_unsigned());
    range_from(number, number)
}

/// What is known of the variable with a number.
pub(crate) fn range_at(known: &[Option<Range>], number: usize) -> Option<Range>
    ensures { result ≡ range_at known.now number }
{
    match known.get(number) {
        None => None,
        Some(range) => *range,
    }
}

/// The range of an expression in a store of which ranges are known; `None` if it isn't known.
pub fn range_of(decls: &[Decl], known: &[Option<Range>], e: &Expr) -> Option<Range>
    ensures { result ≡ range_of decls.now known.now (expr_tree e.now) }
{
    match e {
        Expr::Num(number) => natural(*number),
        Expr::Var(name) => range_at(known, number_of(decls, name.bytes())),
        Expr::Item(_, _) => None,
        Expr::Bin(op, left, right) => {
            let left = range_of(decls, known, left);
            let right = range_of(decls, known, right);
            operated(*op, left, right)
        }
    }
}

fn is_below(range: Option<Range>, length: u64) -> bool
    ensures { result ≡ is_below range length }
{
    match range {
        None => false,
        Some(range) => range.most < length,
    }
}

/// Whether an index is known to be the number of a word of an array with a length, so that it is its own remainder.
pub fn is_within(decls: &[Decl], known: &[Option<Range>], index: &Expr, length: u64) -> bool
    ensures { result ≡ is_within decls.now known.now (expr_tree index.now) length }
{
    is_below(range_of(decls, known, index), length)
}
