ghost use Rattle.std.specs.Prelude.{◌≡◌, ◌*◌};
ghost use Rattle.scalar_ranges.specs.Known.{counted, counted_by, operated, range_by, range_under};

use crate::ranges::{Range, range_from};
use gr_word::{Cmp, Op};

fn product(a: u64, b: u64) -> u128
    ensures { result ≡ a * b }
{
    u128::from(a) * u128::from(b)
}

// The range of an operation on two words in ranges.
fn range_by(op: Op, a: Range, b: Range) -> Option<Range>
    ensures { result ≡ range_by op a b }
{
    match op {
        Op::Add => range_from(
            u128::from(a.least) + u128::from(b.least),
            u128::from(a.most) + u128::from(b.most),
        ),
        Op::Sub => {
            if a.least < b.most {
                return None;
            }
            range_from(
                u128::from(a.least - b.most),
                u128::from(a.most.saturating_sub(b.least)),
            )
        }
        Op::Mul => range_from(product(a.least, b.least), product(a.most, b.most)),
        Op::Rem => {
            if 0 < b.least {
                return range_from(0, u128::from(b.most.saturating_sub(1)));
            }
            None
        }
        Op::And => range_from(0, u128::from(b.most)),
        Op::Shl => {
            if b.least <= b.most && b.most < 63 {
                return range_from(product(a.least, 1 << b.least), product(a.most, 1 << b.most));
            }
            None
        }
        Op::Div => None,
        Op::Remu => None,
        Op::Or => None,
        Op::Xor => None,
        Op::Shr => None,
    }
}

// The range of an operation on any word and one in a range: that of a mask.
fn range_under(op: Op, mask: Range) -> Option<Range>
    ensures { result ≡ range_under op mask }
{
    match op {
        Op::And => range_from(0, u128::from(mask.most)),
        Op::Add => None,
        Op::Sub => None,
        Op::Mul => None,
        Op::Div => None,
        Op::Rem => None,
        Op::Remu => None,
        Op::Or => None,
        Op::Xor => None,
        Op::Shl => None,
        Op::Shr => None,
    }
}

/// The range of an operation on two words, of which ranges are known or not.
pub(crate) fn operated(op: Op, a: Option<Range>, b: Option<Range>) -> Option<Range>
    ensures { result ≡ operated op a b }
{
    match b {
        None => None,
        Some(b) => match a {
            None => range_under(op, b),
            Some(a) => range_by(op, a, b),
        },
    }
}

/// The range of a scalar that isn't below the least of a range and passes the guard that compares it with a word in
/// another range.
pub(crate) fn counted(cmp: Cmp, start: Option<Range>, bound: Option<Range>) -> Option<Range>
    ensures { result ≡ counted cmp start bound }
{
    match start {
        None => None,
        Some(start) => match bound {
            None => None,
            Some(bound) => counted_by(cmp, start, bound),
        },
    }
}

fn counted_by(cmp: Cmp, start: Range, bound: Range) -> Option<Range>
    ensures { result ≡ counted_by cmp start bound }
{
    match cmp {
        Cmp::Lt => range_from(
            u128::from(start.least),
            u128::from(bound.most.saturating_sub(1)),
        ),
        Cmp::Le => range_from(u128::from(start.least), u128::from(bound.most)),
        Cmp::Eq => None,
        Cmp::Ne => None,
        Cmp::Gt => None,
        Cmp::Ge => None,
    }
}
