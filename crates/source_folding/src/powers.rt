ghost use Rattle.std.specs.Prelude.{◌≡◌, ◌<◌, ◌^◌, ◌==◌, ◌≤◌, OnSome, find};
ghost use Rattle.std.specs.List.{range_with_len};
ghost use Rattle.source_folding.specs.Folded.{is_product, is_remainder, mask_of, power_of};

use gr_word::Op;

// Which of the first powers of two a number is.
fn among_powers(number: u64, count: u32) -> Option<u32>
    requires { count ≤ 64 }
    ensures { result ≡ find (λ k. 2 ^ k == number) (range_with_len 0 count) }
{
    for k in 0..count {
        if 1 << k == number {
            return Some(k);
        }
    }
    None
}

/// The logarithm of a number that is a power of two below 2^63.
#[tactic(auto, unfolding(crate::specs::Folded::power_of))]
pub(crate) fn power_of(number: u64) -> Option<u32>
    ensures { result ≡ power_of number }
{
    among_powers(number, 63)
}

/// Whether an operation is a product.
pub(crate) fn is_product(op: Op) -> bool
    ensures { result ≡ is_product op }
{
    match op {
        Op::Mul => true,
        Op::Add => false,
        Op::Sub => false,
        Op::Div => false,
        Op::Rem => false,
        Op::Remu => false,
        Op::And => false,
        Op::Or => false,
        Op::Xor => false,
        Op::Shl => false,
        Op::Shr => false,
    }
}

/// Whether an operation is an unsigned remainder.
pub(crate) fn is_remainder(op: Op) -> bool
    ensures { result ≡ is_remainder op }
{
    match op {
        Op::Remu => true,
        Op::Add => false,
        Op::Sub => false,
        Op::Mul => false,
        Op::Div => false,
        Op::Rem => false,
        Op::And => false,
        Op::Or => false,
        Op::Xor => false,
        Op::Shl => false,
        Op::Shr => false,
    }
}

/// The mask for an unsigned remainder by a power of two.
pub(crate) fn mask_of(number: i64) -> i64
    ensures { result ≡ mask_of number }
{
    number.cast_unsigned().saturating_sub(1).cast_signed()
}
