ghost use Rattle.std.specs.Prelude.{◌≡◌, ℤ, ◌/◌, ◌%◌, ◌^◌};
ghost use Rattle.std.specs.Int.{w64, cast_signed};
ghost use Rattle.gr_word.specs.Prelude.{IsWord, unsigned_of};
ghost use Rattle.module_tree.specs.Operators.{shifted_logically};

/// A law: `a >>> b` divides a, as an unsigned number, by 2 to the power of the lowest six bits of b.
pub fn shift_law()
    ensures { (a b : ℤ) → IsWord a → shifted_logically a b ≡ cast_signed w64 (unsigned_of a / 2 ^ (unsigned_of b % 64)) }
{}
