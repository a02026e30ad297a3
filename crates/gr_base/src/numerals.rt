ghost use Rattle.std.specs.Prelude.{◌≡◌, ◌≢◌, ℕ, ◌<◌, ◌≤◌, ◌+◌, ◌-◌, ◌*◌, ◌^◌, true, length, min, decimal, IfSome, IfNone};
ghost use Rattle.std.specs.Char.{digit_value};
ghost use Rattle.std.specs.Str.Parse.{AllDigits, digits_value};
ghost use Rattle.gr_base.specs.Numerals.{OneNumeral, are_digits, is_canonical_numeral};

/// Whether all bytes are decimal digits.
pub fn are_digits(text: &[u8]) -> bool
    ensures { result ≡ are_digits text.now }
{
    text.iter().all(|byte| byte.is_ascii_digit())
}

/// Whether a text is a canonical numeral: one or more decimal digits, of which the first is 0 only in `0`.
#[tactic(auto, unfolding(crate::specs::Numerals::is_canonical_numeral))]
pub fn is_canonical_numeral(text: &[u8]) -> bool
    ensures { result ≡ is_canonical_numeral text.now }
{
    1 <= text.len() && are_digits(text) && (text.len() == 1 || text[0] != b'0')
}

/// The value of a digit of base 16 or less, in upper or lower case.
pub fn digit_value(digit: u8) -> u64
    requires { digit_value digit < 16 }
    ensures { result ≡ digit_value digit }
{
    match (digit as char).to_digit(16) {
        Some(value) => u64::from(value),
        None => 0,
    }
}

/// The value of digits, which may begin with zeros. The digits are few enough that it fits.
pub fn digits_value(radix: u64, digits: &[u8]) -> u64
    requires radix { radix ≤ 16 }
    requires digits { AllDigits radix digits.now }
    requires short { radix ^ length digits.now ≤ 2 ^ 64 }
    ensures value { result ≡ digits_value radix digits.now }
    ensures below { result < radix ^ length digits.now }
{
    let mut value = 0;
    for digit in digits {
        value = value * radix + digit_value(*digit);
    }
    value
}

/// The value of decimal digits, which may begin with zeros, or `most` if the value is greater.
pub fn number_capped(most: u64, digits: &[u8]) -> u64
    requires { are_digits digits.now ≡ true }
    ensures { result ≡ min (digits_value 10 digits.now) most }
{
    let mut number = 0;
    for digit in digits {
        number = capped(most, number, digit_value(*digit));
    }
    number
}

/// A number with one more digit, or `most` if that is greater.
fn capped(most: u64, number: u64, digit: u64) -> u64
    ensures { result ≡ min (number * 10 + digit) most }
{
    let more = number.saturating_mul(10).saturating_add(digit);
    if more > most { most } else { more }
}

/// The number up to `most` whose decimal text this is, or `None` if there is none. That text is the number's canonical
/// numeral.
pub fn numeral_up_to(most: u64, text: &[u8]) -> Option<u64>
    requires { most < 2 ^ 64 - 1 }
    ensures some { IfSome result (λ n. (n ≤ most) × (text.now ≡ decimal n)) }
    ensures none { IfNone result ((n : ℕ) → n ≤ most → text.now ≢ decimal n) }
{
    if !is_canonical_numeral(text) {
        return None;
    }
    let number = number_capped(most + 1, text);
    if number > most { None } else { Some(number) }
}

/// Does nothing; its clause is a law: a number has one canonical numeral, its decimal text.
pub fn numeral_laws()
    ensures one_numeral { OneNumeral }
{}
