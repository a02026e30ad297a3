ghost use Rattle.std.specs.Prelude.{◌≡◌, ◌≢◌, ℕ, ℤ, ◌^◌, ◌<◌, decimal, IfSome, IfNone};
ghost use Rattle.std.specs.Fmt.{signed_decimal};
ghost use Rattle.gr_word.specs.Prelude.{IsWord};

use gr_base::numerals::numeral_up_to;
use itoa::Buffer;

/// The number that bytes encode in decimal digits, without leading zeros.
pub fn read_number(bytes: &[u8]) -> Option<u32>
    ensures some { IfSome result (λ n. (n < 2 ^ 32) × (bytes.now ≡ decimal n)) }
    ensures none { IfNone result ((n : ℕ) → n < 2 ^ 32 → bytes.now ≢ decimal n) }
{
    match numeral_up_to(u64::from(u32::MAX), bytes) {
        Some(number) => Some(number as u32),
        None => None,
    }
}

/// The word that bytes encode in decimal digits, without leading zeros, after a `-` if it is below 0.
pub fn read_word(bytes: &[u8]) -> Option<i64>
    ensures some { IfSome result (λ z. IsWord z × (bytes.now ≡ signed_decimal z)) }
    ensures none { IfNone result ((z : ℤ) → IsWord z → bytes.now ≢ signed_decimal z) }
{
    let Ok(text) = str::from_utf8(bytes) else {
        return None;
    };
    let Ok(word) = text.parse::<i64>() else {
        return None;
    };
    let mut buffer = Buffer::new();
    if buffer.format(word).as_bytes() == bytes {
        Some(word)
    } else {
        None
    }
}
