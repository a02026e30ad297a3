ghost use Rattle.std.specs.Prelude.{◌≡◌, ◌<◌, ◌^◌, ◌-◌, Option, None, IfSome};
ghost use Rattle.region_walk.specs.Slots.{IsCommonOf};

use std::marker::Model;

/// The word that represents no number.
const NO_NUMBER: u32 = u32::MAX;

/// The number of a value, if it is known, in one word. So a state has half the bytes, and two states are compared word
/// by word.
#[derive(Clone, Copy, Debug)]
pub struct HeldNumber {
    word: u32,
}

impl Model for HeldNumber {
    ghost use Rattle.std.specs.Prelude.{ℕ, Option};
    ghost use Rattle.std.proofs.Common.{ap};
    ghost use Rattle.region_walk.specs.HeldWords.{number_in_word, word_with, word-back};

    ghost Value = { Option ℕ };

    ghost view = { λ h. number_in_word h.word };

    ghost inverse = { λ number. record { word = word_with number } };

    ghost inverse_ok = { λ a h. ap (λ (w : ℕ). record { word = w }) (word-back a.word) };
}

impl HeldNumber {
    /// No number is known.
    pub fn none() -> HeldNumber
        ensures { result ≡ None }
    {
        HeldNumber { word: NO_NUMBER }
    }

    /// This number, or none.
    pub fn of(number: Option<u32>) -> HeldNumber
        requires { IfSome number (λ n. n < 2 ^ 32 - 1) }
        ensures { result ≡ number }
    {
        match number {
            None => HeldNumber::none(),
            Some(word) => HeldNumber { word },
        }
    }

    /// The number, if it is known.
    pub fn number(self) -> Option<u32>
        ensures { result ≡ self }
    {
        if self.word == NO_NUMBER {
            None
        } else {
            Some(self.word)
        }
    }

    /// The number, if both have the same, and otherwise none.
    pub fn common(self, other: HeldNumber) -> HeldNumber
        ensures { IsCommonOf None self other result }
    {
        if self.word == other.word {
            self
        } else {
            HeldNumber::none()
        }
    }
}
