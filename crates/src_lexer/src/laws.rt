ghost use Rattle.std.specs.Prelude.{◌≡◌, ℕ, List};
ghost use Rattle.src_lexer.specs.Splits.{Lexed, Splits};

/// A law: a text splits into tokens, or has a first error, in one way.
pub fn one_reading()
    ensures { (at : ℕ) (text : List ℕ) (a b : Lexed) → Splits at text a → Splits at text b → a ≡ b }
{}
