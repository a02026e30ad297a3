ghost use Rattle.std.specs.Prelude.{◌≡◌, ℕ, List, Err};
ghost use Rattle.src_lexer.specs.declared.tokens.Kind.{Kind};
ghost use Rattle.src_lexer.specs.declared.tokens.Token.{Token};
ghost use Rattle.src_lexer.specs.Prelude.{Splits};
ghost use Rattle.src_lexer.specs.declared.errors.LexFault.{LexFault};
ghost use Rattle.src_parser.specs.declared.errors.ParseFault.{ParseFault};
ghost use Rattle.src_parser.specs.Explained.{ExplainsTokens};
ghost use Rattle.src_parser.specs.Grammar.{limits, Sentence};
ghost use Rattle.src_parser.specs.Printable.{IsPrintable};
ghost use Rattle.src_parser.specs.Source.{SpellsSource};
ghost use Rattle.src_tree.specs.Prelude.{source_text, Source};
ghost use Rattle.src_parser.specs.Refusals.{token_kinds, Unexpected, TooDeep, CutShort};

/// A law: tokens are at most one program.
pub fn one_tree()
    ensures { (tokens : List Kind) (p q : Source) → Sentence limits tokens p → Sentence limits tokens q → p ≡ q }
{}

/// A law: no error is true of tokens that are a program.
pub fn no_refusal()
    ensures unexpected { (tokens : List Token) (p : Source) (at : ℕ)
        → Sentence limits (token_kinds tokens) p → Unexpected tokens at → ⊥ }
    ensures too_deep { (tokens : List Token) (p : Source) (at : ℕ)
        → Sentence limits (token_kinds tokens) p → TooDeep tokens at → ⊥ }
    ensures cut_short { (tokens : List Token) (p : Source) → Sentence limits (token_kinds tokens) p → CutShort tokens
        → ⊥ }
{}

/// A law: at most one fault is true of tokens, with its reason and its place.
pub fn one_refusal()
    ensures { (tokens : List Token) (a b : ParseFault) → ExplainsTokens a tokens → ExplainsTokens b tokens → a ≡ b }
{}

/// Laws of source texts. The canonical text of a printable program encodes that program, so its tokens are read as that
/// program again. A text encodes at most one program. A text that encodes a program splits into tokens without an
/// error.
pub fn source_laws()
    ensures read_again { (p : Source) → IsPrintable p → SpellsSource (source_text p) p }
    ensures one_program { (text : List ℕ) (p q : Source) → SpellsSource text p → SpellsSource text q → p ≡ q }
    ensures no_fault { (text : List ℕ) (p : Source) (e : LexFault) → SpellsSource text p → Splits 0 text (Err e) → ⊥ }
{}
