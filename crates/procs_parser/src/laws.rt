ghost use Rattle.std.specs.Prelude.{◌≡◌, List};
ghost use Rattle.src_lexer.specs.declared.tokens.Token.{Token};
ghost use Rattle.src_lexer.specs.declared.tokens.Kind.{Kind};
ghost use Rattle.src_parser.specs.Prelude.{limits, token_kinds};
ghost use Rattle.src_parser.specs.declared.errors.ParseFault.{ParseFault};
ghost use Rattle.procs_tree.specs.Prelude.{File};
ghost use Rattle.procs_parser.specs.FileGrammar.{SpellsFile};
ghost use Rattle.procs_parser.specs.FileRefusals.{ExplainsFile};

/// A law: tokens are at most one file.
pub fn one_file()
    ensures { (tokens : List Kind) (f g : File) → SpellsFile limits tokens f → SpellsFile limits tokens g → f ≡ g }
{}

/// A law: no fault is true of tokens that are a file.
pub fn no_refusal()
    ensures { (tokens : List Token) (f : File) (e : ParseFault) → SpellsFile limits (token_kinds tokens) f
        → ExplainsFile e tokens → ⊥ }
{}

/// A law: at most one fault is true of tokens, with its reason and its place.
pub fn one_refusal()
    ensures { (tokens : List Token) (a b : ParseFault) → ExplainsFile a tokens → ExplainsFile b tokens → a ≡ b }
{}
