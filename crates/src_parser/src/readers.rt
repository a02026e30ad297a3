ghost use Rattle.std.specs.Prelude.{List, [], ◌++◌, IfOk, IfErr, OnOk};
ghost use Rattle.gr_base.specs.Prelude.{IfFault};
ghost use Rattle.src_lexer.specs.declared.tokens.Token.{Token};
ghost use Rattle.src_parser.specs.declared.errors.ParseFault.{ParseFault};

use crate::errors::ParseFault;
use gr_base::Fail;
use src_lexer::Token;
use std::alloc::Global;

/// A parser that is passed its tokens in several lists, in order. After an error the reader is of no more use.
pub trait TokenReader: Drop {
    /// What tokens are the text of.
    type Tree: Drop;

    /// Tokens are a tree.
    ghost IsTree: { List Token → Self.Tree → Type 0 };

    /// A fault is true of tokens.
    ghost Explains: { ParseFault → List Token → Type 0 };

    /// A reader has read exactly these tokens, and found no error.
    ghost HasRead: { List Token → Self → Type 0 };

    /// A reader that has read nothing.
    fn new(alloc: Global) -> Self
        ensures { HasRead [] result };

    /// Reads the next tokens. A fault is true of all tokens, regardless of those that follow these.
    fn read(&mut self, alloc: Global, tokens: &[Token]) -> Result<(), Fail<ParseFault>>
        ensures read { OnOk result ((before : List Token)
            → HasRead before self.old → HasRead (before ++ tokens.now) self.new) }
        ensures refused { IfErr result (IfFault (λ fault. (before after : List Token)
            → HasRead before self.old → Explains fault ((before ++ tokens.now) ++ after))) };

    /// The tree of all tokens that were read.
    fn finish(self, alloc: Global) -> Result<Self::Tree, Fail<ParseFault>>
        ensures finished { IfOk result (λ tree. (tokens : List Token) → HasRead tokens self → IsTree tokens tree) }
        ensures cut { IfErr result (IfFault (λ fault. (tokens : List Token)
            → HasRead tokens self → Explains fault tokens)) };
}

/// The tree of tokens, which are passed to a reader at once.
pub fn read_tree<R: TokenReader>(
    alloc: Global,
    tokens: &[Token],
) -> Result<R::Tree, Fail<ParseFault>>
    ensures tree { IfOk result (λ tree. R.IsTree tokens.now tree) }
    ensures refused { IfErr result (IfFault (λ fault. R.Explains fault tokens.now)) }
{
    let mut reader = R::new(alloc);
    match reader.read(alloc, tokens) {
        Ok(()) => reader.finish(alloc),
        Err(error) => {
            drop(reader);
            Err(error)
        }
    }
}
