ghost use Rattle.std.specs.Prelude.{◌≤◌, ◌^◌, length, IfOk, IfErr, Ok, Err};
ghost use Rattle.gr_base.specs.Prelude.{IfFault};
ghost use Rattle.src_lexer.specs.Fails.{fail_of};
ghost use Rattle.src_lexer.specs.Spans.{InOrder, AreSlices};
ghost use Rattle.src_lexer.specs.Splits.{Splits};

use crate::errors::LexError;
use crate::known_names::KnownNames;
use crate::lexer::read_from;
use crate::tokens::Token;
use std::alloc::Global;

/// The tokens of a source text of at most 1,048,576 bytes, in order, without white space and comments.
///
/// Each token is as long as possible. If the text has an error, the first one is returned: `BadByte` with a byte that
/// begins no token, or that is a letter or `_` directly after a number; `NumberTooBig` or `NameTooLong` with the first
/// byte of the number or the name. `Memory` says nothing about the text.
pub fn lex(alloc: Global, text: &[u8]) -> Result<Vec<Token>, LexError>
    requires { length text.now ≤ 2 ^ 20 }
    ensures tokens { IfOk result (λ tokens. Splits 0 text.now (Ok tokens.items)) }
    ensures order { IfOk result (λ tokens. InOrder 0 (length text.now) tokens.items) }
    ensures slices { IfOk result (λ tokens. AreSlices text.now tokens.items) }
    ensures fault { IfErr result (λ e. IfFault (λ fault. Splits 0 text.now (Err fault)) (fail_of e)) }
{
    let mut names = KnownNames::new(alloc);
    // Each token has at least one byte, so this many are never read.
    let read = read_from(alloc, &mut names, text, 0, text.len() + 1)?;
    Ok(read.tokens)
}
