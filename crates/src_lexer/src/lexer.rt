//! The tokens of a text, some at a time.

ghost use Rattle.std.specs.Prelude.{◌≡◌, ◌⊎◌, ◌+◌, ◌<◌, ◌≤◌, ◌^◌, [], length, drop, IfOk, IfErr, Err};
ghost use Rattle.gr_base.specs.Prelude.{IfFault};
ghost use Rattle.src_lexer.specs.Splits.{Splits};
ghost use Rattle.src_lexer.specs.Unread.{left_from, BeginsWith};

use crate::errors::LexFault;
use crate::known_names::KnownNames;
use crate::pieces::{Piece, piece_at};
use crate::tokens::Token;
use gr_base::Fail;
use std::alloc::Global;
use std::marker::Model;

// The most tokens that are read at once: their list has 48 KiB.
const TOKENS_AT_ONCE: usize = 2_048;

/// A text of at most 1,048,576 bytes whose tokens are read some at a time.
#[derive(Drop)]
pub struct Lexer<'a> {
    text: &'a [u8],
    at: usize,
    names: KnownNames<'a>,
}

impl<'a> Model for Lexer<'a> {
    ghost use Rattle.std.specs.Prelude.{◌≤◌, ◌^◌, length};
    ghost use Rattle.src_lexer.specs.Unread.{Unread, left_from};

    ghost Value = { Unread };

    ghost view = { λ lexer. left_from lexer.at lexer.text.now };

    ghost invariant = { λ lexer. (lexer.at ≤ length lexer.text.now) × (length lexer.text.now ≤ 2 ^ 20) };
}

impl<'a> Lexer<'a> {
    /// A text of which nothing is read yet.
    pub fn new(alloc: Global, text: &'a [u8]) -> Lexer<'a>
        requires { length text.now ≤ 2 ^ 20 }
        ensures { result ≡ record { at = 0; rest = text.now } }
    {
        Lexer {
            text,
            at: 0,
            names: KnownNames::new(alloc),
        }
    }

    /// The next tokens, at most 2,048; none at the end of the text. If the text that is left has an error, and its
    /// first error is among the next tokens, it is returned.
    pub fn next(&mut self, alloc: Global) -> Result<Vec<Token>, Fail<LexFault>>
        ensures begins { IfOk result (λ tokens. BeginsWith self.old tokens.items self.new) }
        ensures few { IfOk result (λ tokens. length tokens.items ≤ 2048) }
        ensures goes { IfOk result (λ tokens.
            ((tokens.items ≡ []) × (self.new.rest ≡ [])) ⊎ (length self.new.rest < length self.old.rest)) }
        ensures ends { IfOk result (λ tokens. tokens.items ≡ [] → self.new.rest ≡ []) }
        ensures fault { IfErr result (IfFault (λ fault. Splits self.old.at self.old.rest (Err fault))) }
    {
        let read = read_from(alloc, &mut self.names, self.text, self.at, TOKENS_AT_ONCE)?;
        self.at = read.end;
        Ok(read.tokens)
    }
}

// Some tokens of a text, and the byte up to which the text is read then.
#[derive(Drop)]
pub(crate) struct Read {
    pub(crate) tokens: Vec<Token>,
    pub(crate) end: usize,
}

// Reads a text from a byte on, up to its end or until there are this many tokens.
pub(crate) fn read_from<'a>(
    alloc: Global,
    names: &mut KnownNames<'a>,
    text: &'a [u8],
    at: usize,
    most: usize,
) -> Result<Read, Fail<LexFault>>
    requires few { length text.now ≤ 2 ^ 20 }
    requires within { at ≤ length text.now }
    ensures begins { IfOk result (λ read.
        BeginsWith (left_from at text.now) read.tokens.items (left_from read.end text.now)) }
    ensures bounded { IfOk result (λ read. length read.tokens.items ≤ most) }
    ensures sizes { IfOk result (λ read. at + length read.tokens.items ≤ read.end) }
    ensures inside { IfOk result (λ read. read.end ≤ length text.now) }
    ensures stops { IfOk result (λ read. (length text.now ≤ read.end) ⊎ (most ≤ length read.tokens.items)) }
    ensures fault { IfErr result (IfFault (λ fault. Splits at (drop at text.now) (Err fault))) }
{
    let mut tokens = Vec::new(alloc);
    let mut end = at;
    while end < text.len() && tokens.len() < most {
        match piece_at(alloc, names, rest(text, end), end as u32) {
            Ok(Piece::Skipped(size)) => end += size,
            Ok(Piece::Known(kind, size)) => {
                let token = Token {
                    kind,
                    start: end as u32,
                    len: size as u32,
                };
                tokens.push(token)?;
                end += size;
            }
            Err(error) => return Err(error),
        }
    }
    Ok(Read { tokens, end })
}

// The bytes from a place on.
fn rest(text: &[u8], at: usize) -> &[u8]
    requires { at ≤ length text.now }
    ensures { result.now ≡ drop at text.now }
{
    text.split_at(at).1
}
