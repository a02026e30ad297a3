ghost use Rattle.std.specs.Prelude.{◌≡◌};
ghost use Rattle.src_parser.specs.Fails.{fail_of};

use gr_base::Fail;
use src_lexer::LexFault;
use thiserror::Error;

/// Why tokens aren't a program. The number is the place of the token's first byte.
#[derive(Clone, Copy, Debug, PartialEq, Eq, Error)]
pub enum ParseFault {
    /// No program can continue with this token: the tokens before it begin a program, and together with it they begin
    /// none.
    #[error("no program goes on with the token at byte {0}")]
    Unexpected(u32),
    /// The text ends too early: all tokens together begin a program, but aren't one.
    #[error("the text ends within a program")]
    EndOfText,
    /// With this token, the program would exceed a limit of nesting.
    #[error("too much is nested at byte {0}")]
    TooDeep(u32),
}

/// Why [`crate::parse`] returns no program: the tokens' first error, or that memory ran out.
#[derive(Debug, Drop, PartialEq, Eq, Error)]
pub enum ParseError {
    /// See [`ParseFault::Unexpected`].
    #[error("no program goes on with the token at byte {0}")]
    Unexpected(u32),
    /// See [`ParseFault::EndOfText`].
    #[error("the text ends within a program")]
    EndOfText,
    /// See [`ParseFault::TooDeep`].
    #[error("too much is nested at byte {0}")]
    TooDeep(u32),
    /// Memory ran out, which says nothing about the tokens.
    #[error("out of memory")]
    Memory,
}

impl From<Fail<ParseFault>> for ParseError {
    ghost from_gives = { λ fail error. fail_of error ≡ fail };

    fn from(fail: Fail<ParseFault>) -> ParseError {
        match fail {
            Fail::Fault(ParseFault::Unexpected(at)) => ParseError::Unexpected(at),
            Fail::Fault(ParseFault::EndOfText) => ParseError::EndOfText,
            Fail::Fault(ParseFault::TooDeep(at)) => ParseError::TooDeep(at),
            Fail::Memory => ParseError::Memory,
        }
    }
}

/// Why a text isn't a program: the first error of its pieces; or, if it splits into tokens, that of the tokens.
#[derive(Clone, Copy, Debug, PartialEq, Eq, Error)]
pub enum TextFault {
    /// The text doesn't split into tokens.
    #[error(transparent)]
    Pieces(LexFault),
    /// The tokens aren't a program.
    #[error(transparent)]
    Tokens(ParseFault),
}
