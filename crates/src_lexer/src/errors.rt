ghost use Rattle.src_lexer.specs.Fails.{fail_of};
ghost use Rattle.std.specs.Prelude.{◌≡◌};

use gr_base::Fail;
use thiserror::Error;

/// Why a text isn't a list of tokens: its first error, with a place, which is the number of a byte from 0.
#[derive(Clone, Copy, Debug, PartialEq, Eq, Error)]
pub enum LexFault {
    /// No token begins with the byte; or it is a letter or `_` directly after the digits of a number.
    #[error("byte {0} begins no token")]
    BadByte(u32),
    /// The number that starts at this byte is above 2^63 - 1.
    #[error("the number at byte {0} is too big")]
    NumberTooBig(u32),
    /// The name that starts at this byte has more than 32 bytes.
    #[error("the name at byte {0} is too long")]
    NameTooLong(u32),
}

/// Why [`crate::lex`] returns no tokens: the text's first error, or that memory ran out.
#[derive(Debug, Drop, PartialEq, Eq, Error)]
pub enum LexError {
    /// See [`LexFault::BadByte`].
    #[error("byte {0} begins no token")]
    BadByte(u32),
    /// See [`LexFault::NumberTooBig`].
    #[error("the number at byte {0} is too big")]
    NumberTooBig(u32),
    /// See [`LexFault::NameTooLong`].
    #[error("the name at byte {0} is too long")]
    NameTooLong(u32),
    /// Memory ran out, which says nothing about the text.
    #[error("out of memory")]
    Memory,
}

impl From<Fail<LexFault>> for LexError {
    ghost from_gives = { λ fail error. fail_of error ≡ fail };

    fn from(fail: Fail<LexFault>) -> LexError {
        match fail {
            Fail::Fault(LexFault::BadByte(at)) => LexError::BadByte(at),
            Fail::Fault(LexFault::NumberTooBig(at)) => LexError::NumberTooBig(at),
            Fail::Fault(LexFault::NameTooLong(at)) => LexError::NameTooLong(at),
            Fail::Memory => LexError::Memory,
        }
    }
}
