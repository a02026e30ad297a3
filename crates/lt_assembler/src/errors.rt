ghost use Rattle.std.specs.Prelude.{◌≡◌};
ghost use Rattle.lt_assembler.specs.declared.errors.AsmError.TheVariants.{Memory};

use thiserror::Error;

/// Why a text doesn't encode an object: its first error, with the number of the line, from 1.
#[derive(Debug, Drop, PartialEq, Eq, Error)]
pub enum AsmError {
    /// The line has none of the forms of lines, or is out of order. Or the text ends too early; then the number is that
    /// of the line after the last.
    #[error("line {0} has no form that is known there")]
    BadLine(u32),
    /// A number in the line isn't written correctly, or is out of its range.
    #[error("line {0} has a number that isn't allowed")]
    BadNumber(u32),
    /// The line uses a label that no line defines. No line has another error, and no earlier line uses such a label.
    #[error("line {0} uses a label that stands nowhere")]
    UnknownName(u32),
    /// The line repeats the name of a symbol or a label.
    #[error("line {0} repeats a name")]
    TwiceNamed(u32),
    /// The line exceeds the limit of banks, symbols, words of symbols, notes or instructions.
    #[error("line {0} passes a limit")]
    OverLimit(u32),
    /// Memory ran out, which says nothing about the text.
    #[error("out of memory")]
    Memory,
}

impl<E: Into<gr_base::Memory> + Drop> From<E> for AsmError {
    ghost from_gives = { λ _ e. e ≡ Memory };

    fn from(_error: E) -> AsmError {
        AsmError::Memory
    }
}
