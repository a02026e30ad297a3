ghost use Rattle.std.specs.Prelude.{◌≡◌};
ghost use Rattle.lt_assembler.specs.Faults.{at_line};
ghost use Rattle.lt_assembler.specs.declared.faults.Fault.TheVariants.{Memory};

use crate::errors::AsmError;

/// The error of a line, without the line's number.
#[derive(Clone, Copy)]
pub enum Fault {
    /// The line has none of the forms of lines, or is out of order.
    WrongForm,
    /// A word isn't a valid number, or its number is out of its range.
    Number,
    /// A name is repeated.
    RepeatedName,
    /// The line exceeds a limit.
    Limit,
    /// Memory ran out, which says nothing about the line.
    Memory,
}

impl Fault {
    /// The error of a text whose line with this number has this error.
    pub fn at(self, line: u32) -> AsmError
        ensures { result ≡ at_line line self }
    {
        match self {
            Fault::WrongForm => AsmError::BadLine(line),
            Fault::Number => AsmError::BadNumber(line),
            Fault::RepeatedName => AsmError::TwiceNamed(line),
            Fault::Limit => AsmError::OverLimit(line),
            Fault::Memory => AsmError::Memory,
        }
    }
}

impl<E: Into<gr_base::Memory> + Drop> From<E> for Fault {
    ghost from_gives = { λ _ e. e ≡ Memory };

    fn from(_error: E) -> Fault {
        Fault::Memory
    }
}
