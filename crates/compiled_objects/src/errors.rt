use bank_alloc::PlaceError;
use gr_word::Label;

/// Why a program isn't compiled.
#[derive(Clone, Copy, Debug, PartialEq, Eq)]
pub enum CompileError {
    /// More scalars of the label than a block has words.
    TooManyScalars(Label),
    /// The bank is the lowest that needs more blocks than it may have.
    BankFull(u8),
    /// Memory ran out, which says nothing of the program.
    Memory,
}

impl From<PlaceError> for CompileError {
    ghost use Rattle.std.specs.Prelude.{◌≡◌};
    ghost use Rattle.compiled_objects.specs.Compiles.{error_of};

    ghost from_gives = { λ lack e. e ≡ error_of lack };

    fn from(lack: PlaceError) -> CompileError {
        match lack {
            PlaceError::TooManyScalars(label) => CompileError::TooManyScalars(label),
            PlaceError::BankFull(bank) => CompileError::BankFull(bank),
            PlaceError::Memory => CompileError::Memory,
        }
    }
}
