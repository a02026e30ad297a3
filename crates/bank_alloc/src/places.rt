use gr_word::Label;
use std::alloc::{AllocError, AllocFailed};

/// The place of a variable: `length` words, from word `word` of block `block` of bank `bank` on.
#[derive(Clone, Copy, Debug, PartialEq, Eq)]
pub struct Place {
    /// Plain memory is bank 0, encrypted memory bank 1, and from 2 on the banks are oblivious.
    pub bank: u8,
    pub block: u32,
    pub word: u16,
    /// In words.
    pub length: u32,
}

/// The places of a program's variables, in order of declaration, and the number of blocks of each bank, from bank 0 on.
#[derive(Debug, Drop)]
pub struct Places {
    pub of_var: Vec<Place>,
    pub blocks: Vec<u32>,
}

/// Why a program's variables have no room.
#[derive(Clone, Copy, Debug, PartialEq, Eq)]
pub enum PlaceError {
    /// More scalars of the label than a block has words.
    TooManyScalars(Label),
    /// The bank is the lowest that needs more blocks than it may have.
    BankFull(u8),
    /// Memory ran out, which says nothing of the program.
    Memory,
}

impl From<gr_base::Memory> for PlaceError {
    ghost use Rattle.std.specs.Prelude.{◌≡◌};
    ghost use Rattle.bank_alloc.specs.declared.places.PlaceError.TheVariants.{Memory};

    ghost from_gives = { λ _ e. e ≡ Memory };

    fn from(_error: gr_base::Memory) -> PlaceError {
        PlaceError::Memory
    }
}
