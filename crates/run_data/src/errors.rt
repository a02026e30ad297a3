ghost use Rattle.std.specs.Prelude.{◌≡◌};
ghost use Rattle.run_data.specs.declared.errors.InputError.TheVariants.{Memory};

use crate::texts::Name2;

/// Why a text gives no inputs: its first fault.
#[derive(Debug, Drop)]
pub enum InputError {
    /// The bytes aren't the text of one JSON value.
    BadJson,
    /// The value isn't an object.
    NotAnObject,
    /// No variable has this name.
    UnknownName(Name2),
    /// The value of this name isn't a number, for a scalar, or a list, for an array.
    WrongShape(Name2),
    /// The list of this name hasn't the length of its array.
    WrongLength(Name2),
    /// The value of this name, or an element of its list, isn't a signed 64-bit integer.
    NotAWord(Name2),
    /// Memory ran out, which says nothing of the text.
    Memory,
}

impl<E: Into<gr_base::Memory> + Drop> From<E> for InputError {
    ghost from_gives = { λ _ e. e ≡ Memory };

    fn from(_error: E) -> InputError {
        InputError::Memory
    }
}
