ghost use Rattle.std.specs.Prelude.{◌≡◌};
ghost use Rattle.object_file.specs.declared.errors.DecodeError.TheVariants.{Memory};

use thiserror::Error;

/// Why a file doesn't encode an object: its first error. A place is that of the first byte of a field.
#[derive(Debug, Drop, Error)]
pub enum DecodeError {
    /// The file ends before the end of the field at this place.
    #[error("the file ends within the field at byte {0}")]
    Truncated(u32),
    /// The file doesn't begin with `GRLT`.
    #[error("not an object file")]
    BadMagic,
    /// The version of the format is this number, which is neither 1 nor 2.
    #[error("version {0} of the object file format isn't known")]
    BadVersion(u16),
    /// The field at this place isn't allowed.
    #[error("the field at byte {0} isn't allowed")]
    BadField(u32),
    /// Bytes follow the last instruction, the first of them at this place.
    #[error("bytes stand behind the object, from byte {0} on")]
    TrailingBytes(u32),
    /// Memory ran out, which says nothing about the file.
    #[error("out of memory")]
    Memory,
}

impl<E: Into<gr_base::Memory> + Drop> From<E> for DecodeError {
    ghost from_gives = { λ _ e. e ≡ Memory };

    fn from(_error: E) -> DecodeError {
        DecodeError::Memory
    }
}
