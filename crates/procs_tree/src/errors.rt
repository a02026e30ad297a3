ghost use Rattle.std.specs.Prelude.{◌≡◌};
ghost use Rattle.procs_tree.specs.declared.errors.InlineError.TheVariants.{Memory};

/// Why the calls of a file can't be replaced. A number is that of a procedure for [`InlineError::TwiceNamed`] and
/// [`InlineError::Undeclared`], and of a call otherwise, counted from 0 over the whole file in the order of their first
/// tokens, and 2^32 - 1 from there on.
#[derive(Clone, Copy, Debug, PartialEq, Eq)]
pub enum InlineError {
    /// The procedure has the name of an earlier one, or two of its parameters and locals have one name.
    TwiceNamed(u32),
    /// The procedure's statements name a variable that is none of its parameters and locals.
    Undeclared(u32),
    /// No procedure of that name is declared before the call's place.
    NoProcedure(u32),
    /// The call has another number of arguments than the procedure has parameters.
    WrongCount(u32),
    /// An array's argument isn't a bare name.
    NotAnArray(u32),
    /// The program without calls has more than 8,192 statements.
    TooLarge,
    /// Memory ran out, which says nothing of the file.
    Memory,
}

impl<E: Into<gr_base::Memory> + Drop> From<E> for InlineError {
    ghost from_gives = { λ _ e. e ≡ Memory };

    fn from(_error: E) -> InlineError {
        InlineError::Memory
    }
}
