ghost use Rattle.std.specs.Prelude.{◌≡◌};
ghost use Rattle.src_tree.specs.declared.faults.TypeError.TheVariants.{Memory};

/// A limit of programs.
#[derive(Clone, Copy, Debug, PartialEq, Eq)]
pub enum Which {
    /// At most 256 variables. The number is how many there are.
    Variables,
    /// An array has 1 to 1,048,576 words. The number is that of the declaration.
    ArrayLength,
    /// All variables together have at most 4,194,304 words. The number is that of the declaration that exceeds the
    /// limit.
    TotalWords,
    /// An expression has at most the height 16. The number is that of the statement.
    Height,
    /// A program has at most the weight 8,192. The number is its weight.
    Weight,
}

/// Why a program isn't allowed. A place is the number of a declaration for [`TypeError::TwiceDeclared`], and otherwise
/// the number of a statement, counted from 0 in the order of their first tokens; numbers above 2^32 - 1 are reported as
/// 2^32 - 1. The number of a limit is reported as 2^64 - 1 if it is greater.
#[derive(Clone, Copy, Debug, PartialEq, Eq)]
pub enum TypeError {
    /// The declaration has the name of an earlier one.
    TwiceDeclared(u32),
    /// The statement uses a name that isn't declared.
    Undeclared(u32),
    /// The statement uses an array without an index, or a scalar with one.
    WrongShape(u32),
    /// The statement assigns to a public variable a secret value or, in secret code, any value.
    FlowToPublic(u32),
    /// The statement uses a public array with a secret index.
    SecretIndexOfPublic(u32),
    /// The loop has a secret guard.
    SecretGuardOfLoop(u32),
    /// The loop is in secret code.
    LoopInSecret(u32),
    /// A limit is exceeded.
    Limit(Which, u64),
    /// Memory ran out, which says nothing about the program.
    Memory,
}

impl<E: Into<gr_base::Memory> + Drop> From<E> for TypeError {
    ghost from_gives = { λ _ e. e ≡ Memory };

    fn from(_error: E) -> TypeError {
        TypeError::Memory
    }
}
