use bank_alloc::Place;

/// How a variable is stored while code that was compiled with `--fast` runs.
#[derive(Clone, Copy, Debug, PartialEq, Eq)]
pub enum Storage {
    /// In the block of the scalars of its label, which a slot holds for the whole run.
    Scalar,
    /// An array in the block of the scalars of its label.
    Shared,
    /// An array in a block of its own, which a slot holds for the whole run.
    Own,
    /// An array of plain or encrypted memory, whose blocks are loaded when they are accessed.
    Cached,
    /// An array of an oblivious bank.
    Oblivious,
}

/// What is planned for a variable.
#[derive(Clone, Copy, Debug, PartialEq, Eq)]
pub struct Planned {
    pub storage: Storage,
    pub place: Place,
    /// The slot that serves the variable.
    pub slot: u8,
}
