/// An event that code in an arm of a branch on a secret shows. It names a block by the number of its value in one
/// [`symbolic_values::Values`].
#[derive(Clone, Copy, Debug, PartialEq, Eq)]
pub enum SymEvent {
    /// A block of plain memory is read.
    RamRead(u32),
    /// A block of encrypted memory is read.
    EncRead(u32),
    /// A block of encrypted memory is written.
    EncWrite(u32),
    /// An oblivious bank is accessed: its number.
    Oram(u8),
}
