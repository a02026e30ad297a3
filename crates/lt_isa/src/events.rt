/// What an observer of the memory bus sees of one access, and the halt.
#[derive(Clone, Copy, Debug, PartialEq, Eq)]
pub enum Event<'a> {
    /// A block of plain memory was read: its number and its words.
    RamRead(u32, &'a [i64]),
    /// A block of plain memory was written: its number and its words.
    RamWrite(u32, &'a [i64]),
    /// A block of encrypted memory was read: its number.
    EncRead(u32),
    /// A block of encrypted memory was written: its number.
    EncWrite(u32),
    /// An oblivious bank was accessed: its number.
    Oram(u8),
    /// The machine stopped.
    Halt,
}
