/// How a run ends.
#[derive(Clone, Copy, Debug, PartialEq, Eq)]
pub enum End {
    /// The machine halted, by an instruction that started at this cycle.
    Halted(u32),
    /// The cycles are spent: the next instruction starts too late. The machine can be run on.
    Spent,
}
