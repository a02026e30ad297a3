ghost use Rattle.std.specs.Prelude.{◌≡◌, ◌≤◌, ◌^◌};
ghost use Rattle.lt_isa.specs.Object.{bank_kind, usual_profile, usual_latencies};
ghost use Rattle.lt_isa.specs.Windows.{has_unit_period};

/// The parameters of a processor: the block size, as the base-2 logarithm of a block's number of words, the cycles of
/// instructions, and the window of each period in which memory can be reached.
#[derive(Clone, Copy, Debug, PartialEq, Eq)]
pub struct Profile {
    /// A block has 2 to the power of this many words; 3 to 9.
    pub block_log: u8,
    /// Cycles of an operation other than multiplication, division and remainder, 1 to 127.
    pub alu: u8,
    /// Cycles of a product, a quotient or a remainder, 1 to 127.
    pub mul: u8,
    /// Cycles of reading or writing a word of the scratchpad, 1 to 127.
    pub word: u8,
    /// Cycles of a jump or a taken branch, 1 to 32.
    pub taken: u8,
    /// Cycles of the period in which memory opens and closes once, 1 to 1,000,000.
    pub period: u32,
    /// The cycle of each period from which on memory can be reached, below the period.
    pub opens: u32,
    /// The cycle of each period from which on it can't be reached, above `opens` and at most the period.
    pub closes: u32,
}

impl Profile {
    /// The usual cycles with the given block size, and memory that is always open.
    pub fn usual(block_log: u8) -> Profile
        requires low { 3 ≤ block_log }
        requires high { block_log ≤ 9 }
        ensures { result ≡ usual_profile block_log }
    {
        Profile {
            block_log,
            alu: 1,
            mul: 70,
            word: 2,
            taken: 3,
            period: 1,
            opens: 0,
            closes: 1,
        }
    }

    /// Whether the period is one cycle, so that memory is always open.
    pub fn has_unit_period(&self) -> bool
        ensures { result ≡ has_unit_period self.now }
    {
        self.period == 1
    }

    /// The number of words of a block.
    pub fn block_words(&self) -> u32
        requires { self.now.block_log ≤ 9 }
        ensures words { result ≡ 2 ^ self.now.block_log }
        ensures most { result ≤ 512 }
    {
        1 << self.block_log
    }
}

/// The cycles that a read or a write of a block takes, by the kind of memory.
#[derive(Clone, Copy, Debug, PartialEq, Eq)]
pub struct Latencies {
    /// Of plain memory.
    pub ram: u32,
    /// Of encrypted memory.
    pub eram: u32,
    /// Of each oblivious bank.
    pub oram: u32,
}

impl Latencies {
    /// The usual latencies.
    pub fn usual() -> Latencies
        ensures { result ≡ usual_latencies }
    {
        Latencies {
            ram: 634,
            eram: 662,
            oram: 4262,
        }
    }
}

/// The kinds of bank. They differ in what an observer sees of an access: of plain memory the block's number and its
/// words, of encrypted memory only the block's number, and of an oblivious bank only the bank's number.
#[derive(Clone, Copy, Debug, PartialEq, Eq)]
pub enum BankKind {
    Plain,
    Encrypted,
    Oblivious,
}

/// The kind of a bank: bank 0 is plain memory, bank 1 encrypted memory, and those from 2 on are oblivious.
pub fn bank_kind(bank: u8) -> BankKind
    ensures { result ≡ bank_kind bank }
{
    match bank {
        0 => BankKind::Plain,
        1 => BankKind::Encrypted,
        _ => BankKind::Oblivious,
    }
}

/// One bank of memory: its number of blocks and the cycles that an access to it takes.
#[derive(Clone, Copy, Debug, PartialEq, Eq)]
pub struct BankSpec {
    /// 1 to 65,536 in plain and encrypted memory, 1 to 4,096 in an oblivious bank.
    pub blocks: u32,
    /// 1 to 1,000,000 cycles.
    pub latency: u32,
}
