ghost use Rattle.std.specs.Prelude.{◌≡◌};
ghost use Rattle.run_data.specs.declared.trace_files.TraceError.TheVariants.{Memory};

use std::alloc::AllocError;
use std::marker::Model;
use thiserror::Error;

/// Words that were seen on the bus. Seen as the list of them.
#[derive(Debug, Drop)]
pub struct Words {
    words: Vec<i64>,
}

impl Model for Words {
    ghost use Rattle.std.specs.Prelude.{List, ℤ};

    ghost Value = { List ℤ };

    ghost view = { λ w. w.words.items };
}

impl Words {
    /// These words.
    pub fn new(words: Vec<i64>) -> Words
        ensures { result ≡ words.items }
    {
        Words { words }
    }

    /// The words.
    pub fn words(&self) -> &[i64]
        ensures { result.now ≡ self.now }
    {
        self.words.as_slice()
    }
}

/// An event of a trace that was read, as an event that is shown, with words of its own.
#[derive(Debug, Drop)]
pub enum SeenEvent {
    /// A block of plain memory was read: its number and its words.
    RamRead(u32, Words),
    /// A block of plain memory was written: its number and its words.
    RamWrite(u32, Words),
    /// A block of encrypted memory was read: its number.
    EncRead(u32),
    /// A block of encrypted memory was written: its number.
    EncWrite(u32),
    /// An oblivious bank was accessed: its number.
    Oram(u8),
    /// The machine stopped.
    Halt,
}

/// A line of a trace: an event, and the cycle at which its instruction starts.
#[derive(Debug, Drop)]
pub struct TraceLine {
    pub stamp: u32,
    pub event: SeenEvent,
}

/// The lines of a trace but the last, which says whether the run halted or its cycles were spent.
#[derive(Debug, Drop)]
pub struct TraceFile {
    pub lines: Vec<TraceLine>,
    pub halted: bool,
}

/// Why a text isn't a trace.
#[derive(Debug, Drop, Error)]
pub enum TraceError {
    /// The line with this number, counted from 1, is the first with which the lines so far begin no trace.
    #[error("line {0} breaks the trace")]
    BadLine(u32),
    /// Memory ran out, which says nothing of the text.
    #[error("out of memory")]
    Memory,
}

impl From<AllocError> for TraceError {
    ghost from_gives = { λ _ e. e ≡ Memory };

    fn from(_error: AllocError) -> TraceError {
        TraceError::Memory
    }
}
