ghost use Rattle.std.specs.Prelude.{◌≡◌};
ghost use Rattle.lt_isa.specs.Limits.{most_blocks, most_words};

use gr_word::Shape;

/// The least base-2 logarithm of the words of a block.
pub const LEAST_BLOCK_LOG: u8 = 3;

/// The greatest base-2 logarithm of the words of a block.
pub const MOST_BLOCK_LOG: u8 = 9;

/// The most cycles of an operation, and of reading or writing a word of the scratchpad.
pub const MOST_CYCLES: u8 = 127;

/// The most cycles of a jump, and of a taken branch.
pub const MOST_TAKEN: u8 = 32;

/// The fewest banks of an object: plain and encrypted memory.
pub const FEWEST_BANKS: usize = 2;

/// The most banks of an object.
pub const MOST_BANKS: usize = 10;

/// The most symbols of an object.
pub const MOST_SYMBOLS: usize = 1024;

/// The most words of all symbols of an object together.
pub const MOST_SYMBOL_WORDS: u32 = 4_194_304;

/// The most notes of an object.
pub const MOST_NOTES: usize = 262_144;

/// The most instructions of an object.
pub const MOST_INSTRUCTIONS: usize = 1_048_576;

/// The most cycles that an access to a bank takes.
pub const MOST_LATENCY: u32 = 1_000_000;

/// The most cycles of the period in which memory opens and closes.
pub const MOST_PERIOD: u32 = 1_000_000;

/// The most blocks of the bank with number `index`; the first two banks are plain and encrypted memory.
pub fn most_blocks(index: usize) -> u32
    ensures { result ≡ most_blocks index }
{
    if index < 2 { 65_536 } else { 4_096 }
}

/// The most words of a variable of a shape.
pub fn most_words(shape: Shape) -> u32
    ensures { result ≡ most_words shape }
{
    match shape {
        Shape::Scalar => 1,
        Shape::Array => 1_048_576,
    }
}
