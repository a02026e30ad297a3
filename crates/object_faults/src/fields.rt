//! The field of an object file at a byte.

use fault_texts::piece;

/// What is allowed in a field that the instruction doesn't use.
const NONE: &str = "any number; 0 if the instruction doesn't use it";

/// A field: what it is called, and what is allowed in it.
#[derive(Clone, Copy)]
pub(crate) struct Field {
    pub name: &'static str,
    pub allowed: &'static str,
    /// The number of the bank, symbol, note or instruction that it belongs to, where it belongs to one.
    pub number: Option<usize>,
}

// A number of the file, its lowest byte first; what isn't there is 0.
fn number_at(bytes: &[u8], at: usize, size: usize) -> usize {
    let mut number = 0usize;
    for byte in piece(bytes, at, size.min(4)).iter().rev() {
        number = number.wrapping_mul(256).wrapping_add(*byte as usize);
    }
    number
}

fn field_of(name: &'static str, allowed: &'static str, number: Option<usize>) -> Field {
    Field {
        name,
        allowed,
        number,
    }
}

/// The field that begins at a byte of an object file, or that holds it.
pub(crate) fn field_at(bytes: &[u8], at: usize) -> Field {
    let banks = if number_at(bytes, 4, 2) == 2 {
        23usize
    } else {
        11
    };
    if at <= banks {
        return head_field(at, banks);
    }
    let symbols = number_at(bytes, banks, 1)
        .saturating_mul(8)
        .saturating_add(banks)
        .saturating_add(1);
    if at < symbols {
        return bank_field(at.saturating_sub(banks).saturating_sub(1));
    }
    if at < symbols.saturating_add(2) {
        return field_of("the number of symbols", "0 to 1,024", None);
    }
    symbol_field(bytes, at, symbols)
}

fn head_field(at: usize, banks: usize) -> Field {
    let (name, allowed) = match at {
        0..=3 => ("the magic", "GRLT"),
        4 | 5 => ("the version", "1, or 2 for an object with a window"),
        6 => (
            "the size of a block (an exponent of 2)",
            "3 to 9, for 8 to 512 words",
        ),
        7 => ("the latency of an operation", "1 to 127"),
        8 => ("the latency of a multiplication", "1 to 127"),
        9 => ("the latency of a word", "1 to 127"),
        10 => ("the latency of a jump", "1 to 32"),
        _ if at == banks => ("the number of banks", "2 to 10"),
        11..=14 => ("the period", "2 to 1,000,000 cycles"),
        15..=18 => ("the cycle at which the window opens", "below the period"),
        _ => (
            "the cycle at which the window closes",
            "above the cycle at which it opens, and at most the period",
        ),
    };
    field_of(name, allowed, None)
}

fn bank_field(ahead: usize) -> Field {
    let number = Some(ahead / 8);
    if ahead % 8 < 4 {
        return field_of(
            "the number of blocks of bank",
            "1 to 65,536 for banks 0 and 1, 1 to 4,096 for the others",
            number,
        );
    }
    field_of("the latency of bank", "1 to 1,000,000 cycles", number)
}

// A field from the symbols on; they begin after their number.
fn symbol_field(bytes: &[u8], at: usize, symbols: usize) -> Field {
    let mut start = symbols.saturating_add(2);
    for number in 0..number_at(bytes, symbols, 2) {
        let name = number_at(bytes, start, 1);
        let place = start.saturating_add(1).saturating_add(name);
        let end = place.saturating_add(13);
        if at < end {
            return field_of_symbol(at, start, place, number);
        }
        start = end;
    }
    if at < start.saturating_add(4) {
        return field_of("the number of notes", "0 to 262,144", None);
    }
    note_field(bytes, at, start)
}

fn field_of_symbol(at: usize, start: usize, place: usize, number: usize) -> Field {
    let (name, allowed) = if at == start {
        ("the length of the name of symbol", "1 to 32")
    } else if at < place {
        (
            "the name of symbol",
            "ASCII letters, digits and `_`, but no digit first, and not the name of an earlier symbol",
        )
    } else {
        match at.saturating_sub(place) {
            0 => ("the label of symbol", "0 public, 1 secret"),
            1 => ("the shape of symbol", "0 scalar, 1 array"),
            2 => (
                "the bank of symbol",
                "a bank of the object, not below the bank of the previous symbol",
            ),
            3..=6 => ("the block of symbol", "below the bank's number of blocks"),
            7 | 8 => (
                "the word of symbol",
                "below the number of words in a block, and after the end of the previous symbol in its bank",
            ),
            _ => (
                "the length of symbol",
                "1 for a scalar, 1 to 1,048,576 for an array; within its bank, and at most 4,194,304 for all symbols \
                together",
            ),
        }
    };
    field_of(name, allowed, Some(number))
}

// A field from the notes on; they begin after their number.
fn note_field(bytes: &[u8], at: usize, notes: usize) -> Field {
    let start = notes.saturating_add(4);
    let code = number_at(bytes, notes, 4)
        .saturating_mul(16)
        .saturating_add(start);
    if at < code {
        let ahead = at.saturating_sub(start);
        let number = Some(ahead / 16);
        return match ahead % 16 {
            0..=3 => field_of(
                "the place of note",
                "above the place of the previous note",
                number,
            ),
            4..=7 => field_of("the secret registers of note", "any", number),
            _ => field_of(
                "a slot of note",
                "a bank's number, or 255 for any bank",
                number,
            ),
        };
    }
    if at < code.saturating_add(4) {
        return field_of(
            "the number of instructions",
            "1 to 1,048,576, above the last note's place",
            None,
        );
    }
    instruction_field(at.saturating_sub(code).saturating_sub(4))
}

fn instruction_field(ahead: usize) -> Field {
    let number = Some(ahead / 16);
    match ahead % 16 {
        0 => field_of(
            "the opcode of instruction",
            "0 to 8, 16 to 26, 32 to 37",
            number,
        ),
        1..=3 => field_of(
            "an operand of instruction",
            "a register below 32, a slot below 8, a bank of the object, or 0 if the instruction has no such operand",
            number,
        ),
        4..=7 => field_of("the offset of instruction", NONE, number),
        _ => field_of("the constant of instruction", NONE, number),
    }
}
