//! Why a line of an assembly text isn't allowed after the lines before it, though each of its words has its form.

use crate::line_forms::{LineWord, word_after, word_from};
use fault_texts::is_word_of;

/// What is wrong with a line: the byte at which it is, what it is, and how to fix it if the line's form doesn't say so.
#[derive(Clone, Copy)]
pub(crate) struct Disorder {
    pub at: usize,
    pub what: &'static str,
    pub hint: Option<&'static str>,
}

/// What the lines before a line have.
#[derive(Clone, Copy)]
struct Front<'a> {
    has_object: bool,
    banks: u64,
    has_symbols: bool,
    has_code: bool,
    /// The last line that isn't a label.
    last: &'a [u8],
    /// The last line of a symbol.
    symbol: &'a [u8],
}

// What some lines have.
fn front_of(text: &[u8]) -> Front<'_> {
    let mut front = Front {
        has_object: false,
        banks: 0,
        has_symbols: false,
        has_code: false,
        last: b"",
        symbol: b"",
    };
    for line in text.split(|byte| *byte == b'\n') {
        front.add(line);
    }
    front
}

impl<'a> Front<'a> {
    fn add(&mut self, line: &'a [u8]) {
        let first = word_from(line, 0).bytes;
        match first {
            [] => return,
            b".object" => self.has_object = true,
            b".bank" => self.banks = self.banks.saturating_add(1),
            b".symbol" => {
                self.has_symbols = true;
                self.symbol = line;
            }
            _ => self.has_code = true,
        }
        if !first.ends_with(b":") {
            self.last = line;
        }
    }
}

/// Why a line with the right form isn't allowed after some lines.
pub(crate) fn misplaced(front: &[u8], line: &[u8]) -> Disorder {
    let front = front_of(front);
    let first = word_from(line, 0);
    let (what, hint) = match first.bytes {
        b".object" => (
            "the text already has a line `.object`",
            Some("A text has one such line, the first."),
        ),
        _ if !front.has_object => (
            "the first line must be `.object`",
            Some(
                "Begin the text with `.object 1 W ALU MUL WORD TAKEN`, as in `.object 1 9 1 70 2 3`.",
            ),
        ),
        b".bank" => (
            "this bank is after symbols or code",
            Some("Put all banks directly after `.object`."),
        ),
        _ if front.banks < 2 => (
            "at least two banks must come before this line",
            Some(
                "Put at least two lines `.bank BLOCKS LATENCY` after `.object`, as in `.bank 4 634`.",
            ),
        ),
        b".symbol" => (
            "this symbol is after code",
            Some("Put all symbols after the banks, before labels, notes and instructions."),
        ),
        b".note" if word_from(front.last, 0).bytes == b".note".as_slice() => (
            "this place already has a note",
            Some("An instruction has at most one note: remove one of them."),
        ),
        b".note" => (
            "no instruction follows this note",
            Some("A note belongs to the instruction after it."),
        ),
        _ => ("this line isn't allowed here", None),
    };
    Disorder {
        at: first.at,
        what,
        hint,
    }
}

/// Which number of a line with the right form isn't allowed after some lines.
pub(crate) fn out_of_range(front: &[u8], line: &[u8]) -> Disorder {
    let front = front_of(front);
    let first = word_from(line, 0);
    match first.bytes {
        b".symbol" => of_symbol(front, line),
        b"ldb" => {
            let bank = operand(line, 1);
            Disorder {
                at: bank.at,
                what: "the object doesn't have this bank",
                hint: Some("The banks are D, E, O2 and so on, in the order of the lines `.bank`."),
            }
        }
        b".note" => Disorder {
            at: first.at,
            what: "the note claims a bank that the object doesn't have",
            hint: None,
        },
        b".bank" => Disorder {
            at: operand(line, 0).at,
            what: "this bank has too many blocks",
            hint: None,
        },
        _ => Disorder {
            at: first.at,
            what: "a number of this line is out of range",
            hint: None,
        },
    }
}

// The operand of a number, from 0.
fn operand(line: &[u8], number: usize) -> LineWord<'_> {
    let mut word = word_after(line, word_from(line, 0));
    for _ in 0..number {
        word = word_after(line, word);
    }
    word
}

// What is wrong with a symbol: its bank is below that of the symbol before it, or isn't there, or it doesn't fit.
fn of_symbol(front: Front<'_>, line: &[u8]) -> Disorder {
    let bank = operand(line, 3);
    let before = operand(front.symbol, 3);
    if front.has_symbols && first_byte(bank.bytes) < first_byte(before.bytes) {
        return Disorder {
            at: bank.at,
            what: "this symbol is after a symbol of a higher bank",
            hint: Some("Sort the symbols by bank, and within a bank by block and word."),
        };
    }
    if !has_bank(front.banks, bank.bytes) {
        return Disorder {
            at: bank.at,
            what: "the object doesn't have this bank",
            hint: Some("Banks are numbered from 0, in the order of the lines `.bank`."),
        };
    }
    Disorder {
        at: operand(line, 4).at,
        what: "the symbol isn't within its bank, or not after the previous symbol",
        hint: None,
    }
}

fn first_byte(bytes: &[u8]) -> u8 {
    bytes.first().copied().unwrap_or(0)
}

// Whether some banks include the one of a number, which is a digit.
fn has_bank(banks: u64, number: &[u8]) -> bool {
    match number {
        [digit] => u64::from(digit.saturating_sub(b'0')) < banks,
        _ => false,
    }
}
