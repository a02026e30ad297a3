//! The forms of the lines of an assembly text, and the first word of a line that isn't what its form wants.

use fault_texts::{Words, is_word_of, length_up_to, piece};
use gr_word::name_fits;

/// A form of lines: the words that begin one, the kinds of the operands after it, and the form in a sentence. The kind
/// `L..M` is a number from L to M.
#[derive(Clone, Copy)]
pub(crate) struct LineForm {
    pub words: &'static str,
    pub operands: &'static str,
    pub sentence: &'static str,
}

const OBJECT: &str =
    "The first line is `.object 1 W ALU MUL WORD TAKEN`, or `.object 2 W ALU MUL WORD TAKEN PERIOD OPEN CLOSE`. W is \
    from 3 to 9; ALU, MUL and WORD are from 1 to 127 cycles, and TAKEN is from 1 to 32.";

/// The form of a first line with a window.
const WINDOWED: LineForm = LineForm {
    words: ".object",
    operands: "2..2 3..9 1..127 1..127 1..127 1..32 2..1000000 0..999999 1..1000000",
    sentence: OBJECT,
};

pub(crate) const FORMS: &[LineForm] = &[
    LineForm {
        words: ".object",
        operands: "1..2 3..9 1..127 1..127 1..127 1..32",
        sentence: OBJECT,
    },
    LineForm {
        words: ".bank",
        operands: "1..65536 1..1000000",
        sentence: "Its form is `.bank BLOCKS LATENCY`, after `.object`. There are 2 to 10 banks: the first two have at \
        most 65536 blocks, and the others 4096. A latency is at most 1000000 cycles.",
    },
    LineForm {
        words: ".symbol",
        operands: "name label shape 0..9 0..65535 0..511 1..1048576",
        sentence: "Its form is `.symbol NAME LABEL SHAPE BANK BLOCK WORD LENGTH`, after the banks. LABEL is public or \
        secret, and SHAPE is scalar or array. The variable is within its bank, and after the previous symbol.",
    },
    LineForm {
        words: ".note",
        operands: "mask claim claim claim claim claim claim claim claim",
        sentence: "Its form is `.note MASK S0 .. S7`, directly before an instruction. MASK is eight hexadecimal digits \
        in lower case, and each slot has `-` or a bank's number.",
    },
    LineForm {
        words: "br",
        operands: "comparison register register -> target",
        sentence: "Its form is `br eq r1 r2 -> +2`: a comparison (eq ne lt le gt ge), two registers, and a place, an \
        offset or a label.",
    },
    LineForm {
        words: "jmp",
        operands: "-> target",
        sentence: "Its form is `jmp -> 7`: a place, an offset with a sign as +3 or -2, or a label.",
    },
    LineForm {
        words: "li",
        operands: "register word",
        sentence: "Its form is `li r1 -5`: a register from r0 to r31, and a signed integer of 64 bits.",
    },
    LineForm {
        words: "ldb",
        operands: "slot bank register",
        sentence: "Its form is `ldb 0 D r1`: a slot from 0 to 7, a bank of the object (D, E, or O2 to O9), and a \
        register.",
    },
    LineForm {
        words: "stb",
        operands: "slot",
        sentence: "Its form is `stb 0`: a slot from 0 to 7.",
    },
    LineForm {
        words: "idb",
        operands: "register slot",
        sentence: "Its form is `idb r1 0`: a register, and a slot from 0 to 7.",
    },
    LineForm {
        words: "ldw stw",
        operands: "register slot register",
        sentence: "Its form is `ldw r1 0 r2`, and likewise for `stw`: a register, a slot from 0 to 7, and a register.",
    },
    LineForm {
        words: "nop halt",
        operands: "",
        sentence: "It has no operands.",
    },
    LineForm {
        words: "add sub mul div rem remu and or xor shl shr",
        operands: "register register register",
        sentence: "Its form is `add r1 r2 r3`: three registers from r0 to r31.",
    },
];

/// A word of a line, and the byte of the line at which it begins.
#[derive(Clone, Copy)]
pub(crate) struct LineWord<'a> {
    pub at: usize,
    pub bytes: &'a [u8],
}

/// The first word of a line from a byte on. It is empty where the line or its comment is reached.
pub(crate) fn word_from(line: &[u8], from: usize) -> LineWord<'_> {
    let blanks = piece(line, from, line.len())
        .iter()
        .take_while(|byte| matches!(**byte, b' ' | b'\t'))
        .count();
    let at = from.saturating_add(blanks);
    let rest = piece(line, at, line.len());
    LineWord {
        at,
        bytes: piece(rest, 0, length_up_to(rest, b" \t;")),
    }
}

/// The next word of a line after another.
pub(crate) fn word_after<'a>(line: &'a [u8], word: LineWord<'a>) -> LineWord<'a> {
    word_from(line, word.at.saturating_add(word.bytes.len()))
}

/// The form of the line that begins with a word, if there is one.
pub(crate) fn form_of(line: &[u8]) -> Option<LineForm> {
    let first = word_from(line, 0);
    if first.bytes == b".object".as_slice() && word_after(line, first).bytes == b"2".as_slice() {
        return Some(WINDOWED);
    }
    for form in FORMS {
        if is_word_of(form.words, first.bytes) {
            return Some(*form);
        }
    }
    None
}

/// A word of a line that isn't what its form wants there. There is no kind where the form has no operand left, and the
/// word is empty where the line has none left.
#[derive(Clone, Copy)]
pub(crate) struct Misfit<'a> {
    pub word: LineWord<'a>,
    pub kind: Option<&'static str>,
}

/// The first word of a line that isn't what its form wants.
pub(crate) fn misfit_of<'a>(line: &'a [u8], form: LineForm) -> Option<Misfit<'a>> {
    let mut word = word_after(line, word_from(line, 0));
    for kind in form.operands.split(" ") {
        if kind.is_empty() {
            continue;
        }
        if !fits(kind, word.bytes) {
            return Some(Misfit {
                word,
                kind: Some(kind),
            });
        }
        word = word_after(line, word);
    }
    if word.bytes.is_empty() {
        None
    } else {
        Some(Misfit { word, kind: None })
    }
}

// Whether a word is an operand of a kind.
fn fits(kind: &str, word: &[u8]) -> bool {
    match kind {
        "register" => match word {
            [b'r', digits @ ..] => is_within(digits, 0, 31),
            _ => false,
        },
        "slot" => is_within(word, 0, 7),
        "bank" => is_word_of("D E O2 O3 O4 O5 O6 O7 O8 O9", word),
        "comparison" => is_word_of("eq ne lt le gt ge", word),
        "->" => word == b"->".as_slice(),
        "target" => is_target(word),
        "word" => is_signed(word),
        "name" => name_fits(word),
        "label" => is_word_of("public secret", word),
        "shape" => is_word_of("scalar array", word),
        "mask" => word.len() == 8
            && word
                .iter()
                .all(|byte| matches!(*byte, b'0'..=b'9' | b'a'..=b'f')),
        "claim" => word == b"-".as_slice() || is_within(word, 0, 9),
        _ => match range_in(kind) {
            Some((least, most)) => is_within(word, least, most),
            None => false,
        },
    }
}

// The least and the greatest number of a kind.
fn range_in(kind: &str) -> Option<(u64, u64)> {
    let (least, most) = kind.split_once("..")?;
    Some((least.parse::<u64>().ok()?, most.parse::<u64>().ok()?))
}

// Whether a text is decimal digits without a leading zero.
fn is_decimal(text: &[u8]) -> bool {
    !text.is_empty()
        && text.iter().all(|byte| byte.is_ascii_digit())
        && (text.len() == 1 || text.first() != Some(&b'0'))
}

fn is_within(text: &[u8], least: u64, most: u64) -> bool {
    if !is_decimal(text) {
        return false;
    }
    let Ok(text) = std::str::from_utf8(text) else {
        return false;
    };
    match text.parse::<u64>() {
        Ok(number) => least <= number && number <= most,
        Err(_) => false,
    }
}

// Whether a text is a signed integer of 64 bits.
fn is_signed(text: &[u8]) -> bool {
    match text {
        [b'-', digits @ ..] => is_within(digits, 1, 9_223_372_036_854_775_808),
        _ => is_within(text, 0, 9_223_372_036_854_775_807),
    }
}

// Whether a text is a place, an offset with a sign, or a name.
fn is_target(text: &[u8]) -> bool {
    match text {
        [b'+' | b'-', digits @ ..] => is_within(digits, 0, 2_147_483_648),
        [b'0'..=b'9', ..] => is_within(text, 0, u64::from(u32::MAX)),
        _ => name_fits(text),
    }
}

/// Adds what an operand of a kind is.
pub(crate) fn put_kind(kind: &str, out: &mut Words) {
    if let Some((least, most)) = range_in(kind) {
        return out.fill("a number from {} to {}", &[least, most]);
    }
    out.say(match kind {
        "register" => "a register from r0 to r31",
        "slot" => "a slot from 0 to 7",
        "bank" => "a bank (D, E, or O2 to O9)",
        "comparison" => "a comparison (eq, ne, lt, le, gt or ge)",
        "->" => "`->`",
        "target" => "a place, an offset such as +2, or a label",
        "word" => "a signed integer of 64 bits",
        "name" => "a name",
        "label" => "public or secret",
        "shape" => "scalar or array",
        "mask" => "eight hexadecimal digits in lower case",
        "claim" => "a bank's number, or `-` for any bank",
        _ => "another word",
    })
}
