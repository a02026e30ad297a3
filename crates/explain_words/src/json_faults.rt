//! The first byte at which a text ceases to be a JSON value, and why.

use crate::members::depth_after;
use fault_texts::{is_word_of, length_up_to, piece};
use gr_base::Memory;
use json::{Reader, Scratch, Token};
use run_data::number_given;
use std::alloc::Global;

/// Why a text isn't a JSON value from a byte on; and the bracket or quotation mark that is still open, if one matters.
#[derive(Clone, Copy)]
pub(crate) struct JsonFault {
    pub at: usize,
    pub what: &'static str,
    pub open: Option<usize>,
}

/// The most brackets that are read while they are open.
const MOST_OPEN: usize = 128;

/// The most of them that the reader of inputs allows.
const MOST_OPEN_READ: usize = 127;

/// What may come next in a text.
#[derive(Clone, Copy)]
enum Next {
    Value,
    /// The first item of a list, or its end.
    Item,
    /// The first member of an object, or its end.
    Member,
    Name,
    Colon,
    /// A comma, or the end of what is open.
    Comma,
}

/// A text as far as it was read.
#[derive(Drop)]
struct Reading<'a> {
    text: &'a [u8],
    at: usize,
    open: Vec<usize>,
    next: Next,
}

/// Where a text first ceases to be a JSON value. Numbers may have any size, and strings any escapes.
pub(crate) fn json_fault(alloc: Global, text: &[u8]) -> Result<Option<JsonFault>, Memory> {
    let mut reading = Reading {
        text,
        at: 0,
        open: Vec::new(alloc),
        next: Next::Value,
    };
    for _ in 0..=text.len() {
        reading.pass_white();
        if reading.is_done() {
            return Ok(None);
        }
        if let Some(fault) = reading.step()? {
            return Ok(Some(fault));
        }
    }
    Ok(None)
}

/// The byte at which the reader of inputs rejects a text in which no other fault is found: an escape that means
/// nothing, a number that is too large, a byte that isn't UTF-8 or a bracket that opens too deep.
pub(crate) fn unread_at(alloc: Global, text: &[u8]) -> Result<usize, Memory> {
    let text = match str::from_utf8(text) {
        Ok(text) => text,
        Err(error) => return Ok(error.valid_up_to()),
    };
    let mut scratch = Scratch::new(alloc);
    let mut reader = Reader::new(text, &mut scratch)?;
    let mut depth = 0usize;
    for _ in 0..text.len() {
        let at = reader.offset();
        let Some(token) = reader.next() else {
            break;
        };
        depth = depth_after(depth, token);
        if depth > MOST_OPEN_READ || !is_read(token) {
            return Ok(at);
        }
    }
    Ok(0)
}

fn is_read(token: Token<'_>) -> bool {
    match token {
        Token::Number(text) => number_given(text).is_some(),
        Token::Bad => false,
        _ => true,
    }
}

// Whether a word is a number, true, false or null.
fn is_value(word: &[u8]) -> bool {
    is_word_of("true false null", word) || is_number(word)
}

// How many decimal digits a text begins with.
fn digits(text: &[u8]) -> usize {
    text.iter().take_while(|byte| byte.is_ascii_digit()).count()
}

fn is_number(word: &[u8]) -> bool {
    let unsigned = match word {
        [b'-', rest @ ..] => rest,
        _ => word,
    };
    let whole = digits(unsigned);
    if whole == 0 || whole > 1 && unsigned.first() == Some(&b'0') {
        return false;
    }
    let rest = piece(unsigned, whole, unsigned.len());
    match rest {
        [b'.', fraction @ ..] => {
            let count = digits(fraction);
            count > 0 && is_exponent(piece(fraction, count, fraction.len()))
        }
        _ => is_exponent(rest),
    }
}

// Whether a text is an exponent, or empty.
fn is_exponent(text: &[u8]) -> bool {
    let power = match text {
        [] => return true,
        [b'e' | b'E', b'+' | b'-', power @ ..] => power,
        [b'e' | b'E', power @ ..] => power,
        _ => return false,
    };
    !power.is_empty() && digits(power) == power.len()
}

impl Reading<'_> {
    fn pass_white(&mut self) {
        let white = piece(self.text, self.at, self.text.len())
            .iter()
            .take_while(|byte| matches!(**byte, b' ' | b'\t' | b'\r' | b'\n'))
            .count();
        self.at = self.at.saturating_add(white);
    }

    fn byte(&self) -> Option<u8> {
        self.text.get(self.at).copied()
    }

    fn is_done(&self) -> bool {
        self.byte().is_none() && self.open.is_empty() && matches!(self.next, Next::Comma)
    }

    fn fault(&self, what: &'static str) -> Option<JsonFault> {
        Some(JsonFault {
            at: self.at,
            what,
            open: None,
        })
    }

    // The fault of a text that ends too soon, or where another token was wanted.
    fn unwanted(&self, byte: Option<u8>, what: &'static str) -> Option<JsonFault> {
        match byte {
            None => Some(JsonFault {
                at: self.at,
                what: "the text ends too early",
                open: self.open.last().copied(),
            }),
            Some(b'/' | b'#') => self.fault("comments aren't allowed in inputs"),
            Some(b'\'') => self.fault("names are in double quotation marks"),
            Some(_) => self.fault(what),
        }
    }

    // Takes one token, and says what is wrong with it.
    fn step(&mut self) -> Result<Option<JsonFault>, Memory> {
        let byte = self.byte();
        match self.next {
            Next::Value => self.value(byte),
            Next::Item => if byte == Some(b']') {
                Ok(self.close())
            } else {
                self.value(byte)
            },
            Next::Member => if byte == Some(b'}') {
                Ok(self.close())
            } else {
                Ok(self.name(byte))
            },
            Next::Name => Ok(self.name(byte)),
            Next::Colon => Ok(self.colon(byte)),
            Next::Comma => Ok(self.comma(byte)),
        }
    }

    fn value(&mut self, byte: Option<u8>) -> Result<Option<JsonFault>, Memory> {
        match byte {
            Some(b'[') => self.enter(Next::Item),
            Some(b'{') => self.enter(Next::Member),
            Some(b'"') => Ok(self.string(Next::Comma)),
            Some(b']' | b'}') => Ok(self.fault("a value is missing before this bracket")),
            Some(b',') => Ok(self.fault("a value is missing before this comma")),
            _ => Ok(self.word(byte)),
        }
    }

    fn enter(&mut self, next: Next) -> Result<Option<JsonFault>, Memory> {
        if self.open.len() >= MOST_OPEN {
            return Ok(self.fault("brackets are nested too deeply here"));
        }
        self.open.push(self.at)?;
        self.at = self.at.saturating_add(1);
        self.next = next;
        Ok(None)
    }

    fn close(&mut self) -> Option<JsonFault> {
        let _ = self.open.pop();
        self.at = self.at.saturating_add(1);
        self.next = Next::Comma;
        None
    }

    // A number, true, false or null.
    fn word(&mut self, byte: Option<u8>) -> Option<JsonFault> {
        let rest = piece(self.text, self.at, self.text.len());
        let word = piece(rest, 0, length_up_to(rest, b" \t\r\n,:[]{}\"'/#"));
        if !is_value(word) {
            return self.unwanted(
                byte,
                "expected an integer in decimal digits, or a list of integers",
            );
        }
        self.at = self.at.saturating_add(word.len());
        self.next = Next::Comma;
        None
    }

    fn name(&mut self, byte: Option<u8>) -> Option<JsonFault> {
        match byte {
            Some(b'"') => self.string(Next::Colon),
            Some(b'}') => self.fault("a member is missing between the comma and this bracket"),
            _ => self.unwanted(byte, "expected a name in double quotation marks"),
        }
    }

    fn colon(&mut self, byte: Option<u8>) -> Option<JsonFault> {
        if byte != Some(b':') {
            return self.unwanted(byte, "expected a colon between a name and its value");
        }
        self.at = self.at.saturating_add(1);
        self.next = Next::Value;
        None
    }

    // A string, whose first quotation mark comes next.
    fn string(&mut self, next: Next) -> Option<JsonFault> {
        let mut is_escaped = false;
        let start = self.at.saturating_add(1);
        for (ahead, byte) in piece(self.text, start, self.text.len()).iter().enumerate() {
            if *byte == b'"' && !is_escaped {
                self.at = start.saturating_add(ahead).saturating_add(1);
                self.next = next;
                return None;
            }
            if *byte < 32 {
                break;
            }
            is_escaped = !is_escaped && *byte == b'\\';
        }
        self.fault("this string isn't closed on its line")
    }

    // What follows a value: a comma, or the end of what is open.
    fn comma(&mut self, byte: Option<u8>) -> Option<JsonFault> {
        let open = self.open.last().copied();
        let Some(start) = open else {
            return self.unwanted(
                byte,
                "unexpected text after the closing bracket of the inputs",
            );
        };
        let is_list = self.text.get(start).copied() == Some(b'[');
        match byte {
            Some(b',') => {
                self.at = self.at.saturating_add(1);
                self.next = if is_list { Next::Value } else { Next::Name };
                None
            }
            Some(b']') if is_list => self.close(),
            Some(b'}') if !is_list => self.close(),
            Some(b']' | b'}') => Some(JsonFault {
                at: self.at,
                what: "this bracket doesn't close the one that is open",
                open,
            }),
            _ => self.unwanted(byte, "a comma or a closing bracket is missing before this"),
        }
    }
}
