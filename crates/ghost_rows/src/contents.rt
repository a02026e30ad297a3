use crate::tokens::{Token, digit};
use std::alloc::Global;

/// Why a step doesn't hold, or can't be made.
#[derive(Drop)]
pub(crate) enum Trouble {
    Memory,
    /// What was wanted, and what came.
    Wrong(String),
}

impl<E: Into<gr_base::Memory> + Drop> From<E> for Trouble {
    fn from(_: E) -> Self {
        Trouble::Memory
    }
}

/// Trouble in words.
pub(crate) fn wrong<T>(alloc: Global, words: &str) -> Result<T, Trouble> {
    Err(Trouble::Wrong(String::from_str(alloc, words)?))
}

/// Bytes under a name: a text that was set, or a file.
#[derive(Drop)]
pub(crate) struct Named {
    pub name: String,
    pub bytes: Vec<u8>,
}

/// Texts or files by name.
#[derive(Drop)]
pub(crate) struct Store {
    pub items: Vec<Named>,
}

impl Store {
    pub(crate) fn new(alloc: Global) -> Store {
        Store {
            items: Vec::new(alloc),
        }
    }

    pub(crate) fn get(&self, name: &str) -> Option<&[u8]> {
        for item in &self.items {
            if item.name.as_str() == name {
                return Some(item.bytes.as_slice());
            }
        }
        None
    }

    /// Stores bytes under a name, in place of what it had.
    pub(crate) fn put(&mut self, alloc: Global, name: &str, bytes: Vec<u8>) -> Result<(), Trouble> {
        self.remove(name);
        let name = String::from_str(alloc, name)?;
        self.items.push(Named { name, bytes })?;
        Ok(())
    }

    pub(crate) fn remove(&mut self, name: &str) {
        self.items.retain(|item| item.name.as_str() != name);
    }
}

/// A number of decimal digits.
pub(crate) fn number_of(alloc: Global, token: Option<&Token>) -> Result<usize, Trouble> {
    if let Some(Token::Word(word)) = token
        && let Ok(number) = word.as_str().parse::<usize>()
    {
        return Ok(number);
    }
    wrong(alloc, "a number is wanted")
}

/// Numbers of decimal digits.
pub(crate) fn numbers_of(alloc: Global, tokens: &[Token]) -> Result<Vec<usize>, Trouble> {
    let mut numbers = Vec::new(alloc);
    for token in tokens {
        let number = number_of(alloc, Some(token))?;
        numbers.push(number)?;
    }
    Ok(numbers)
}

// the bounds of a part of a text of this many bytes, as `2..8`, `2..` or `..8`
fn bounds_of(alloc: Global, bounds: &str, length: usize) -> Result<(usize, usize), Trouble> {
    let Some((from, to)) = bounds.split_once("..") else {
        return wrong(alloc, "bounds are written a..b");
    };
    let from = if from.is_empty() {
        Ok(0)
    } else {
        from.parse::<usize>()
    };
    let to = if to.is_empty() {
        Ok(length)
    } else {
        to.parse::<usize>()
    };
    match (from, to) {
        (Ok(from), Ok(to)) => Ok((from, to)),
        _ => wrong(alloc, "bounds are numbers"),
    }
}

// the bytes of a set text, or of a part of it
fn part_of<'a>(alloc: Global, store: &'a Store, piece: &str) -> Result<&'a [u8], Trouble> {
    let (name, bounds) = match piece.split_once("[") {
        Some((name, bounds)) => (name, bounds.strip_suffix("]").unwrap_or(bounds)),
        None => (piece, ".."),
    };
    let Some(bytes) = store.get(name) else {
        return wrong(alloc, "no text is set under this name");
    };
    let (from, to) = bounds_of(alloc, bounds, bytes.len())?;
    match bytes.get(from..to) {
        Some(part) => Ok(part),
        None => wrong(alloc, "the text has no such part"),
    }
}

// appends bytes that are written in hexadecimal digits
fn append_hex(alloc: Global, bytes: &mut Vec<u8>, digits: &str) -> Result<(), Trouble> {
    let mut high: Option<u8> = None;
    for byte in digits.as_bytes() {
        let Some(value) = digit(*byte) else {
            return wrong(alloc, "a hexadecimal digit is wanted");
        };
        match high {
            None => high = Some(value),
            Some(first) => {
                bytes.push(first.wrapping_mul(16).wrapping_add(value))?;
                high = None;
            }
        }
    }
    match high {
        None => Ok(()),
        Some(_) => wrong(alloc, "hexadecimal digits come in pairs"),
    }
}

// appends a piece
fn append(alloc: Global, store: &Store, bytes: &mut Vec<u8>, piece: &Token) -> Result<(), Trouble> {
    let word = piece.word();
    if let Some(name) = word.strip_prefix("@") {
        bytes.extend_from_slice(part_of(alloc, store, name)?)?;
        Ok(())
    } else if let Some(digits) = word.strip_prefix("0x") {
        append_hex(alloc, bytes, digits)
    } else {
        bytes.extend_from_slice(piece.bytes())?;
        Ok(())
    }
}

// how often the next piece is repeated, if a word says so
fn times_of(piece: &Token) -> Option<usize> {
    piece.word().strip_suffix("*")?.parse::<usize>().ok()
}

/// The bytes of pieces, concatenated.
pub(crate) fn join(alloc: Global, store: &Store, pieces: &[Token]) -> Result<Vec<u8>, Trouble> {
    let mut bytes = Vec::new(alloc);
    let mut times = 1;
    for piece in pieces {
        if let Some(count) = times_of(piece) {
            times = count;
            continue;
        }
        for _ in 0..times {
            append(alloc, store, &mut bytes, piece)?;
        }
        times = 1;
    }
    Ok(bytes)
}

/// A text with these bytes over those from a place on, as many as they are.
pub(crate) fn patched(
    alloc: Global,
    old: &[u8],
    place: usize,
    bytes: &[u8],
) -> Result<Vec<u8>, Trouble> {
    let end = place.saturating_add(bytes.len());
    let (Some(front), Some(behind)) = (old.get(..place), old.get(end..)) else {
        return wrong(alloc, "the text ends before");
    };
    let mut new = Vec::from_slice(alloc, front)?;
    new.extend_from_slice(bytes)?;
    new.extend_from_slice(behind)?;
    Ok(new)
}

/// The text of pieces, which has to be UTF-8.
pub(crate) fn join_text(alloc: Global, store: &Store, pieces: &[Token]) -> Result<String, Trouble> {
    match String::from_utf8(join(alloc, store, pieces)?) {
        Ok(text) => Ok(text),
        Err(_) => wrong(alloc, "the pieces are no text"),
    }
}
