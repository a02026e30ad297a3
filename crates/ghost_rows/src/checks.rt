use crate::contents::{Trouble, wrong};
use crate::tokens::Token;
use std::alloc::{AllocError, Global};

/// How many lines of a text contain a piece.
pub(crate) fn lines_with(text: &str, piece: &str) -> usize {
    text.lines().filter(|line| line.contains(piece)).count()
}

// whether a line contains one of the pieces
fn has_piece(line: &str, pieces: &[Token]) -> bool {
    for piece in pieces {
        if line.contains(piece.text()) {
            return true;
        }
    }
    false
}

/// A text without the lines that contain one of the pieces.
pub(crate) fn without(alloc: Global, text: &str, pieces: &[Token]) -> Result<String, AllocError> {
    let mut rest = String::new(alloc);
    for line in text.lines() {
        if !has_piece(line, pieces) {
            rest.push_str(line)?;
            rest.push_str("\n")?;
        }
    }
    Ok(rest)
}

// whether leaves, separated by spaces, are as many as these bounds, and each is below its own
fn are_below(leaves: &str, bounds: &[usize]) -> bool {
    for (leaf, bound) in leaves.split(" ").zip(bounds.iter()) {
        let Ok(number) = leaf.parse::<usize>() else {
            return false;
        };
        if *bound <= number {
            return false;
        }
    }
    leaves.split(" ").count() == bounds.len()
}

// the leaves that a path line shows at the stamp of an access's line, if it shows some there
fn leaves_of<'a>(line: &str, path: &'a str, bank: &str, shown: &str) -> Option<&'a str> {
    let stamp = line.strip_suffix(bank)?;
    path.strip_prefix(stamp)?
        .strip_prefix(shown)?
        .strip_prefix(" ")
}

/// How many lines of a bank's accesses are followed by their path.
pub(crate) fn followed(text: &str, bank: &str, shown: &str, bounds: &[usize]) -> usize {
    let mut count = 0usize;
    for (line, path) in text.lines().zip(text.lines().skip(1)) {
        if let Some(leaves) = leaves_of(line, path, bank, shown)
            && are_below(leaves, bounds)
        {
            count = count.saturating_add(1);
        }
    }
    count
}

// the levels of a bank in the last line of a text, if it has some
fn levels_of<'a>(text: &'a str, bank: &str) -> Option<&'a str> {
    text.lines()
        .last()?
        .strip_prefix("levels ")?
        .strip_prefix(bank)?
        .strip_prefix(" ")
}

/// Whether the last line of a text has this many levels of a bank, each at most `most`.
pub(crate) fn are_levels(text: &str, bank: &str, count: usize, most: usize) -> bool {
    let Some(levels) = levels_of(text, bank) else {
        return false;
    };
    for level in levels.split(" ") {
        let Ok(number) = level.parse::<usize>() else {
            return false;
        };
        if most < number {
            return false;
        }
    }
    levels.split(" ").count() == count
}

/// Whether bytes are a proper prefix of others.
pub(crate) fn is_front(part: &[u8], whole: &[u8]) -> bool {
    part.len() < whole.len() && whole.starts_with(part)
}

/// The text of bytes.
pub(crate) fn text_of(alloc: Global, bytes: &[u8]) -> Result<&str, Trouble> {
    match str::from_utf8(bytes) {
        Ok(text) => Ok(text),
        Err(_) => wrong(alloc, "the bytes are no text"),
    }
}
