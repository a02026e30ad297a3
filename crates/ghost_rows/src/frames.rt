use crate::contents::{Trouble, wrong};
use crate::script::{Directive, Script};
use crate::tokens::{Token, copied_row};
use std::alloc::{AllocError, Global};

/// A part of a script that is played once for each row, with the row's values under these names.
#[derive(Drop)]
pub(crate) struct Frame {
    first: usize,
    end: usize,
    at: usize,
    names: Vec<String>,
    rows: Vec<Vec<Token>>,
    row: usize,
}

/// A body under a name.
#[derive(Drop)]
pub(crate) struct Defined {
    pub name: String,
    pub first: usize,
    pub end: usize,
    pub names: Vec<String>,
}

impl Defined {
    /// The directives from `first` up to `end`, under a name, with these parameters.
    pub(crate) fn new(
        alloc: Global,
        name: &str,
        first: usize,
        end: usize,
        params: &[Token],
    ) -> Result<Defined, AllocError> {
        let names = names_of(alloc, params)?;
        Ok(Defined {
            name: String::from_str(alloc, name)?,
            first,
            end,
            names,
        })
    }

    /// The body, to be played once with these values.
    pub(crate) fn frame(&self, alloc: Global, values: &[Token]) -> Result<Frame, AllocError> {
        let mut rows = Vec::new(alloc);
        let row = copied_row(alloc, values)?;
        rows.push(row)?;
        let names = copied_names(alloc, &self.names)?;
        Ok(Frame::new(self.first, self.end, names, rows))
    }
}

impl Frame {
    /// The directives from `first` up to `end`, played for each row.
    pub(crate) fn new(
        first: usize,
        end: usize,
        names: Vec<String>,
        rows: Vec<Vec<Token>>,
    ) -> Frame {
        let at = if rows.is_empty() { end } else { first };
        Frame {
            first,
            end,
            at,
            names,
            rows,
            row: 0,
        }
    }

    /// All of a script with this many directives, played once.
    pub(crate) fn whole(alloc: Global, end: usize) -> Result<Frame, AllocError> {
        let mut rows = Vec::new(alloc);
        rows.push(Vec::new(alloc))?;
        Ok(Frame::new(0, end, Vec::new(alloc), rows))
    }

    /// The place of the next directive, or none where all rows are played.
    pub(crate) fn next(&mut self) -> Option<usize> {
        if self.at >= self.end {
            self.row = self.row.saturating_add(1);
            if self.row >= self.rows.len() {
                return None;
            }
            self.at = self.first;
        }
        let at = self.at;
        self.at = at.saturating_add(1);
        Some(at)
    }

    /// Goes on at this place.
    pub(crate) fn go_to(&mut self, place: usize) {
        self.at = place;
    }

    /// The value of a name in the row that is played.
    pub(crate) fn value(&self, name: &str) -> Option<&Token> {
        for (own, value) in self.names.iter().zip(self.rows.get(self.row)?.iter()) {
            if own.as_str() == name {
                return Some(value);
            }
        }
        None
    }
}

/// The place of the `end` that closes the body from `first` on.
pub(crate) fn end_of(script: &Script, first: usize) -> usize {
    let mut open = 0usize;
    for (at, directive) in script.directives.iter().enumerate() {
        if at < first {
            continue;
        }
        match directive.verb() {
            "each" | "define" => open = open.saturating_add(1),
            "end" if open == 0 => return at,
            "end" => open -= 1,
            _ => {}
        }
    }
    script.directives.len()
}

/// The words of tokens.
pub(crate) fn names_of(alloc: Global, tokens: &[Token]) -> Result<Vec<String>, AllocError> {
    let mut names = Vec::new(alloc);
    for token in tokens {
        let name = String::from_str(alloc, token.word())?;
        names.push(name)?;
    }
    Ok(names)
}

fn copied_names(alloc: Global, names: &[String]) -> Result<Vec<String>, AllocError> {
    let mut copies = Vec::new(alloc);
    for name in names {
        let copy = String::from_str(alloc, name.as_str())?;
        copies.push(copy)?;
    }
    Ok(copies)
}

// the numbers of a row `a..b`
fn range_of(row: &[Token]) -> Option<(usize, usize)> {
    match row {
        [Token::Word(word)] => {
            let (from, to) = word.as_str().split_once("..")?;
            Some((from.parse::<usize>().ok()?, to.parse::<usize>().ok()?))
        }
        _ => None,
    }
}

/// The rows of a directive, with the values of the names in them.
pub(crate) fn filled_rows(
    alloc: Global,
    frames: &[Frame],
    directive: &Directive,
) -> Result<Vec<Vec<Token>>, Trouble> {
    let rows = rows_of(alloc, directive)?;
    let mut filled = Vec::new(alloc);
    for row in &rows {
        let row = substitute(alloc, frames, row)?;
        filled.push(row)?;
    }
    Ok(filled)
}

// the rows of a directive; a row `a..b` means all numbers from a to b
fn rows_of(alloc: Global, directive: &Directive) -> Result<Vec<Vec<Token>>, Trouble> {
    let mut rows = Vec::new(alloc);
    for row in &directive.rows {
        add_row(alloc, &mut rows, row)?;
    }
    if rows.is_empty() {
        return wrong(alloc, "each has no rows");
    }
    Ok(rows)
}

// appends a row, or those that it means
fn add_row(alloc: Global, rows: &mut Vec<Vec<Token>>, row: &[Token]) -> Result<(), AllocError> {
    match range_of(row) {
        Some((from, to)) => {
            for number in from..=to {
                let row = number_row(alloc, number)?;
                rows.push(row)?;
            }
        }
        None => {
            let row = copied_row(alloc, row)?;
            rows.push(row)?;
        }
    }
    Ok(())
}

fn number_row(alloc: Global, number: usize) -> Result<Vec<Token>, AllocError> {
    let mut row = Vec::new(alloc);
    row.push(Token::Word(format!(in alloc; "{number}")?))?;
    Ok(row)
}

// the value of a name, in the innermost part that has it
fn value_of<'a>(frames: &'a [Frame], name: &str) -> Option<&'a Token> {
    for frame in frames.iter().rev() {
        if let Some(value) = frame.value(name) {
            return Some(value);
        }
    }
    None
}

// how many bytes of a name a word begins with
fn name_length(word: &str) -> usize {
    for (at, byte) in word.as_bytes().iter().enumerate() {
        if !byte.is_ascii_lowercase() && *byte != b'_' {
            return at;
        }
    }
    word.len()
}

// a word with the values of the names in it
fn filled(alloc: Global, frames: &[Frame], word: &str) -> Result<Token, Trouble> {
    let mut text = String::new(alloc);
    for (at, part) in word.split("$").enumerate() {
        if at == 0 {
            text.push_str(part)?;
        } else {
            add_filled(alloc, frames, &mut text, part)?;
        }
    }
    Ok(Token::Word(text))
}

// appends the value of the name that a part begins with, and the rest of the part
fn add_filled(
    alloc: Global,
    frames: &[Frame],
    text: &mut String,
    part: &str,
) -> Result<(), Trouble> {
    let length = name_length(part);
    let name = part.get(..length).unwrap_or("");
    match value_of(frames, name) {
        Some(Token::Word(value)) => text.push_str(value.as_str())?,
        _ => return wrong(alloc, "a name has no word as its value here"),
    }
    text.push_str(part.get(length..).unwrap_or(""))?;
    Ok(())
}

// a token with the values of the names in it
fn substituted(alloc: Global, frames: &[Frame], token: &Token) -> Result<Token, Trouble> {
    let word = token.word();
    if let Some(name) = word.strip_prefix("$")
        && let Some(value) = value_of(frames, name)
    {
        return Ok(value.copied(alloc)?);
    }
    if word.contains("$") {
        return filled(alloc, frames, word);
    }
    Ok(token.copied(alloc)?)
}

/// The tokens with the values of the names in them.
pub(crate) fn substitute(
    alloc: Global,
    frames: &[Frame],
    tokens: &[Token],
) -> Result<Vec<Token>, Trouble> {
    let mut values = Vec::new(alloc);
    for token in tokens {
        let value = substituted(alloc, frames, token)?;
        values.push(value)?;
    }
    Ok(values)
}
