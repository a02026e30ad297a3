use crate::tokens::{Token, Unread, tokens_of};
use std::alloc::{AllocError, Global};

/// A directive: its words and pieces, and the rows below it.
#[derive(Drop)]
pub(crate) struct Directive {
    /// The number of its line, counted from 1.
    pub line: usize,
    pub tokens: Vec<Token>,
    pub rows: Vec<Vec<Token>>,
}

impl Directive {
    /// Its first word.
    pub(crate) fn verb(&self) -> &str {
        match self.tokens.first() {
            Some(token) => token.word(),
            None => "",
        }
    }

    // the directive `unreadable`, for a line that can't be read
    fn unread(alloc: Global, line: usize) -> Result<Directive, AllocError> {
        let mut tokens = Vec::new(alloc);
        tokens.push(Token::Word(String::from_str(alloc, "unreadable")?))?;
        Ok(Directive {
            line,
            tokens,
            rows: Vec::new(alloc),
        })
    }
}

/// A file of cases.
#[derive(Drop)]
pub(crate) struct Script {
    pub directives: Vec<Directive>,
}

// begins a directive
fn begin(
    alloc: Global,
    directives: &mut Vec<Directive>,
    number: usize,
    line: &str,
) -> Result<(), Unread> {
    let tokens = tokens_of(alloc, line)?;
    directives.push(Directive {
        line: number,
        tokens,
        rows: Vec::new(alloc),
    })?;
    Ok(())
}

// continues the last directive
fn follow(alloc: Global, directives: &mut Vec<Directive>, line: &str) -> Result<(), Unread> {
    match directives.last_mut() {
        Some(directive) => go_on(alloc, directive, line),
        None => Err(Unread::Open),
    }
}

// adds a token to the last row of a directive, or to the directive itself where it has no rows
fn add(directive: &mut Directive, token: Token) -> Result<(), Unread> {
    match directive.rows.last_mut() {
        Some(row) => row.push(token)?,
        None => directive.tokens.push(token)?,
    }
    Ok(())
}

// a line that continues a directive: a line of a text, a row, or more pieces
fn go_on(alloc: Global, directive: &mut Directive, line: &str) -> Result<(), Unread> {
    if line == "|" {
        let text = line_text(alloc, "")?;
        directive.tokens.push(text)?;
    } else if let Some(text) = line.strip_prefix("| ") {
        let text = line_text(alloc, text)?;
        directive.tokens.push(text)?;
    } else if let Some(row) = line.strip_prefix(": ") {
        let row = tokens_of(alloc, row)?;
        directive.rows.push(row)?;
    } else {
        for token in tokens_of(alloc, line)? {
            add(directive, token)?;
        }
    }
    Ok(())
}

// a text followed by a line feed
fn line_text(alloc: Global, text: &str) -> Result<Token, AllocError> {
    let mut bytes = Vec::from_slice(alloc, text.as_bytes())?;
    bytes.push(b'\n')?;
    Ok(Token::Text(bytes))
}

impl Script {
    /// Reads a file of cases. It stops at the first line that can't be read: the last directive is then `unreadable`,
    /// with the number of that line.
    pub(crate) fn read(alloc: Global, text: &str) -> Result<Script, AllocError> {
        let mut directives: Vec<Directive> = Vec::new(alloc);
        for (at, line) in text.lines().enumerate() {
            if !read_line(alloc, &mut directives, at.saturating_add(1), line)? {
                break;
            }
        }
        Ok(Script { directives })
    }
}

// reads a line, and returns whether it could be read
fn read_line(
    alloc: Global,
    directives: &mut Vec<Directive>,
    number: usize,
    line: &str,
) -> Result<bool, AllocError> {
    let inner = line.trim_start();
    if inner.is_empty() || inner.starts_with("#") {
        return Ok(true);
    }
    let read = if inner.len() == line.len() {
        begin(alloc, directives, number, line)
    } else {
        follow(alloc, directives, inner)
    };
    match read {
        Ok(()) => Ok(true),
        Err(Unread::Memory) => Err(AllocError),
        Err(Unread::Open) => {
            let unread = Directive::unread(alloc, number)?;
            directives.push(unread)?;
            Ok(false)
        }
    }
}
