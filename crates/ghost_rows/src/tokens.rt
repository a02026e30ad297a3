use std::alloc::{AllocError, Global};

/// A word of a directive, or a text in quotation marks or between backquotes, whose escapes are read.
#[derive(Drop)]
pub(crate) enum Token {
    Word(String),
    Text(Vec<u8>),
}

impl Token {
    /// The word; of a text an empty one.
    pub(crate) fn word(&self) -> &str {
        match self {
            Token::Word(word) => word.as_str(),
            Token::Text(_) => "",
        }
    }

    /// The bytes of a text, or those of a word.
    pub(crate) fn bytes(&self) -> &[u8] {
        match self {
            Token::Word(word) => word.as_bytes(),
            Token::Text(bytes) => bytes.as_slice(),
        }
    }

    /// The text, and an empty one where the bytes are none.
    pub(crate) fn text(&self) -> &str {
        str::from_utf8(self.bytes()).unwrap_or("")
    }

    pub(crate) fn copied(&self, alloc: Global) -> Result<Token, AllocError> {
        Ok(match self {
            Token::Word(word) => Token::Word(String::from_str(alloc, word.as_str())?),
            Token::Text(bytes) => Token::Text(Vec::from_slice(alloc, bytes.as_slice())?),
        })
    }
}

/// Tokens, copied.
pub(crate) fn copied_row(alloc: Global, row: &[Token]) -> Result<Vec<Token>, AllocError> {
    let mut tokens = Vec::new(alloc);
    for token in row {
        let copy = token.copied(alloc)?;
        tokens.push(copy)?;
    }
    Ok(tokens)
}

/// Why a line can't be read.
#[derive(Drop)]
pub(crate) enum Unread {
    Memory,
    /// A text isn't closed, or has an escape that isn't known.
    Open,
}

impl<E: Into<gr_base::Memory> + Drop> From<E> for Unread {
    fn from(_: E) -> Self {
        Unread::Memory
    }
}

/// The value of a hexadecimal digit.
pub(crate) fn digit(byte: u8) -> Option<u8> {
    match byte {
        b'0'..=b'9' => Some(byte - b'0'),
        b'a'..=b'f' => Some(byte - b'a' + 10),
        _ => None,
    }
}

// the byte of an escape, and how many bytes it takes after the backslash
fn escaped(rest: &[u8]) -> Option<(u8, usize)> {
    match rest.first() {
        Some(b'n') => Some((b'\n', 1)),
        Some(b't') => Some((b'\t', 1)),
        Some(b'r') => Some((b'\r', 1)),
        Some(b'"') => Some((b'"', 1)),
        Some(b'\\') => Some((b'\\', 1)),
        Some(b'x') => {
            let high = digit(*rest.get(1)?)?;
            let low = digit(*rest.get(2)?)?;
            Some((high.wrapping_mul(16).wrapping_add(low), 3))
        }
        _ => None,
    }
}

// the text up to the next backquote
fn raw_text(alloc: Global, rest: &[u8]) -> Result<(Token, usize), Unread> {
    let Some(end) = rest.iter().position(|byte| *byte == b'`') else {
        return Err(Unread::Open);
    };
    let Some(text) = rest.get(..end) else {
        return Err(Unread::Open);
    };
    Ok((
        Token::Text(Vec::from_slice(alloc, text)?),
        end.saturating_add(1),
    ))
}

// the text up to the next quotation mark that isn't escaped
fn quoted_text(alloc: Global, rest: &[u8]) -> Result<(Token, usize), Unread> {
    let mut text = Vec::new(alloc);
    let length = read_quoted(&mut text, rest)?;
    Ok((Token::Text(text), length))
}

// the same, appended, and how many bytes it takes
fn read_quoted(text: &mut Vec<u8>, rest: &[u8]) -> Result<usize, Unread> {
    let mut skipped = 0usize;
    for (at, byte) in rest.iter().enumerate() {
        if skipped > 0 {
            skipped -= 1;
        } else if *byte == b'"' {
            return Ok(at.saturating_add(1));
        } else if *byte == b'\\' {
            let behind = rest.get(at.saturating_add(1)..).unwrap_or(b"");
            let Some((value, taken)) = escaped(behind) else {
                return Err(Unread::Open);
            };
            text.push(value)?;
            skipped = taken;
        } else {
            text.push(*byte)?;
        }
    }
    Err(Unread::Open)
}

// a word, up to the next space or mark
fn bare_word(alloc: Global, rest: &str) -> Result<(Token, usize), Unread> {
    let mut word = String::new(alloc);
    for letter in rest.chars() {
        if matches!(letter, ' ' | '"' | '`') {
            break;
        }
        word.push(letter)?;
    }
    let length = word.len();
    Ok((Token::Word(word), length))
}

// the token that begins at a place with this byte, and how many bytes it takes
fn token_at(alloc: Global, line: &str, at: usize, byte: u8) -> Result<(Token, usize), Unread> {
    let behind = line.as_bytes().get(at.saturating_add(1)..).unwrap_or(b"");
    match byte {
        b'"' => quoted_text(alloc, behind),
        b'`' => raw_text(alloc, behind),
        _ => bare_word(alloc, line.get(at..).unwrap_or("")),
    }
}

// appends the tokens of a line
fn read_tokens(alloc: Global, tokens: &mut Vec<Token>, line: &str) -> Result<(), Unread> {
    let mut next = 0usize;
    for (at, byte) in line.as_bytes().iter().enumerate() {
        if at < next || *byte == b' ' {
            continue;
        }
        let (token, length) = token_at(alloc, line, at, *byte)?;
        let marks = usize::from(matches!(*byte, b'"' | b'`'));
        next = at.saturating_add(length).saturating_add(marks);
        tokens.push(token)?;
    }
    Ok(())
}

/// The tokens of a line of ASCII.
pub(crate) fn tokens_of(alloc: Global, line: &str) -> Result<Vec<Token>, Unread> {
    let mut tokens = Vec::new(alloc);
    read_tokens(alloc, &mut tokens, line)?;
    Ok(tokens)
}
