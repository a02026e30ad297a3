use fault_texts::{Nearest, Words, piece, spot_at};
use gr_base::Memory;
use src_lexer::{Kind, Token, lex};
use std::alloc::Global;

/// The most bytes of a source.
pub const SOURCE_BYTES: usize = 1_048_576;

/// A source by its name, its text and its tokens.
#[derive(Clone, Copy)]
pub struct Tokens<'a> {
    pub name: &'a str,
    pub text: &'a [u8],
    pub all: &'a [Token],
}

/// The tokens of a part of a source that splits into tokens.
pub fn tokens_of(alloc: Global, text: &[u8]) -> Result<Vec<Token>, Memory> {
    if text.len() > SOURCE_BYTES {
        return Err(Memory);
    }
    match lex(alloc, text) {
        Ok(tokens) => Ok(tokens),
        Err(_) => Err(Memory),
    }
}

impl<'a> Tokens<'a> {
    /// The kind of a token, or `None` if there is no such token.
    pub fn kind(&self, at: usize) -> Option<&'a Kind> {
        match self.all.get(at) {
            Some(token) => Some(&token.kind),
            None => None,
        }
    }

    /// The name at a token, if the token is one.
    pub fn name_at(&self, at: usize) -> Option<&'a [u8]> {
        match self.kind(at)? {
            Kind::Word(name) => Some(name.bytes()),
            _ => None,
        }
    }

    /// The text of a token, and nothing if there is no such token.
    pub fn word(&self, at: usize) -> &'a [u8] {
        match self.all.get(at) {
            Some(token) => piece(self.text, token.start as usize, token.len as usize),
            None => &[],
        }
    }

    /// Whether a token is this word or sign.
    pub fn is(&self, at: usize, word: &str) -> bool {
        self.word(at) == word.as_bytes()
    }

    /// The text of the token before, and nothing if there is none.
    pub fn before(&self, at: usize) -> &'a [u8] {
        match at.checked_sub(1) {
            Some(before) => self.word(before),
            None => &[],
        }
    }

    /// The byte at which a token starts, and the end of the text if there is no such token.
    pub fn start(&self, at: usize) -> usize {
        match self.all.get(at) {
            Some(token) => token.start as usize,
            None => self.text.len(),
        }
    }

    /// Adds the line and the column of a token.
    pub fn put_where(&self, at: usize, out: &mut Words) {
        out.put_numbers(spot_at(self.text, self.start(at)));
    }

    /// Whether a token is a name.
    pub fn is_name(&self, at: usize) -> bool {
        match self.kind(at) {
            Some(Kind::Word(_)) => true,
            _ => false,
        }
    }

    /// Whether a statement, a declaration or a block may begin at a token: the one before ends such.
    pub fn is_head(&self, at: usize) -> bool {
        let Some(before) = at.checked_sub(1) else {
            return true;
        };
        match self.kind(before) {
            Some(Kind::Semi | Kind::LBrace | Kind::RBrace) | None => true,
            _ => false,
        }
    }

    /// The first token of a token's statement, or of its guard and what is before the guard.
    pub fn first_of(&self, at: usize) -> usize {
        for back in 0..at {
            let first = at.saturating_sub(back);
            if self.is_head(first) {
                return first;
            }
        }
        0
    }

    /// Whether a token is the first of its line.
    pub fn begins_line(&self, at: usize) -> bool {
        let Some(before) = at.checked_sub(1) else {
            return true;
        };
        let from = self.start(before);
        piece(self.text, from, self.start(at).saturating_sub(from)).contains(&b'\n')
    }

    /// Whether a procedure begins at some token.
    pub fn has_procedure(&self) -> bool {
        for at in 0..self.all.len() {
            if self.is(at, "proc") && self.is_head(at) && self.is_name(at.saturating_add(1)) {
                return true;
            }
        }
        false
    }

    /// Whether a procedure has the name at a token.
    pub fn is_procedure(&self, name: usize) -> bool {
        for at in 0..self.all.len() {
            if self.before(at) == b"proc".as_slice() && self.word(at) == self.word(name) {
                return true;
            }
        }
        false
    }

    /// The name of the procedure whose name is nearest to the one at a token, if one is near.
    pub fn nearest_procedure(
        &self,
        alloc: Global,
        name: usize,
    ) -> Result<Option<&'a [u8]>, Memory> {
        let mut nearest = Nearest::to(alloc, self.word(name))?;
        for at in 0..self.all.len() {
            if self.is_name(at) && self.before(at) == b"proc".as_slice() {
                nearest.compare(alloc, self.word(at))?;
            }
        }
        Ok(nearest.found())
    }

    /// The number of the token that starts at a byte, or how many there are.
    pub fn at_byte(&self, start: u32) -> usize {
        for (number, token) in self.all.iter().enumerate() {
            if start <= token.start {
                return number;
            }
        }
        self.all.len()
    }

    /// The number at a token.
    pub fn number(&self, at: usize) -> Option<u64> {
        match self.kind(at)? {
            Kind::Num(value) if *value >= 0 => Some(*value as u64),
            _ => None,
        }
    }

    /// Adds the place of a token, the token, a text after it, and its line.
    pub fn put(&self, at: usize, what: &str, out: &mut Words) {
        let spot = spot_at(self.text, self.start(at));
        out.put_place(self.name, spot);
        out.quote(self.word(at));
        out.say(what);
        out.put_line(self.text, spot);
    }

    /// Adds a token, and a text after it.
    pub fn tell(&self, at: usize, what: &str, out: &mut Words) {
        out.quote(self.word(at));
        out.say(what);
    }

    /// Adds a token in backticks, and a text after it.
    pub fn cite(&self, at: usize, what: &str, out: &mut Words) {
        out.say("`");
        self.tell(at, "`", out);
        out.say(what);
    }
}
