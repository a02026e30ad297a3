//! The text by whose lines tools name the parts of a program.

ghost use Rattle.std.specs.Prelude.{◌≤◌, IfOk, length};

use gr_base::Memory;
use gr_word::{Label, Name};
use shown_programs::{WithoutCalls, without_calls};
use src_lexer::{Kind, LexError, Token, lex};
use src_tree::{Decl, Program};
use std::alloc::Global;
use std::collections::BTreeSet;

/// The most bytes of a text that splits into tokens.
const MOST_BYTES: usize = 1_048_576;

/// The most tokens of an access that are quoted.
const MOST_QUOTED: usize = 16;

/// A program's text with its tokens and the names of its variables, in the order of declaration: the file's own, or for a
/// file with procedures those of the program that `expand` prints.
#[derive(Drop)]
pub(crate) struct SourceText {
    pub(crate) text: Vec<u8>,
    tokens: Vec<Token>,
    names: Vec<Name>,
    pub(crate) expanded: bool,
}

/// Tokens of an access to an array: its name, and the bracket after its index.
#[derive(Clone, Copy)]
pub(crate) struct Access {
    name: usize,
    end: usize,
}

/// A line and a column, both from 1.
#[derive(Clone, Copy)]
pub(crate) struct Spot {
    pub(crate) line: u32,
    pub(crate) column: u32,
}

impl SourceText {
    /// The text of a file, of which no names are known.
    pub(crate) fn of_file(alloc: Global, text: Vec<u8>) -> Result<SourceText, Memory> {
        let tokens = tokens_of(alloc, &text)?;
        Ok(SourceText {
            text,
            tokens,
            names: Vec::new(alloc),
            expanded: false,
        })
    }

    /// The tokens of the text; none if it doesn't split into tokens.
    pub(crate) fn tokens(&self) -> &[Token] {
        self.tokens.as_slice()
    }

    /// The text of a program that was read from a file, with procedures or without.
    pub(crate) fn of(
        alloc: Global,
        text: Vec<u8>,
        program: &Program,
        procs: bool,
    ) -> Result<SourceText, Memory> {
        if procs {
            let WithoutCalls { text, names } = without_calls(alloc, &text, program)?;
            return SourceText::with_names(alloc, text.into_bytes(), names, true);
        }
        let names = own_names(alloc, &program.decls)?;
        SourceText::with_names(alloc, text, names, false)
    }

    fn with_names(
        alloc: Global,
        text: Vec<u8>,
        names: Vec<Name>,
        expanded: bool,
    ) -> Result<SourceText, Memory> {
        let tokens = tokens_of(alloc, &text)?;
        Ok(SourceText {
            text,
            tokens,
            names,
            expanded,
        })
    }

    /// The name of a variable in the text, by its number, or the other name if there is no such variable.
    pub(crate) fn name_of<'a>(&'a self, number: usize, otherwise: &'a Name) -> &'a Name {
        match self.names.get(number) {
            Some(name) => name,
            None => otherwise,
        }
    }

    // The number of the variable of a name in the text, in the order of declaration.
    fn number_of(&self, name: &[u8]) -> Option<usize> {
        for (number, own) in self.names.iter().enumerate() {
            if own.bytes() == name {
                return Some(number);
            }
        }
        None
    }

    // The text of a token, empty if there is none.
    fn word(&self, at: usize) -> &[u8] {
        match self.tokens.get(at) {
            Some(token) => piece(&self.text, token.start as usize, token.len as usize),
            None => &[],
        }
    }

    // Whether a token is this sign or keyword.
    fn is(&self, at: usize, word: &str) -> bool {
        self.word(at) == word.as_bytes()
    }

    fn is_name(&self, at: usize) -> bool {
        match self.tokens.get(at) {
            Some(token) => matches!(token.kind, Kind::Word(_)),
            None => false,
        }
    }

    // Whether a statement begins at a token outside of brackets. In their order statements have their numbers.
    fn begins_statement(&self, at: usize) -> bool {
        if self.is(at, "if") || self.is(at, "while") {
            return true;
        }
        self.is_name(at) && self.follows_end(at) && !self.begins_procedure(at)
    }

    // Whether a procedure begins at a name.
    fn begins_procedure(&self, at: usize) -> bool {
        self.is(at, "proc") && self.is_name(at.saturating_add(1))
    }

    // How many round brackets are open after a token, if this many were open before it.
    fn brackets_after(&self, at: usize, open: usize) -> usize {
        if self.is(at, "(") {
            return open.saturating_add(1);
        }
        if self.is(at, ")") {
            return open.saturating_sub(1);
        }
        open
    }

    // Whether a declaration, a statement or a block ends before a token.
    fn follows_end(&self, at: usize) -> bool {
        match at.checked_sub(1) {
            Some(before) => matches!(self.word(before), b";" | b"{" | b"}"),
            None => true,
        }
    }

    /// The line of each statement, from 0, in order, those of procedures and calls among them.
    pub(crate) fn statement_lines(&self, alloc: Global) -> Result<Vec<u32>, Memory> {
        let mut lines = Vec::new(alloc);
        let mut reached = 0usize;
        let mut line: u32 = 0;
        let mut open = 0usize;
        for (at, token) in self.tokens.iter().enumerate() {
            let start = token.start as usize;
            let between = piece(&self.text, reached, start.saturating_sub(reached));
            line = line.saturating_add(line_feeds(between));
            reached = start;
            if open == 0 && self.begins_statement(at) {
                lines.push(line)?;
            }
            open = self.brackets_after(at, open);
        }
        Ok(lines)
    }

    /// The first access with a secret index to each variable that has one, in the order of declaration.
    pub(crate) fn secret_accesses<'a>(
        &'a self,
        alloc: Global,
        decls: &'a [Decl],
    ) -> Result<Vec<Option<Access>>, Memory> {
        let secrets = self.secret_names(alloc, decls)?;
        let mut found = vec![in alloc; None; decls.len()]?;
        for at in 0..self.tokens.len() {
            if self.is_name(at) && self.is(at.saturating_add(1), "[") {
                let end = self.index_end(at.saturating_add(1));
                if self.names_one_of(&secrets, at.saturating_add(2), end) {
                    if let Some(number) = self.number_of(self.word(at)) {
                        keep_first(&mut found, number, Access { name: at, end });
                    }
                }
            }
        }
        Ok(found)
    }

    // The bracket that closes the one at a token.
    fn index_end(&self, open: usize) -> usize {
        let mut depth = 0usize;
        for at in open..self.tokens.len().max(open) {
            if self.is(at, "[") {
                depth = depth.saturating_add(1);
            } else if self.is(at, "]") {
                depth = depth.saturating_sub(1);
            }
            if depth == 0 {
                return at;
            }
        }
        self.tokens.len()
    }

    // The names of the secret variables in the text.
    fn secret_names<'a>(
        &'a self,
        alloc: Global,
        decls: &[Decl],
    ) -> Result<BTreeSet<&'a [u8]>, Memory> {
        let mut secrets = BTreeSet::new(alloc);
        for (name, decl) in self.names.iter().zip(decls) {
            if decl.label == Label::Secret && secrets.insert(name.bytes()).is_err() {
                return Err(Memory);
            }
        }
        Ok(secrets)
    }

    // Whether one of some names is among the tokens from one to an end.
    fn names_one_of<'a>(&'a self, names: &BTreeSet<&'a [u8]>, from: usize, end: usize) -> bool {
        for at in from..end.max(from) {
            if self.is_name(at) && names.contains(&self.word(at)) {
                return true;
            }
        }
        false
    }

    /// The line and the column of an access.
    pub(crate) fn spot_of(&self, access: Access) -> Spot {
        match self.tokens.get(access.name) {
            Some(token) => spot_at(&self.text, token.start as usize),
            None => Spot { line: 1, column: 1 },
        }
    }

    /// Adds the text of an access without spaces, cut if it is long.
    pub(crate) fn push_access(&self, text: &mut String, access: Access) -> Result<(), Memory> {
        let last = access.end.min(access.name.saturating_add(MOST_QUOTED));
        for at in access.name..last.saturating_add(1).max(access.name) {
            push_ascii(text, self.word(at))?;
        }
        if last < access.end {
            text.push_str("..")?;
        }
        Ok(())
    }
}

/// Adds bytes as text; a byte that isn't a visible ASCII character or a space becomes `?`.
pub(crate) fn push_ascii(text: &mut String, bytes: &[u8]) -> Result<(), Memory> {
    for byte in bytes {
        let shown = if byte.is_ascii_graphic() || *byte == b' ' {
            *byte
        } else {
            b'?'
        };
        text.push(char::from(shown))?;
    }
    Ok(())
}

// The tokens of a text; none if it doesn't split into tokens.
fn tokens_of(alloc: Global, text: &[u8]) -> Result<Vec<Token>, Memory> {
    if text.len() > MOST_BYTES {
        return Ok(Vec::new(alloc));
    }
    match lex(alloc, text) {
        Ok(tokens) => Ok(tokens),
        Err(LexError::Memory) => Err(Memory),
        Err(_) => Ok(Vec::new(alloc)),
    }
}

fn line_feeds(text: &[u8]) -> u32 {
    let mut count: u32 = 0;
    for byte in text {
        if *byte == b'\n' {
            count = count.saturating_add(1);
        }
    }
    count
}

// Keeps the first access to the variable of a number.
fn keep_first(found: &mut [Option<Access>], number: usize, access: Access) {
    if number < found.len() && found[number].is_none() {
        found[number] = Some(access);
    }
}

// The names of variables as they are declared.
fn own_names(alloc: Global, decls: &[Decl]) -> Result<Vec<Name>, Memory> {
    let mut names = Vec::new(alloc);
    for decl in decls {
        names.push(decl.name.copy(alloc)?)?;
    }
    Ok(names)
}

/// Some bytes of a text, as many as there are.
pub(crate) fn piece(text: &[u8], start: usize, len: usize) -> &[u8] {
    let (_, rest) = text.split_at(start.min(text.len()));
    rest.split_at(len.min(rest.len())).0
}

// The line and the column of a byte.
fn spot_at(text: &[u8], at: usize) -> Spot {
    let mut spot = Spot { line: 1, column: 1 };
    for byte in piece(text, 0, at) {
        if *byte == b'\n' {
            spot.line = spot.line.saturating_add(1);
            spot.column = 1;
        } else {
            spot.column = spot.column.saturating_add(1);
        }
    }
    spot
}
