//! Declarations, statements and calls among tokens, by the numbers that typing gives them.

use crate::tokens::Tokens;
use gr_base::Memory;
use src_lexer::Kind;
use std::alloc::Global;

/// A declaration among tokens: its name, and what it declares.
#[derive(Clone, Copy)]
pub struct Declared {
    pub name: usize,
    pub is_secret: bool,
    pub is_array: bool,
}

impl Declared {
    // How many tokens it has.
    fn size(self) -> usize {
        if self.is_array { 7 } else { 4 }
    }
}

impl Tokens<'_> {
    // The declaration that begins at a token of a program.
    fn declared_at(&self, at: usize) -> Option<Declared> {
        let is_secret = match self.kind(at)? {
            Kind::Secret => true,
            Kind::Public => false,
            _ => return None,
        };
        let is_array = match self.kind(at.saturating_add(3)) {
            Some(Kind::LBracket) => true,
            _ => false,
        };
        Some(Declared {
            name: at.saturating_add(2),
            is_secret,
            is_array,
        })
    }

    /// The declarations at the head of a program's tokens.
    pub fn declarations(&self, alloc: Global) -> Result<Vec<Declared>, Memory> {
        let mut declarations = Vec::new(alloc);
        let mut at = 0usize;
        for _ in self.all {
            let Some(declared) = self.declared_at(at) else {
                break;
            };
            declarations.push(declared)?;
            at = at.saturating_add(declared.size());
        }
        Ok(declarations)
    }

    /// The declaration of a number, from 0, at the head of a program's tokens.
    pub fn declaration(&self, number: u64) -> Option<Declared> {
        let mut at = 0usize;
        for _ in 0..number {
            at = at.saturating_add(self.declared_at(at)?.size());
        }
        self.declared_at(at)
    }

    /// The first declaration of the name at a token.
    pub fn declaration_of(&self, name: usize) -> Option<Declared> {
        let mut at = 0usize;
        for _ in self.all {
            let declared = self.declared_at(at)?;
            if self.word(declared.name) == self.word(name) {
                return Some(declared);
            }
            at = at.saturating_add(declared.size());
        }
        None
    }

    /// The name of the declaration of a number, and how many tokens there are if there is no such declaration.
    pub fn declared_name(&self, number: u64) -> usize {
        match self.declaration(number) {
            Some(declared) => declared.name,
            None => self.all.len(),
        }
    }

    /// The token after the declarations at the head of a file.
    pub fn end_of_declarations(&self) -> usize {
        self.end_of_declarations_from(0)
    }

    /// The token after the declarations that begin at a token.
    pub fn end_of_declarations_from(&self, from: usize) -> usize {
        let mut at = from;
        for _ in self.all {
            let Some(declared) = self.declared_at(at) else {
                break;
            };
            at = at.saturating_add(declared.size());
        }
        at
    }

    /// How many declarations there are at the head of a file.
    pub fn count_declarations(&self) -> u64 {
        let mut at = 0usize;
        let mut count = 0u64;
        for _ in self.all {
            let Some(declared) = self.declared_at(at) else {
                break;
            };
            at = at.saturating_add(declared.size());
            count = count.saturating_add(1);
        }
        count
    }

    /// Whether the statement at a token is a call.
    pub fn is_call(&self, at: usize) -> bool {
        match self.kind(at.saturating_add(1)) {
            Some(Kind::LParen) => self.is_name(at),
            _ => false,
        }
    }

    /// The first statement from a token on, before an end. Before it there are only closing braces and `else`.
    pub fn statement_from(&self, from: usize, end: usize) -> Option<usize> {
        let mut at = from;
        for _ in from..end.max(from) {
            if at >= end {
                return None;
            }
            if self.is(at, "else") {
                at = at.saturating_add(2);
            } else if self.is(at, "}") {
                at = at.saturating_add(1);
            } else {
                return Some(at);
            }
        }
        None
    }

    /// The token after the statement at a token: after its semicolon, or the first one of its first block.
    pub fn after(&self, statement: usize) -> usize {
        let last = if self.is_call(statement) {
            self.closing(statement.saturating_add(1)).saturating_add(1)
        } else {
            self.own_end(statement)
        };
        last.saturating_add(1)
    }

    /// The end of a statement's own expressions: the semicolon of an assignment, or the brace after a guard.
    pub fn own_end(&self, first: usize) -> usize {
        for at in first..self.all.len().max(first) {
            if self.is(at, ";") || self.is(at, "{") {
                return at;
            }
        }
        self.all.len()
    }

    /// The bracket that closes the one at a token, or how many tokens there are if none does.
    pub fn closing(&self, open: usize) -> usize {
        let mut depth = 0usize;
        for at in open..self.all.len().max(open) {
            match self.kind(at) {
                Some(Kind::LParen | Kind::LBracket | Kind::LBrace) => {
                    depth = depth.saturating_add(1);
                }
                Some(Kind::RParen | Kind::RBracket | Kind::RBrace) => {
                    depth = depth.saturating_sub(1);
                }
                _ => {}
            }
            if depth == 0 {
                return at;
            }
        }
        self.all.len()
    }

    /// The name of the procedure of a number, from 0, or of the call of a number; and how many tokens there are if
    /// there is none.
    pub fn named(&self, number: u32, is_procedure: bool) -> usize {
        let mut left = number;
        for at in 0..self.all.len() {
            if self.names_one(at, is_procedure) {
                if left == 0 {
                    return at;
                }
                left -= 1;
            }
        }
        self.all.len()
    }

    // Whether a token is a name followed by a bracket, at the head of a statement or after `proc`.
    fn names_one(&self, at: usize, is_procedure: bool) -> bool {
        if !self.is_name(at) || !self.is(at.saturating_add(1), "(") {
            return false;
        }
        if is_procedure {
            return self.before(at) == b"proc".as_slice();
        }
        self.is_head(at)
    }
}
