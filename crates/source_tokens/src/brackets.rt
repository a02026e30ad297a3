//! Brackets among tokens: which are open, and which guards are around a token.

use crate::tokens::Tokens;
use fault_texts::piece;
use gr_base::Memory;
use std::alloc::Global;

/// An open brace: its token, and the line and the indentation at which it is.
#[derive(Clone, Copy)]
struct Brace {
    at: usize,
    line: usize,
    indent: usize,
}

/// A brace that is never closed, and the closing brace that was taken for its own, if one is indented otherwise.
#[derive(Clone, Copy)]
pub struct Unclosed {
    pub open: usize,
    pub other: Option<usize>,
}

/// The line of a token and its indentation, kept from token to token.
#[derive(Clone, Copy)]
struct Margin {
    byte: usize,
    line: usize,
    indent: usize,
}

impl Margin {
    // The margin at the next token, which starts at a byte.
    fn at(self, text: &[u8], start: usize) -> Margin {
        let mut next = Margin {
            byte: start,
            ..self
        };
        for (ahead, byte) in piece(text, self.byte, start.saturating_sub(self.byte))
            .iter()
            .enumerate()
        {
            if *byte == b'\n' {
                next.line = next.line.saturating_add(1);
                next.indent = start
                    .saturating_sub(self.byte)
                    .saturating_sub(ahead)
                    .saturating_sub(1);
            }
        }
        next
    }
}

impl Tokens<'_> {
    /// The brackets that are open before a token, the outermost first.
    pub fn open_before(&self, alloc: Global, end: usize) -> Result<Vec<usize>, Memory> {
        let mut open = Vec::new(alloc);
        for at in 0..end {
            match self.word(at) {
                b"(" | b"[" | b"{" => open.push(at)?,
                b")" | b"]" | b"}" => {
                    let _ = open.pop();
                }
                _ => {}
            }
        }
        Ok(open)
    }

    /// The innermost bracket that is open before a token.
    pub fn innermost(&self, alloc: Global, end: usize) -> Result<Option<usize>, Memory> {
        let open = self.open_before(alloc, end)?;
        Ok(open.last().copied())
    }

    /// A brace that isn't closed before the text ends: one whose closing brace is indented otherwise, or the innermost.
    pub fn unclosed(&self, alloc: Global) -> Result<Option<Unclosed>, Memory> {
        let mut open: Vec<Brace> = Vec::new(alloc);
        let mut early: Option<Unclosed> = None;
        let mut margin = Margin {
            byte: 0,
            line: 1,
            indent: 0,
        };
        for at in 0..self.all.len() {
            margin = margin.at(self.text, self.start(at));
            if self.is(at, "{") {
                let Margin { line, indent, .. } = margin;
                open.push(Brace { at, line, indent })?;
            } else if self.is(at, "}") {
                let closed = open.pop();
                if early.is_none() {
                    early = misfit(closed, margin, at);
                }
            }
        }
        Ok(match open.last() {
            None => None,
            Some(last) => Some(early.unwrap_or(Unclosed {
                open: last.at,
                other: None,
            })),
        })
    }

    /// The first tokens of the statements from a token on in whose blocks another token is, the outermost first.
    pub fn heads_around(
        &self,
        alloc: Global,
        from: usize,
        end: usize,
    ) -> Result<Vec<usize>, Memory> {
        let mut around = Vec::new(alloc);
        let mut closed = 0usize;
        for at in from..end.max(from) {
            if self.is(at, "{") {
                let is_second = self.before(at) == b"else".as_slice();
                around.push(if is_second { closed } else { self.first_of(at) })?;
            } else if self.is(at, "}") {
                closed = around.pop().unwrap_or(0);
            }
        }
        Ok(around)
    }
}

// The brace that a closing brace closes, if they are in different lines with different indentations.
fn misfit(closed: Option<Brace>, margin: Margin, at: usize) -> Option<Unclosed> {
    let brace = closed?;
    if brace.line == margin.line || brace.indent == margin.indent {
        return None;
    }
    Some(Unclosed {
        open: brace.at,
        other: Some(at),
    })
}
