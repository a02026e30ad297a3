//! Tokens with which no program can continue, and texts that end too soon.

use crate::call_habits::said_of_procedures;
use crate::habits::said_here;
use crate::wanted::Wanted;
use fault_texts::{Nearest, Source, Words, is_word_of, piece, spot_at};
use gr_base::Memory;
use source_tokens::Tokens;
use src_parser::ParseFault;
use std::alloc::Global;

/// The words that begin a declaration, a statement or its second block.
const KEYWORDS: &str = "public secret if else while";

/// The tokens that follow a statement or a declaration, or begin another one.
const BEGINNINGS: &str = "} if else while public secret int";

/// Tokens of a file that is one with procedures, or isn't.
#[derive(Clone, Copy)]
struct Parsed<'a> {
    tokens: Tokens<'a>,
    has_procs: bool,
}

/// Explains why tokens aren't a program, or a file with procedures.
pub fn explain_tokens(
    alloc: Global,
    tokens: Tokens<'_>,
    has_procs: bool,
    fault: ParseFault,
    out: &mut Words,
) {
    let Tokens { name, text, .. } = tokens;
    let parsed = Parsed { tokens, has_procs };
    let put = match fault {
        ParseFault::Unexpected(start) => parsed.put_unexpected(alloc, start, out),
        ParseFault::EndOfText => parsed.put_end(alloc, out),
        ParseFault::TooDeep(start) => {
            Source { name, text }.put(
                start as usize,
                "this is nested too deeply",
                "At most 32 of `(`, `[` and the sign `-`, and 32 of `{`, can be open, and a statement has at most 256 \
                operators: assign a part to a variable, in an earlier statement.",
                out,
            );
            Ok(())
        }
    };
    out.starve_on(put);
}

impl Parsed<'_> {
    // What was expected instead of the token that starts at a byte.
    fn wanted(&self, alloc: Global, start: u32) -> Result<Wanted, Memory> {
        let front = piece(self.tokens.text, 0, start as usize);
        Wanted::behind(alloc, front, start, self.has_procs)
    }

    // A token with which no program can continue.
    fn put_unexpected(&self, alloc: Global, start: u32, out: &mut Words) -> Result<(), Memory> {
        let tokens = self.tokens;
        let at = tokens.at_byte(start);
        let wanted = self.wanted(alloc, start)?;
        if self.put_misspelt(alloc, at, &wanted, out)? {
            return Ok(());
        }
        if let Some(sentence) = said_here(tokens, at, &wanted) {
            put_token(tokens, at, out);
            out.line(sentence);
            return Ok(());
        }
        if lacks_semicolon(tokens, at, &wanted) && !in_parentheses(alloc, tokens, at)? {
            put_semicolon(tokens, at, out);
            return Ok(());
        }
        self.put_other(alloc, at, &wanted, out)
    }

    // A token about which only the expected ones are known.
    fn put_other(
        &self,
        alloc: Global,
        at: usize,
        wanted: &Wanted,
        out: &mut Words,
    ) -> Result<(), Memory> {
        let tokens = self.tokens;
        let open = tokens.innermost(alloc, at)?;
        put_token(tokens, at, out);
        if let Some(sentence) = said_of_procedures(tokens, at, wanted, self.has_procs) {
            out.line(sentence);
        } else if tokens.is(at, "}") && open.is_none() {
            out.line("Every earlier `{` is already closed: remove the `}`, or open its block.");
        } else {
            wanted.put(out);
            put_open(tokens, open, wanted, out);
        }
        Ok(())
    }

    // A text that ends within a program.
    fn put_end(&self, alloc: Global, out: &mut Words) -> Result<(), Memory> {
        let tokens = self.tokens;
        let end = tokens.all.len();
        let wanted = self.wanted(alloc, u32::MAX)?;
        if wanted.has(b";") && end > 0 && !in_parentheses(alloc, tokens, end)? {
            put_semicolon(tokens, end, out);
            return Ok(());
        }
        if wanted.has(b"}") && put_unclosed(alloc, tokens, out)? {
            return Ok(());
        }
        let Tokens { name, text, .. } = tokens;
        Source { name, text }.point(text.len(), "the text ends too early", out);
        wanted.put(out);
        put_open(tokens, tokens.innermost(alloc, end)?, &wanted, out);
        Ok(())
    }

    // Says which keyword a word seems to be, and whether it seems to be one.
    fn put_misspelt(
        &self,
        alloc: Global,
        at: usize,
        wanted: &Wanted,
        out: &mut Words,
    ) -> Result<bool, Memory> {
        if self.tokens.is_name(at) {
            let meant = wanted.nearest(alloc, self.tokens.word(at))?;
            if let Some(keyword) = meant {
                put_meant(self.tokens, at, keyword, out);
                return Ok(true);
            }
        }
        let first = self.tokens.first_of(at);
        if !self.may_be_keyword(first, at) {
            return Ok(false);
        }
        let meant = self.keyword_near(alloc, self.tokens.word(first))?;
        if let Some(keyword) = meant {
            put_meant(self.tokens, first, keyword, out);
        }
        Ok(meant.is_some())
    }

    // Whether the first token of a statement, before the one that can't follow, may be a misspelt keyword.
    fn may_be_keyword(&self, first: usize, at: usize) -> bool {
        let next = first.saturating_add(1);
        first < at
            && self.tokens.is_name(first)
            && !self.tokens.is(next, "=")
            && !self.tokens.is(next, "[")
            && self.tokens.declaration_of(first).is_none()
            && !self.tokens.is_procedure(first)
    }

    fn keyword_near(&self, alloc: Global, word: &[u8]) -> Result<Option<&'static [u8]>, Memory> {
        let mut nearest = Nearest::to(alloc, word)?;
        nearest.compare_each(alloc, KEYWORDS)?;
        if self.has_procs && word != b"proc".as_slice() {
            nearest.compare(alloc, b"proc")?;
        }
        Ok(nearest.found())
    }
}

// The place of a token, the token between two texts, and its line.
fn put_quoted(tokens: Tokens<'_>, at: usize, before: &str, after: &str, out: &mut Words) {
    let spot = spot_at(tokens.text, tokens.start(at));
    out.put_place(tokens.name, spot);
    out.say(before);
    out.quote(tokens.word(at));
    out.say(after);
    out.put_line(tokens.text, spot);
}

// A token with which no program can continue.
fn put_token(tokens: Tokens<'_>, at: usize, out: &mut Words) {
    put_quoted(tokens, at, "unexpected `", "`", out);
}

// A word that isn't a keyword, and the keyword that it seems to be.
fn put_meant(tokens: Tokens<'_>, at: usize, keyword: &[u8], out: &mut Words) {
    put_quoted(tokens, at, "`", "` is not a keyword", out);
    out.suggest(keyword);
}

// Whether a semicolon is missing before a token.
fn lacks_semicolon(tokens: Tokens<'_>, at: usize, wanted: &Wanted) -> bool {
    if at == 0 || !wanted.has(b";") {
        return false;
    }
    let next = tokens.word(at.saturating_add(1));
    is_word_of(BEGINNINGS, tokens.word(at))
        || tokens.begins_line(at)
        || tokens.is_name(at) && matches!(next, b"=" | b"[" | b"(")
}

// Whether a token is within parentheses, where a semicolon is between two arguments.
fn in_parentheses(alloc: Global, tokens: Tokens<'_>, at: usize) -> Result<bool, Memory> {
    Ok(match tokens.innermost(alloc, at)? {
        Some(open) => tokens.is(open, "("),
        None => false,
    })
}

// The semicolon that is missing before a token, at the end of what it would end.
fn put_semicolon(tokens: Tokens<'_>, at: usize, out: &mut Words) {
    let last = at.saturating_sub(1);
    let end = tokens.start(last).saturating_add(tokens.word(last).len());
    let spot = spot_at(tokens.text, end);
    out.put_place(tokens.name, spot);
    out.say("expected `;` after `");
    out.quote(tokens.word(last));
    out.say("`");
    out.put_line(tokens.text, spot);
    out.line("Each declaration, assignment and call ends with a `;`.");
}

// The bracket that a closing bracket would close, if one is wanted.
fn put_open(tokens: Tokens<'_>, open: Option<usize>, wanted: &Wanted, out: &mut Words) {
    let Some(open) = open else {
        return;
    };
    let is_wanted = match tokens.word(open) {
        b"(" => wanted.has(b")"),
        b"[" => wanted.has(b"]"),
        _ => false,
    };
    if is_wanted {
        out.say("The `");
        out.quote(tokens.word(open));
        out.say("` at ");
        tokens.put_where(open, out);
        out.line(" is still open.");
    }
}

// Says which brace is never closed, and whether one is.
fn put_unclosed(alloc: Global, tokens: Tokens<'_>, out: &mut Words) -> Result<bool, Memory> {
    let Some(unclosed) = tokens.unclosed(alloc)? else {
        return Ok(false);
    };
    let spot = spot_at(tokens.text, tokens.start(unclosed.open));
    out.put_place(tokens.name, spot);
    out.say("this `{` is never closed");
    out.put_line(tokens.text, spot);
    match unclosed.other {
        Some(other) => {
            out.say("The `}` at ");
            tokens.put_where(other, out);
            out.line(" is indented like the end of another block. Add a `}` before it.");
        }
        None => {
            out.say("The text ends at ");
            out.put_numbers(spot_at(tokens.text, tokens.text.len()));
            out.line(" without its `}`.");
        }
    }
    Ok(true)
}
