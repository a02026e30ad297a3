use fault_texts::{Nearest, Words, piece};
use gr_base::Memory;
use procs_parser::parse_procs;
use source_tokens::tokens_of;
use src_lexer::{Kind, Token};
use src_parser::{ParseError, parse};
use std::alloc::Global;

/// A token of each kind that grammars distinguish: one operator represents all operators, one comparison all
/// comparisons.
const CANDIDATES: &[u8] = b"public secret int if else while ( ) [ ] { } ; = * - == 1 x";

/// The tokens expected at a place, instead of the one there.
#[derive(Drop)]
pub(crate) struct Wanted {
    names: Vec<&'static [u8]>,
}

// Whether the tokens begin a program, or a file with procedures, up to the last of them.
fn may_stand(alloc: Global, tokens: &[Token], has_procs: bool, last: u32) -> Result<bool, Memory> {
    let refused = if has_procs {
        parse_procs(alloc, tokens).err()
    } else {
        parse(alloc, tokens).err()
    };
    match refused {
        Some(ParseError::Unexpected(at)) => Ok(at != last),
        Some(ParseError::Memory) => Err(Memory),
        Some(ParseError::EndOfText) => Ok(true),
        Some(ParseError::TooDeep(_)) => Ok(false),
        None => Ok(true),
    }
}

// Whether a token of this kind may follow the tokens, which are left as they were.
fn is_wanted(
    alloc: Global,
    tokens: &mut Vec<Token>,
    kind: Kind,
    last: u32,
    has_procs: bool,
) -> Result<bool, Memory> {
    tokens.push(Token {
        kind,
        start: last,
        len: 1,
    })?;
    let stands = may_stand(alloc, tokens.as_slice(), has_procs, last);
    let _ = tokens.pop();
    stands
}

impl Wanted {
    /// The tokens that may follow a prefix of a source, each candidate tried in turn as a token that starts at a byte.
    pub(crate) fn behind(
        alloc: Global,
        front: &[u8],
        last: u32,
        has_procs: bool,
    ) -> Result<Wanted, Memory> {
        let mut tokens = tokens_of(alloc, front)?;
        let mut wanted = Wanted {
            names: Vec::new(alloc),
        };
        wanted.gather(alloc, &mut tokens, last, has_procs)?;
        Ok(wanted)
    }

    // Adds the candidates that may follow the tokens, which are left as they were.
    fn gather(
        &mut self,
        alloc: Global,
        tokens: &mut Vec<Token>,
        last: u32,
        has_procs: bool,
    ) -> Result<(), Memory> {
        for candidate in tokens_of(alloc, CANDIDATES)? {
            let name = piece(CANDIDATES, candidate.start as usize, candidate.len as usize);
            if is_wanted(alloc, tokens, candidate.kind, last, has_procs)? {
                self.names.push(name)?;
            }
        }
        Ok(())
    }

    /// Whether a token was expected there.
    pub(crate) fn has(&self, piece: &[u8]) -> bool {
        for name in &self.names {
            if *name == piece {
                return true;
            }
        }
        false
    }

    /// Whether each of some tokens was expected there, with a space between them.
    pub(crate) fn has_each(&self, pieces: &str) -> bool {
        for piece in pieces.split(" ") {
            if !self.has(piece.as_bytes()) {
                return false;
            }
        }
        true
    }

    /// The keyword that was expected there and is nearest to a word, if one is near.
    pub(crate) fn nearest(
        &self,
        alloc: Global,
        word: &[u8],
    ) -> Result<Option<&'static [u8]>, Memory> {
        let mut nearest = Nearest::to(alloc, word)?;
        for name in &self.names {
            if name.len() > 1 {
                nearest.compare(alloc, *name)?;
            }
        }
        Ok(nearest.found())
    }

    /// Adds the expected tokens.
    pub(crate) fn put(&self, out: &mut Words) {
        let has_operators = self.has(b"*");
        let count = self.names.len().saturating_sub(usize::from(has_operators));
        let mut number = 0usize;
        for name in &self.names {
            // The sign `-` is one of the operators.
            if has_operators && *name == b"-".as_slice() {
                continue;
            }
            number = number.saturating_add(1);
            out.say(if number == 1 {
                "Expected "
            } else if number == count {
                " or "
            } else {
                ", "
            });
            put_name(name, out);
        }
        out.say(".\n");
    }
}

fn put_name(name: &[u8], out: &mut Words) {
    match name {
        b"1" => out.say("a number"),
        b"x" => out.say("a name"),
        b"*" => out.say("an operator"),
        b"==" => out.say("a comparison"),
        _ => {
            out.say("`");
            out.quote(name);
            out.say("`");
        }
    }
}
