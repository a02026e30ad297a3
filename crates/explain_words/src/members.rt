//! Where a member of a JSON object is in its text, and what its value is. No value is kept.

use fault_texts::{length_up_to, piece};
use gr_base::Memory;
use json::{Reader, Scratch, Token};
use run_data::number_given;
use std::alloc::Global;

/// What a JSON value is.
#[derive(Clone, Copy, PartialEq, Eq)]
pub(crate) enum ValueKind {
    Null,
    Truth,
    Word,
    /// A number that isn't a word.
    Number,
    Text,
    /// A list, with the number of its items.
    List(u64),
    Object,
}

/// The value of a member, and the first item that isn't a word, with its number.
#[derive(Clone, Copy)]
pub(crate) struct Described {
    pub kind: ValueKind,
    pub unfit: Option<(u64, ValueKind)>,
}

/// A walk over the tokens of an object, up to a member of a name.
#[derive(Clone, Copy)]
struct Search<'a> {
    name: &'a str,
    depth: usize,
    is_named: bool,
    found: Option<Described>,
}

impl Search<'_> {
    fn take(&mut self, token: Token<'_>) {
        match token {
            Token::Key(key) => if self.depth == 1 {
                self.is_named = key == self.name;
            },
            Token::EndObject | Token::EndArray => {
                self.depth = self.depth.saturating_sub(1);
            }
            Token::BeginObject => {
                self.value(ValueKind::Object);
                self.depth = self.depth.saturating_add(1);
            }
            Token::BeginArray => {
                self.value(ValueKind::List(0));
                self.depth = self.depth.saturating_add(1);
            }
            Token::String(_) => self.value(ValueKind::Text),
            Token::Number(text) => self.value(match number_given(text) {
                Some(Some(_)) => ValueKind::Word,
                _ => ValueKind::Number,
            }),
            Token::Bool(_) => self.value(ValueKind::Truth),
            Token::Null => self.value(ValueKind::Null),
            Token::Bad => {}
        }
    }

    // A value begins.
    fn value(&mut self, kind: ValueKind) {
        if !self.is_named {
            return;
        }
        if self.depth == 1 {
            self.found = Some(Described { kind, unfit: None });
        } else if let Some(found) = self.found {
            self.found = Some(found.with_item(self.depth, kind));
        }
    }
}

impl Described {
    // The value with one more value within it, at a depth, which is 2 for items of a list.
    fn with_item(self, depth: usize, kind: ValueKind) -> Described {
        let ValueKind::List(count) = self.kind else {
            return self;
        };
        let unfit = match self.unfit {
            None => if depth == 2 && kind != ValueKind::Word {
                Some((count, kind))
            } else {
                None
            },
            Some((number, ValueKind::List(inner))) => if depth == 3
                && number.saturating_add(1) == count
            {
                Some((number, ValueKind::List(inner.saturating_add(1))))
            } else {
                self.unfit
            },
            Some(_) => self.unfit,
        };
        Described {
            kind: ValueKind::List(count.saturating_add((depth == 2) as u64)),
            unfit,
        }
    }
}

/// The value of the last member of a name, in the object that a text is.
pub(crate) fn described_member(
    alloc: Global,
    text: &[u8],
    name: &str,
) -> Result<Option<Described>, Memory> {
    let Ok(text) = str::from_utf8(text) else {
        return Ok(None);
    };
    let mut scratch = Scratch::new(alloc);
    let mut reader = Reader::new(text, &mut scratch)?;
    let mut search = Search {
        name,
        depth: 0,
        is_named: false,
        found: None,
    };
    for _ in 0..text.len() {
        let Some(token) = reader.next() else {
            break;
        };
        search.take(token);
    }
    Ok(search.found)
}

/// The context of a byte of a JSON text: its depth, and whether it is in a string, after a backslash.
#[derive(Clone, Copy)]
pub(crate) struct Walk {
    pub depth: usize,
    pub in_string: bool,
    is_escaped: bool,
}

impl Walk {
    /// Before the first byte.
    pub(crate) const START: Walk = Walk {
        depth: 0,
        in_string: false,
        is_escaped: false,
    };

    /// The context after a byte.
    pub(crate) fn after(self, byte: u8) -> Walk {
        if self.in_string {
            return Walk {
                in_string: self.is_escaped || byte != b'"',
                is_escaped: !self.is_escaped && byte == b'\\',
                ..self
            };
        }
        let depth = match byte {
            b'{' | b'[' => self.depth.saturating_add(1),
            b'}' | b']' => self.depth.saturating_sub(1),
            _ => self.depth,
        };
        Walk {
            depth,
            in_string: byte == b'"',
            ..self
        }
    }
}

fn is_white(byte: u8) -> bool {
    matches!(byte, b' ' | b'\t' | b'\n' | b'\r')
}

/// How many brackets are open after a token.
pub(crate) fn depth_after(depth: usize, token: Token<'_>) -> usize {
    match token {
        Token::BeginObject | Token::BeginArray => depth.saturating_add(1),
        Token::EndObject | Token::EndArray => depth.saturating_sub(1),
        _ => depth,
    }
}

/// The byte at which the member of a name begins whose value counts: the last of that name in the outermost object. The
/// name may be written with escapes.
pub(crate) fn member_at(alloc: Global, text: &[u8], name: &str) -> Result<Option<usize>, Memory> {
    let Ok(text) = str::from_utf8(text) else {
        return Ok(None);
    };
    let mut scratch = Scratch::new(alloc);
    let mut reader = Reader::new(text, &mut scratch)?;
    let mut depth = 0usize;
    let mut found = None;
    for _ in 0..text.len() {
        let at = reader.offset();
        let Some(token) = reader.next() else {
            break;
        };
        if depth == 1 && is_key(token, name) {
            found = Some(quote_from(text.as_bytes(), at));
        }
        depth = depth_after(depth, token);
    }
    Ok(found)
}

fn is_key(token: Token<'_>, name: &str) -> bool {
    match token {
        Token::Key(key) => key == name,
        _ => false,
    }
}

// The first quotation mark at a byte or after it. Before a name there is at most a comma and white space.
fn quote_from(text: &[u8], at: usize) -> usize {
    at.saturating_add(length_up_to(piece(text, at, text.len()), b"\""))
}

/// The byte at which the value of the member begins whose name begins at a byte.
pub(crate) fn value_at(text: &[u8], member: usize) -> Option<usize> {
    let mut walk = Walk::START;
    let mut is_after = false;
    for (ahead, byte) in text.iter().skip(member).enumerate() {
        if is_after && !is_white(*byte) {
            return Some(member.saturating_add(ahead));
        }
        is_after = is_after || *byte == b':' && !walk.in_string;
        walk = walk.after(*byte);
    }
    None
}

/// The byte at which the item of a number begins in the list of the member that begins at a byte.
pub(crate) fn item_at(text: &[u8], member: usize, number: usize) -> Option<usize> {
    let mut walk = Walk::START;
    let mut passed = 0usize;
    let mut begins = false;
    for (ahead, byte) in text.iter().skip(member).enumerate() {
        if begins && !is_white(*byte) {
            return Some(member.saturating_add(ahead));
        }
        let was = walk.depth;
        walk = walk.after(*byte);
        let opens = was == 0 && walk.depth == 1;
        let passes = was == 1 && *byte == b',' && !walk.in_string;
        if passes {
            passed = passed.saturating_add(1);
        }
        if (opens || passes) && passed == number {
            begins = true;
        }
    }
    None
}
