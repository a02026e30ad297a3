//! A statement of a program as its file has it: the calls through which it is reached, and what its names refer to.
//!
//! A depth is a number of calls: the file's own statements have depth 0, those of a procedure that they call have depth 1.

use fault_texts::{Words, spot_at};
use gr_base::Memory;
use source_tokens::{Bound, Counted, Declared, Frame, Origin, Place, Procedures, Tokens};
use std::alloc::Global;

/// The most calls that are named between a place and the outermost call.
const CALLS_SHOWN: usize = 2;

/// An assignment with which a call begins: to a scalar parameter or a local of the procedure that it calls.
#[derive(Clone, Copy)]
pub(crate) struct Value {
    pub frame: Frame,
    pub target: Declared,
    pub is_local: bool,
}

/// A statement of a program without calls, as its file has it: the calls that led to it, the tokens of its own
/// expressions, and which value it is of a call, if it is one.
#[derive(Drop)]
pub(crate) struct Sight<'a> {
    pub tokens: Tokens<'a>,
    pub frames: Vec<Frame>,
    pub first: usize,
    pub end: usize,
    pub value: Option<Value>,
}

/// A name that isn't an array parameter: its token, its depth, and its declaration.
#[derive(Clone, Copy)]
pub(crate) struct Seen {
    pub at: usize,
    pub depth: usize,
    pub declared: Option<Declared>,
}

impl<'a> Sight<'a> {
    /// The statement of a number of the program without calls, if there is one.
    pub(crate) fn of(
        alloc: Global,
        procedures: &Procedures<'a>,
        number: u64,
    ) -> Result<Option<Sight<'a>>, Memory> {
        match procedures.origin(alloc, Counted::Statements, number)? {
            Some(origin) => Ok(Sight::at(procedures.tokens, origin)),
            None => Ok(None),
        }
    }

    fn at(tokens: Tokens<'a>, origin: Origin) -> Option<Sight<'a>> {
        let Origin { frames, place } = origin;
        match place {
            Place::Statement(first) => Some(Sight {
                tokens,
                frames,
                first,
                end: tokens.own_end(first),
                value: None,
            }),
            Place::Own(frame, number) => {
                let (target, argument) = tokens.own_of(frame.callee, number)?;
                let (first, end) = match argument {
                    Some(number) => tokens.argument(frame.call, number),
                    None => (frame.call, frame.call),
                };
                Some(Sight {
                    tokens,
                    frames,
                    first,
                    end,
                    value: Some(Value {
                        frame,
                        target,
                        is_local: argument.is_none(),
                    }),
                })
            }
        }
    }

    /// The depth of the statement.
    pub(crate) fn depth(&self) -> usize {
        self.frames.len()
    }

    // The call that led to a depth.
    fn frame(&self, depth: usize) -> Option<Frame> {
        self.frames.get(depth.checked_sub(1)?).copied()
    }

    /// What the name at a token refers to, at a depth.
    pub(crate) fn seen(&self, depth: usize, name: usize) -> Seen {
        let mut at = name;
        let mut depth = depth;
        for _ in 0..=self.frames.len() {
            let Some(frame) = self.frame(depth) else {
                break;
            };
            match self.tokens.bound(frame.callee, at) {
                Bound::Own(declared) => {
                    let declared = Some(declared);
                    return Seen {
                        at,
                        depth,
                        declared,
                    };
                }
                Bound::Argument(number) => {
                    at = self.tokens.argument(frame.call, number).0;
                    depth = depth.saturating_sub(1);
                }
                Bound::Nothing => {
                    return Seen {
                        at,
                        depth,
                        declared: None,
                    };
                }
            }
        }
        Seen {
            at,
            depth,
            declared: self.tokens.declaration_of(at),
        }
    }

    /// Whether the name at a token, at a depth, is declared as a secret, or as public.
    pub(crate) fn has_label(&self, depth: usize, name: usize, is_secret: bool) -> bool {
        match self.seen(depth, name).declared {
            Some(declared) => declared.is_secret == is_secret,
            None => false,
        }
    }

    /// The first secret name from a token to an end, at a depth.
    pub(crate) fn secret_name(&self, depth: usize, from: usize, end: usize) -> Option<usize> {
        for at in from..end.max(from) {
            if self.tokens.is_name(at) && self.has_label(depth, at, true) {
                return Some(at);
            }
        }
        None
    }

    /// The innermost `if` with a secret guard in whose blocks the statement is, or a call that led to it, and the depth of
    /// that `if`.
    pub(crate) fn secret_choice(&self, alloc: Global) -> Result<Option<(usize, usize)>, Memory> {
        let mut at = self.first;
        let mut depth = self.depth();
        for _ in 0..=self.frames.len() {
            let around = self.tokens.heads_around(alloc, self.body(depth), at)?;
            let mut found = None;
            for head in &around {
                let end = self.tokens.own_end(*head);
                if self.tokens.is(*head, "if") && self.secret_name(depth, *head, end).is_some() {
                    found = Some((*head, depth));
                }
            }
            if found.is_some() {
                return Ok(found);
            }
            let Some(frame) = self.frame(depth) else {
                break;
            };
            at = frame.call;
            depth = depth.saturating_sub(1);
        }
        Ok(None)
    }

    // The first token of the statements at a depth.
    fn body(&self, depth: usize) -> usize {
        match self.frame(depth) {
            Some(frame) => frame.callee.body,
            None => self.tokens.end_of_declarations(),
        }
    }

    /// Adds the place of a token at a depth, the token, a text after it, and its line.
    pub(crate) fn put(&self, depth: usize, at: usize, what: &str, out: &mut Words) {
        self.put_place(depth, at, out);
        out.quote(self.tokens.word(at));
        out.say(what);
        out.put_line(
            self.tokens.text,
            spot_at(self.tokens.text, self.tokens.start(at)),
        );
    }

    /// Adds the place of a token, and through which calls it is reached.
    pub(crate) fn put_place(&self, depth: usize, at: usize, out: &mut Words) {
        let start = out.count();
        let spot = spot_at(self.tokens.text, self.tokens.start(at));
        out.name(self.tokens.name);
        out.say(":");
        out.put_numbers(spot);
        for back in 0..depth {
            let inner = depth.saturating_sub(back);
            if back < CALLS_SHOWN || inner == 1 {
                self.put_call(inner, out);
            } else if back == CALLS_SHOWN {
                out.say(", ..");
            }
        }
        out.say(": ");
        out.mark_spot(self.tokens.name, start, spot);
    }

    // Adds the procedure at a depth, and where it is called.
    fn put_call(&self, depth: usize, out: &mut Words) {
        if let Some(frame) = self.frame(depth) {
            out.say(", in ");
            out.quote(self.tokens.word(frame.callee.name));
            out.say(", called at ");
            self.tokens.put_where(frame.call, out);
        }
    }

    /// The name in the declaration that the name at a token, at a depth, refers to.
    pub(crate) fn own_name(&self, depth: usize, name: usize) -> usize {
        match self.seen(depth, name).declared {
            Some(declared) => declared.name,
            None => name,
        }
    }

    /// Adds what the name at a token refers to, if it is an array parameter.
    pub(crate) fn put_alias(&self, depth: usize, name: usize, out: &mut Words) {
        let seen = self.seen(depth, name);
        if seen.at == name {
            return;
        }
        if let Some(declared) = seen.declared {
            out.say("Here ");
            self.tokens.cite(name, " is another name of ", out);
            self.tokens.cite(declared.name, ", declared at ", out);
            self.tokens.put_where(declared.name, out);
            out.line(".");
        }
    }
}
