//! Why a program is too large, and where: at the branch on a secret that is nested in the most others.

use crate::heads::Bound;
use crate::procedures::{Procedure, Procedures};
use fault_texts::{Words, spot_at};
use gr_base::Memory;
use std::alloc::Global;

/// A branch on a secret, and how many others it is nested in.
#[derive(Clone, Copy)]
struct Nested {
    head: usize,
    outside: u64,
}

impl Procedures<'_> {
    /// Says that a program is too large, and at which statement.
    pub fn put_weight(&self, alloc: Global, weight: u64, out: &mut Words) -> Result<(), Memory> {
        let tokens = self.tokens;
        let deepest = self.deepest(alloc)?;
        let spot = spot_at(tokens.text, tokens.start(deepest.head));
        out.put_place(tokens.name, spot);
        out.fill(
            "the program is too large: its weight is {}, and at most 8192 is allowed",
            &[weight],
        );
        out.put_line(tokens.text, spot);
        if deepest.outside > 0 {
            out.say("This `if` is nested in ");
            out.counted(deepest.outside, "other");
            out.line(
                " on secrets, and each of them counts its contents twice. Write one `if` after another instead, \
                `if (x == 1) { .. } if (x == 2) { .. }`.",
            );
        }
        out.line("Use a loop for repeated statements.");
        Ok(())
    }

    // The branch on a secret that is nested in the most others, or the first statement of the file if nothing is nested.
    fn deepest(&self, alloc: Global) -> Result<Nested, Memory> {
        let mut deepest = Nested {
            head: self.main,
            outside: 0,
        };
        for procedure in &self.all {
            deepest = self.deeper(
                alloc,
                deepest,
                Some(*procedure),
                (procedure.body, procedure.end),
            )?;
        }
        self.deeper(alloc, deepest, None, (self.main, self.tokens.all.len()))
    }

    // The same among statements of a procedure or of the file, from a token to an end, beside the deepest one so far.
    fn deeper(
        &self,
        alloc: Global,
        deepest: Nested,
        procedure: Option<Procedure>,
        reach: (usize, usize),
    ) -> Result<Nested, Memory> {
        let (from, end) = reach;
        let tokens = self.tokens;
        let mut deepest = deepest;
        let mut open: Vec<bool> = Vec::new(alloc);
        let mut closed = false;
        let mut outside = 0u64;
        for at in from..end.max(from) {
            if tokens.is(at, "{") {
                let head = tokens.first_of(at);
                let is_second = tokens.before(at) == b"else".as_slice();
                let is_secret = if is_second {
                    closed
                } else {
                    self.is_secret_branch(head, at, procedure)
                };
                if is_secret {
                    if outside > deepest.outside {
                        deepest = Nested { head, outside };
                    }
                    outside = outside.saturating_add(1);
                }
                open.push(is_secret)?;
            } else if tokens.is(at, "}") {
                closed = open.pop().unwrap_or(false);
                outside = outside.saturating_sub(u64::from(closed));
            }
        }
        Ok(deepest)
    }

    // Whether an `if` is at a token whose condition, up to an end, names a secret.
    fn is_secret_branch(&self, head: usize, end: usize, procedure: Option<Procedure>) -> bool {
        let tokens = self.tokens;
        if !tokens.is(head, "if") {
            return false;
        }
        for at in head..end.max(head) {
            if tokens.is_name(at) && self.is_secret(at, procedure) {
                return true;
            }
        }
        false
    }

    // Whether the name at a token is secret in a procedure, or in the file. An array parameter may be.
    fn is_secret(&self, name: usize, procedure: Option<Procedure>) -> bool {
        let declared = match procedure {
            None => self.tokens.declaration_of(name),
            Some(procedure) => match self.tokens.bound(procedure, name) {
                Bound::Own(declared) => Some(declared),
                Bound::Argument(_) => return true,
                Bound::Nothing => None,
            },
        };
        match declared {
            Some(declared) => declared.is_secret,
            None => false,
        }
    }
}
