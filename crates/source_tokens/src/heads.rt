//! The heads of procedures among tokens, their parameters and locals, and the arguments of calls.

use crate::procedures::{Procedure, Size};
use crate::statements::Declared;
use crate::tokens::Tokens;

/// A parameter of a procedure, or a local: its name, what it declares, and the token after it.
#[derive(Clone, Copy)]
pub struct Own {
    pub declared: Declared,
    pub next: usize,
}

/// What a name is in a procedure.
#[derive(Clone, Copy)]
pub enum Bound {
    /// A scalar parameter or a local.
    Own(Declared),
    /// The array parameter of a number: another name of what the caller names in that argument.
    Argument(usize),
    /// Not one of its parameters and locals.
    Nothing,
}

impl Tokens<'_> {
    /// Whether a procedure begins at a token.
    pub fn begins_procedure(&self, at: usize) -> bool {
        self.is(at, "proc")
            && self.is_name(at.saturating_add(1))
            && self.is(at.saturating_add(2), "(")
    }

    /// The procedure that begins at a token. What a call of it is replaced by isn't known yet.
    pub fn procedure_at(&self, at: usize) -> Procedure {
        let open = at.saturating_add(2);
        let params = open.saturating_add(1);
        let close = self.closing(open);
        let locals = close.saturating_add(2);
        let body = self.end_of_declarations_from(locals);
        let end = self.closing(close.saturating_add(1));
        let scalars = self.scalars(params, close);
        Procedure {
            name: at.saturating_add(1),
            params,
            close,
            locals,
            body,
            end,
            own: scalars.saturating_add(self.locals(locals, body)),
            size: Size::NONE,
        }
    }

    // How many scalars are among the parameters from a token to an end.
    fn scalars(&self, from: usize, close: usize) -> u64 {
        let mut at = from;
        let mut count = 0u64;
        for _ in from..close.max(from) {
            if at >= close {
                break;
            }
            let param = self.param_at(at);
            if !param.declared.is_array {
                count = count.saturating_add(1);
            }
            at = param.next;
        }
        count
    }

    // How many locals are declared from a token to an end.
    fn locals(&self, from: usize, end: usize) -> u64 {
        let mut at = from;
        let mut count = 0u64;
        for _ in from..end.max(from) {
            if at >= end {
                break;
            }
            at = self.local_at(at).next;
            count = count.saturating_add(1);
        }
        count
    }

    /// The parameter that begins at a token.
    pub fn param_at(&self, at: usize) -> Own {
        let is_array = self.is(at, "int");
        let name = at.saturating_add(if is_array { 1 } else { 2 });
        Own {
            declared: Declared {
                name,
                is_secret: self.is(at, "secret"),
                is_array,
            },
            next: name.saturating_add(if is_array { 4 } else { 2 }),
        }
    }

    /// The local that begins at a token.
    pub fn local_at(&self, at: usize) -> Own {
        Own {
            declared: Declared {
                name: at.saturating_add(2),
                is_secret: self.is(at, "secret"),
                is_array: false,
            },
            next: at.saturating_add(4),
        }
    }

    /// What the name at a token is in a procedure.
    pub fn bound(&self, p: Procedure, name: usize) -> Bound {
        let mut at = p.params;
        for number in 0..p.close.saturating_sub(p.params) {
            if at >= p.close {
                break;
            }
            let Own { declared, next } = self.param_at(at);
            if self.word(declared.name) == self.word(name) {
                return if declared.is_array {
                    Bound::Argument(number)
                } else {
                    Bound::Own(declared)
                };
            }
            at = next;
        }
        match self.local_of(p, name) {
            Some(declared) => Bound::Own(declared),
            None => Bound::Nothing,
        }
    }

    // The local of a procedure that has the name at a token.
    fn local_of(&self, p: Procedure, name: usize) -> Option<Declared> {
        let mut at = p.locals;
        for _ in p.locals..p.body.max(p.locals) {
            if at >= p.body {
                break;
            }
            let Own { declared, next } = self.local_at(at);
            if self.word(declared.name) == self.word(name) {
                return Some(declared);
            }
            at = next;
        }
        None
    }

    /// The scalar parameter or the local of a number, in the order in which a call assigns to them, and the number of its
    /// argument if it is a parameter.
    pub fn own_of(&self, p: Procedure, number: u64) -> Option<(Declared, Option<usize>)> {
        let mut at = p.params;
        let mut left = number;
        for place in 0..p.close.saturating_sub(p.params) {
            if at >= p.close {
                break;
            }
            let Own { declared, next } = self.param_at(at);
            if !declared.is_array {
                if left == 0 {
                    return Some((declared, Some(place)));
                }
                left -= 1;
            }
            at = next;
        }
        let local = p.locals as u64;
        let at = local
            .saturating_add(left.saturating_mul(4))
            .min(p.body as u64) as usize;
        if at >= p.body {
            return None;
        }
        Some((self.local_at(at).declared, None))
    }

    /// How many parameters a procedure has.
    pub fn count_params(&self, p: Procedure) -> u64 {
        let mut at = p.params;
        let mut count = 0u64;
        for _ in p.params..p.close.max(p.params) {
            if at >= p.close {
                break;
            }
            at = self.param_at(at).next;
            count = count.saturating_add(1);
        }
        count
    }

    /// The first token of the argument of a number of the call at a token, and the sign after the argument.
    pub fn argument(&self, call: usize, number: usize) -> (usize, usize) {
        let open = call.saturating_add(1);
        let close = self.closing(open);
        let mut first = open.saturating_add(1);
        let mut left = number;
        for at in first..close.max(first) {
            if self.is(at, ";") {
                if left == 0 {
                    return (first, at);
                }
                left -= 1;
                first = at.saturating_add(1);
            }
        }
        (first, close)
    }

    /// How many arguments the call at a token has.
    pub fn count_arguments(&self, call: usize) -> u64 {
        let open = call.saturating_add(1);
        let close = self.closing(open);
        if close == open.saturating_add(1) {
            return 0;
        }
        let mut count = 1u64;
        for at in open..close.max(open) {
            if self.is(at, ";") {
                count = count.saturating_add(1);
            }
        }
        count
    }
}
