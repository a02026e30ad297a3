//! Why a program isn't well typed, or which limit it passes.

use crate::limits::of_limit;
use crate::sight::{Seen, Sight, Value};
use fault_texts::{Nearest, Words, is_word_of, length_up_to, piece, spot_at};
use flow_types::{TypeError, Which};
use gr_base::Memory;
use source_tokens::{Counted, Place, Procedures, Tokens};
use std::alloc::Global;

/// The most bytes of a guard that are shown.
const GUARD_SHOWN: usize = 60;

/// The most variables of a program.
const MOST_VARIABLES: u64 = 256;

/// Explains why the program of a file isn't well typed, or which limit it passes.
pub(crate) fn explain_typing(alloc: Global, tokens: Tokens<'_>, fault: TypeError, out: &mut Words) {
    let put = explain_fault(alloc, tokens, fault, out);
    out.starve_on(put);
}

fn explain_fault(
    alloc: Global,
    tokens: Tokens<'_>,
    fault: TypeError,
    out: &mut Words,
) -> Result<(), Memory> {
    let procedures = Procedures::of(alloc, tokens)?;
    let number = match fault {
        TypeError::TwiceDeclared(number) => {
            put_twice(tokens, u64::from(number), out);
            return Ok(());
        }
        TypeError::Limit(limit, number) => {
            return explain_limit(alloc, &procedures, limit, number, out);
        }
        TypeError::Memory => return Err(Memory),
        TypeError::Undeclared(number) => number,
        TypeError::WrongShape(number) => number,
        TypeError::FlowToPublic(number) => number,
        TypeError::SecretIndexOfPublic(number) => number,
        TypeError::SecretGuardOfLoop(number) => number,
        TypeError::LoopInSecret(number) => number,
    };
    if let Some(sight) = Sight::of(alloc, &procedures, u64::from(number))? {
        sight.explain(alloc, fault, out);
    }
    Ok(())
}

// A declaration of a name that is declared before it.
fn put_twice(tokens: Tokens<'_>, number: u64, out: &mut Words) {
    let at = tokens.declared_name(number);
    tokens.put(at, " is declared twice", out);
    if let Some(earlier) = tokens.declaration_of(at) {
        let line = spot_at(tokens.text, tokens.start(earlier.name)).line;
        out.fill(
            "It is first declared in line {}: give one of them another name.\n",
            &[line as u64],
        );
    }
}

// The declared name that is nearest to the name at a token, if one is near.
fn nearest_declared<'a>(
    alloc: Global,
    tokens: Tokens<'a>,
    at: usize,
) -> Result<Option<&'a [u8]>, Memory> {
    let mut nearest = Nearest::to(alloc, tokens.word(at))?;
    for number in 0..MOST_VARIABLES {
        let Some(declared) = tokens.declaration(number) else {
            break;
        };
        nearest.compare(alloc, tokens.word(declared.name))?;
    }
    Ok(nearest.found())
}

// Says that a name is not declared, and how it is declared. `end` ends the declaration.
fn put_undeclared(alloc: Global, tokens: Tokens<'_>, at: usize, end: &str, out: &mut Words) {
    tokens.put(at, " is not declared", out);
    if is_word_of(
        "true false TRUE FALSE True False NULL null nil None",
        tokens.word(at),
    ) {
        return out.line("There are only integers: write 1 for true, and 0 for false or nothing.");
    }
    match nearest_declared(alloc, tokens, at) {
        Ok(Some(nearest)) => {
            out.say("Did you mean `");
            out.quote(nearest);
            out.say("`? Otherwise declare");
        }
        Ok(None) => out.say("Declare"),
        Err(_) => return out.starve(),
    }
    out.say(" it at the beginning of the file: `public int ");
    tokens.tell(at, end, out);
    out.say(" or `secret int ");
    tokens.tell(at, end, out);
    out.line(".");
}

impl Sight<'_> {
    // Explains a fault of the statement.
    fn explain(&self, alloc: Global, fault: TypeError, out: &mut Words) {
        match fault {
            TypeError::Undeclared(_) => self.misnamed(alloc, out),
            TypeError::WrongShape(_) => self.misnamed(alloc, out),
            TypeError::FlowToPublic(_) => match self.value {
                None => self.flow(alloc, out),
                Some(value) if value.is_local => self.flow_to_local(alloc, value, out),
                Some(value) => self.flow_to_parameter(alloc, value, out),
            },
            TypeError::SecretIndexOfPublic(_) => self.index(out),
            TypeError::SecretGuardOfLoop(_) => self.guard(out),
            TypeError::LoopInSecret(_) => self.loop_in_secret(alloc, out),
            TypeError::TwiceDeclared(_) | TypeError::Limit(_, _) | TypeError::Memory => {}
        }
    }

    // The first name of the statement that is not declared, or is used with an index or without one against its declaration.
    fn misnamed(&self, alloc: Global, out: &mut Words) {
        for at in self.first..self.end.max(self.first) {
            if self.tokens.is_name(at) && self.is_misnamed(alloc, at, out) {
                break;
            }
        }
    }

    fn is_misnamed(&self, alloc: Global, at: usize, out: &mut Words) -> bool {
        let has_index = self.tokens.is(at.saturating_add(1), "[");
        let seen = self.seen(self.depth(), at);
        let Some(declared) = seen.declared else {
            let end = if has_index { "[32];`" } else { ";`" };
            put_undeclared(alloc, self.tokens, seen.at, end, out);
            return true;
        };
        if declared.is_array && !has_index {
            self.put(self.depth(), at, " is an array, but has no index", out);
            self.put_alias(self.depth(), at, out);
            out.line(
                "Name one of its words, as in `a[i]`. A loop copies an array: `while (i < 9) { a[i] = b[i]; i = i + 1; \
                }`.",
            );
            return true;
        }
        if has_index && !declared.is_array {
            self.put(self.depth(), at, " is a scalar, but has an index", out);
            self.put_alias(self.depth(), at, out);
            out.line(if seen.at == at {
                "Remove the index, or declare it as an array."
            } else {
                "Pass an array in its place, or remove the index."
            });
            return true;
        }
        false
    }

    // An assignment of a secret, or from within secret code, to what is public.
    fn flow(&self, alloc: Global, out: &mut Words) {
        let depth = self.depth();
        self.put_place(depth, self.first, out);
        out.say("secret value flows into public variable ");
        out.quote_word(self.tokens.word(self.first));
        self.put_line_of(self.first, out);
        self.put_alias(depth, self.first, out);
        let target = self.own_name(depth, self.first);
        match self.secret_name(depth, self.first.saturating_add(1), self.end) {
            Some(at) => {
                self.tokens.cite(at, " is secret: declare ", out);
                self.tokens
                    .cite(target, " secret too, or assign a public value.\n", out);
            }
            None => {
                self.put_branch(alloc, out);
                out.say(", so the assignment would reveal which arm runs. ");
                if self.tokens.controls_loop(self.first) {
                    return self.tokens.put_loop_outside(self.first, out);
                }
                out.say("Declare ");
                self.tokens
                    .cite(target, " secret too, or assign outside the `if`.\n", out);
            }
        }
    }

    // A secret argument of a public parameter, or a call with a public parameter in secret code.
    fn flow_to_parameter(&self, alloc: Global, value: Value, out: &mut Words) {
        let depth = self.depth();
        let secret = self.secret_name(depth, self.first, self.end);
        self.put_place(depth, secret.unwrap_or(self.first), out);
        out.say("argument ");
        self.tokens.tell(value.target.name, " of ", out);
        self.tokens
            .tell(value.frame.callee.name, " is public, ", out);
        match secret {
            Some(at) => {
                self.tokens.tell(at, " is secret", out);
                self.put_line_of(at, out);
                self.put_alias(depth, at, out);
                out.say("Declare the parameter secret, at ");
                self.tokens.put_where(value.target.name, out);
                out.line(", or pass a public value.");
            }
            None => {
                out.say("but the call is in a branch on a secret");
                self.put_own_choice(alloc, value, "parameter", out);
            }
        }
    }

    // A call in secret code of a procedure with a public local.
    fn flow_to_local(&self, alloc: Global, value: Value, out: &mut Words) {
        self.put_place(self.depth(), self.first, out);
        out.say("local ");
        self.tokens.tell(value.target.name, " of ", out);
        self.tokens.tell(
            value.frame.callee.name,
            " is public, but the call is in a branch on a secret",
            out,
        );
        self.put_own_choice(alloc, value, "local", out);
    }

    // Why a call in a branch on a secret can't have a public parameter or local, and how to fix it.
    fn put_own_choice(&self, alloc: Global, value: Value, kind: &str, out: &mut Words) {
        self.put_line_of(self.first, out);
        self.put_branch(alloc, out);
        out.say(", so the ");
        out.say(kind);
        out.say(" would reveal which arm runs. ");
        if self.tokens.controls_loop(value.target.name) {
            out.say("Call outside the `if`. ");
            return self.tokens.put_loop_outside(value.target.name, out);
        }
        out.say("Declare it secret, at ");
        self.tokens.put_where(value.target.name, out);
        out.line(", or call outside the `if`.");
    }

    fn put_line_of(&self, at: usize, out: &mut Words) {
        let Tokens { text, .. } = self.tokens;
        out.put_line(text, spot_at(text, self.tokens.start(at)));
    }

    // The condition of the branch on a secret in which the statement is, and that it is secret.
    fn put_branch(&self, alloc: Global, out: &mut Words) {
        match self.secret_choice(alloc) {
            Ok(Some((head, _))) => {
                let Tokens { text, .. } = self.tokens;
                let from = self.tokens.start(head.saturating_add(2));
                let up_to = self
                    .tokens
                    .start(self.tokens.own_end(head).saturating_sub(1));
                let guard = piece(text, from, up_to.saturating_sub(from));
                out.say("The condition `");
                out.quote(piece(guard, 0, length_up_to(guard, b"\r\n").min(GUARD_SHOWN)));
                out.say("` at ");
                out.put_numbers(spot_at(text, from));
                out.say(" is secret");
            }
            Ok(None) => out.say("It is in a branch on a secret"),
            Err(_) => out.starve(),
        }
    }

    // A secret index of a public array.
    fn index(&self, out: &mut Words) {
        let depth = self.depth();
        for at in self.first..self.end.max(self.first) {
            if let Some(secret) = self.secret_index(at) {
                self.put(
                    depth,
                    at,
                    " is a public array with a secret index, which its accesses would reveal",
                    out,
                );
                self.put_alias(depth, at, out);
                self.tokens.cite(
                    secret,
                    " is secret: declare the array secret too, or use a public index.\n",
                    out,
                );
                break;
            }
        }
    }

    // The first secret name in the index of a public array.
    fn secret_index(&self, at: usize) -> Option<usize> {
        let open = at.saturating_add(1);
        if !self.tokens.is_name(at)
            || !self.tokens.is(open, "[")
            || !self.has_label(self.depth(), at, false)
        {
            return None;
        }
        self.secret_name(self.depth(), open, self.tokens.closing(open).min(self.end))
    }

    // A loop whose guard depends on a secret.
    fn guard(&self, out: &mut Words) {
        let depth = self.depth();
        let at = self
            .secret_name(depth, self.first, self.end)
            .unwrap_or(self.first);
        self.put_place(depth, at, out);
        out.say("the loop condition depends on secret ");
        out.quote_word(self.tokens.word(at));
        out.say(", so the number of iterations would leak");
        self.put_line_of(at, out);
        self.put_alias(depth, at, out);
        out.line(
            "Loop up to a public bound and test inside: `while (i < 100) { if (i < s) { .. } i = i + 1; }`.",
        );
    }

    // A loop in secret code.
    fn loop_in_secret(&self, alloc: Global, out: &mut Words) {
        self.put_place(self.depth(), self.first, out);
        out.say("this loop is in a branch on a secret, so its iterations would leak");
        self.put_line_of(self.first, out);
        self.put_branch(alloc, out);
        out.line(". Put the `if` into the loop: `while (i < 9) { if (s > 0) { .. } i = i + 1; }`.");
    }
}

fn explain_limit(
    alloc: Global,
    procedures: &Procedures<'_>,
    limit: Which,
    number: u64,
    out: &mut Words,
) -> Result<(), Memory> {
    let tokens = procedures.tokens;
    match limit {
        Which::Variables => return put_variable_too_many(alloc, procedures, out),
        Which::ArrayLength => tokens.put(
            tokens.declared_name(number),
            " has a length that isn't allowed",
            out,
        ),
        Which::TotalWords => tokens.put(
            tokens.declared_name(number),
            " exceeds the limit on the words of all variables",
            out,
        ),
        Which::Height => {
            if let Some(sight) = Sight::of(alloc, procedures, number)? {
                sight.put(
                    sight.depth(),
                    sight.first,
                    ": this statement has an expression that is nested too deeply",
                    out,
                );
            }
        }
        Which::Weight => return procedures.put_weight(alloc, number, out),
    }
    out.line(of_limit(limit));
    Ok(())
}

// The declaration of one variable too many, or the call that adds it.
fn put_variable_too_many(
    alloc: Global,
    procedures: &Procedures<'_>,
    out: &mut Words,
) -> Result<(), Memory> {
    let tokens = procedures.tokens;
    let own = tokens.count_declarations();
    if own > MOST_VARIABLES {
        tokens.put(
            tokens.declared_name(MOST_VARIABLES),
            " is one variable too many",
            out,
        );
        out.line(of_limit(Which::Variables));
        return Ok(());
    }
    let added = MOST_VARIABLES - own;
    if let Some(origin) = procedures.origin(alloc, Counted::Variables, added)?
        && let Place::Own(frame, _) = origin.place
    {
        tokens.put(
            frame.call,
            " adds one variable too many: each call adds a variable for each scalar parameter and local",
            out,
        );
        out.line(
            "A program has at most 256 variables: pass the values in an array, or call the procedure in a loop.",
        );
    }
    Ok(())
}
