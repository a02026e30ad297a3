//! Why the calls of a file with procedures can't be replaced.

use fault_texts::{Nearest, Words, is_word_of, length_up_to, piece, spot_at};
use gr_base::Memory;
use procs_tree::InlineError;
use source_tokens::hints::{OUTPUT, PRINTING};
use source_tokens::{Procedure, Procedures, Tokens};
use std::alloc::Global;
use std::collections::BTreeMap;

/// The most bytes of a procedure's head that are shown.
const HEAD_SHOWN: usize = 80;

/// Explains why the calls of a file can't be replaced.
pub(crate) fn explain_calls_fault(
    alloc: Global,
    tokens: Tokens<'_>,
    fault: InlineError,
    out: &mut Words,
) {
    let put = explain_fault(alloc, tokens, fault, out);
    out.starve_on(put);
}

fn explain_fault(
    alloc: Global,
    tokens: Tokens<'_>,
    fault: InlineError,
    out: &mut Words,
) -> Result<(), Memory> {
    let procedures = Procedures::of(alloc, tokens)?;
    match fault {
        InlineError::TwiceNamed(number) => {
            return put_twice_named(alloc, &procedures, number, out);
        }
        InlineError::Undeclared(number) => return put_unbound(alloc, &procedures, number, out),
        InlineError::NoProcedure(number) => {
            return put_no_procedure(alloc, &procedures, tokens.named(number, false), out);
        }
        InlineError::WrongCount(number) => {
            put_wrong_count(&procedures, tokens.named(number, false), out)
        }
        InlineError::NotAnArray(number) => {
            put_not_a_name(&procedures, tokens.named(number, false), out)
        }
        InlineError::TooLarge => {
            out.name(tokens.name);
            out.line(": with its calls replaced, the program has more than 8,192 statements");
            out.line(
                "Each call counts as an assignment to each scalar parameter and local, plus the statements of its \
                procedure: call it in a loop.",
            );
        }
        InlineError::Memory => return Err(Memory),
    }
    Ok(())
}

// The procedure of a number, from 0.
fn numbered(procedures: &Procedures<'_>, number: u32) -> Option<Procedure> {
    procedures.all.get(number as usize).copied()
}

// The procedure in whose statements a token is.
fn around(procedures: &Procedures<'_>, at: usize) -> Option<Procedure> {
    for procedure in &procedures.all {
        if procedure.name < at && at < procedure.end {
            return Some(*procedure);
        }
    }
    None
}

// A procedure with the name of an earlier one, or with one name for two of its parameters and locals.
fn put_twice_named(
    alloc: Global,
    procedures: &Procedures<'_>,
    number: u32,
    out: &mut Words,
) -> Result<(), Memory> {
    let tokens = procedures.tokens;
    let Some(procedure) = numbered(procedures, number) else {
        return Ok(());
    };
    let (first, second) = match earlier_of(procedures, procedure) {
        Some(earlier) => (Some(earlier.name), procedure.name),
        None => match own_names(alloc, tokens, procedure)? {
            (_, Some((first, second))) => (Some(first), second),
            (_, None) => (None, procedure.name),
        },
    };
    tokens.put(
        second,
        if second == procedure.name {
            " is also the name of an earlier procedure"
        } else {
            " is declared twice in the procedure"
        },
        out,
    );
    if let Some(first) = first {
        out.say("It is first declared at ");
        tokens.put_where(first, out);
        out.line(": give one of them another name.");
    }
    Ok(())
}

// The first procedure before another that has its name.
fn earlier_of(procedures: &Procedures<'_>, procedure: Procedure) -> Option<Procedure> {
    let tokens = procedures.tokens;
    for earlier in &procedures.all {
        if earlier.name >= procedure.name {
            break;
        }
        if tokens.word(earlier.name) == tokens.word(procedure.name) {
            return Some(*earlier);
        }
    }
    None
}

// A name in a procedure that isn't one of its parameters and locals.
fn put_unbound(
    alloc: Global,
    procedures: &Procedures<'_>,
    number: u32,
    out: &mut Words,
) -> Result<(), Memory> {
    let tokens = procedures.tokens;
    let Some(procedure) = numbered(procedures, number) else {
        return Ok(());
    };
    let Some(at) = unbound_name(alloc, tokens, procedure)? else {
        return Ok(());
    };
    let Some(own) = tokens.declaration_of(at) else {
        tokens.put(at, " isn't a parameter or local of the procedure", out);
        return put_near_own(alloc, tokens, procedure, at, out);
    };
    tokens.put(
        at,
        " is a variable of the file: a procedure can only access its parameters and locals",
        out,
    );
    out.say("Give ");
    tokens.tell(procedure.name, " the parameter `int ", out);
    tokens.tell(at, "[]`, and pass it: `", out);
    let is_only = procedure.params == procedure.close;
    tokens.tell(procedure.name, if is_only { "(" } else { "(..; " }, out);
    tokens.tell(
        own.name,
        if own.is_array {
            ");`."
        } else {
            ");`. In the procedure, use the parameter without an index."
        },
        out,
    );
    out.line("");
    Ok(())
}

// A call of no procedure that is declared before it.
fn put_no_procedure(
    alloc: Global,
    procedures: &Procedures<'_>,
    at: usize,
    out: &mut Words,
) -> Result<(), Memory> {
    let tokens = procedures.tokens;
    let caller = around(procedures, at);
    let Some(called) = procedures.called(at) else {
        tokens.put(
            at,
            ": there is no procedure of this name before the call",
            out,
        );
        return put_near_procedure(alloc, tokens, at, out);
    };
    let Some(caller) = caller else {
        return Ok(());
    };
    if called.name == caller.name {
        tokens.put(
            at,
            " calls itself, but a procedure can only call earlier ones",
            out,
        );
        out.line("There is no recursion: write a loop, and keep pending values in an array.");
        return Ok(());
    }
    tokens.put(
        at,
        " is declared after this call, but a procedure can only call earlier ones",
        out,
    );
    out.say("Move the procedure at ");
    tokens.put_where(called.name, out);
    out.say(" before the one at ");
    tokens.put_where(caller.name, out);
    out.line("; two procedures can't call each other.");
    Ok(())
}

// A call with another number of arguments than its procedure has parameters.
fn put_wrong_count(procedures: &Procedures<'_>, at: usize, out: &mut Words) {
    let tokens = procedures.tokens;
    let Some(called) = procedures.called(at) else {
        return;
    };
    let wanted = tokens.count_params(called);
    let given = tokens.count_arguments(at);
    out.put_place(tokens.name, spot_at(tokens.text, tokens.start(at)));
    tokens.tell(at, " takes ", out);
    put_count(wanted, out);
    out.fill(", but {} ", &[given]);
    out.say(if given == 1 { "is given" } else { "are given" });
    out.put_line(tokens.text, spot_at(tokens.text, tokens.start(at)));
    put_head(tokens, called, out);
}

// An argument of an array parameter that isn't a bare name.
fn put_not_a_name(procedures: &Procedures<'_>, at: usize, out: &mut Words) {
    let tokens = procedures.tokens;
    let Some(called) = procedures.called(at) else {
        return;
    };
    let mut next = called.params;
    for number in 0..tokens.all.len() {
        if next >= called.close {
            break;
        }
        let param = tokens.param_at(next);
        let (first, end) = tokens.argument(at, number);
        let is_bare = tokens.is_name(first) && end == first.saturating_add(1);
        if param.declared.is_array && !is_bare {
            out.put_place(tokens.name, spot_at(tokens.text, tokens.start(first)));
            out.say("argument ");
            tokens.tell(param.declared.name, "[] of ", out);
            tokens.tell(at, " is an array, which is passed by its name only", out);
            out.put_line(tokens.text, spot_at(tokens.text, tokens.start(first)));
            return put_head(tokens, called, out);
        }
        next = param.next;
    }
}

// A number of arguments.
fn put_count(count: u64, out: &mut Words) {
    match count {
        0 => out.say("no arguments"),
        1 => out.say("1 argument"),
        _ => out.fill("{} arguments", &[count]),
    }
}

// The head of a procedure, and where it is.
fn put_head(tokens: Tokens<'_>, called: Procedure, out: &mut Words) {
    let from = tokens.start(called.name);
    let up_to = tokens.start(called.close).saturating_add(1);
    let head = piece(tokens.text, from, up_to.saturating_sub(from));
    let shown = length_up_to(head, b"\r\n").min(HEAD_SHOWN);
    out.say("The procedure at ");
    tokens.put_where(called.name, out);
    out.say(" is `");
    out.quote(piece(head, 0, shown));
    out.line(if shown < head.len() {
        " ..`. Arguments are separated by `;`."
    } else {
        "`. Arguments are separated by `;`."
    });
}

// What a call of no procedure may mean.
fn put_near_procedure(
    alloc: Global,
    tokens: Tokens<'_>,
    at: usize,
    out: &mut Words,
) -> Result<(), Memory> {
    if is_word_of(PRINTING, tokens.word(at)) {
        out.line(OUTPUT);
        return Ok(());
    }
    match tokens.nearest_procedure(alloc, at)? {
        Some(nearest) => out.suggest(nearest),
        None => out.line(
            "Declare it before the statements: `proc f(secret int p; int a[]) { .. }`.",
        ),
    }
    Ok(())
}

// The parameter or local of a procedure that is nearest to a name, or how one is declared.
fn put_near_own(
    alloc: Global,
    tokens: Tokens<'_>,
    procedure: Procedure,
    at: usize,
    out: &mut Words,
) -> Result<(), Memory> {
    let mut nearest = Nearest::to(alloc, tokens.word(at))?;
    for own in procedure.params..procedure.body.max(procedure.params) {
        if tokens.is_name(own) {
            nearest.compare(alloc, tokens.word(own))?;
        }
    }
    match nearest.found() {
        Some(known) => out.suggest(known),
        None => {
            out.say(
                "Declare it as a parameter, or as a local at the beginning of the procedure: `secret int ",
            );
            tokens.tell(at, ";`.", out);
            out.line("");
        }
    }
    Ok(())
}

// The parameters and locals of a procedure by their names, and the first two that have one name.
fn own_names<'a>(
    alloc: Global,
    tokens: Tokens<'a>,
    procedure: Procedure,
) -> Result<(BTreeMap<&'a [u8], usize>, Option<(usize, usize)>), Memory> {
    let mut names: BTreeMap<&'a [u8], usize> = BTreeMap::new(alloc);
    for at in procedure.params..procedure.body.max(procedure.params) {
        if !tokens.is_name(at) {
            continue;
        }
        if let Some(first) = names.get(&tokens.word(at)).copied() {
            return Ok((names, Some((first, at))));
        }
        if names.insert(tokens.word(at), at).is_err() {
            return Err(Memory);
        }
    }
    Ok((names, None))
}

// The first name in a procedure's statements that isn't one of its parameters and locals.
fn unbound_name(
    alloc: Global,
    tokens: Tokens<'_>,
    procedure: Procedure,
) -> Result<Option<usize>, Memory> {
    let (names, _) = own_names(alloc, tokens, procedure)?;
    for at in procedure.body..procedure.end.max(procedure.body) {
        let is_called = tokens.is_call(at) && tokens.is_head(at);
        if tokens.is_name(at) && !is_called && names.get(&tokens.word(at)).is_none() {
            return Ok(Some(at));
        }
    }
    Ok(None)
}
