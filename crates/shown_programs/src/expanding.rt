//! The program without calls that a file with procedures is, as people read it.

ghost use Rattle.std.specs.Prelude.{IfOk};
ghost use Rattle.src_tree.specs.Prelude.{DeclaredOnce};
ghost use Rattle.shown_programs.specs.ShownNames.{AreShown};

use crate::shown_names::{number_in, shown_names};
use gr_base::Memory;
use gr_word::Name;
use procs_tree::is_hidden;
use source_tokens::{SOURCE_BYTES, Tokens, tokens_of};
use src_tree::{Decl, Program, print};
use std::alloc::Global;

/// The spaces before a line for each block around it.
const INDENT: usize = 4;

/// A program without calls as people read it: its text, and the names of its variables in the text, in the order of
/// declaration.
#[derive(Drop)]
pub struct WithoutCalls {
    pub text: String,
    pub names: Vec<Name>,
}

/// A file with procedures as a program without calls, in the usual layout. Variables of the file keep their names. A
/// variable that a call adds is named after its procedure and its parameter or local, as `max_k`, with a number if that
/// name is taken. `text` is the file's text, and `program` the program that the file was read as.
pub fn without_calls(alloc: Global, text: &[u8], program: &Program) -> Result<WithoutCalls, Memory>
    ensures { DeclaredOnce program.now.decls.items
        → IfOk result (λ made. AreShown program.now.decls.items made.names.items) }
{
    let all = tokens_of(alloc, text)?;
    let all = all.as_slice();
    let names = shown_names(
        alloc,
        Tokens {
            name: "",
            text,
            all,
        },
        &program.decls,
    )?;
    let text = laid_out(alloc, &print(alloc, program)?, &program.decls, &names)?;
    Ok(WithoutCalls { text, names })
}

// A program's text in the usual layout, with these names of its variables. A text that is too long for a source with
// spaces at the beginning of its lines has none.
fn laid_out(alloc: Global, text: &[u8], decls: &[Decl], names: &[Name]) -> Result<String, Memory> {
    if text.len() > SOURCE_BYTES {
        let mut out = String::new(alloc);
        push_ascii(text, &mut out)?;
        return Ok(out);
    }
    let all = tokens_of(alloc, text)?;
    let tokens = Tokens {
        name: "",
        text,
        all: all.as_slice(),
    };
    let added = added_names(decls, names);
    let indented = in_lines(alloc, tokens, added, INDENT)?;
    if indented.len() <= SOURCE_BYTES {
        return Ok(indented);
    }
    in_lines(alloc, tokens, added, 0)
}

// The names of the variables that calls add, which are declared after all others.
fn added_names<'a>(decls: &[Decl], names: &'a [Name]) -> &'a [Name] {
    let mut own = 0usize;
    for decl in decls {
        if !is_hidden(decl.name.bytes()) {
            own = own.saturating_add(1);
        }
    }
    names.split_at(own.min(names.len())).1
}

// The tokens of a printed program, a statement a line, with the names of added variables, and without blocks `else { }`.
fn in_lines(
    alloc: Global,
    tokens: Tokens<'_>,
    added: &[Name],
    indent: usize,
) -> Result<String, Memory> {
    let mut out = String::new(alloc);
    let mut depth = 0usize;
    let mut at = 0usize;
    for _ in 0..tokens.all.len() {
        if tokens.is(at, "else") && tokens.is(at.saturating_add(2), "}") {
            at = at.saturating_add(3);
        }
        if tokens.is(at, "}") {
            depth = depth.saturating_sub(1);
        }
        put_gap(tokens, at, depth.saturating_mul(indent), &mut out)?;
        push_ascii(shown(tokens.word(at), added), &mut out)?;
        if tokens.is(at, "{") {
            depth = depth.saturating_add(1);
        }
        at = at.saturating_add(1);
    }
    out.push('\n')?;
    Ok(out)
}

// What is between a token of a printed program and the one before it. A line begins with `spaces` spaces.
fn put_gap(tokens: Tokens<'_>, at: usize, spaces: usize, out: &mut String) -> Result<(), Memory> {
    if at == 0 || at >= tokens.all.len() {
        return Ok(());
    }
    if tokens.begins_line(at) && !tokens.is(at, "else") {
        out.push('\n')?;
        for _ in 0..spaces {
            out.push(' ')?;
        }
        return Ok(());
    }
    let is_close = matches!(tokens.word(at), b";" | b")" | b"[" | b"]");
    if !is_close && !matches!(tokens.before(at), b"(" | b"[") {
        out.push(' ')?;
    }
    Ok(())
}

// Adds ASCII characters.
fn push_ascii(bytes: &[u8], out: &mut String) -> Result<(), Memory> {
    for byte in bytes {
        out.push(char::from(*byte))?;
    }
    Ok(())
}

// The name of an added variable, and any other word as it is.
fn shown<'a>(word: &'a [u8], added: &'a [Name]) -> &'a [u8] {
    if !is_hidden(word) {
        return word;
    }
    match number_in(word) {
        Some(number) => match added.get(number) {
            Some(name) => name.bytes(),
            None => word,
        },
        None => word,
    }
}
