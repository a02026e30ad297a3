//! The kinds of files, and what kind some bytes seem to be, by their first words.

ghost use Rattle.std.specs.Prelude.{◌≡◌, ◌≤◌, false};

use crate::texts::{is_word_of, length_up_to, piece};
use crate::words::Words;

/// What a file of a call is to be.
#[derive(Clone, Copy)]
pub enum FileKind {
    Object,
    Source,
    Inputs,
    Assembly,
    Cases,
}

impl FileKind {
    /// The kind of file that a word of a verb's line names, as `OBJ`.
    pub fn named(word: &str) -> Option<FileKind> {
        match word {
            "OBJ" => Some(FileKind::Object),
            "SRC" => Some(FileKind::Source),
            "INPUT" => Some(FileKind::Inputs),
            "TEXT" => Some(FileKind::Assembly),
            "CASES" => Some(FileKind::Cases),
            _ => None,
        }
    }

    /// The most bytes that a file of this kind may have. A reader keeps one byte more, to see that a file is too long, and
    /// the bound means that this number fits too.
    pub fn most_bytes(self) -> usize
        ensures { result ≤ 67108864 }
    {
        match self {
            FileKind::Object => 33_554_432,
            FileKind::Source => 1_048_576,
            FileKind::Inputs => 67_108_864,
            FileKind::Assembly => 67_108_864,
            FileKind::Cases => 67_108_864,
        }
    }
}

// The text past its first white space and its first lines of comments, which begin with a mark.
fn past_comments<'a>(text: &'a [u8], mark: &[u8]) -> &'a [u8] {
    let mut at = 0usize;
    for _ in 0..text.len() {
        let white = piece(text, at, text.len())
            .iter()
            .take_while(|byte| matches!(**byte, b' ' | b'\t' | b'\r' | b'\n'))
            .count();
        at = at.saturating_add(white);
        let rest = piece(text, at, text.len());
        if piece(rest, 0, mark.len()) != mark {
            break;
        }
        at = at.saturating_add(length_up_to(rest, b"\n"));
    }
    piece(text, at, text.len())
}

fn is_inputs(text: &[u8]) -> bool {
    match past_comments(text, b"//") {
        [b'{', rest @ ..] => matches!(
            past_comments(rest, b"//").first(),
            Some(b'"' | b'\'' | b'}')
        ),
        _ => false,
    }
}

fn is_source(text: &[u8]) -> bool {
    let text = past_comments(text, b"//");
    is_word_of(
        "public secret proc",
        piece(text, 0, length_up_to(text, b" \t\r\n")),
    )
}

/// What kind of file some bytes seem to be, by their first words. A file of cases looks like inputs.
pub fn looks_like(bytes: &[u8]) -> Option<FileKind> {
    if piece(bytes, 0, 4) == b"GRLT".as_slice() {
        return Some(FileKind::Object);
    }
    if piece(past_comments(bytes, b";"), 0, 7) == b".object".as_slice() {
        return Some(FileKind::Assembly);
    }
    if is_inputs(bytes) {
        return Some(FileKind::Inputs);
    }
    if is_source(bytes) {
        return Some(FileKind::Source);
    }
    None
}

fn name_of(kind: FileKind) -> &'static str {
    match kind {
        FileKind::Object => "an object file",
        FileKind::Source => "a source",
        FileKind::Inputs => "a file of inputs",
        FileKind::Assembly => "an assembly text",
        FileKind::Cases => "a file of cases",
    }
}

// What to do with a file of a kind that was given in place of another. Nothing if both are the same.
fn of_kinds(wanted: FileKind, given: FileKind) -> Option<&'static str> {
    match (wanted, given) {
        (FileKind::Object, FileKind::Object) => None,
        (FileKind::Source, FileKind::Source) => None,
        (FileKind::Inputs, FileKind::Inputs) => None,
        (FileKind::Assembly, FileKind::Assembly) => None,
        (FileKind::Cases, FileKind::Inputs | FileKind::Cases) => None,
        (FileKind::Cases, _) => Some("Name the source first, then its cases."),
        (_, FileKind::Cases) => None,
        (FileKind::Object, FileKind::Inputs) => Some("Name the object first, then its inputs."),
        (FileKind::Source, FileKind::Inputs) => Some("Name the source first, then its inputs."),
        (FileKind::Assembly, FileKind::Inputs) => Some(
            "`run` and `trace` take inputs, after an object file.",
        ),
        (FileKind::Inputs, FileKind::Object) => Some(
            "Name the object first, then its inputs, such as `{\"n\":3,\"a\":[1,2,3]}`.",
        ),
        (FileKind::Inputs, FileKind::Source) => Some(
            "Name the source first, then its inputs, such as `{\"n\":3,\"a\":[1,2,3]}`.",
        ),
        (_, FileKind::Source) => Some("`compile` makes an object file from it."),
        (_, FileKind::Assembly) => Some("`asm` makes an object file from it."),
        (FileKind::Source, FileKind::Object) => Some(
            "`check`, `run` and `dis` take an object file.",
        ),
        (FileKind::Assembly, FileKind::Object) => Some(
            "`dis` writes the assembly text of an object file.",
        ),
    }
}

/// If a file seems to be of another kind than was wanted, says so, and what to do with it. Returns whether it did.
pub fn put_other_kind(name: &str, wanted: FileKind, bytes: &[u8], out: &mut Words) -> bool
    ensures { result ≡ false → out.new ≡ out.old }
{
    let Some(given) = looks_like(bytes) else {
        return false;
    };
    let Some(hint) = of_kinds(wanted, given) else {
        return false;
    };
    out.name(name);
    out.say(": this is ");
    out.say(name_of(given));
    out.say(", not ");
    out.line(name_of(wanted));
    out.line(hint);
    true
}
