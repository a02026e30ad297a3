//! Why a file isn't an object.

ghost use Rattle.std.specs.Prelude.{◌≤◌, length};

use crate::fields::field_at;
use fault_texts::{FileKind, Words, looks_like};
use lt_isa::Object;
use object_file::{DecodeError, decode};
use std::alloc::Global;

/// The most bytes of an object file.
const OBJECT_BYTES: usize = 33_554_432;

/// The object that a file encodes, if it encodes one.
pub fn object_in(alloc: Global, bytes: &[u8]) -> Option<Object> {
    if bytes.len() > OBJECT_BYTES {
        return None;
    }
    decode(alloc, bytes).ok()
}

/// Explains why a file isn't an object.
pub fn explain_file(alloc: Global, name: &str, bytes: &[u8], out: &mut Words) {
    if bytes.len() > OBJECT_BYTES {
        return;
    }
    if let Some(fault) = decode(alloc, bytes).err() {
        out.name(name);
        put_fault(bytes, fault, out);
    }
}

// Where the fault is, and what it means.
fn put_fault(bytes: &[u8], fault: DecodeError, out: &mut Words) {
    match fault {
        DecodeError::BadMagic => {
            out.line(":byte 0: the file doesn't begin with GRLT, as an object file does");
            out.line(of_head(bytes))
        }
        DecodeError::BadVersion(version) => out.fill(
            ":byte 4: the file has the unknown version {}; versions are 1, and 2 for an object with a window\n",
            &[u64::from(version)],
        ),
        DecodeError::Truncated(at) => {
            let at = place_in(bytes, at as usize);
            put_field(bytes, at, ":byte {}: the file ends within ", out);
            out.line("\nThe file was cut off: copy it again, as a binary file.")
        }
        DecodeError::BadField(at) => put_bad_field(bytes, place_in(bytes, at as usize), out),
        DecodeError::TrailingBytes(at) => {
            let at = place_in(bytes, at as usize);
            let more = bytes.len().saturating_sub(at);
            out.fill(":byte {}: the file has ", &[at as u64]);
            out.counted(more as u64, "byte");
            out.line(" after the last instruction")
        }
        DecodeError::Memory => out.starve(),
    }
}

// A place that is within the file, or at its end.
fn place_in(bytes: &[u8], at: usize) -> usize
    ensures { result ≤ length bytes.now }
{
    at.min(bytes.len())
}

// What a file without the magic may be.
fn of_head(bytes: &[u8]) -> &'static str {
    match looks_like(bytes) {
        Some(FileKind::Assembly) => "It is an assembly text: `asm` makes an object file from it.",
        Some(FileKind::Source) => "It is a source: `compile` makes an object file from it.",
        Some(FileKind::Inputs) => "It looks like inputs: name the object first, then its inputs.",
        _ => "`compile`, `asm` and `sample` make object files.",
    }
}

// The place of a field, and the field.
fn put_field(bytes: &[u8], at: usize, what: &str, out: &mut Words) {
    let field = field_at(bytes, at);
    out.fill(what, &[at as u64]);
    out.say(field.name);
    if let Some(number) = field.number {
        out.fill(" {}", &[number as u64]);
    }
}

fn put_bad_field(bytes: &[u8], at: usize, out: &mut Words) {
    put_field(bytes, at, ":byte {}: ", out);
    let first = bytes.get(at).copied().unwrap_or(0);
    out.fill(
        " isn't allowed; its first byte is {}\nAllowed: ",
        &[u64::from(first)],
    );
    out.line(field_at(bytes, at).allowed);
}
