ghost use Rattle.std.specs.Prelude.{◌≡◌, ◌<◌, ◌≤◌, ◌+◌, ◌^◌, true, length, drop, slice_index, IfOk, IfErr};
ghost use Rattle.std.specs.List.{prefix_len, take_while};
ghost use Rattle.gr_base.specs.Prelude.{IfFault};
ghost use Rattle.gr_word.specs.Prelude.{is_name_byte};
ghost use Rattle.src_lexer.specs.Found.{found_in, run_found, sign_found, single_found, Faulty};
ghost use Rattle.src_lexer.specs.Pieces.{is_white, is_in_line, letter_run_of, pair_of, sign_of};
ghost use Rattle.src_lexer.specs.Seen.{piece_seen};

use crate::errors::LexFault;
use crate::known_names::KnownNames;
use crate::runs::{Run, classify};
use crate::signs::{Pair, single, together};
use crate::tokens::Kind;
use gr_base::Fail;
use std::alloc::Global;

// The first piece of a text: white space or a comment with this number of bytes, or a token with this number of bytes.
#[derive(Drop)]
pub(crate) enum Piece {
    Skipped(usize),
    Known(Kind, usize),
}

fn white(byte: u8) -> bool
    ensures { result ≡ is_white byte }
{
    byte == b' ' || byte == b'\t' || byte == b'\n' || byte == b'\r'
}

fn in_name(byte: u8) -> bool
    ensures { result ≡ is_name_byte byte }
{
    byte.is_ascii_alphanumeric() || byte == b'_'
}

fn in_line(byte: u8) -> bool
    ensures { result ≡ is_in_line byte }
{
    byte != b'\n'
}

fn name_length(text: &[u8]) -> usize
    ensures { result ≡ prefix_len is_name_byte text.now }
{
    text.iter().take_while(|byte| in_name(**byte)).count()
}

fn line_length(text: &[u8]) -> usize
    ensures { result ≡ prefix_len is_in_line text.now }
{
    text.iter().take_while(|byte| in_line(**byte)).count()
}

// A piece that starts with a letter, a digit or `_`.
fn word<'a>(
    alloc: Global,
    names: &mut KnownNames<'a>,
    text: &'a [u8],
    at: u32,
) -> Result<Piece, Fail<LexFault>>
    requires some { 0 < length text.now }
    requires starts { is_name_byte (slice_index text.now 0) ≡ true }
    requires room { at + length text.now ≤ 2 ^ 20 }
    ensures piece { IfOk result (λ p.
        piece_seen p ≡ run_found at (prefix_len is_name_byte text.now)
        (letter_run_of (take_while is_name_byte text.now))) }
    ensures fault { IfErr result (IfFault (λ fault.
        run_found at (prefix_len is_name_byte text.now) (letter_run_of (take_while is_name_byte text.now))
        ≡ Faulty fault)) }
{
    let size = name_length(text);
    match classify(alloc, names, &text[..size])? {
        Run::Is(kind) => Ok(Piece::Known(kind, size)),
        Run::Big => Err(Fail::Fault(LexFault::NumberTooBig(at))),
        Run::Long => Err(Fail::Fault(LexFault::NameTooLong(at))),
        Run::Mixed(digits) => Err(Fail::Fault(LexFault::BadByte(at + digits as u32))),
    }
}

// The second byte, or 0 if there is none.
fn second(text: &[u8]) -> u8
    requires { 0 < length text.now }
    ensures { result ≡ slice_index (drop 1 text.now) 0 }
{
    if text.len() < 2 {
        return 0;
    }
    text[1]
}

fn lone(byte: u8, at: u32) -> Result<Piece, LexFault>
    ensures piece { IfOk result (λ p. piece_seen p ≡ single_found at (sign_of byte)) }
    ensures fault { IfErr result (λ e. single_found at (sign_of byte) ≡ Faulty e) }
{
    match single(byte) {
        Some(kind) => Ok(Piece::Known(kind, 1)),
        None => Err(LexFault::BadByte(at)),
    }
}

// A piece that starts with another byte that isn't white space.
fn sign(text: &[u8], at: u32) -> Result<Piece, LexFault>
    requires some { 0 < length text.now }
    requires few { length text.now ≤ 2 ^ 20 }
    ensures piece { IfOk result (λ p. piece_seen p ≡ sign_found at (slice_index text.now 0) (drop 1 text.now)
        (pair_of (slice_index text.now 0) (slice_index (drop 1 text.now) 0))) }
    ensures fault { IfErr result (λ e. sign_found at (slice_index text.now 0) (drop 1 text.now)
        (pair_of (slice_index text.now 0) (slice_index (drop 1 text.now) 0)) ≡ Faulty e) }
{
    match together(text[0], second(text)) {
        Pair::Two(kind) => Ok(Piece::Known(kind, 2)),
        Pair::Slashes => Ok(Piece::Skipped(comment_length(text))),
        Pair::Apart => lone(text[0], at),
    }
}

// The length of the comment at the beginning of a text.
fn comment_length(text: &[u8]) -> usize
    requires { length text.now ≤ 2 ^ 20 }
    ensures { result ≡ 2 + prefix_len is_in_line (drop 1 (drop 1 text.now)) }
{
    match text {
        [] => 2,
        [_] => 2,
        [_, _, line @ ..] => 2 + line_length(line),
    }
}

// The first piece of a text.
pub(crate) fn piece_at<'a>(
    alloc: Global,
    names: &mut KnownNames<'a>,
    text: &'a [u8],
    at: u32,
) -> Result<Piece, Fail<LexFault>>
    requires some { 0 < length text.now }
    requires room { at + length text.now ≤ 2 ^ 20 }
    ensures piece { IfOk result (λ p. piece_seen p ≡ found_in at text.now) }
    ensures fault { IfErr result (IfFault (λ fault. found_in at text.now ≡ Faulty fault)) }
{
    if white(text[0]) {
        return Ok(Piece::Skipped(1));
    }
    if in_name(text[0]) {
        return word(alloc, names, text, at);
    }
    match sign(text, at) {
        Ok(piece) => Ok(piece),
        Err(fault) => Err(Fail::Fault(fault)),
    }
}
