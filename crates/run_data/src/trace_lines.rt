ghost use Rattle.std.specs.Prelude.{◌≡◌, ◌==◌, ◌<◌, ◌≤◌, [], ◌∷◌, bytes_eq, length, map, option_map, IfOk, IfSome, IfNone};
ghost use Rattle.std.specs.List.{slice_split};
ghost use Rattle.run_data.specs.TracePieces.{contents, WordsFound, EventFound, PiecesFound, LineFound, NextFound};

use crate::numbers::{read_number, read_word};
use crate::trace_files::{SeenEvent, TraceLine, Words};
use lt_isa::limits::MOST_BANKS;
use lt_isa::{BankKind, bank_kind};
use std::alloc::{AllocError, Global};

/// Whether two texts are the same.
pub fn same(a: &[u8], b: &[u8]) -> bool
    ensures { result ≡ bytes_eq a.now b.now }
{
    a == b
}

/// The parts of bytes between those that are this one.
pub fn parts_of(alloc: Global, bytes: &[u8], at: u8) -> Result<Vec<&[u8]>, AllocError>
    ensures { IfOk result (λ parts. contents parts.items ≡ slice_split (λ byte. byte == at) bytes.now) }
{
    bytes.split(|byte| *byte == at).collect(alloc)
}

/// The next line of a trace, if a block has `size` words: `None` if it follows a halt, if its stamp is below the least,
/// or if it isn't an event's line.
pub fn next_line(
    alloc: Global,
    size: usize,
    least: u64,
    halted: bool,
    bytes: &[u8],
) -> Result<Option<TraceLine>, AllocError>
    requires { 0 < size }
    ensures { IfOk result (λ found. NextFound size least halted bytes.now found) }
{
    if halted {
        return Ok(None);
    }
    let Some(line) = read_line(alloc, size, bytes)? else {
        return Ok(None);
    };
    if u64::from(line.stamp) < least {
        return Ok(None);
    }
    Ok(Some(line))
}

fn read_line(alloc: Global, size: usize, bytes: &[u8]) -> Result<Option<TraceLine>, AllocError>
    requires { 0 < size }
    ensures { IfOk result (λ found. LineFound size bytes.now found) }
{
    let pieces = parts_of(alloc, bytes, b' ')?;
    read_pieces(alloc, size, &pieces)
}

/// The line of these pieces.
fn read_pieces(
    alloc: Global,
    size: usize,
    pieces: &[&[u8]],
) -> Result<Option<TraceLine>, AllocError>
    requires { 0 < size }
    ensures { IfOk result (λ found. PiecesFound size (contents pieces.now) found) }
{
    let Some((stamp, pieces)) = pieces.split_first() else {
        return Ok(None);
    };
    let Some(stamp) = read_number(stamp) else {
        return Ok(None);
    };
    match read_event(alloc, size, pieces)? {
        Some(event) => Ok(Some(TraceLine { stamp, event })),
        None => Ok(None),
    }
}

fn read_event(alloc: Global, size: usize, pieces: &[&[u8]]) -> Result<Option<SeenEvent>, AllocError>
    requires { 0 < size }
    ensures { IfOk result (λ found. EventFound size (contents pieces.now) found) }
{
    if let [piece] = pieces {
        return Ok(read_mark(size, piece));
    }
    if let [bank, way, block] = pieces {
        return Ok(read_encrypted(size, bank, way, block));
    }
    if pieces.len() < 3 || pieces.len() - 3 != size {
        return Ok(None);
    }
    let (head, words) = pieces.split_at(3);
    read_plain(alloc, head[0], head[1], head[2], words)
}

/// An access of an oblivious bank, or the halt.
fn read_mark(size: usize, piece: &[u8]) -> Option<SeenEvent>
    ensures { EventFound size (piece.now ∷ []) result }
{
    if same(piece, b"H") {
        return Some(SeenEvent::Halt);
    }
    let Some((letter, number)) = piece.split_first() else {
        return None;
    };
    if *letter != b'O' {
        return None;
    }
    let Some(bank) = read_number(number) else {
        return None;
    };
    match oblivious_bank(bank) {
        Some(bank) => Some(SeenEvent::Oram(bank)),
        None => None,
    }
}

/// The oblivious bank with this number; `None` if no bank has the number, or a bank of another kind.
fn oblivious_bank(number: u32) -> Option<u8>
    ensures some { IfSome result (λ bank. (bank ≡ number) × (2 ≤ bank) × (bank ≤ 9)) }
    ensures none { IfNone result (2 ≤ number → number ≤ 9 → ⊥) }
{
    if number as usize >= MOST_BANKS {
        return None;
    }
    match bank_kind(number as u8) {
        BankKind::Plain => None,
        BankKind::Encrypted => None,
        BankKind::Oblivious => Some(number as u8),
    }
}

/// An access of encrypted memory.
fn read_encrypted(size: usize, bank: &[u8], way: &[u8], block: &[u8]) -> Option<SeenEvent>
    requires { 0 < size }
    ensures { EventFound size (bank.now ∷ way.now ∷ block.now ∷ []) result }
{
    if !same(bank, b"E") {
        return None;
    }
    let Some(block) = read_number(block) else {
        return None;
    };
    if same(way, b"r") {
        return Some(SeenEvent::EncRead(block));
    }
    if same(way, b"w") {
        return Some(SeenEvent::EncWrite(block));
    }
    None
}

/// An access of plain memory.
fn read_plain(
    alloc: Global,
    bank: &[u8],
    way: &[u8],
    block: &[u8],
    words: &[&[u8]],
) -> Result<Option<SeenEvent>, AllocError>
    requires { 0 < length words.now }
    ensures { IfOk result (λ found. EventFound (length words.now)
        (bank.now ∷ way.now ∷ block.now ∷ contents words.now) found) }
{
    if !same(bank, b"D") {
        return Ok(None);
    }
    let Some(block) = read_number(block) else {
        return Ok(None);
    };
    let Some(words) = read_words(alloc, words)? else {
        return Ok(None);
    };
    if same(way, b"r") {
        return Ok(Some(SeenEvent::RamRead(block, Words::new(words))));
    }
    if same(way, b"w") {
        return Ok(Some(SeenEvent::RamWrite(block, Words::new(words))));
    }
    Ok(None)
}

fn read_words(alloc: Global, pieces: &[&[u8]]) -> Result<Option<Vec<i64>>, AllocError>
    ensures { IfOk result (λ found. WordsFound (contents pieces.now) (option_map (λ words. words.items) found)) }
{
    let mut words = Vec::with_capacity(alloc, pieces.len())?;
    for piece in pieces {
        match read_word(piece) {
            Some(word) => words.push(word)?,
            None => return Ok(None),
        }
    }
    Ok(Some(words))
}
