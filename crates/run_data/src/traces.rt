ghost use Rattle.std.specs.Prelude.{◌≡◌, ℕ, ◌+◌, ◌^◌, ◌<◌, ◌≤◌, Bool, List, [], ◌++◌, length, map, codes, decimal, IfOk, IfErr, OnOk};
ghost use Rattle.lt_isa.specs.Prelude.{Stamped};
ghost use Rattle.run_data.specs.TraceText.{words_text, event_line, ending_text, trace_text_of};
ghost use Rattle.run_data.specs.TraceGrammar.{SpellsTrace};
ghost use Rattle.run_data.specs.TraceFiles.{observed_in, file_events, Breaks, IsReadAs};
ghost use Rattle.run_data.specs.TracePieces.{contents, is_halt, RunStops, break_of};

use crate::trace_files::{SeenEvent, TraceError, TraceFile, TraceLine};
use crate::trace_lines::{next_line, parts_of, same};
use gr_base::Memory;
use itoa::Buffer;
use std::alloc::{AllocError, Global};

/// The trace that a text of fewer than 2^32 bytes encodes, if a block has 2^`block_log` words. `BadLine` names the
/// first line with which the lines so far begin no trace; a line without its line feed is such a line, and if the text
/// ends too soon it is the line after the last.
pub fn read_trace(alloc: Global, text: &[u8], block_log: u8) -> Result<TraceFile, TraceError>
    requires least { 3 ≤ block_log }
    requires most { block_log ≤ 9 }
    requires short { length text.now < 2 ^ 32 }
    ensures read { IfOk result (λ file. SpellsTrace (2 ^ block_log) text.now (file_events file) file.halted) }
    ensures exactly { (events : List Stamped) (halted : Bool)
        → SpellsTrace (2 ^ block_log) text.now events halted → IsReadAs result events halted }
    ensures breaks { IfErr result (Breaks (2 ^ block_log) text.now) }
{
    let size = block_size(block_log);
    let parts = parts_of(alloc, text, b'\n')?;
    let file = read_events(alloc, size, &parts[..parts.len() - 1])?;
    match break_at(&parts, file.lines.len(), file.halted) {
        None => Ok(file),
        Some(line) => Err(TraceError::BadLine(line as u32)),
    }
}

/// How many words a block has.
fn block_size(block_log: u8) -> usize
    requires { block_log ≤ 9 }
    ensures value { result ≡ 2 ^ block_log }
    ensures some { 0 < result }
{
    1 << block_log
}

/// The events of lines, as far as they begin a trace, and whether a halt is the last.
fn read_events(alloc: Global, size: usize, lines: &[&[u8]]) -> Result<TraceFile, AllocError>
    requires { 0 < size }
    ensures { IfOk result (λ file. RunStops size (contents lines.now) (file_events file) file.halted) }
{
    let mut found = Vec::new(alloc);
    let mut least = 0u64;
    let mut halted = false;
    for line in lines {
        let Some(line) = next_line(alloc, size, least, halted, line)? else {
            return Ok(TraceFile {
                lines: found,
                halted,
            });
        };
        least = u64::from(line.stamp) + 1;
        halted = is_halt(&line.event);
        found.push(line)?;
    }
    Ok(TraceFile {
        lines: found,
        halted,
    })
}

fn is_halt(event: &SeenEvent) -> bool
    ensures { result ≡ is_halt (observed_in event.now) }
{
    match event {
        SeenEvent::Halt => true,
        SeenEvent::RamRead(_, _)
        | SeenEvent::RamWrite(_, _)
        | SeenEvent::EncRead(_)
        | SeenEvent::EncWrite(_)
        | SeenEvent::Oram(_) => false,
    }
}

/// The number of the line that breaks a trace whose first `events` lines are events, none where the rest is its end.
fn break_at(parts: &[&[u8]], events: usize, halted: bool) -> Option<usize>
    requires { events + 1 ≤ length parts.now }
    ensures { result ≡ break_of (contents parts.now) events halted }
{
    if events + 1 == parts.len() || !same(parts[events], end_text(halted)) {
        return Some(events + 1);
    }
    if events + 2 == parts.len() && parts[events + 1].is_empty() {
        None
    } else {
        Some(events + 2)
    }
}

/// The last line of a trace, without its line feed.
fn end_text(halted: bool) -> &'static [u8]
    ensures { result.now ≡ ending_text halted }
{
    if halted { b"end halted" } else { b"end spent" }
}

/// The text of a trace, which [`read_trace`] reads again.
pub fn trace_text(alloc: Global, file: &TraceFile) -> Result<Vec<u8>, Memory>
    ensures { IfOk result (λ text. text.items ≡ trace_text_of (file_events file.now) file.now.halted) }
{
    let mut text = Vec::new(alloc);
    for line in file.lines.iter() {
        add_line(&mut text, line)?;
    }
    text.extend_from_slice(end_text(file.halted))?;
    text.push(b'\n')?;
    Ok(text)
}

fn add_line(text: &mut Vec<u8>, line: &TraceLine) -> Result<(), Memory>
    ensures { OnOk result (text.new.items ≡ text.old.items ++ event_line line.now.stamp (observed_in line.now.event)) }
{
    add_number(text, line.stamp)?;
    match &line.event {
        SeenEvent::RamRead(block, words) => add_access(text, b" D r ", *block, words.words()),
        SeenEvent::RamWrite(block, words) => add_access(text, b" D w ", *block, words.words()),
        SeenEvent::EncRead(block) => add_access(text, b" E r ", *block, &[]),
        SeenEvent::EncWrite(block) => add_access(text, b" E w ", *block, &[]),
        SeenEvent::Oram(bank) => add_access(text, b" O", u32::from(*bank), &[]),
        SeenEvent::Halt => Ok(text.extend_from_slice(b" H\n")?),
    }
}

/// Adds what follows a stamp: a kind of event, a number, words and a line feed.
fn add_access(text: &mut Vec<u8>, kind: &[u8], number: u32, words: &[i64]) -> Result<(), Memory>
    ensures { OnOk result (text.new.items
        ≡ text.old.items ++ (kind.now ++ decimal number ++ words_text words.now ++ codes "\n")) }
{
    text.extend_from_slice(kind)?;
    add_number(text, number)?;
    add_words(text, words)?;
    text.push(b'\n')?;
    Ok(())
}

fn add_words(text: &mut Vec<u8>, words: &[i64]) -> Result<(), Memory>
    ensures { OnOk result (text.new.items ≡ text.old.items ++ words_text words.now) }
{
    for word in words {
        let mut buffer = Buffer::new();
        text.push(b' ')?;
        text.extend_from_slice(buffer.format(*word).as_bytes())?;
    }
    Ok(())
}

fn add_number(text: &mut Vec<u8>, number: u32) -> Result<(), Memory>
    ensures { OnOk result (text.new.items ≡ text.old.items ++ decimal number) }
{
    let mut buffer = Buffer::new();
    text.extend_from_slice(buffer.format(number).as_bytes())?;
    Ok(())
}
