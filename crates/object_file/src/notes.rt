ghost use Rattle.std.specs.Prelude.{◌≡◌, [], length};
ghost use Rattle.object_file.specs.Reading.{Decodes, field_at, slots_at, note_at, items_at, notes_at};
ghost use Rattle.lt_isa.specs.Prelude.{is_slot_claim};

use crate::errors::DecodeError;
use crate::fields::{Read, offset_of, u8_at, u32_at, u32_field};
use lt_isa::Note;
use lt_isa::limits::MOST_NOTES;
use lt_isa::ranges::{is_slot_claim, next_place};
use std::alloc::Global;

/// The number of bytes of a note.
pub const NOTE_BYTES: usize = 16;

/// The number of slots of the scratchpad.
const SLOTS: usize = 8;

#[tactic(auto, unfolding(crate::specs::Reading::field_at))]
fn claim(all: u32, banks: usize, bytes: &[u8]) -> Read<'_, u8>
    ensures { Decodes (λ x. (x.0, x.1.now)) result (field_at 1 all (is_slot_claim banks) bytes.now) }
{
    let (claim, rest) = u8_at(all, bytes)?;
    if !is_slot_claim(banks, claim) {
        return Err(DecodeError::BadField(offset_of(all, bytes)));
    }
    Ok((claim, rest))
}

#[tactic(auto, unfolding(crate::specs::Reading::slots_at))]
fn slots(all: u32, banks: usize, bytes: &[u8]) -> Read<'_, [u8; 8]>
    ensures { Decodes (λ x. (x.0, x.1.now)) result (slots_at banks all bytes.now) }
{
    let mut slots = [0; SLOTS];
    let mut rest = bytes;
    for i in 0..SLOTS {
        let (claim, after) = claim(all, banks, rest)?;
        slots[i] = claim;
        rest = after;
    }
    Ok((slots, rest))
}

#[tactic(auto, unfolding(crate::specs::Reading::note_at))]
fn note<'a>(all: u32, banks: usize, before: &[Note], bytes: &'a [u8]) -> Read<'a, Note>
    ensures { Decodes (λ x. (x.0, x.1.now)) result (note_at banks all before.now bytes.now) }
{
    let (pc, rest) = u32_field(all, next_place(before), u64::from(u32::MAX), bytes)?;
    let (secrets, rest) = u32_at(all, rest)?;
    let (slots, rest) = slots(all, banks, rest)?;
    Ok((Note { pc, secrets, slots }, rest))
}

/// `count` notes. Room is reserved once, for no more than the bytes can encode.
fn note_list(alloc: Global, all: u32, banks: usize, count: u32, bytes: &[u8]) -> Read<'_, Vec<Note>>
    ensures { Decodes (λ x. (x.0.items, x.1.now)) result (items_at (note_at banks all) count [] bytes.now) }
{
    let room = (bytes.len() / NOTE_BYTES).min(count as usize);
    let mut notes = Vec::with_capacity(alloc, room)?;
    let mut rest = bytes;
    for _ in 0..count {
        let (note, after) = note(all, banks, &notes, rest)?;
        notes.push(note)?;
        rest = after;
    }
    Ok((notes, rest))
}

/// The notes: their number, and then as many notes. The bytes after them are returned too.
#[tactic(auto, unfolding(crate::specs::Reading::notes_at, crate::specs::Reading::list_at))]
pub fn notes(alloc: Global, all: u32, banks: usize, bytes: &[u8]) -> Read<'_, Vec<Note>>
    ensures { Decodes (λ x. (x.0.items, x.1.now)) result (notes_at banks all bytes.now) }
{
    let (count, rest) = u32_field(all, 0, MOST_NOTES as u64, bytes)?;
    note_list(alloc, all, banks, count, rest)
}
