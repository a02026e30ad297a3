// The notes at marked places, with what is known there.
ghost use Rattle.std.specs.Prelude.{◌≡◌, ◌<◌, ◌+◌, ◌^◌, None, is_none, length, slice_index_or, IfOk, OnOk};
ghost use Rattle.lt_isa.specs.Prelude.{IsInRange};
ghost use Rattle.note_infer.specs.Brings.{AllSound, at_places};
ghost use Rattle.note_infer.specs.Noting.{IsNoteOf, NotesBelow, IsFirstUnknown};

use gr_word::Memory;
use lt_isa::{Note, Object};
use std::alloc::Global;
use trace_patterns::Known;

/// The notes at marked places in order of place, each with what is known there.
pub fn marked_notes(
    alloc: Global,
    object: &Object,
    marks: &[bool],
    states: &[Option<Known>],
) -> Result<Vec<Note>, Memory>
    requires range { IsInRange object.now }
    requires size { length states.now ≡ length object.now.code }
    requires marks { length marks.now ≡ length object.now.code }
    requires sound { AllSound object.now states.now }
    ensures { IfOk result
        (λ notes. NotesBelow object.now marks.now (at_places states.now) (length object.now.code) notes.items) }
{
    let mut notes = Vec::new(alloc);
    for place in 0..object.code().len() {
        match note_more(object, marks, states, place as u32, &mut notes) {
            Err(_) => return Err(Memory),
            Ok(()) => {}
        }
    }
    Ok(notes)
}

// Adds the note of a place, if it is marked.
fn note_more(
    object: &Object,
    marks: &[bool],
    states: &[Option<Known>],
    place: u32,
    notes: &mut Vec<Note>,
) -> Result<(), Memory>
    requires size { length states.now ≡ length object.now.code }
    requires marks { length marks.now ≡ length object.now.code }
    requires inside { place < length object.now.code }
    requires sound { AllSound object.now states.now }
    requires below { NotesBelow object.now marks.now (at_places states.now) place notes.old.items }
    ensures { OnOk result (NotesBelow object.now marks.now (at_places states.now) (place + 1) notes.new.items) }
{
    match note_of(marks, states, place) {
        None => Ok(()),
        Some(note) => match notes.push(note) {
            Err(_) => Err(Memory),
            Ok(()) => Ok(()),
        },
    }
}

// The note at a place that is marked, if it is.
fn note_of(marks: &[bool], states: &[Option<Known>], place: u32) -> Option<Note>
    requires marks { place < length marks.now }
    requires states { place < length states.now }
    ensures { IsNoteOf marks.now (at_places states.now) place result }
{
    if !marks[place as usize] {
        return None;
    }
    match &states[place as usize] {
        None => None,
        Some(known) => Some(known.note(place)),
    }
}

/// The lowest place where nothing is known, if there is one.
pub fn first_unknown(states: &[Option<Known>]) -> Option<u32>
    requires { length states.now < 2 ^ 32 }
    ensures { IsFirstUnknown states.now result }
{
    for place in 0..states.len() {
        if is_unknown(states, place) {
            return Some(place as u32);
        }
    }
    None
}

/// Whether nothing is known at a place.
pub fn is_unknown(states: &[Option<Known>], place: usize) -> bool
    requires { place < length states.now }
    ensures { result ≡ is_none (slice_index_or states.now place None) }
{
    match &states[place] {
        None => true,
        Some(_) => false,
    }
}
