ghost use Rattle.std.specs.Prelude.{◌≡◌, ◌<◌, ◌^◌, length, All, IfOk, vec_len, option_map};
ghost use Rattle.trace_patterns.specs.Prelude.{note_known, note_of_place};
ghost use Rattle.lt_checker.specs.Tables.{IsEntry, IsTableOf};

use lt_isa::Note;
use std::alloc::{AllocError, Global};
use trace_patterns::Known;

/// Makes a table with an entry for each of `places` places: the number of the note there, if there is one, or of the
/// first if there are two. If there are no notes, the table is empty.
pub fn table_of(
    alloc: Global,
    notes: &[Note],
    places: usize,
) -> Result<Vec<Option<u32>>, AllocError>
    requires few { length notes.now < 2 ^ 32 }
    requires inside { All (λ n. n.pc < places) notes.now }
    ensures inside { IfOk result (λ table. All (λ n. n.pc < vec_len table) notes.now) }
    ensures table { IfOk result (λ table. IsTableOf notes.now table.items) }
{
    let mut table = vec![in alloc; None; room_for(notes, places)]?;
    for index in (0..notes.len()).rev() {
        table[notes[index].pc as usize] = Some(index as u32);
    }
    Ok(table)
}

// The number of places that the table has. Most code has no notes, and then the table needs no memory.
fn room_for(notes: &[Note], places: usize) -> usize
    requires { All (λ n. n.pc < places) notes.now }
    ensures { All (λ n. n.pc < result) notes.now }
{
    match notes {
        [] => 0,
        [_, ..] => places,
    }
}

/// What the note at a place claims, or `None` if the place has no note.
pub fn claimed_at(notes: &[Note], table: &[Option<u32>], place: usize) -> Option<Known>
    requires table { IsTableOf notes.now table.now }
    requires inside { All (λ n. n.pc < length table.now) notes.now }
    ensures { result ≡ option_map note_known (note_of_place notes.now place) }
{
    match told_at(notes, table, place) {
        None => None,
        Some(index) => Some(Known::of_note(&notes[index as usize])),
    }
}

// The number of the note at a place. No note is at a place past the table. Only the clauses use the notes.
#[tactic(auto, using(crate::proofs::NoteTables::none_behind))]
fn told_at(notes: &[Note], table: &[Option<u32>], place: usize) -> Option<u32>
    requires table { IsTableOf notes.now table.now }
    requires inside { All (λ n. n.pc < length table.now) notes.now }
    ensures { IsEntry notes.now notes.now place result }
{
    if place >= table.len() {
        return None;
    }
    table[place]
}
