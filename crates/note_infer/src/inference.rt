// The object with its least notes.
ghost use Rattle.std.specs.Prelude.{◌≡◌, [], length, IfOk, IfErr};
ghost use Rattle.lt_isa.specs.Prelude.{IsInRange};
ghost use Rattle.note_infer.specs.Steps.{AllReachable};
ghost use Rattle.note_infer.specs.Growth.{HasLeast, HasLast};
ghost use Rattle.note_infer.specs.Kept.{ListsJoiners};
ghost use Rattle.note_infer.specs.Inferred.{IsInferred, IsWhyNot, NoNotesWouldDo};
ghost use Rattle.note_infer.specs.Noting.{FindsNotes, WhyNoNotes, TellsRefusal};
ghost use Rattle.trace_patterns.specs.Prelude.{without_notes};

use crate::copies::copy_with;
use crate::crossed::Crossed;
use crate::faults::InferError;
use crate::growth::grown;
use crate::joiners::Joiners;
use crate::noting::{first_unknown, marked_notes};
use crate::search::least_states;
use crate::targets::marked_targets;
use gr_word::Memory;
use lt_checker::{CheckError, check};
use lt_isa::limits::MOST_NOTES;
use lt_isa::{Note, Object};
use region_walk::RegionValues;
use std::alloc::Global;
use trace_patterns::Known;

/// The object with its least notes instead of its own, which are not looked at; it is accepted. The error is the lowest
/// place that no steps lead to, or the number of the least notes, if they are too many for an object, or the first
/// refusal of the object with them; or that memory ran out. If the least notes are refused, so are all others that open
/// the same regions.
pub fn infer(alloc: Global, object: &Object) -> Result<Object, InferError>
    ensures found { IfOk result (λ found. IsInferred object.now found) }
    ensures why { IfErr result (λ e. IsWhyNot object.now e) }
    ensures suffices { IfErr result (λ e. NoNotesWouldDo object.now e) }
{
    match copy_with(alloc, object, Vec::new(alloc)) {
        Err(_) => Err(InferError::Memory),
        Ok(bare) => match found_notes(alloc, &bare) {
            Err(error) => Err(error),
            Ok(notes) => accepted_with(alloc, object, notes),
        },
    }
}

// The object with notes that were found, if it is accepted.
fn accepted_with(alloc: Global, object: &Object, notes: Vec<Note>) -> Result<Object, InferError>
    requires { FindsNotes (without_notes object.now) notes.items }
    ensures found { IfOk result (λ found. IsInferred object.now found) }
    ensures why { IfErr result (λ e. IsWhyNot object.now e) }
    ensures suffices { IfErr result (λ e. NoNotesWouldDo object.now e) }
{
    if notes.len() > MOST_NOTES {
        return Err(InferError::TooMany(notes.len() as u32));
    }
    match copy_with(alloc, object, notes) {
        Err(_) => Err(InferError::Memory),
        Ok(whole) => match check(alloc, whole) {
            Ok(accepted) => Ok(accepted.into_object()),
            Err(error) => Err(why_refused(error)),
        },
    }
}

// What the check says.
fn why_refused(error: CheckError) -> InferError
    ensures { TellsRefusal error result }
{
    match error {
        CheckError::Refused { pc, reason, .. } => InferError::Refused { pc, reason },
        CheckError::Memory { .. } => InferError::Memory,
    }
}

// The least notes of an object without notes.
fn found_notes(alloc: Global, bare: &Object) -> Result<Vec<Note>, InferError>
    requires { bare.now.notes ≡ [] }
    ensures found { IfOk result (λ notes. FindsNotes bare.now notes.items) }
    ensures why { IfErr result (λ e. WhyNoNotes bare.now e) }
{
    let mut shared = RegionValues::new();
    let mut joiners = Joiners::new(alloc);
    match Crossed::new(alloc, bare.code().len()) {
        Err(_) => Err(InferError::Memory),
        Ok(none) => match least_states(alloc, bare, &none, &mut shared, &mut joiners) {
            Err(_) => Err(InferError::Memory),
            Ok(first) => match first_unknown(&first) {
                Some(place) => Err(InferError::Dead(place)),
                None => match notes_from(alloc, bare, &mut shared, none, first, joiners) {
                    Err(_) => Err(InferError::Memory),
                    Ok(notes) => Ok(notes),
                },
            },
        },
    }
}

// The least notes, from the least states where no branch is crossed.
fn notes_from(
    alloc: Global,
    bare: &Object,
    shared: &mut RegionValues,
    none: Crossed,
    first: Vec<Option<Known>>,
    joiners: Joiners,
) -> Result<Vec<Note>, Memory>
    requires range { IsInRange bare.now }
    requires bare { bare.now.notes ≡ [] }
    requires reachable { AllReachable bare.now }
    requires size { none.size ≡ length bare.now.code }
    requires none { none.list ≡ [] }
    requires first { HasLeast bare.now [] first.items }
    requires listed { ListsJoiners bare.now [] first.items [] joiners }
    ensures { IfOk result (λ notes. FindsNotes bare.now notes.items) }
{
    match grown(alloc, bare, shared, none, first, joiners) {
        Err(_) => Err(Memory),
        Ok(last) => last_notes(alloc, bare, &last.crossed, &last.states),
    }
}

// The notes at the targets under the last branches that are crossed.
fn last_notes(
    alloc: Global,
    bare: &Object,
    crossed: &Crossed,
    states: &[Option<Known>],
) -> Result<Vec<Note>, Memory>
    requires range { IsInRange bare.now }
    requires reachable { AllReachable bare.now }
    requires last { HasLast bare.now crossed.now.list states.now }
    ensures { IfOk result (λ notes. FindsNotes bare.now notes.items) }
{
    match marked_targets(alloc, bare, crossed, states) {
        Err(_) => Err(Memory),
        Ok(marks) => marked_notes(alloc, bare, &marks, states),
    }
}
