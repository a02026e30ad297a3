// The targets that need notes.
ghost use Rattle.std.specs.Prelude.{◌≡◌, ◌<◌, ◌+◌, length, slice_get, Some, IfOk, true};
ghost use Rattle.lt_isa.specs.Prelude.{IsInRange};
ghost use Rattle.note_infer.specs.Brings.{at_places};
ghost use Rattle.note_infer.specs.Noting.{Marks, MarksFrom, MarksBelow};

use crate::crossed::Crossed;
use crate::noting::is_unknown;
use gr_word::Memory;
use lt_isa::instruction_table::target_of;
use lt_isa::{Instr, Object};
use region_walk::{NextStep, next_step_of};
use std::alloc::Global;
use trace_patterns::Known;

/// Marks the targets of the jumps that are reached, and of the branches that are reached and not crossed.
pub fn marked_targets(
    alloc: Global,
    object: &Object,
    crossed: &Crossed,
    states: &[Option<Known>],
) -> Result<Vec<bool>, Memory>
    requires range { IsInRange object.now }
    requires size { length states.now ≡ length object.now.code }
    ensures { IfOk result
        (λ marks. MarksBelow object.now crossed.now.list (at_places states.now) (length object.now.code) marks.items) }
{
    match vec![in alloc; false; object.code().len()] {
        Err(_) => Err(Memory),
        Ok(unmarked) => {
            let mut marks = unmarked;
            for place in 0..object.code().len() {
                mark_place(object, crossed, states, &mut marks, place as u32);
            }
            Ok(marks)
        }
    }
}

// Marks the targets of a place, if it is reached.
fn mark_place(
    object: &Object,
    crossed: &Crossed,
    states: &[Option<Known>],
    marks: &mut Vec<bool>,
    place: u32,
)
    requires range { IsInRange object.now }
    requires size { length states.now ≡ length object.now.code }
    requires inside { place < length object.now.code }
    requires below { MarksBelow object.now crossed.now.list (at_places states.now) place marks.old.items }
    ensures { MarksBelow object.now crossed.now.list (at_places states.now) (place + 1) marks.new.items }
{
    if !is_unknown(states, place as usize) {
        let instr = object.code()[place as usize];
        mark_from(object, crossed, marks, place, instr);
    }
}

// Marks the targets of the instruction at a place.
fn mark_from(object: &Object, crossed: &Crossed, marks: &mut Vec<bool>, place: u32, instr: Instr)
    requires range { IsInRange object.now }
    requires size { length marks.old.items ≡ length object.now.code }
    requires inside { place < length object.now.code }
    requires code { slice_get object.now.code place ≡ Some instr }
    ensures { MarksFrom object.now crossed.now.list place marks.old.items marks.new.items }
{
    match next_step_of(instr) {
        NextStep::Goes => {}
        NextStep::Halts => {}
        NextStep::Jumps(offset) => mark(marks, target_of(object, place as usize, offset)),
        NextStep::Branches(offset) => {
            if !crossed.has(place) {
                mark(marks, target_of(object, place as usize, offset));
            }
        }
    }
}

// Marks a place, if it is one of the code.
#[tactic(auto, using(crate::proofs::Marking::marks_one, crate::proofs::Marking::marks_nothing))]
fn mark(marks: &mut Vec<bool>, target: usize)
    ensures { Marks target marks.old.items marks.new.items }
{
    if target < marks.len() {
        marks[target] = true;
    }
}
