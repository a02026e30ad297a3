// Whether the branch at a place may join those that are crossed.
ghost use Rattle.std.specs.Prelude.{◌≡◌, ◌<◌, [], true, false, length, slice_get, slice_index_or, Some, None, IfOk};
ghost use Rattle.lt_isa.specs.Prelude.{IsInRange};
ghost use Rattle.note_infer.specs.Growth.{AnswersJoin};
ghost use Rattle.note_infer.specs.Ways.{is_crossed};
ghost use Rattle.note_infer.specs.Branches.{IsBranchOf, BranchIsAt};
ghost use Rattle.note_infer.specs.Candidates.{IsCandidate, IsCandidateAt};

use crate::crossed::Crossed;
use crate::looks::copy_at;
use gr_word::Memory;
use lt_isa::{Instr, Object};
use region_walk::{Carried, RegionValues, carry};
use std::alloc::Global;
use trace_patterns::Known;

/// What a branch compares, and the offset of its jump.
#[derive(Clone, Copy, Debug, PartialEq, Eq)]
pub struct Branch {
    pub ra: u8,
    pub rb: u8,
    pub offset: i32,
}

/// A branch that joins, and the join of its region.
#[derive(Clone, Copy, Debug, PartialEq, Eq)]
pub struct Joining {
    pub place: u32,
    pub join: u32,
}

/// A branch that is reached and isn't crossed, which compares a secret register; it joins if its region is shaped.
#[derive(Debug, Drop)]
pub struct Candidate {
    pub known: Known,
    pub branch: Branch,
}

/// Where the region of the branch at a place ends, if the branch may join those that are crossed.
pub fn may_join(
    alloc: Global,
    object: &Object,
    crossed: &Crossed,
    shared: &mut RegionValues,
    states: &[Option<Known>],
    place: u32,
) -> Result<Option<u32>, Memory>
    requires range { IsInRange object.now }
    requires bare { object.now.notes ≡ [] }
    requires size { length states.now ≡ length object.now.code }
    ensures { IfOk result (λ may. AnswersJoin object.now crossed.now.list states.now place may) }
{
    if place as usize >= object.code().len() {
        return Ok(None);
    }
    match candidate_at(object, crossed, states, place) {
        None => Ok(None),
        Some(candidate) => joins_at(
            alloc,
            object,
            crossed,
            shared,
            states,
            place,
            &candidate.known,
            candidate.branch,
        ),
    }
}

/// The branch at a place, if it joins where its region is shaped.
pub fn candidate_at(
    object: &Object,
    crossed: &Crossed,
    states: &[Option<Known>],
    place: u32,
) -> Option<Candidate>
    requires range { IsInRange object.now }
    requires size { length states.now ≡ length object.now.code }
    requires inside { place < length states.now }
    ensures { IsCandidate object.now crossed.now.list states.now place result }
{
    if crossed.has(place) {
        return None;
    }
    match copy_at(states, place as usize) {
        None => None,
        Some(known) => match branch_of(object.code()[place as usize]) {
            None => None,
            Some(branch) => secret_branch(object, crossed, states, place, known, branch),
        },
    }
}

// A branch that is reached and isn't crossed, if it compares a secret register.
fn secret_branch(
    object: &Object,
    crossed: &Crossed,
    states: &[Option<Known>],
    place: u32,
    known: Known,
    branch: Branch,
) -> Option<Candidate>
    requires range { IsInRange object.now }
    requires apart { is_crossed crossed.now.list place ≡ false }
    requires at { slice_index_or states.now place None ≡ Some known }
    requires branch { BranchIsAt object.now place branch }
    ensures { IsCandidate object.now crossed.now.list states.now place result }
{
    if known.either_secret(branch.ra, branch.rb) {
        Some(Candidate { known, branch })
    } else {
        None
    }
}

// Where the region of such a branch ends, if it is shaped.
fn joins_at(
    alloc: Global,
    object: &Object,
    crossed: &Crossed,
    shared: &mut RegionValues,
    states: &[Option<Known>],
    place: u32,
    known: &Known,
    branch: Branch,
) -> Result<Option<u32>, Memory>
    requires range { IsInRange object.now }
    requires bare { object.now.notes ≡ [] }
    requires inside { place < length object.now.code }
    requires candidate { IsCandidateAt object.now crossed.now.list states.now place known.now branch }
    ensures { IfOk result (λ may. AnswersJoin object.now crossed.now.list states.now place may) }
{
    match carry(alloc, object, shared, known, place, branch.offset) {
        Carried::Memory => Err(Memory),
        Carried::Unshaped => Ok(None),
        Carried::Joins { join, .. } => Ok(Some(join)),
    }
}

// The branch that an instruction is, if it is one.
fn branch_of(instr: Instr) -> Option<Branch>
    ensures { IsBranchOf instr result }
{
    match instr {
        Instr::Br { ra, rb, offset, .. } => Some(Branch { ra, rb, offset }),
        _ => None,
    }
}
