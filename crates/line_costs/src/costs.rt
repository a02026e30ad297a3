ghost use Rattle.std.specs.Prelude.{◌≡◌, ◌≤◌, ◌<◌, ◌+◌, ◌^◌, IfOk, IsTrue, false, if◌then◌else◌, length, slice_index, replicate};
ghost use Rattle.lt_isa.specs.Prelude.{final_from, trace_from};
ghost use Rattle.processor.specs.Prelude.{EndsAs};
ghost use Rattle.line_costs.specs.Costs.{accesses_of, CountsSteps, end_cycle, part_of, total};
ghost use Rattle.line_costs.specs.Counting.{added};

use crate::single_steps::{Went, accesses_at, next_place, step};
use gr_base::Memory;
use processor::{Bank, End, Machine};
use std::alloc::Global;

/// Where an instruction is counted.
#[derive(Clone, Copy)]
pub struct Part {
    /// Its row.
    pub row: u32,
    /// Whether its cycles only pad an arm of a branch.
    pub pads: bool,
}

/// What a run costs, by rows.
#[derive(Drop)]
pub struct Costs {
    /// The cycles of each row. A step takes the cycles from its predecessor's end to its own, waiting included.
    pub cycles: Vec<u64>,
    /// The loads and stores of blocks of each row.
    pub accesses: Vec<u64>,
    /// How many of the cycles of each row are padding.
    pub padding: Vec<u64>,
    /// How the run ends.
    pub end: End,
}

/// Runs a machine from its start up to a cycle, and counts what its steps take, in this many rows. `parts` has the row
/// of each instruction; an instruction without a valid row is counted in the first row.
///
/// A branch that is taken has to cost more than one that isn't, since the machine's cycle is all that tells them apart.
pub fn run_costs<B: Bank + Drop>(
    alloc: Global,
    machine: &mut Machine<'_, B>,
    parts: &[Part],
    rows: usize,
    cycles: u32,
) -> Result<Costs, Memory>
    requires live { IsTrue machine.old.live }
    requires place { machine.old.state.place ≡ 0 }
    requires cycle { machine.old.state.cycle ≡ 0 }
    requires taken { 2 ≤ machine.old.object.profile.taken }
    requires rows { 1 ≤ rows }
    ensures end { IfOk result
        (λ costs. EndsAs (trace_from machine.old.object machine.old.state cycles) costs.end) }
    ensures cycles { IfOk result (λ costs. total costs.cycles.items
        ≡ end_cycle costs.end (final_from machine.old.object machine.old.state cycles)) }
    ensures accesses { IfOk result (λ costs. total costs.accesses.items
        ≡ accesses_of (trace_from machine.old.object machine.old.state cycles)) }
    ensures rows { IfOk result
        (λ costs. CountsSteps machine.old.object machine.old.state cycles parts.now rows costs) }
{
    let mut costs = no_costs(alloc, rows)?;
    let mut place = 0usize;
    let _ = machine.live();
    'running: loop {
        match step(machine, place, cycles) {
            Went::On(instruction, took) => {
                let part = part_at(parts, rows, place);
                costs.add(part, took, accesses_at(instruction));
                place = next_place(machine.object(), place, instruction, took);
            }
            Went::Halted(at) => {
                costs.end = End::Halted(at);
                return Ok(costs);
            }
            Went::Spent => return Ok(costs),
        }
    }
}

fn no_costs(alloc: Global, rows: usize) -> Result<Costs, Memory>
    ensures cycles { IfOk result (λ costs. costs.cycles.items ≡ replicate rows 0) }
    ensures accesses { IfOk result (λ costs. costs.accesses.items ≡ replicate rows 0) }
    ensures padding { IfOk result (λ costs. costs.padding.items ≡ replicate rows 0) }
    ensures end { IfOk result (λ costs. costs.end ≡ End.Spent) }
{
    Ok(Costs {
        cycles: vec![in alloc; 0; rows]?,
        accesses: vec![in alloc; 0; rows]?,
        padding: vec![in alloc; 0; rows]?,
        end: End::Spent,
    })
}

// Where the instruction at a place is counted.
fn part_at(parts: &[Part], rows: usize, place: usize) -> Part
    requires { 1 ≤ rows }
    ensures part { result ≡ part_of parts.now rows place }
    ensures within { result.row < rows }
{
    if place < parts.len() {
        let part = parts[place];
        if (part.row as usize) < rows {
            return part;
        }
    }
    Part {
        row: 0,
        pads: false,
    }
}

impl Costs {
    // Adds what a step takes to the row of its instruction.
    fn add(&mut self, part: Part, took: u64, accesses: u64)
        requires cycles { part.row < length self.old.cycles.items }
        requires accesses { part.row < length self.old.accesses.items }
        requires padding { part.row < length self.old.padding.items }
        requires cycles_fit { slice_index self.old.cycles.items part.row + took < 2 ^ 64 }
        requires accesses_fit { slice_index self.old.accesses.items part.row + accesses < 2 ^ 64 }
        requires padding_fits { slice_index self.old.padding.items part.row + took < 2 ^ 64 }
        ensures cycles { self.new.cycles.items ≡ added self.old.cycles.items part.row took }
        ensures accesses { self.new.accesses.items ≡ added self.old.accesses.items part.row accesses }
        ensures padding { self.new.padding.items
            ≡ added self.old.padding.items part.row (if part.pads then took else 0) }
        ensures end { self.new.end ≡ self.old.end }
    {
        let row = part.row as usize;
        add_to(&mut self.cycles, row, took);
        add_to(&mut self.accesses, row, accesses);
        add_to(&mut self.padding, row, padding_of(part, took));
    }
}

fn padding_of(part: Part, took: u64) -> u64
    ensures value { result ≡ (if part.pads then took else 0) }
    ensures most { result ≤ took }
{
    if part.pads { took } else { 0 }
}

fn add_to(counts: &mut Vec<u64>, row: usize, more: u64)
    requires within { row < length counts.old.items }
    requires fits { slice_index counts.old.items row + more < 2 ^ 64 }
    ensures { counts.new.items ≡ added counts.old.items row more }
{
    counts[row] = counts[row] + more;
}
