//! In which row of a table each instruction of a compiled program is: a row for each line of the source, and one for the
//! start and the end.

ghost use Rattle.std.specs.Prelude.{◌≡◌, IfOk, length};
ghost use Rattle.lt_isa.specs.Prelude.{ProfileFits};

use crate::procedure_lines::lines_without_calls;
use crate::reasons::slots_of;
use crate::source_texts::SourceText;
use call_steps::targets::Target;
use flow_types::Typed;
use gr_base::Memory;
use line_costs::{CompiledCode, Owner, Owners, Part, owners_of};
use lt_isa::Instr;
use procs_parser::parse_procs;
use run_tools::reports::Report;
use run_tools::sources::{ReadSource, SourceWords};
use src_parser::ParseError;
use std::alloc::Global;

/// The row of the loads at a program's start and the stores at its end. Each line of the source has the row of its number.
pub(crate) const START_AND_END: u32 = 0;

/// The status if the code isn't of the form that the compiler gives it.
const OTHER_FORM: u8 = 1;

/// In which row each instruction of a program is.
#[derive(Drop)]
pub(crate) struct CodeRows {
    pub(crate) source: SourceText,
    /// The row of each instruction, and whether it is padding.
    pub(crate) parts: Vec<Part>,
    // whether an instruction belongs to a row
    used: Vec<bool>,
}

/// The rows of a program's code. `None` if the code isn't of the form that the compiler gives it.
pub(crate) fn rows_of_code(
    alloc: Global,
    source: ReadSource,
    code: &[Instr],
    asked: SourceWords<'_>,
) -> Result<Option<CodeRows>, Memory>
    requires { ProfileFits asked.target.profile }
{
    let ReadSource { text, program } = source;
    let source = SourceText::of_file(alloc, text)?;
    let Some(owners) = owners_in(alloc, &program, code, &asked.target)? else {
        return Ok(None);
    };
    let Some(lines) = lines_of(alloc, &source, asked.procs)? else {
        return Ok(None);
    };
    let Some(parts) = parts_of(alloc, &owners, &lines)? else {
        return Ok(None);
    };
    let used = used_rows(alloc, &parts, row_count(&lines))?;
    Ok(Some(CodeRows {
        source,
        parts,
        used,
    }))
}

/// The report of a tool that prints nothing, since the code has an unknown form.
pub(crate) fn other_form(alloc: Global, tool: &str) -> Result<Report, Memory>
    ensures { IfOk result (λ report. report.status ≡ 1) }
{
    Ok(Report {
        status: OTHER_FORM,
        text: format!(in alloc; "no {tool}: the code of this program has an unknown form\n")?,
    })
}

// The statement of each instruction of a program's code.
fn owners_in(
    alloc: Global,
    program: &Typed,
    code: &[Instr],
    target: &Target,
) -> Result<Option<Owners>, Memory>
    requires { ProfileFits target.now.profile }
{
    let slots = slots_of(alloc, program, target)?;
    let compiled = CompiledCode {
        code,
        decls: program.program().decls.as_slice(),
        slots: &slots,
    };
    owners_of(alloc, compiled, program.program())
}

// The line of each statement of a program, from 0, in the order of its text without calls.
fn lines_of(alloc: Global, source: &SourceText, procs: bool) -> Result<Option<Vec<u32>>, Memory> {
    let lines = source.statement_lines(alloc)?;
    if !procs {
        return Ok(Some(lines));
    }
    match parse_procs(alloc, source.tokens()) {
        Ok(file) => lines_without_calls(alloc, &file, &lines),
        Err(ParseError::Memory) => Err(Memory),
        Err(_) => Ok(None),
    }
}

// How many rows there are: one for each line up to the last with a statement, and one for the start and the end.
fn row_count(lines: &[u32]) -> usize {
    let mut count: usize = 1;
    for line in lines {
        count = count.max((*line as usize).saturating_add(2));
    }
    count
}

// The rows of instructions with these owners. `None` if a statement has no line.
fn parts_of(alloc: Global, owners: &Owners, lines: &[u32]) -> Result<Option<Vec<Part>>, Memory> {
    let mut parts = Vec::new(alloc);
    for owner in owners.iter() {
        let Some(part) = part_of(*owner, lines) else {
            return Ok(None);
        };
        parts.push(part)?;
    }
    Ok(Some(parts))
}

fn start_and_end() -> Part {
    Part {
        row: START_AND_END,
        pads: false,
    }
}

// The row of an instruction, `None` if its statement has no line.
fn part_of(owner: Option<Owner>, lines: &[u32]) -> Option<Part> {
    let Some(owner) = owner else {
        return Some(start_and_end());
    };
    let line = lines.get(owner.statement as usize)?;
    Some(Part {
        row: line.saturating_add(1),
        pads: owner.pads,
    })
}

// Which of this many rows have an instruction.
fn used_rows(alloc: Global, parts: &[Part], count: usize) -> Result<Vec<bool>, Memory> {
    let mut used = vec![in alloc; false; count]?;
    for part in parts {
        let row = part.row as usize;
        if row < used.len() {
            used[row] = true;
        }
    }
    Ok(used)
}

impl CodeRows {
    /// How many rows there are.
    pub(crate) fn count(&self) -> usize
        ensures { result ≡ length self.now.used.items }
    {
        self.used.len()
    }

    /// The row of an instruction by its place, and whether it only pads.
    pub(crate) fn part_at(&self, place: usize) -> Part {
        match self.parts.get(place) {
            Some(part) => *part,
            None => start_and_end(),
        }
    }

    /// Whether an instruction belongs to a row.
    pub(crate) fn is_used(&self, row: usize) -> bool {
        match self.used.get(row) {
            Some(used) => *used,
            None => false,
        }
    }
}
