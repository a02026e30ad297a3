//! The assembly of a program with the source line of each instruction, as an assembly text with comments.

ghost use Rattle.std.specs.Prelude.{◌≡◌, ◌⊎◌, IfOk};
ghost use Rattle.lt_isa.specs.Prelude.{ProfileFits};

use crate::code_rows::{CodeRows, START_AND_END, other_form, rows_of_code};
use crate::profile_lines::push_number;
use crate::source_texts::{piece, push_ascii};
use gr_base::Memory;
use line_costs::Part;
use lt_assembler::disassemble;
use lt_isa::{Instr, Object, latency};
use run_tools::reports::Report;
use run_tools::sources::{ReadSource, SourceWords};
use std::alloc::Global;

/// The most bytes of a source line that are printed.
const MOST_SHOWN: usize = 100;

/// The column at which the comment of an instruction begins.
const COMMENT: usize = 36;

/// The width of the column of places.
const PLACES: usize = 8;

/// The width of the column of cycles.
const CYCLES: usize = 8;

/// What the comments of a listing mean.
const HEAD: &str = "\
; After each line of the source are the instructions that were made of it, each with its place and its cycles.\n\
; `pads` marks those that only make both arms of a branch on a secret show the same events.\n";

// A listing as far as it is made, with the place of the next instruction.
#[derive(Drop)]
struct Listing<'a> {
    text: String,
    place: usize,
    // the row of the instruction before
    row: Option<u32>,
    // the note of the next instruction
    note: &'a [u8],
    // the bank whose block each slot has
    banks: [u8; 8],
}

/// The report of the listing of an object that was made of a source. The status is 1 if the code isn't of the form that
/// the compiler gives it.
pub fn listing_report(
    alloc: Global,
    source: ReadSource,
    object: &Object,
    asked: SourceWords<'_>,
) -> Result<Report, Memory>
    requires { ProfileFits asked.target.profile }
    ensures { IfOk result (λ report. (report.status ≡ 0) ⊎ (report.status ≡ 1)) }
{
    let Some(rows) = rows_of_code(alloc, source, object.code(), asked)? else {
        return other_form(alloc, "listing");
    };
    Ok(Report {
        status: 0,
        text: listing_text(alloc, object, &rows)?,
    })
}

// The listing of an object, with the row of each of its instructions.
fn listing_text(alloc: Global, object: &Object, rows: &CodeRows) -> Result<String, Memory> {
    let assembly = disassemble(alloc, object)?;
    let lines = lines_of(alloc, &rows.source.text)?;
    let mut listing = Listing {
        text: String::from_str(alloc, HEAD)?,
        place: 0,
        row: None,
        note: &[],
        banks: [0; 8],
    };
    for words in assembly.split(|byte| *byte == b'\n') {
        let Some(first) = words.first() else {
            continue;
        };
        if *first == b'.' {
            listing.push_directive(words)?;
        } else {
            listing.push_instruction(alloc, words, object, rows, &lines)?;
        }
    }
    Ok(listing.text)
}

// The lines of a text.
fn lines_of<'a>(alloc: Global, text: &'a [u8]) -> Result<Vec<&'a [u8]>, Memory> {
    let mut lines = Vec::new(alloc);
    for line in text.split(|byte| *byte == b'\n') {
        lines.push(line)?;
    }
    Ok(lines)
}

impl<'a> Listing<'a> {
    // Adds a line of the object's head; a note waits for its instruction.
    fn push_directive(&mut self, words: &'a [u8]) -> Result<(), Memory> {
        if words.starts_with(b".note") {
            self.note = words;
            return Ok(());
        }
        push_ascii(&mut self.text, words)?;
        self.text.push_str("\n")?;
        Ok(())
    }

    // Adds an instruction with its note, after its source line if that isn't the line of the instruction before.
    fn push_instruction(
        &mut self,
        alloc: Global,
        words: &[u8],
        object: &Object,
        rows: &CodeRows,
        lines: &[&[u8]],
    ) -> Result<(), Memory> {
        let part = rows.part_at(self.place);
        if self.row != Some(part.row) {
            self.push_source(alloc, part.row, lines)?;
            self.row = Some(part.row);
        }
        if !self.note.is_empty() {
            push_indented(&mut self.text, self.note)?;
            self.text.push_str("\n")?;
            self.note = &[];
        }
        push_indented(&mut self.text, words)?;
        self.push_comment(alloc, words.len(), part, object)?;
        self.place = self.place.saturating_add(1);
        Ok(())
    }

    // Adds the source line of a row.
    fn push_source(&mut self, alloc: Global, row: u32, lines: &[&[u8]]) -> Result<(), Memory> {
        if row == START_AND_END {
            self.text.push_str("; start and end\n")?;
            return Ok(());
        }
        self.text
            .push_str(format!(in alloc; "; line {row}: ")?.as_str())?;
        if let Some(line) = lines.get((row as usize).saturating_sub(1)) {
            push_ascii(&mut self.text, piece(line.trim_ascii_end(), 0, MOST_SHOWN))?;
        }
        self.text.push_str("\n")?;
        Ok(())
    }

    // Adds the place and the cycles of an instruction, whose words have this many bytes.
    fn push_comment(
        &mut self,
        alloc: Global,
        width: usize,
        part: Part,
        object: &Object,
    ) -> Result<(), Memory> {
        for _ in width.min(COMMENT)..COMMENT {
            self.text.push_str(" ")?;
        }
        self.text.push_str(" ;")?;
        push_number(alloc, &mut self.text, self.place as u64, PLACES)?;
        self.push_cycles(alloc, object)?;
        self.text
            .push_str(if part.pads { "  pads\n" } else { "\n" })?;
        Ok(())
    }

    // Adds the cycles of the next instruction: of a branch those if it isn't taken and if it is.
    fn push_cycles(&mut self, alloc: Global, object: &Object) -> Result<(), Memory> {
        let Some(instruction) = object.code().get(self.place) else {
            return Ok(());
        };
        let bank = self.bank_of(instruction);
        if usize::from(bank) >= object.banks().len() {
            return Ok(());
        }
        let cycles = u64::from(latency(object, instruction, false, bank));
        push_number(alloc, &mut self.text, cycles, CYCLES)?;
        if let Instr::Br { .. } = instruction {
            let taken = latency(object, instruction, true, bank);
            self.text
                .push_str(format!(in alloc; " or {taken}")?.as_str())?;
        }
        Ok(())
    }

    // The bank that an instruction accesses, 0 if it accesses none.
    fn bank_of(&mut self, instruction: &Instr) -> u8 {
        match instruction {
            Instr::Ldb { slot, bank, .. } => {
                let slot = usize::from(*slot);
                if slot < 8 {
                    self.banks[slot] = *bank;
                }
                *bank
            }
            Instr::Stb { slot } => match self.banks.get(usize::from(*slot)) {
                Some(bank) => *bank,
                None => 0,
            },
            _ => 0,
        }
    }
}

fn push_indented(text: &mut String, words: &[u8]) -> Result<(), Memory> {
    text.push_str("    ")?;
    push_ascii(text, words)
}
