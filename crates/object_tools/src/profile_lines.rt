//! The lines of a program as rows of a table of costs.

use crate::code_rows::{CodeRows, START_AND_END};
use crate::source_texts::{piece, push_ascii};
use gr_base::Memory;
use line_costs::Costs;
use processor::End;
use std::alloc::Global;

/// The most bytes of a line that are printed.
const MOST_SHOWN: usize = 60;

/// The width of a column of numbers.
const WIDTH: usize = 12;

/// The table of a run's costs, each row with its line of the text, and how the run ended.
pub(crate) fn table(alloc: Global, rows: &CodeRows, costs: &Costs) -> Result<String, Memory> {
    let mut text = String::new(alloc);
    text.push_str("      cycles    accesses     padding  line\n")?;
    push_row(alloc, &mut text, costs, START_AND_END as usize)?;
    text.push_str("     -  start and end\n")?;
    push_lines(alloc, &mut text, rows, costs)?;
    push_total(alloc, &mut text, costs)?;
    push_end(alloc, &mut text, costs.end)?;
    Ok(text)
}

// Adds the rows of the lines that have instructions.
fn push_lines(
    alloc: Global,
    text: &mut String,
    rows: &CodeRows,
    costs: &Costs,
) -> Result<(), Memory> {
    for (number, line) in rows.source.text.split(|byte| *byte == b'\n').enumerate() {
        let row = number.saturating_add(1);
        if rows.is_used(row) {
            push_row(alloc, text, costs, row)?;
            push_line(alloc, text, row, line)?;
        }
    }
    Ok(())
}

fn push_end(alloc: Global, text: &mut String, end: End) -> Result<(), Memory> {
    match end {
        End::Halted(at) => text.push_str(format!(in alloc; "halted {at}\n")?.as_str())?,
        End::Spent => text.push_str("spent\n")?,
    }
    Ok(())
}

// Adds the numbers of a row.
fn push_row(alloc: Global, text: &mut String, costs: &Costs, row: usize) -> Result<(), Memory> {
    push_number(alloc, text, count_at(&costs.cycles, row), WIDTH)?;
    push_number(alloc, text, count_at(&costs.accesses, row), WIDTH)?;
    push_number(alloc, text, count_at(&costs.padding, row), WIDTH)
}

// Adds the sums of all rows.
fn push_total(alloc: Global, text: &mut String, costs: &Costs) -> Result<(), Memory> {
    push_number(alloc, text, sum_of(&costs.cycles), WIDTH)?;
    push_number(alloc, text, sum_of(&costs.accesses), WIDTH)?;
    push_number(alloc, text, sum_of(&costs.padding), WIDTH)?;
    text.push_str("        total\n")?;
    Ok(())
}

fn count_at(counts: &[u64], row: usize) -> u64 {
    match counts.get(row) {
        Some(count) => *count,
        None => 0,
    }
}

fn sum_of(counts: &[u64]) -> u64 {
    let mut sum: u64 = 0;
    for count in counts {
        sum = sum.saturating_add(*count);
    }
    sum
}

/// Adds a number, aligned at the right.
pub(crate) fn push_number(
    alloc: Global,
    text: &mut String,
    number: u64,
    width: usize,
) -> Result<(), Memory> {
    let digits = format!(in alloc; "{number}")?;
    for _ in digits.len()..width.max(digits.len()) {
        text.push_str(" ")?;
    }
    text.push_str(digits.as_str())?;
    Ok(())
}

// Adds the number of a line and its text.
fn push_line(alloc: Global, text: &mut String, number: usize, line: &[u8]) -> Result<(), Memory> {
    push_number(alloc, text, number as u64, 6)?;
    text.push_str("  ")?;
    push_ascii(text, piece(line.trim_ascii_end(), 0, MOST_SHOWN))?;
    text.push_str("\n")?;
    Ok(())
}
