ghost use Rattle.std.specs.Prelude.{◌≡◌, IfOk};

use compile_step::object_of;
use gr_base::Memory;
use object_tools::listing_lines::listing_report;
use object_tools::reasons::layout_lines;
use run_tools::reports::{Outcome, Report};
use run_tools::sources::{ReadSource, SourceTool, SourceWords};
use std::alloc::Global;

/// The tool `layout SRC [--fast] [--block-log W] [--window P:O:C] [--procs]`: compiles a program in memory, and prints in
/// which bank and from which word on each variable is stored, and why: the secret index that makes an array oblivious,
/// or the slot of the scratchpad that holds the variable for the whole run or caches its blocks. With `--procs` the
/// names and the places are those of the program that `expand` prints.
///
/// Statuses: 0 the program was compiled; 2, 3, 5, 8 and 11 as of `compile`, with the same lines; 4 the text couldn't be
/// printed.
pub struct Layout;

impl SourceTool for Layout {
    const NAME: &'static str = "layout";

    fn report<'a>(alloc: Global, source: ReadSource, asked: SourceWords<'a>) -> Outcome<'a> {
        let object = object_of(alloc, &source.program, &asked.target)?;
        let lines = layout_lines(alloc, source, &object, asked)?;
        Ok(joined(alloc, &lines)?)
    }
}

// The report of these lines.
fn joined(alloc: Global, lines: &[String]) -> Result<Report, Memory>
    ensures { IfOk result (λ report. report.status ≡ 0) }
{
    let mut text = String::new(alloc);
    for line in lines {
        text.push_str(line.as_str())?;
    }
    Ok(Report { status: 0, text })
}

/// The tool `listing SRC [--fast] [--block-log W] [--window P:O:C] [--procs]`: compiles a program in memory, and prints its
/// assembly with each line of the source before the instructions that were made of it, and the place and the cycles of
/// each instruction. What isn't assembly is in comments, so the text assembles to the object that `compile` writes.
///
/// Statuses: 0 the listing was printed; 1 the code isn't of the form that the compiler gives it, so that no listing is
/// printed; 2, 3, 5, 8 and 11 as of `compile`, with the same lines; 4 the text couldn't be printed.
pub struct Listing;

impl SourceTool for Listing {
    const NAME: &'static str = "listing";

    fn report<'a>(alloc: Global, source: ReadSource, asked: SourceWords<'a>) -> Outcome<'a> {
        let object = object_of(alloc, &source.program, &asked.target)?;
        Ok(listing_report(alloc, source, &object, asked)?)
    }
}
