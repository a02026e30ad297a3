//! What each line of a program costs in a run.

ghost use Rattle.std.specs.Prelude.{◌≡◌, ◌⊎◌, ◌≤◌, IfOk, length};
ghost use Rattle.lt_isa.specs.Prelude.{IsInRange, ProfileFits, FitsObject, final, start_state, trace};
ghost use Rattle.processor.specs.Prelude.{EndsAs};
ghost use Rattle.line_costs.specs.Prelude.{accesses_of, CountsSteps, end_cycle, total};
ghost use Rattle.run_tools.specs.Statuses.{SaysOfOne};

use crate::code_rows::{CodeRows, other_form, rows_of_code};
use crate::profile_lines::table;
use call_steps::given::Given;
use call_steps::oblivious::{SeededOram, load_seeded};
use gr_base::Memory;
use line_costs::{Costs, run_costs};
use run_tools::reports::{Report, end_status};
use run_tools::sources::{ReadSource, SourceWords};
use std::alloc::Global;

/// The report of what each line of a source costs in the run of its object on inputs. The status says how the run
/// ended, or is 1 if the code isn't of the form that the compiler gives it.
pub fn profile_report(
    alloc: Global,
    source: ReadSource,
    given: &Given,
    asked: SourceWords<'_>,
    cycles: u32,
) -> Result<Report, Memory>
    requires profile { ProfileFits asked.target.profile }
    requires in_range { IsInRange given.now.accepted }
    requires fits { FitsObject given.now.accepted given.now.inputs }
    ensures { IfOk result (λ report. (report.status ≡ 1)
        ⊎ SaysOfOne (trace given.now.accepted given.now.inputs cycles) report.status) }
{
    let object = given.accepted.object();
    let Some(rows) = rows_of_code(alloc, source, object.code(), asked)? else {
        return other_form(alloc, "profile");
    };
    if object.profile().taken < 2 || rows.count() < 1 {
        return other_form(alloc, "profile");
    }
    let costs = costs_of_run(alloc, given, &rows, cycles)?;
    let text = table(alloc, &rows, &costs)?;
    Ok(Report {
        status: end_status(costs.end),
        text,
    })
}

// What a run costs, by rows.
fn costs_of_run(alloc: Global, given: &Given, rows: &CodeRows, cycles: u32) -> Result<Costs, Memory>
    requires in_range { IsInRange given.now.accepted }
    requires fits { FitsObject given.now.accepted given.now.inputs }
    requires taken { 2 ≤ given.now.accepted.profile.taken }
    requires rows { 1 ≤ length rows.now.used.items }
    ensures end { IfOk result
        (λ costs. EndsAs (trace given.now.accepted given.now.inputs cycles) costs.end) }
    ensures cycles { IfOk result (λ costs. total costs.cycles.items
        ≡ end_cycle costs.end (final given.now.accepted given.now.inputs cycles)) }
    ensures accesses { IfOk result (λ costs. total costs.accesses.items
        ≡ accesses_of (trace given.now.accepted given.now.inputs cycles)) }
    ensures rows { IfOk result (CountsSteps given.now.accepted
        (start_state given.now.accepted given.now.inputs) cycles
        rows.now.parts.items (length rows.now.used.items)) }
{
    let mut machine = load_seeded::<SeededOram>(alloc, &given.accepted, &given.inputs, 0, 0)?;
    run_costs(alloc, &mut machine, &rows.parts, rows.count(), cycles)
}
