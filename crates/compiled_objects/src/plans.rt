ghost use Rattle.std.specs.Prelude.{◌≡◌, IfErr, IfOk, OnOk};
ghost use Rattle.gr_base.specs.Prelude.{Within};
ghost use Rattle.src_tree.specs.Prelude.{IsWithinLimits, source_of, IsTyped};
ghost use Rattle.scratch_alloc.specs.Prelude.{plan_from};
ghost use Rattle.resident_alloc.specs.Prelude.{ResidentsFit, ResidentsRefuse};
ghost use Rattle.compiled_objects.specs.FastLayout.{fast_plan};

use bank_alloc::PlaceError;
use resident_alloc::{ResidentPlan, resident_plan};
use spread_alloc::spread;
use src_tree::Program;
use std::alloc::Global;

/// Plans the memory of a program for `--fast`, where a block has 2^w words and the program is well typed and within the
/// limits that don't depend on a machine: the plan of [`resident_alloc::resident_plan`], with the arrays that
/// [`spread_alloc::spread`] keeps in several slots. It fails exactly if that first plan lacks room, with what lacks room
/// first. `Memory` says nothing of the program.
pub fn fast_plan(alloc: Global, p: &Program, w: u8) -> Result<ResidentPlan, PlaceError>
    requires typed { IsTyped (source_of p.now) }
    requires within { IsWithinLimits (source_of p.now) }
    requires block_log { Within 3 9 w }
    ensures plan { IfOk result (λ r. plan_from r.places r.slots ≡ fast_plan (source_of p.now) w) }
    ensures fits { OnOk result (ResidentsFit (source_of p.now) w) }
    ensures refused { IfErr result (λ e. ResidentsRefuse (source_of p.now) w e) }
{
    let mut plan = resident_plan(alloc, p, w)?;
    spread(alloc, w, &mut plan.places, &mut plan.slots)?;
    Ok(plan)
}
