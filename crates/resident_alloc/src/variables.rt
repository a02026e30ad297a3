ghost use Rattle.std.specs.Prelude.{◌≡◌, IfOk, []};
ghost use Rattle.gr_base.specs.Prelude.{Within};
ghost use Rattle.resident_alloc.specs.Ranges.{AreShort, IsPlannable};
ghost use Rattle.resident_alloc.specs.ResidentPlan.{planned, planned_behind};

use crate::owning::storage_of;
use crate::placing::place_by;
use crate::serving::slot_by;
use crate::storages::Planned;
use crate::wants::{Context, Want};
use gr_base::Memory;
use std::alloc::Global;

// What is planned for a variable, where others are declared before it. The only error is running out of memory.
fn plan_variable(alloc: Global, context: Context, v: Want) -> Result<Planned, Memory>
    requires { IsPlannable context }
    ensures { IfOk result (λ of. of ≡ planned context.entry.size context.entry.all.now context.entry.before.now v) }
{
    let storage = storage_of(alloc, context, v)?;
    let place = place_by(alloc, context, v, storage)?;
    let slot = slot_by(alloc, context, v.class, storage)?;
    Ok(Planned {
        storage,
        place,
        slot,
    })
}

/// What is planned for each of some variables, in order of declaration. The only error is running out of memory.
pub(crate) fn planned_all(alloc: Global, size: u32, all: &[Want]) -> Result<Vec<Planned>, Memory>
    requires size { Within 8 512 size }
    requires short { AreShort all.now }
    ensures { IfOk result (λ planned. planned.items ≡ planned_behind size all.now [] all.now) }
{
    let mut of_all = Vec::with_capacity(alloc, all.len())?;
    for (i, v) in all.iter().enumerate() {
        let context = Context {
            size,
            all,
            before: &all[..i],
        };
        let one = plan_variable(alloc, context, *v)?;
        of_all.push(one)?;
    }
    Ok(of_all)
}
