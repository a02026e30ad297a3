ghost use Rattle.std.specs.Prelude.{◌≡◌, IfOk, false};
ghost use Rattle.module_lowering.specs.Lowering.{prepared};
ghost use Rattle.flat_code.specs.Limits.{light, needs_name};
ghost use Rattle.flat_code.specs.Owned.{statement_of};

use crate::choices::conditions;
use crate::numbers::bound;
use crate::trees::Flat;
use crate::variables::values;
use gr_base::Memory;
use std::alloc::Global;

/// A statement of which only forms of the core remain, as far as the passes over flat trees make them. Its new
/// variables have numbers from `n` on. The only error is that memory ran out.
pub fn prepared(alloc: Global, n: usize, s: Flat) -> Result<Flat, Memory>
    ensures { IfOk result (λ made. statement_of made ≡ prepared (light false) needs_name n (statement_of s)) }
{
    let above = n.max(bound(&s)?);
    let s = conditions(alloc, false, s)?;
    let above = above.max(bound(&s)?);
    let s = values(alloc, above, s)?;
    conditions(alloc, true, s)
}
