ghost use Rattle.std.specs.Prelude.{◌<◌, ◌+◌, ◌^◌, length, IfOk};
ghost use Rattle.symbolic_values.specs.Prelude.{IsTable, NamesBelow, built, trees_of};
ghost use Rattle.region_walk.specs.Tables.{FindsNumber};

use gr_base::Memory;
use symbolic_values::{Node, Values};

/// The number of the tree of a node. It adds at most one value.
#[inline(always)]
pub fn number_for(values: &mut Values, node: Node) -> Result<u32, Memory>
    requires table { IsTable values.old }
    requires room { length values.old + 1 < 2 ^ 32 }
    requires names { NamesBelow (length values.old) node }
    ensures { IfOk result (λ number. FindsNumber 1 values.old values.new (built (trees_of values.old) node) number) }
{
    values.add(node)
}
