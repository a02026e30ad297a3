ghost use Rattle.std.specs.Prelude.{◌≡◌, ◌<◌, IfOk, IfSome, None, length, map};
ghost use Rattle.gr_base.specs.Prelude.{found_under};
ghost use Rattle.procs_tree.specs.InlineFaults.{none_named, procedures_fault};
ghost use Rattle.procs_tree.specs.Numbered.{AreNumbered, found_before};
ghost use Rattle.procs_tree.specs.Seen.{procedure_of};
ghost use Rattle.procs_tree.specs.Numbered.{found_at};

use crate::own_names::{Numbers, add_name};
use crate::trees::Proc;
use gr_base::Memory;
use std::alloc::Global;
use std::collections::BTreeMap;

// The numbers of procedures by their names, each of which is declared once.
pub(crate) fn numbers_of<'a>(alloc: Global, procs: &'a [Proc]) -> Result<Numbers<'a>, Memory>
    requires { procedures_fault none_named 0 (map procedure_of procs.now) ≡ None }
    ensures { IfOk result (λ numbers. AreNumbered (map procedure_of procs.now) (found_under numbers)) }
{
    let mut numbers = BTreeMap::new(alloc);
    for (i, p) in procs.iter().enumerate() {
        add_name(&mut numbers, p.name.bytes(), i)?;
    }
    Ok(numbers)
}

/// The procedure that a name calls, of the first ones.
pub fn called<'a>(
    procs: &[Proc],
    numbers: &Numbers<'a>,
    callable: usize,
    name: &[u8],
) -> Option<usize>
    ensures within { IfSome result (λ k. k < length procs.now) }
    ensures before { IfSome result (λ k. k < callable) }
    ensures found { found_at procs.now result
        ≡ found_before (map procedure_of procs.now) callable (found_under numbers.now name.now) }
{
    let Some(k) = numbers.get(name).copied() else {
        return None;
    };
    if k < callable.min(procs.len()) {
        return Some(k);
    }
    None
}
