ghost use Rattle.std.specs.Prelude.{◌≡◌, IfOk};
ghost use Rattle.std.specs.List.{AllByRecursion};
ghost use Rattle.src_tree.specs.Prelude.{LengthFits};
ghost use Rattle.flow_types.specs.Wants.{declared_want, declared_wants};

use crate::declarations::words_in;
use gr_base::Memory;
use gr_word::Want;
use src_tree::{Decl, shape_of};
use std::alloc::Global;

// What inputs must fit for a variable.
fn declared_want(alloc: Global, decl: &Decl) -> Result<Want, Memory>
    requires { LengthFits decl.now.length }
    ensures { IfOk result (λ want. want ≡ declared_want decl.now) }
{
    let name = decl.name.copy(alloc)?;
    let words = words_in(decl.length);
    Ok(Want {
        name,
        label: decl.label,
        shape: shape_of(decl.length),
        length: words as u32,
    })
}

// What inputs must fit, one want for each variable in order.
pub(crate) fn declared_wants(alloc: Global, decls: &[Decl]) -> Result<Vec<Want>, Memory>
    requires { AllByRecursion (λ d. LengthFits d.length) decls.now }
    ensures { IfOk result (λ wants. wants.items ≡ declared_wants decls.now) }
{
    let mut wants = Vec::new(alloc);
    for decl in decls {
        wants.push(declared_want(alloc, decl)?)?;
    }
    Ok(wants)
}
