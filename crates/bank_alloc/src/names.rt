ghost use Rattle.std.specs.Prelude.{◌≡◌, IfOk};
ghost use Rattle.gr_base.specs.Prelude.{found_under};
ghost use Rattle.src_tree.specs.Prelude.{context_of, DeclaredOnce};

use gr_base::Memory;
use src_tree::{Decl, Names, shape_of};
use std::alloc::Global;
use std::collections::BTreeMap;

/// The label and the shape of each declared name. The only error is running out of memory.
#[tactic(auto, using(crate::proofs::KnownNames::one_more))]
pub(crate) fn gather<'a>(alloc: Global, decls: &'a [Decl]) -> Result<Names<'a>, Memory>
    requires { DeclaredOnce decls.now }
    ensures { IfOk result (λ names. found_under names ≡ context_of decls.now) }
{
    let mut names = BTreeMap::new(alloc);
    for decl in decls {
        let kind = (decl.label, shape_of(decl.length));
        names.insert(decl.name.bytes(), kind)?;
    }
    Ok(names)
}
