ghost use Rattle.std.specs.Prelude.{◌≡◌, ◌≤◌, IfOk, length, count_by};
ghost use Rattle.src_tree.specs.Prelude.{IsWithinLimits, source_of, IsTyped};
ghost use Rattle.resident_alloc.specs.Ranges.{AreShort};
ghost use Rattle.resident_alloc.specs.Residents.{is_of, wants_of};

use bank_alloc::placing::words_of;
use bank_alloc::{Class, classes_of};
use gr_base::Memory;
use src_tree::{Decl, Program};
use std::alloc::Global;

/// What a variable wants of memory.
#[derive(Clone, Copy, Debug, PartialEq, Eq)]
pub struct Want {
    pub class: Class,
    /// In words.
    pub words: u32,
}

/// What the plan for a variable depends on, besides the variable.
#[derive(Clone, Copy)]
pub(crate) struct Context<'a> {
    /// The words of a block.
    pub size: u32,
    /// The variables of the program.
    pub all: &'a [Want],
    /// Those that are declared before.
    pub before: &'a [Want],
}

/// Whether a variable is of a class.
pub(crate) fn is_of(class: Class, v: Want) -> bool
    ensures { result ≡ is_of class v }
{
    class == v.class
}

/// How many of some variables are of a class.
pub(crate) fn count_of(class: Class, vs: &[Want]) -> usize
    ensures count { result ≡ count_by (is_of class) vs.now }
    ensures few { result ≤ length vs.now }
{
    vs.iter().filter(|v| is_of(class, **v)).count()
}

/// What each variable of a program wants, in order of declaration. The only error is running out of memory.
pub(crate) fn wants_of(alloc: Global, p: &Program) -> Result<Vec<Want>, Memory>
    requires typed { IsTyped (source_of p.now) }
    requires within { IsWithinLimits (source_of p.now) }
    ensures wants { IfOk result (λ wants. wants.items ≡ wants_of (source_of p.now)) }
    ensures short { IfOk result (λ wants. AreShort wants.items) }
{
    let classes = classes_of(alloc, p)?;
    let decls = p.decls.as_slice();
    let mut wants = Vec::with_capacity(alloc, decls.len())?;
    for (i, decl) in decls.iter().enumerate() {
        let class = classes[i];
        let words = words_of(decl);
        wants.push(Want { class, words })?;
    }
    Ok(wants)
}
