ghost use Rattle.std.specs.Prelude.{◌≡◌, IfOk, map};
ghost use Rattle.src_tree.specs.Prelude.{source_of, IsTyped};
ghost use Rattle.bank_alloc.specs.Classes.{class_of};
ghost use Rattle.bank_alloc.specs.Known.{class_in};

use crate::indexes::{Indexed, indexed_in, is_member};
use crate::names::gather;
use gr_base::Memory;
use gr_word::Label;
use src_tree::{Decl, Program};
use std::alloc::Global;

/// How a variable is placed.
#[derive(Clone, Copy, Debug, PartialEq, Eq)]
pub enum Class {
    /// A public scalar, in the first block of plain memory.
    PublicScalar,
    /// A secret scalar, in the first block of encrypted memory.
    SecretScalar,
    /// A public array, in plain memory.
    PublicArray,
    /// A secret array without a secret index, in encrypted memory.
    EncryptedArray,
    /// A secret array with a secret index, in an oblivious bank.
    ObliviousArray,
}

/// The class of a variable, where the arrays with a secret index are given.
pub(crate) fn class_in<'a>(indexed: &Indexed<'a>, decl: &'a Decl) -> Class
    ensures { result ≡ class_in indexed.now decl.now }
{
    match decl.length {
        None => match decl.label {
            Label::Public => Class::PublicScalar,
            Label::Secret => Class::SecretScalar,
        },
        Some(_) => match decl.label {
            Label::Public => Class::PublicArray,
            Label::Secret => {
                if is_member(indexed, decl.name.bytes()) {
                    Class::ObliviousArray
                } else {
                    Class::EncryptedArray
                }
            }
        },
    }
}

// The class of each of some variables, where the arrays with a secret index are given.
fn classes_in<'a>(
    alloc: Global,
    indexed: &Indexed<'a>,
    decls: &'a [Decl],
) -> Result<Vec<Class>, Memory>
    ensures { IfOk result (λ classes. classes.items ≡ map (class_in indexed.now) decls.now) }
{
    let mut classes = Vec::with_capacity(alloc, decls.len())?;
    for decl in decls {
        classes.push(class_in(indexed, decl))?;
    }
    Ok(classes)
}

/// The class of each variable of a well-typed program, in order of declaration. The only error is running out of
/// memory.
pub fn classes_of(alloc: Global, p: &Program) -> Result<Vec<Class>, Memory>
    requires typed { IsTyped (source_of p.now) }
    ensures { IfOk result
        (λ classes. classes.items ≡ map (class_of (source_of p.now)) (source_of p.now).decls) }
{
    let decls = p.decls.as_slice();
    let names = gather(alloc, decls)?;
    let indexed = indexed_in(alloc, &names, p.body.as_slice())?;
    classes_in(alloc, &indexed, decls)
}
