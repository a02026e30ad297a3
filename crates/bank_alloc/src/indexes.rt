ghost use Rattle.std.specs.Prelude.{◌≡◌, ◌&&◌, IfOk, OnOk, bytes_eq};
ghost use Rattle.src_tree.specs.Prelude.{context_of, label_of, secret_label, expr_tree, test_of, statement_of, block_of_all};
ghost use Rattle.bank_alloc.specs.Indexes.{secret_index_in, secret_index_in_test, secret_index_in_statement, secret_index_in_block};
ghost use Rattle.gr_base.specs.Prelude.{found_under};
ghost use Rattle.bank_alloc.specs.Known.{GainsNames, is_member};

use gr_base::Memory;
use gr_word::{Label, Name};
use src_tree::{Expr, Guard, Names, Stmt, higher, label_at};
use std::alloc::Global;
use std::collections::BTreeSet;

/// The names of arrays that have a secret index.
pub(crate) type Indexed<'a> = BTreeSet<&'a [u8]>;

/// Whether a name is one of them.
pub(crate) fn is_member<'a>(indexed: &Indexed<'a>, name: &'a [u8]) -> bool
    ensures { result ≡ is_member indexed.now name.now }
{
    indexed.contains(&name)
}

// Adds the name of an array, where its index is secret.
#[tactic(auto, using(crate::proofs::KnownNames::gains_public))]
fn mark<'a>(indexed: &mut Indexed<'a>, index: Label, array: &'a Name) -> Result<(), Memory>
    ensures { OnOk result (GainsNames indexed.old indexed.new (λ name. bytes_eq name array.now && secret_label index)) }
{
    match index {
        Label::Public => Ok(()),
        Label::Secret => {
            match indexed.insert(array.bytes()) {
                Ok(_) => Ok(()),
                Err(_) => Err(Memory),
            }
        }
    }
}

// The label of an expression, whose arrays with a secret index are added.
#[tactic(auto, using(crate::proofs::KnownNames::gains))]
fn look<'a>(names: &Names<'a>, indexed: &mut Indexed<'a>, e: &'a Expr) -> Result<Label, Memory>
    ensures label { IfOk result (λ label. label ≡ label_of (found_under names.now) (expr_tree e.now)) }
    ensures gains { OnOk result
        (GainsNames indexed.old indexed.new (λ name. secret_index_in (found_under names.now) name (expr_tree e.now))) }
{
    match e {
        Expr::Num(_) => Ok(Label::Public),
        Expr::Var(name) => Ok(label_at(names, name.bytes())),
        Expr::Item(name, index) => {
            let index = look(names, indexed, index)?;
            mark(indexed, index, name)?;
            Ok(higher(label_at(names, name.bytes()), index))
        }
        Expr::Bin(_, left, right) => {
            let left = look(names, indexed, left)?;
            let right = look(names, indexed, right)?;
            Ok(higher(left, right))
        }
    }
}

#[tactic(auto, using(crate::proofs::KnownNames::gains))]
fn look_at<'a>(names: &Names<'a>, indexed: &mut Indexed<'a>, guard: &'a Guard) -> Result<(), Memory>
    ensures { OnOk result (GainsNames indexed.old indexed.new
        (λ name. secret_index_in_test (found_under names.now) name (test_of guard.now))) }
{
    look(names, indexed, &guard.left)?;
    look(names, indexed, &guard.right)?;
    Ok(())
}

#[cycle(walks)]
#[tactic(auto, using(crate::proofs::KnownNames::gains))]
fn walk_statement<'a>(
    names: &Names<'a>,
    indexed: &mut Indexed<'a>,
    s: &'a Stmt,
) -> Result<(), Memory>
    ensures { OnOk result (GainsNames indexed.old indexed.new
        (λ name. secret_index_in_statement (found_under names.now) name (statement_of s.now))) }
{
    match s {
        Stmt::Set(_, value) => {
            look(names, indexed, value)?;
            Ok(())
        }
        Stmt::Put(array, index, value) => {
            let index = look(names, indexed, index)?;
            mark(indexed, index, array)?;
            look(names, indexed, value)?;
            Ok(())
        }
        Stmt::If(guard, first, second) => {
            look_at(names, indexed, guard)?;
            walk_block(names, indexed, first.as_slice())?;
            walk_block(names, indexed, second.as_slice())
        }
        Stmt::While(guard, body) => {
            look_at(names, indexed, guard)?;
            walk_block(names, indexed, body.as_slice())
        }
    }
}

// Adds the arrays with a secret index in some statements.
#[cycle(walks)]
fn walk_block<'a>(
    names: &Names<'a>,
    indexed: &mut Indexed<'a>,
    statements: &'a [Stmt],
) -> Result<(), Memory>
    ensures { OnOk result (GainsNames indexed.old indexed.new
        (λ name. secret_index_in_block (found_under names.now) name (block_of_all statements.now))) }
{
    for statement in statements {
        walk_statement(names, indexed, statement)?;
    }
    Ok(())
}

/// The names of the arrays with a secret index in some statements, where `names` has the label of each variable. The
/// only error is running out of memory.
pub(crate) fn indexed_in<'a>(
    alloc: Global,
    names: &Names<'a>,
    statements: &'a [Stmt],
) -> Result<Indexed<'a>, Memory>
    ensures { IfOk result (λ indexed. (is_member indexed
        ≡ (λ name. secret_index_in_block (found_under names.now) name (block_of_all statements.now)))) }
{
    let mut indexed = BTreeSet::new(alloc);
    walk_block(names, &mut indexed, statements)?;
    Ok(indexed)
}
