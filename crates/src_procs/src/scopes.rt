ghost use Rattle.std.specs.Prelude.{◌≡◌, IfOk};
ghost use Rattle.gr_base.specs.Prelude.{found_under};
ghost use Rattle.src_tree.specs.Prelude.{Element, Operation, expr_tree, test_of};
ghost use Rattle.procs_tree.specs.Inlined.{is_hidden, kept_name, no_name, renamed, renamed_test};
ghost use Rattle.src_procs.specs.Expanding.{looked_up};
ghost use Rattle.src_procs.specs.Views.{names_of};

use gr_base::Memory;
use gr_word::{Name, Op};
use procs_tree::is_hidden;
use src_tree::{Expr, Guard};
use std::alloc::Global;
use std::collections::BTreeMap;

// The names of a procedure, and what each is in the program.
pub(crate) type Bounds<'a> = BTreeMap<&'a [u8], Name>;

// What names are in the program: the file's own stay, those of a procedure are bound.
#[derive(Drop)]
pub(crate) enum Naming<'a> {
    Own,
    Bound(Bounds<'a>),
}

// The scope of statements: how many procedures come before them, and what their names are.
#[derive(Drop)]
pub(crate) struct Scope<'a> {
    pub callable: usize,
    pub names: Naming<'a>,
}

pub(crate) fn no_name(alloc: Global) -> Result<Name, Memory>
    ensures { IfOk result (λ name. name ≡ no_name) }
{
    Name::new(alloc, b"__")
}

fn kept_name(alloc: Global, name: &Name) -> Result<Name, Memory>
    ensures { IfOk result (λ kept. kept ≡ kept_name name.now) }
{
    if is_hidden(name.bytes()) {
        return no_name(alloc);
    }
    name.copy(alloc)
}

fn bound_name<'a>(alloc: Global, bounds: &Bounds<'a>, name: &Name) -> Result<Name, Memory>
    ensures { IfOk result (λ stands. stands ≡ looked_up (found_under bounds.now) name.now) }
{
    match bounds.get(name.bytes()) {
        None => no_name(alloc),
        Some(stands) => stands.copy(alloc),
    }
}

pub(crate) fn new_name_of<'a>(
    alloc: Global,
    names: &Naming<'a>,
    name: &Name,
) -> Result<Name, Memory>
    ensures { IfOk result (λ stands. stands ≡ names_of names.now name.now) }
{
    match names {
        Naming::Own => kept_name(alloc, name),
        Naming::Bound(bounds) => bound_name(alloc, bounds, name),
    }
}

// An element of an array, of its parts.
fn element(alloc: Global, name: Name, index: Expr) -> Result<Expr, Memory>
    ensures { IfOk result (λ r. expr_tree r ≡ Element name (expr_tree index)) }
{
    let index = Box::new(alloc, index)?;
    Ok(Expr::Item(name, index))
}

// An operation, of its parts.
fn operation(alloc: Global, op: Op, left: Expr, right: Expr) -> Result<Expr, Memory>
    ensures { IfOk result (λ r. expr_tree r ≡ Operation op (expr_tree left) (expr_tree right)) }
{
    let left = Box::new(alloc, left)?;
    let right = Box::new(alloc, right)?;
    Ok(Expr::Bin(op, left, right))
}

pub(crate) fn renamed<'a>(alloc: Global, names: &Naming<'a>, e: &Expr) -> Result<Expr, Memory>
    ensures { IfOk result (λ r. expr_tree r ≡ renamed (names_of names.now) (expr_tree e.now)) }
{
    match e {
        Expr::Num(value) => Ok(Expr::Num(*value)),
        Expr::Var(name) => Ok(Expr::Var(new_name_of(alloc, names, name)?)),
        Expr::Item(name, index) => {
            let name = new_name_of(alloc, names, name)?;
            let index = renamed(alloc, names, index)?;
            element(alloc, name, index)
        }
        Expr::Bin(op, left, right) => {
            let left = renamed(alloc, names, left)?;
            match renamed(alloc, names, right) {
                Ok(right) => operation(alloc, *op, left, right),
                Err(error) => {
                    drop(left);
                    Err(error)
                }
            }
        }
    }
}

pub(crate) fn renamed_guard<'a>(
    alloc: Global,
    names: &Naming<'a>,
    guard: &Guard,
) -> Result<Guard, Memory>
    ensures { IfOk result (λ g. test_of g ≡ renamed_test (names_of names.now) (test_of guard.now)) }
{
    let left = renamed(alloc, names, &guard.left)?;
    match renamed(alloc, names, &guard.right) {
        Ok(right) => Ok(Guard {
            cmp: guard.cmp,
            left,
            right,
        }),
        Err(error) => {
            drop(left);
            Err(error)
        }
    }
}
