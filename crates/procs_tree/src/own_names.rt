ghost use Rattle.std.specs.Prelude.{◌≡◌, ◌++◌, ◌∷◌, ◌&&◌, [], IfOk, OnOk, map, option_map, is_some};
ghost use Rattle.std.specs.Option.{option_or};
ghost use Rattle.gr_base.specs.Prelude.{found_under};
ghost use Rattle.src_tree.specs.Prelude.{shown_place, expr_tree, test_of};
ghost use Rattle.procs_tree.specs.Seen.{statement_of, block_of_all, trees_of, parameter_of, procedure_of};
ghost use Rattle.procs_tree.specs.Seen.{names_seen};
ghost use Rattle.procs_tree.specs.CallCauses as causes;
ghost use Rattle.procs_tree.specs.InlineFaults as spec;

use crate::errors::InlineError;
use crate::trees::{PStmt, Param, Proc};
use gr_base::Memory;
use gr_word::Name;
use src_tree::{Decl, Expr, Guard};
use std::alloc::Global;
use std::collections::BTreeMap;

/// The numbers of names, by their bytes.
pub type Numbers<'a> = BTreeMap<&'a [u8], usize>;

/// Whether a name has a number.
pub fn has_bytes<'a>(names: &Numbers<'a>, name: &'a [u8]) -> bool
    ensures { result ≡ is_some (found_under names.now name.now) }
{
    names.get(&name).copied().is_some()
}

fn is_known<'a>(names: &Numbers<'a>, name: &'a Name) -> bool
    ensures { result ≡ is_some (found_under names.now name.now) }
{
    has_bytes(names, name.bytes())
}

// The number of a procedure in a refusal.
fn place(number: usize) -> u32
    ensures { result ≡ shown_place number }
{
    number.min(4294967295) as u32
}

/// Gives a name its number.
pub fn add_name<'a>(names: &mut Numbers<'a>, name: &'a [u8], n: usize) -> Result<(), Memory>
    ensures { OnOk result (found_under names.new ≡ spec.numbered (found_under names.old) name.now n) }
{
    match names.insert(name, n) {
        Ok(_) => Ok(()),
        Err(_) => Err(Memory),
    }
}

/// The name of a parameter.
pub fn parameter_name<'a>(param: &'a Param) -> &'a [u8]
    ensures { result.now ≡ causes.parameter_name (parameter_of param.now) }
{
    match param {
        Param::Scalar(_, name) => name.bytes(),
        Param::Array(name) => name.bytes(),
    }
}

// One name more.
fn add_bytes<'a>(names: &mut Vec<&'a [u8]>, name: &'a [u8]) -> Result<(), Memory>
    ensures { OnOk result (names_seen names.new.items ≡ names_seen names.old.items ++ name.now ∷ []) }
{
    names.push(name)?;
    Ok(())
}

// Names, followed by those of parameters.
fn with_parameters<'a>(
    mut names: Vec<&'a [u8]>,
    params: &'a [Param],
) -> Result<Vec<&'a [u8]>, Memory>
    ensures { IfOk result (λ r. names_seen r.items
        ≡ names_seen names.entry.items ++ map causes.parameter_name (map parameter_of params.now)) }
{
    for param in params {
        add_bytes(&mut names, parameter_name(param))?;
    }
    Ok(names)
}

// Names, followed by those of locals.
fn with_locals<'a>(mut names: Vec<&'a [u8]>, locals: &'a [Decl]) -> Result<Vec<&'a [u8]>, Memory>
    ensures { IfOk result (λ r. names_seen r.items ≡ names_seen names.entry.items ++ map spec.local_name locals.now) }
{
    for local in locals {
        add_bytes(&mut names, local.name.bytes())?;
    }
    Ok(names)
}

// The names of a procedure's parameters and locals.
fn own_names<'a>(alloc: Global, p: &'a Proc) -> Result<Vec<&'a [u8]>, Memory>
    ensures { IfOk result (λ names. names_seen names.items ≡ causes.own_names (procedure_of p.now)) }
{
    let names = with_parameters(Vec::new(alloc), p.params.as_slice())?;
    with_locals(names, p.locals.as_slice())
}

// The numbers of names, if each is declared once.
fn gather<'a>(alloc: Global, names: &[&'a [u8]]) -> Result<Option<Numbers<'a>>, Memory>
    ensures { IfOk result (λ r. option_map found_under r ≡ spec.numbered_all spec.none_named 0 (names_seen names.now)) }
{
    let mut known = BTreeMap::new(alloc);
    for i in 0..names.len() {
        if has_bytes(&known, names[i]) {
            return Ok(None);
        }
        add_name(&mut known, names[i], i)?;
    }
    Ok(Some(known))
}

// Whether all names of an expression are known.
fn knows<'a>(names: &Numbers<'a>, e: &'a Expr) -> bool
    ensures { result ≡ spec.knows (found_under names.now) (expr_tree e.now) }
{
    match e {
        Expr::Num(_) => true,
        Expr::Var(name) => is_known(names, name),
        Expr::Item(name, index) => is_known(names, name) && knows(names, index),
        Expr::Bin(_, left, right) => knows(names, left) && knows(names, right),
    }
}

fn knows_each<'a>(names: &Numbers<'a>, es: &'a [Expr]) -> bool
    ensures { result ≡ spec.knows_each (found_under names.now) (trees_of es.now) }
{
    for e in es {
        if !knows(names, e) {
            return false;
        }
    }
    true
}

fn knows_guard<'a>(names: &Numbers<'a>, guard: &'a Guard) -> bool
    ensures { result ≡ (spec.knows (found_under names.now) (test_of guard.now).left
        && spec.knows (found_under names.now) (test_of guard.now).right) }
{
    knows(names, &guard.left) && knows(names, &guard.right)
}

// Whether the names of an assignment to a variable are known.
fn knows_set<'a>(names: &Numbers<'a>, name: &'a Name, value: &'a Expr) -> bool
    ensures { result
        ≡ (is_some (found_under names.now name.now) && spec.knows (found_under names.now) (expr_tree value.now)) }
{
    is_known(names, name) && knows(names, value)
}

// Whether the names of an assignment to an element are known.
fn knows_element<'a>(names: &Numbers<'a>, name: &'a Name, index: &'a Expr, value: &'a Expr) -> bool
    ensures { result ≡ (is_some (found_under names.now name.now)
        && spec.knows (found_under names.now) (expr_tree index.now)
        && spec.knows (found_under names.now) (expr_tree value.now)) }
{
    is_known(names, name) && knows(names, index) && knows(names, value)
}

#[cycle(known)]
fn knows_statement<'a>(names: &Numbers<'a>, s: &'a PStmt) -> bool
    ensures { result ≡ spec.knows_statement (found_under names.now) (statement_of s.now) }
{
    match s {
        PStmt::Set(name, value) => knows_set(names, name, value),
        PStmt::Put(name, index, value) => knows_element(names, name, index, value),
        PStmt::If(guard, first, second) => {
            knows_guard(names, guard)
                && knows_block(names, first.as_slice())
                && knows_block(names, second.as_slice())
        }
        PStmt::While(guard, body) => knows_guard(names, guard)
            && knows_block(names, body.as_slice()),
        PStmt::Call(_, arguments) => knows_each(names, arguments.as_slice()),
    }
}

#[cycle(known)]
fn knows_block<'a>(names: &Numbers<'a>, statements: &'a [PStmt]) -> bool
    ensures { result ≡ spec.knows_block (found_under names.now) (block_of_all statements.now) }
{
    for statement in statements {
        if !knows_statement(names, statement) {
            return false;
        }
    }
    true
}

fn fault_where(test: bool, fault: InlineError) -> Option<InlineError>
    ensures { result ≡ spec.fault_where test fault }
{
    if test { Some(fault) } else { None }
}

// What is wrong with the names of procedure number `n`.
fn body_fault(alloc: Global, n: usize, p: &Proc) -> Result<Option<InlineError>, Memory>
    ensures { IfOk result (λ r. r ≡ spec.body_fault n
        (spec.numbered_all spec.none_named 0 (causes.own_names (procedure_of p.now))) (procedure_of p.now).body) }
{
    let own = own_names(alloc, p)?;
    match gather(alloc, own.as_slice())? {
        None => Ok(Some(InlineError::TwiceNamed(place(n)))),
        Some(names) => {
            let all = knows_block(&names, p.body.as_slice());
            Ok(fault_where(!all, InlineError::Undeclared(place(n))))
        }
    }
}

// The first fault of the names of procedures.
pub(crate) fn procedures_fault(alloc: Global, procs: &[Proc]) -> Result<Option<InlineError>, Memory>
    ensures { IfOk result (λ r. r ≡ spec.procedures_fault spec.none_named 0 (map procedure_of procs.now)) }
{
    let mut known = BTreeMap::new(alloc);
    for (i, p) in procs.iter().enumerate() {
        if is_known(&known, &p.name) {
            return Ok(Some(InlineError::TwiceNamed(place(i))));
        }
        match body_fault(alloc, i, p)? {
            Some(fault) => return Ok(Some(fault)),
            None => {}
        }
        add_name(&mut known, p.name.bytes(), i)?;
    }
    Ok(None)
}
