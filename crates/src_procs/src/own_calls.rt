ghost use Rattle.std.specs.Prelude.{◌≡◌, IfOk, OnOk, map, reverse, take};
ghost use Rattle.src_tree.specs.Prelude.{SetVariable, expr_tree, statement_of};
ghost use Rattle.src_procs.specs.Expanding.{begun, expanded_one};
ghost use Rattle.procs_tree.specs.Inlined.{kept_name, renamed};
ghost use Rattle.procs_pruning.specs.Pruned.{AreReady};
ghost use Rattle.procs_tree.specs.Seen.{parameter_of, procedure_of, trees_of};
ghost use Rattle.procs_tree.specs.Trees.{Call};
ghost use Rattle.src_procs.specs.Views.{binding_of, held_of, own_held, unbound};
ghost use Rattle.src_procs.specs.Expanding as spec;

use crate::binding::{alias, next_name, with_alias, with_locals, with_new};
use crate::expanding::{Held, Made, waits_for_call};
use crate::kept_names::own_expr;
use crate::scopes::{Bounds, Naming, Scope};
use crate::stepping::{expand, scoped};
use gr_base::Memory;
use gr_word::{Label, Name};
use procs_pruning::Procedures;
use procs_tree::{Param, Proc, called};
use src_tree::{Decl, Expr, Stmt};
use std::alloc::Global;
use std::collections::BTreeMap;

// The assignment of an argument of a file's own call to a new variable.
fn own_assignment(alloc: Global, stands: &Name, argument: Expr) -> Result<Stmt, Memory>
    ensures { IfOk result (λ s. statement_of s ≡ SetVariable stands.now (renamed kept_name (expr_tree argument))) }
{
    let value = own_expr(alloc, argument)?;
    match stands.copy(alloc) {
        Ok(target) => Ok(Stmt::Set(target, value)),
        Err(error) => {
            drop(value);
            Err(error)
        }
    }
}

// A scalar parameter with its argument.
fn with_own_value<'a>(
    alloc: Global,
    made: &mut Made,
    bounds: &mut Bounds<'a>,
    label: Label,
    name: &'a Name,
    argument: Expr,
) -> Result<(), Memory>
    ensures { OnOk result (binding_of bounds.new made.new
        ≡ spec.with_new (binding_of bounds.old made.old) label name.now (renamed kept_name (expr_tree argument))) }
{
    match next_name(alloc, made) {
        Ok(stands) => {
            let assigned = own_assignment(alloc, &stands, argument)?;
            with_new(made, bounds, label, name, stands, assigned)
        }
        Err(error) => {
            drop(argument);
            Err(error)
        }
    }
}

// A parameter with its argument.
fn with_own_parameter<'a>(
    alloc: Global,
    made: &mut Made,
    bounds: &mut Bounds<'a>,
    param: &'a Param,
    argument: Expr,
) -> Result<(), Memory>
    ensures { OnOk result (binding_of bounds.new made.new
        ≡ spec.with_parameter kept_name (binding_of bounds.old made.old) (parameter_of param.now) (expr_tree argument)) }
{
    match param {
        Param::Scalar(label, name) => with_own_value(alloc, made, bounds, *label, name, argument),
        Param::Array(name) => {
            let other = alias(alloc, &Naming::Own, &argument);
            drop(argument);
            with_alias(bounds, name, other?)
        }
    }
}

// The parameters, as far as there are arguments.
#[tactic(auto, using(crate::proofs::OwnCalls::one_given, crate::proofs::OwnCalls::none_given))]
fn with_own_parameters<'a>(
    alloc: Global,
    made: &mut Made,
    bounds: &mut Bounds<'a>,
    params: &'a [Param],
    arguments: Vec<Expr>,
) -> Result<(), Memory>
    ensures { OnOk result (binding_of bounds.new made.new
        ≡ spec.with_parameters kept_name (binding_of bounds.old made.old) (map parameter_of params.now)
        (trees_of arguments.items)) }
{
    let mut left = arguments;
    left.reverse();
    for param in params {
        match left.pop() {
            None => return Ok(()),
            Some(argument) => with_own_parameter(alloc, made, bounds, param, argument)?,
        }
    }
    Ok(())
}

// The names of a procedure for one of a file's own calls, whose arguments are moved into the program. All parameters are
// bound: together these calls have no more arguments than the file.
fn own_bounds<'a>(
    alloc: Global,
    made: &mut Made,
    params: &'a [Param],
    locals: &'a [Decl],
    arguments: Vec<Expr>,
) -> Result<Bounds<'a>, Memory>
    ensures { IfOk result (λ bounds. binding_of bounds made.new
        ≡ spec.with_locals (spec.with_parameters kept_name (unbound made.old) (map parameter_of params.now)
        (trees_of arguments.items)) locals.now) }
{
    let mut bounds: Bounds<'a> = BTreeMap::new(alloc);
    with_own_parameters(alloc, made, &mut bounds, params, arguments)?;
    with_locals(alloc, made, &mut bounds, locals)?;
    Ok(bounds)
}

// What is held when one of a file's own calls begins.
fn begin_own_call<'a>(
    alloc: Global,
    procs: &'a [Proc],
    k: usize,
    p: &'a Proc,
    arguments: Vec<Expr>,
    made: Made,
) -> Result<Held<'a>, Memory>
    ensures { IfOk result (λ h. held_of procs.now h
        ≡ begun (procedure_of p.now) (reverse (take k (map procedure_of procs.now))) kept_name (trees_of arguments.items)
        (own_held procs.now made)) }
{
    let mut made = made;
    let bounds = own_bounds(
        alloc,
        &mut made,
        p.params.as_slice(),
        p.locals.as_slice(),
        arguments,
    )?;
    let mut held = Held {
        scopes: Vec::new(alloc),
        made,
    };
    let outer = Scope {
        callable: procs.len(),
        names: Naming::Own,
    };
    let own = Scope {
        callable: k,
        names: Naming::Bound(bounds),
    };
    scoped(procs, &mut held, outer)?;
    scoped(procs, &mut held, own)?;
    Ok(held)
}

// What was made, with the statements that one of the file's own calls is replaced by.
pub(crate) fn with_own_call<'b, 'a>(
    alloc: Global,
    file: Procedures<'b, 'a>,
    name: &Name,
    arguments: Vec<Expr>,
    made: Made,
) -> Result<Made, Memory>
    requires { AreReady file }
    ensures { IfOk result (λ m. own_held file.entry.procs.now m
        ≡ expanded_one (Call name.now (trees_of arguments.items)) (own_held file.entry.procs.now made)) }
{
    let Procedures {
        procs,
        numbers,
        bodies,
    } = file;
    match called(procs, numbers, procs.len(), name.bytes()) {
        None => Ok(made),
        Some(k) => {
            let body = bodies[k].statements.as_slice();
            let mut waiting = Vec::new(alloc);
            waits_for_call(&mut waiting, body)?;
            let mut held = begin_own_call(alloc, procs, k, &procs[k], arguments, made)?;
            expand(alloc, file, &mut waiting, &mut held)?;
            let Held { scopes, made } = held;
            drop(scopes);
            Ok(made)
        }
    }
}
