ghost use Rattle.std.specs.Prelude.{◌≡◌, IfOk, OnOk, is_some, length, pos, map};
ghost use Rattle.gr_base.specs.Prelude.{found_under};
ghost use Rattle.src_tree.specs.Prelude.{expr_tree, statement_of, Number, SetVariable};
ghost use Rattle.procs_tree.specs.Frames.{named_by};
ghost use Rattle.procs_tree.specs.Inlined.{no_name, renamed};
ghost use Rattle.std.specs.Option.{option_map};
ghost use Rattle.procs_pruning.specs.Handed.{argument_seen};
ghost use Rattle.procs_tree.specs.Seen.{parameter_of};
ghost use Rattle.procs_pruning.specs.LiveSeen.{placed_of, trees_seen};
ghost use Rattle.src_procs.specs.Views.{binding_of, names_of, unbound};
ghost use Rattle.src_procs.specs.Expanding as spec;
ghost use Rattle.procs_tree.specs.Inlined as inlined;
ghost use Rattle.src_procs.specs.Begun as begun;

use crate::expanding::{Made, put_statement};
use crate::scopes::{Bounds, Naming, new_name_of, no_name, renamed};
use gr_base::Memory;
use gr_word::{Label, Name};
use itoa::Buffer;
use procs_pruning::{Kept, argument_at};
use procs_tree::Param;
use src_tree::{Decl, Expr, Stmt};
use std::alloc::Global;
use std::collections::BTreeMap;

// The bytes of the name of new variable number `n`.
fn new_bytes(alloc: Global, n: u64) -> Result<Vec<u8>, Memory>
    ensures { IfOk result (λ bytes. bytes.items ≡ inlined.new_name n) }
{
    let mut bytes = Vec::new(alloc);
    bytes.extend_from_slice(b"__")?;
    let mut buffer = Buffer::new();
    bytes.extend_from_slice(buffer.format(n).as_bytes())?;
    Ok(bytes)
}

// The name of new variable number `n`.
pub(crate) fn new_name(alloc: Global, n: u64) -> Result<Name, Memory>
    ensures { IfOk result (λ name. name ≡ inlined.new_name n) }
{
    let bytes = new_bytes(alloc, n)?;
    Name::new(alloc, bytes.as_slice())
}

// The name of the next new variable.
pub(crate) fn next_name(alloc: Global, made: &Made) -> Result<Name, Memory>
    ensures { IfOk result (λ name. name ≡ inlined.new_name (length made.now.labels.items)) }
{
    new_name(alloc, made.labels.len() as u64)
}

fn is_bound<'a>(bounds: &Bounds<'a>, name: &'a [u8]) -> bool
    ensures { result ≡ is_some (found_under bounds.now name.now) }
{
    bounds.get(&name).is_some()
}

// One more name, unless it is bound already.
fn bind<'a>(bounds: &mut Bounds<'a>, name: &'a [u8], stands: Name) -> Result<(), Memory>
    ensures { OnOk result (found_under bounds.new ≡ spec.bound_after (found_under bounds.old) name.now stands) }
{
    if is_bound(bounds, name) {
        return Ok(());
    }
    match bounds.insert(name, stands) {
        Ok(_) => Ok(()),
        Err(_) => Err(Memory),
    }
}

// A new variable, with the name that refers to it and the assignment of its value.
pub(crate) fn with_new<'a>(
    made: &mut Made,
    bounds: &mut Bounds<'a>,
    label: Label,
    name: &'a Name,
    stands: Name,
    assigned: Stmt,
) -> Result<(), Memory>
    ensures { OnOk result (binding_of bounds.new made.new
        ≡ spec.with_variable (binding_of bounds.old made.old) label name.now stands (statement_of assigned)) }
{
    put_statement(&mut made.open_blocks, assigned)?;
    made.labels.push(label)?;
    bind(bounds, name.bytes(), stands)
}

// The assignment of an argument to a new variable.
fn new_assignment<'a>(
    alloc: Global,
    caller: &Naming<'a>,
    stands: &Name,
    argument: &Expr,
) -> Result<Stmt, Memory>
    ensures { IfOk result (λ s. statement_of s
        ≡ SetVariable stands.now (renamed (names_of caller.now) (expr_tree argument.now))) }
{
    let target = stands.copy(alloc)?;
    let value = renamed(alloc, caller, argument)?;
    Ok(Stmt::Set(target, value))
}

// What an argument names for the caller.
pub(crate) fn alias<'a>(alloc: Global, caller: &Naming<'a>, e: &Expr) -> Result<Name, Memory>
    ensures { IfOk result (λ name. name ≡ named_by no_name (names_of caller.now) (expr_tree e.now)) }
{
    match e {
        Expr::Var(name) => new_name_of(alloc, caller, name),
        Expr::Num(_) => no_name(alloc),
        Expr::Item(_, _) => no_name(alloc),
        Expr::Bin(_, _, _) => no_name(alloc),
    }
}

// A name that refers to a variable of the caller.
pub(crate) fn with_alias<'a>(
    bounds: &mut Bounds<'a>,
    name: &'a Name,
    other: Name,
) -> Result<(), Memory>
    ensures { OnOk result (found_under bounds.new ≡ spec.bound_after (found_under bounds.old) name.now other) }
{
    bind(bounds, name.bytes(), other)
}

// A scalar parameter with its argument.
fn with_value<'a>(
    alloc: Global,
    caller: &Naming<'a>,
    made: &mut Made,
    bounds: &mut Bounds<'a>,
    label: Label,
    name: &'a Name,
    argument: &Expr,
) -> Result<(), Memory>
    ensures { OnOk result (binding_of bounds.new made.new
        ≡ spec.with_new (binding_of bounds.old made.old) label name.now
        (renamed (names_of caller.now) (expr_tree argument.now))) }
{
    let stands = next_name(alloc, made)?;
    let assigned = new_assignment(alloc, caller, &stands, argument)?;
    with_new(made, bounds, label, name, stands, assigned)
}

// A parameter with its argument.
fn with_parameter<'a>(
    alloc: Global,
    caller: &Naming<'a>,
    made: &mut Made,
    bounds: &mut Bounds<'a>,
    param: &'a Param,
    argument: &Expr,
) -> Result<(), Memory>
    ensures { OnOk result (binding_of bounds.new made.new
        ≡ spec.with_parameter (names_of caller.now) (binding_of bounds.old made.old) (parameter_of param.now)
        (expr_tree argument.now)) }
{
    match param {
        Param::Scalar(label, name) => {
            with_value(alloc, caller, made, bounds, *label, name, argument)
        }
        Param::Array(name) => {
            let other = alias(alloc, caller, argument)?;
            with_alias(bounds, name, other)
        }
    }
}

// A parameter with its argument, if there is one.
fn with_argument<'a>(
    alloc: Global,
    caller: &Naming<'a>,
    made: &mut Made,
    bounds: &mut Bounds<'a>,
    param: &'a Param,
    argument: Option<&Expr>,
) -> Result<(), Memory>
    ensures { OnOk result (binding_of bounds.new made.new
        ≡ begun.with_argument (names_of caller.now) (binding_of bounds.old made.old) (parameter_of param.now)
        (option_map argument_seen argument.entry)) }
{
    match argument {
        None => Ok(()),
        Some(e) => with_parameter(alloc, caller, made, bounds, param, e),
    }
}

fn with_kept<'a>(
    alloc: Global,
    caller: &Naming<'a>,
    made: &mut Made,
    bounds: &mut Bounds<'a>,
    kept: &[Kept<'a>],
    arguments: &[&Expr],
) -> Result<(), Memory>
    ensures { OnOk result (binding_of bounds.new made.new
        ≡ begun.with_kept (names_of caller.now) (binding_of bounds.old made.old) (map placed_of kept.now)
        (trees_seen arguments.now)) }
{
    for k in kept {
        let argument = argument_at(arguments, k.at);
        with_argument(alloc, caller, made, bounds, k.param, argument)?;
    }
    Ok(())
}

// A local, which begins as 0.
fn with_local<'a>(
    alloc: Global,
    made: &mut Made,
    bounds: &mut Bounds<'a>,
    local: &'a Decl,
) -> Result<(), Memory>
    ensures { OnOk result (binding_of bounds.new made.new
        ≡ spec.with_new (binding_of bounds.old made.old) local.now.label local.now.name (Number (pos 0))) }
{
    let stands = next_name(alloc, made)?;
    let zero = Stmt::Set(stands.copy(alloc)?, Expr::Num(0));
    with_new(made, bounds, local.label, &local.name, stands, zero)
}

pub(crate) fn with_locals<'a>(
    alloc: Global,
    made: &mut Made,
    bounds: &mut Bounds<'a>,
    locals: &'a [Decl],
) -> Result<(), Memory>
    ensures { OnOk result (binding_of bounds.new made.new
        ≡ spec.with_locals (binding_of bounds.old made.old) locals.now) }
{
    for local in locals {
        with_local(alloc, made, bounds, local)?;
    }
    Ok(())
}

// The names that a procedure needs for a call of it, with the assignments to its new variables.
pub(crate) fn bound_names<'a>(
    alloc: Global,
    caller: &Naming<'a>,
    made: &mut Made,
    kept: &[Kept<'a>],
    locals: &'a [Decl],
    arguments: &[&Expr],
) -> Result<Bounds<'a>, Memory>
    ensures { IfOk result (λ bounds. binding_of bounds made.new
        ≡ spec.with_locals (begun.with_kept (names_of caller.now) (unbound made.old) (map placed_of kept.now)
        (trees_seen arguments.now)) locals.now) }
{
    let mut bounds: Bounds<'a> = BTreeMap::new(alloc);
    with_kept(alloc, caller, made, &mut bounds, kept, arguments)?;
    with_locals(alloc, made, &mut bounds, locals)?;
    Ok(bounds)
}
