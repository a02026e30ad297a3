ghost use Rattle.std.specs.Prelude.{◌≡◌, ◌++◌, [], IfOk, OnOk, length, map, reverse, take};
ghost use Rattle.gr_base.specs.Prelude.{found_under};
ghost use Rattle.src_tree.specs.Prelude.{expr_tree, test_of};
ghost use Rattle.std.specs.Option.{option_map};
ghost use Rattle.procs_pruning.specs.Handed.{argument_seen};
ghost use Rattle.procs_tree.specs.InlineFaults.{numbered};
ghost use Rattle.procs_tree.specs.Numbered.{AreNumbered, by_number};
ghost use Rattle.procs_pruning.specs.Pruned.{ArePruned, IsPruned, SameCode};
ghost use Rattle.procs_tree.specs.Seen.{parameter_of, procedure_of};
ghost use Rattle.procs_pruning.specs.LiveSeen.{bodies_of, body_of, live_block, live_of, placed_of, trees_seen};
ghost use Rattle.procs_pruning.specs.Needed as spec;

use crate::live::Live;
use gr_base::Memory;
use gr_word::Name;
use procs_tree::{Numbers, Param, Proc, add_name, called, has_bytes};
use src_tree::{Expr, Guard};
use std::alloc::Global;
use std::collections::BTreeMap;

/// A parameter that a call binds, and its place among the procedure's parameters.
#[derive(Drop)]
pub struct Kept<'a> {
    pub at: usize,
    pub param: &'a Param,
}

/// What is left of a procedure: its statements, the names that they need, and the parameters that a call binds. Calls are
/// begun thousands of times, and a procedure may have tens of thousands of parameters.
#[derive(Drop)]
pub struct Body<'a> {
    pub statements: Vec<Live<'a>>,
    pub needed: Numbers<'a>,
    pub kept: Vec<Kept<'a>>,
}

/// The procedures of a file, with what a call of one needs.
#[derive(Clone, Copy)]
pub struct Procedures<'b, 'a> {
    pub procs: &'a [Proc],
    /// Their numbers, by their names.
    pub numbers: &'b Numbers<'a>,
    /// What is left of each.
    pub bodies: &'b [Body<'a>],
}

fn mark_name<'a>(needed: &mut Numbers<'a>, name: &'a Name) -> Result<(), Memory>
    ensures { OnOk result (found_under needed.new ≡ numbered (found_under needed.old) name.now 0) }
{
    add_name(needed, name.bytes(), 0)
}

// The names of an expression are needed.
fn mark<'a>(needed: &mut Numbers<'a>, e: &'a Expr) -> Result<(), Memory>
    ensures { OnOk result (found_under needed.new ≡ spec.marked (found_under needed.old) (expr_tree e.now)) }
{
    match e {
        Expr::Num(_) => Ok(()),
        Expr::Var(name) => mark_name(needed, name),
        Expr::Item(name, index) => {
            mark_name(needed, name)?;
            mark(needed, index)
        }
        Expr::Bin(_, left, right) => {
            mark(needed, left)?;
            mark(needed, right)
        }
    }
}

fn mark_guard<'a>(needed: &mut Numbers<'a>, guard: &'a Guard) -> Result<(), Memory>
    ensures { OnOk result (found_under needed.new ≡ spec.marked
        (spec.marked (found_under needed.old) (test_of guard.now).left) (test_of guard.now).right) }
{
    mark(needed, &guard.left)?;
    mark(needed, &guard.right)
}

// The names of an assignment to a variable are needed.
fn mark_set<'a>(needed: &mut Numbers<'a>, name: &'a Name, value: &'a Expr) -> Result<(), Memory>
    ensures { OnOk result (found_under needed.new
        ≡ spec.marked (numbered (found_under needed.old) name.now 0) (expr_tree value.now)) }
{
    mark_name(needed, name)?;
    mark(needed, value)
}

// The names of an assignment to an element are needed.
fn mark_element<'a>(
    needed: &mut Numbers<'a>,
    name: &'a Name,
    index: &'a Expr,
    value: &'a Expr,
) -> Result<(), Memory>
    ensures { OnOk result (found_under needed.new
        ≡ spec.marked (spec.marked (numbered (found_under needed.old) name.now 0) (expr_tree index.now))
        (expr_tree value.now)) }
{
    mark_name(needed, name)?;
    mark(needed, index)?;
    mark(needed, value)
}

/// The argument at a place, if there is one.
#[tactic(auto, using(crate::proofs::NeededNames::argument_there, crate::proofs::NeededNames::no_argument))]
pub fn argument_at<'a>(arguments: &[&'a Expr], at: usize) -> Option<&'a Expr>
    ensures { option_map argument_seen result ≡ spec.argument_at (trees_seen arguments.now) at }
{
    if at >= arguments.len() {
        return None;
    }
    Some(arguments[at])
}

fn mark_argument<'a>(needed: &mut Numbers<'a>, argument: Option<&'a Expr>) -> Result<(), Memory>
    ensures { OnOk result (found_under needed.new
        ≡ spec.marked_argument (found_under needed.old) (option_map argument_seen argument.entry)) }
{
    match argument {
        None => Ok(()),
        Some(e) => mark(needed, e),
    }
}

// The names of the arguments that a call binds are needed.
fn mark_kept<'a>(
    needed: &mut Numbers<'a>,
    kept: &[Kept<'a>],
    arguments: &[&'a Expr],
) -> Result<(), Memory>
    ensures { OnOk result (found_under needed.new
        ≡ spec.marked_kept (found_under needed.old) (map placed_of kept.now) (trees_seen arguments.now)) }
{
    for k in kept {
        mark_argument(needed, argument_at(arguments, k.at))?;
    }
    Ok(())
}

fn mark_call<'b, 'a>(
    file: Procedures<'b, 'a>,
    callable: usize,
    needed: &mut Numbers<'a>,
    name: &'a Name,
    arguments: &[&'a Expr],
) -> Result<(), Memory>
    ensures { OnOk result (found_under needed.new ≡ spec.marked_kept (found_under needed.old)
        (spec.kept_in (bodies_of file.entry.bodies.now)
        (by_number (map procedure_of file.entry.procs.now) callable (found_under file.entry.numbers.now) name.now))
        (trees_seen arguments.now)) }
{
    match called(file.procs, file.numbers, callable, name.bytes()) {
        None => Ok(()),
        Some(k) => {
            if k >= file.bodies.len() {
                return Ok(());
            }
            mark_kept(needed, file.bodies[k].kept.as_slice(), arguments)
        }
    }
}

#[cycle(needed)]
fn mark_one<'b, 'a>(
    file: Procedures<'b, 'a>,
    callable: usize,
    needed: &mut Numbers<'a>,
    s: &Live<'a>,
) -> Result<(), Memory>
    ensures { OnOk result (found_under needed.new ≡ spec.marked_one (spec.kept_by (bodies_of file.entry.bodies.now)
        (by_number (map procedure_of file.entry.procs.now) callable (found_under file.entry.numbers.now)))
        (found_under needed.old) (live_of s.now)) }
{
    match s {
        Live::Set(name, value) => mark_set(needed, *name, *value),
        Live::Put(name, index, value) => mark_element(needed, *name, *index, *value),
        Live::If(guard, first, second) => {
            mark_guard(needed, *guard)?;
            mark_all(file, callable, needed, first.as_slice())?;
            mark_all(file, callable, needed, second.as_slice())
        }
        Live::While(guard, body) => {
            mark_guard(needed, *guard)?;
            mark_all(file, callable, needed, body.as_slice())
        }
        Live::Call(name, arguments) => {
            mark_call(file, callable, needed, *name, arguments.as_slice())
        }
    }
}

#[cycle(needed)]
fn mark_all<'b, 'a>(
    file: Procedures<'b, 'a>,
    callable: usize,
    needed: &mut Numbers<'a>,
    statements: &[Live<'a>],
) -> Result<(), Memory>
    ensures { OnOk result (found_under needed.new ≡ spec.marked_all (spec.kept_by (bodies_of file.entry.bodies.now)
        (by_number (map procedure_of file.entry.procs.now) callable (found_under file.entry.numbers.now)))
        (found_under needed.old) (live_block statements.now)) }
{
    for statement in statements {
        mark_one(file, callable, needed, statement)?;
    }
    Ok(())
}

fn is_kept<'a>(needed: &Numbers<'a>, param: &'a Param) -> bool
    ensures { result ≡ spec.keeps (found_under needed.now) (parameter_of param.now) }
{
    match param {
        Param::Scalar(_, _) => true,
        Param::Array(name) => has_bytes(needed, name.bytes()),
    }
}

fn keep<'a>(
    kept: &mut Vec<Kept<'a>>,
    needed: &Numbers<'a>,
    at: usize,
    param: &'a Param,
) -> Result<(), Memory>
    ensures { OnOk result (map placed_of kept.new.items ≡ map placed_of kept.old.items
        ++ spec.keep_where (spec.keeps (found_under needed.now) (parameter_of param.now)) (at, parameter_of param.now) []) }
{
    if !is_kept(needed, param) {
        return Ok(());
    }
    kept.push(Kept { at, param })?;
    Ok(())
}

// The parameters that a call binds.
fn kept_parameters<'a>(
    alloc: Global,
    needed: &Numbers<'a>,
    params: &'a [Param],
) -> Result<Vec<Kept<'a>>, Memory>
    ensures { IfOk result (λ kept. map placed_of kept.items
        ≡ spec.kept_from (found_under needed.now) 0 (map parameter_of params.now)) }
{
    let mut kept = Vec::new(alloc);
    for (i, param) in params.iter().enumerate() {
        keep(&mut kept, needed, i, param)?;
    }
    Ok(kept)
}

// What is left of procedure number `k`, of which these statements are left.
pub(crate) fn left_of<'a>(
    alloc: Global,
    procs: &'a [Proc],
    numbers: &Numbers<'a>,
    bodies: &[Body<'a>],
    k: usize,
    p: &'a Proc,
    statements: Vec<Live<'a>>,
) -> Result<Body<'a>, Memory>
    requires numbers { AreNumbered (map procedure_of procs.now) (found_under numbers.now) }
    requires bodies { ArePruned (map procedure_of procs.now) (bodies_of bodies.now) }
    requires all { length bodies.now ≡ k }
    requires same { SameCode (reverse (take k (map procedure_of procs.now))) (live_block statements.items)
        (procedure_of p.now).body }
    ensures { IfOk result (λ b. IsPruned (reverse (take k (map procedure_of procs.now))) (procedure_of p.now) (body_of b)) }
{
    let file = Procedures {
        procs,
        numbers,
        bodies,
    };
    let mut needed: Numbers<'a> = BTreeMap::new(alloc);
    mark_all(file, k, &mut needed, statements.as_slice())?;
    let kept = kept_parameters(alloc, &needed, p.params.as_slice())?;
    Ok(Body {
        statements,
        needed,
        kept,
    })
}
