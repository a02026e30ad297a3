ghost use Rattle.std.specs.Prelude.{◌≡◌, ◌+◌, ◌≤◌, ◌++◌, ◌∷◌, [], IfOk, OnOk, length, map, option_map, reverse, take};
ghost use Rattle.gr_base.specs.Prelude.{found_under};
ghost use Rattle.procs_tree.specs.Measured.{HasSizes, sizes_by};
ghost use Rattle.procs_tree.specs.Numbered.{AreNumbered, by_number};
ghost use Rattle.procs_pruning.specs.Pruned.{ArePruned, IsPruned, SameCode, behind, kept, pruned, with_first};
ghost use Rattle.procs_tree.specs.Seen.{block_of_all, procedure_of, statement_of, trees_of};
ghost use Rattle.procs_tree.specs.Trees.{Block, Call};
ghost use Rattle.procs_pruning.specs.LiveSeen.{bodies_of, body_of, live_block, live_of, trees_seen};

use crate::handing::{add, come_down};
use crate::needed::{Body, left_of};
use gr_base::Memory;
use gr_word::Name;
use procs_tree::{Numbers, PStmt, Proc, call_size};
use src_tree::{Expr, Guard};
use std::alloc::Global;

/// A statement that adds something to the program: any but a call that is replaced by nothing.
#[derive(Drop)]
pub enum Live<'a> {
    Set(&'a Name, &'a Expr),
    Put(&'a Name, &'a Expr, &'a Expr),
    If(&'a Guard, Vec<Live<'a>>, Vec<Live<'a>>),
    While(&'a Guard, Vec<Live<'a>>),
    Call(&'a Name, Vec<&'a Expr>),
}

// Each of some arguments.
fn each<'a>(alloc: Global, arguments: &'a [Expr]) -> Result<Vec<&'a Expr>, Memory>
    ensures { IfOk result (λ all. trees_seen all.items ≡ trees_of arguments.now) }
{
    let mut all = Vec::new(alloc);
    for argument in arguments {
        add(&mut all, argument)?;
    }
    Ok(all)
}

// Statements, and one more after them, if there is one.
#[tactic(auto, using(crate::proofs::Pruning::behind_push))]
fn with_live<'a>(mut all: Vec<Live<'a>>, live: Option<Live<'a>>) -> Result<Vec<Live<'a>>, Memory>
    ensures { IfOk result (λ r. (b : Block) → behind (map live_of r.items) b
        ≡ behind (map live_of all.entry.items) (with_first (option_map live_of live.entry) b)) }
{
    match live {
        None => Ok(all),
        Some(live) => {
            all.push(live)?;
            Ok(all)
        }
    }
}

// A call, unless it is replaced by nothing.
#[tactic(auto, using(crate::proofs::Pruning::dead_call, crate::proofs::Pruning::live_call))]
fn live_call<'a>(
    alloc: Global,
    procs: &[Proc],
    numbers: &Numbers<'a>,
    sizes: &[u64],
    callable: usize,
    name: &'a Name,
    arguments: &'a [Expr],
) -> Result<Option<Live<'a>>, Memory>
    ensures { IfOk result (λ l. option_map live_of l
        ≡ kept (sizes_by sizes.now (by_number (map procedure_of procs.now) callable (found_under numbers.now)))
        (Call name.now (trees_of arguments.now))) }
{
    if call_size(procs, numbers, sizes, callable, name, arguments) == 0 {
        return Ok(None);
    }
    Ok(Some(Live::Call(name, each(alloc, arguments)?)))
}

#[cycle(live)]
fn live_one<'a>(
    alloc: Global,
    procs: &[Proc],
    numbers: &Numbers<'a>,
    sizes: &[u64],
    callable: usize,
    s: &'a PStmt,
) -> Result<Option<Live<'a>>, Memory>
    ensures { IfOk result (λ l. option_map live_of l
        ≡ kept (sizes_by sizes.now (by_number (map procedure_of procs.now) callable (found_under numbers.now)))
        (statement_of s.now)) }
{
    match s {
        PStmt::Set(name, value) => Ok(Some(Live::Set(name, value))),
        PStmt::Put(name, index, value) => Ok(Some(Live::Put(name, index, value))),
        PStmt::If(guard, first, second) => {
            let first = live_all(alloc, procs, numbers, sizes, callable, first.as_slice())?;
            match live_all(alloc, procs, numbers, sizes, callable, second.as_slice()) {
                Ok(second) => Ok(Some(Live::If(guard, first, second))),
                Err(error) => {
                    drop(first);
                    Err(error)
                }
            }
        }
        PStmt::While(guard, body) => {
            let body = live_all(alloc, procs, numbers, sizes, callable, body.as_slice())?;
            Ok(Some(Live::While(guard, body)))
        }
        PStmt::Call(name, arguments) => {
            live_call(
                alloc,
                procs,
                numbers,
                sizes,
                callable,
                name,
                arguments.as_slice(),
            )
        }
    }
}

#[cycle(live)]
#[tactic(auto, using(crate::proofs::Pruning::behind_nothing))]
fn live_all<'a>(
    alloc: Global,
    procs: &[Proc],
    numbers: &Numbers<'a>,
    sizes: &[u64],
    callable: usize,
    statements: &'a [PStmt],
) -> Result<Vec<Live<'a>>, Memory>
    ensures { IfOk result (λ all. live_block all.items
        ≡ pruned (sizes_by sizes.now (by_number (map procedure_of procs.now) callable (found_under numbers.now)))
        (block_of_all statements.now)) }
{
    let mut all = Vec::new(alloc);
    for statement in statements {
        let live = live_one(alloc, procs, numbers, sizes, callable, statement)?;
        all = with_live(all, live)?;
    }
    Ok(all)
}

/// Statements without the calls that add nothing, where the first `callable` procedures can be called.
pub fn live_statements<'a>(
    alloc: Global,
    procs: &[Proc],
    numbers: &Numbers<'a>,
    sizes: &[u64],
    callable: usize,
    statements: &'a [PStmt],
) -> Result<Vec<Live<'a>>, Memory>
    requires numbers { AreNumbered (map procedure_of procs.now) (found_under numbers.now) }
    requires sizes { HasSizes (map procedure_of procs.now) sizes.now }
    ensures { IfOk result (λ all. SameCode (reverse (take callable (map procedure_of procs.now)))
        (live_block all.items) (block_of_all statements.now)) }
{
    let all = live_all(alloc, procs, numbers, sizes, callable, statements)?;
    Ok(all)
}

// What is left of procedure number `k`, where `bodies` are what is left of those before it. A procedure that is one call
// comes down to what that comes down to, so that a chain of such procedures is one call.
fn live_body<'a>(
    alloc: Global,
    procs: &'a [Proc],
    numbers: &Numbers<'a>,
    sizes: &[u64],
    bodies: &[Body<'a>],
    k: usize,
    p: &'a Proc,
) -> Result<Body<'a>, Memory>
    requires numbers { AreNumbered (map procedure_of procs.now) (found_under numbers.now) }
    requires sizes { HasSizes (map procedure_of procs.now) sizes.now }
    requires bodies { ArePruned (map procedure_of procs.now) (bodies_of bodies.now) }
    requires all { length bodies.now ≡ k }
    ensures { IfOk result (λ b. IsPruned (reverse (take k (map procedure_of procs.now))) (procedure_of p.now) (body_of b)) }
{
    let body = live_statements(alloc, procs, numbers, sizes, k, p.body.as_slice())?;
    let less = come_down(alloc, procs, numbers, bodies, k, body)?;
    left_of(alloc, procs, numbers, bodies, k, p, less)
}

// One body more.
fn add_body<'a>(bodies: &mut Vec<Body<'a>>, body: Body<'a>) -> Result<(), Memory>
    ensures items { OnOk result (bodies.new.items ≡ bodies.old.items ++ body.entry ∷ []) }
    ensures len { OnOk result (length bodies.new.items ≡ length bodies.old.items + 1) }
{
    bodies.push(body)?;
    Ok(())
}

/// What is left of each procedure, without the calls that add nothing.
pub fn live_bodies<'a>(
    alloc: Global,
    procs: &'a [Proc],
    numbers: &Numbers<'a>,
    sizes: &[u64],
) -> Result<Vec<Body<'a>>, Memory>
    requires numbers { AreNumbered (map procedure_of procs.now) (found_under numbers.now) }
    requires sizes { HasSizes (map procedure_of procs.now) sizes.now }
    ensures pruned { IfOk result (λ b. ArePruned (map procedure_of procs.now) (bodies_of b.items)) }
    ensures whole { IfOk result (λ b. length procs.now ≤ length b.items) }
{
    let mut bodies = Vec::new(alloc);
    for (i, p) in procs.iter().enumerate() {
        let left = live_body(alloc, procs, numbers, sizes, bodies.as_slice(), i, p)?;
        add_body(&mut bodies, left)?;
    }
    Ok(bodies)
}
