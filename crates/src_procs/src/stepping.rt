ghost use Rattle.std.specs.Prelude.{◌≡◌, ◌≤◌, ◌∷◌, [], IfNone, IfSome, OnOk, length, map, reverse, take};
ghost use Rattle.src_tree.specs.Prelude.{test_of};
ghost use Rattle.src_procs.specs.Expanding.{Rest, Return, assigned_one, expanded, expanded_one, finished, with_locals, with_scope};
ghost use Rattle.src_procs.specs.Begun.{begun_by, with_kept};
ghost use Rattle.procs_pruning.specs.Pruned.{AreReady};
ghost use Rattle.procs_tree.specs.Seen.{procedure_of};
ghost use Rattle.procs_tree.specs.Trees.{Block, Call, Choice, Loop, Then};
ghost use Rattle.procs_pruning.specs.LiveSeen.{live_block, live_of, placed_of, trees_seen};
ghost use Rattle.procs_tree.specs.Numbered.{found_at};
ghost use Rattle.src_procs.specs.Views.{held_of, names_of, pending_all, pending_of, scope_of, unbound};

use crate::binding::bound_names;
use crate::expanding::{
    Held, Pending, assignment, close_choice, close_loop, open_block, put_statement, waits_for,
    waits_for_call, waits_for_choice, waits_for_loop,
};
use crate::scopes::{Naming, Scope, renamed_guard};
use gr_base::Memory;
use gr_word::Name;
use procs_pruning::{Kept, Live, Procedures};
use procs_tree::{Proc, called};
use src_tree::{Decl, Expr, Guard};
use std::alloc::Global;

// What is held, with one more scope.
pub(crate) fn scoped<'a>(
    procs: &'a [Proc],
    held: &mut Held<'a>,
    scope: Scope<'a>,
) -> Result<(), Memory>
    ensures { OnOk result (held_of procs.now held.new
        ≡ with_scope (scope_of procs.now scope.entry) (held_of procs.now held.old)) }
{
    held.scopes.push(scope)?;
    Ok(())
}

// What is held when the call of a procedure begins.
fn begin_call<'a>(
    alloc: Global,
    procs: &'a [Proc],
    k: usize,
    kept: &[Kept<'a>],
    locals: &'a [Decl],
    arguments: &[&Expr],
    scope: Scope<'a>,
    held: &mut Held<'a>,
) -> Result<(), Memory>
    ensures { OnOk result (held_of procs.now held.new
        ≡ begun_by (with_locals (with_kept (names_of scope.entry.names) (unbound held.old.made) (map placed_of kept.now)
        (trees_seen arguments.now)) locals.now) (reverse (take k (map procedure_of procs.now)))
        (with_scope (scope_of procs.now scope.entry) (held_of procs.now held.old))) }
{
    let bounds = bound_names(alloc, &scope.names, &mut held.made, kept, locals, arguments)?;
    let own = Scope {
        callable: k,
        names: Naming::Bound(bounds),
    };
    scoped(procs, held, scope)?;
    scoped(procs, held, own)
}

// A call of a procedure.
fn call<'b, 'a>(
    alloc: Global,
    file: Procedures<'b, 'a>,
    waiting: &mut Vec<Pending<'b, 'a>>,
    name: &Name,
    arguments: &[&Expr],
    callable: usize,
    scope: Scope<'a>,
    held: &mut Held<'a>,
) -> Result<(), Memory>
    requires callable { callable ≡ scope.callable }
    requires file { AreReady file }
    ensures { OnOk result (finished (pending_all waiting.new.items) (held_of file.entry.procs.now held.new)
        ≡ finished (pending_all waiting.old.items) (expanded_one (Call name.now (trees_seen arguments.now))
        (with_scope (scope_of file.entry.procs.now scope.entry) (held_of file.entry.procs.now held.old)))) }
{
    let Procedures {
        procs,
        numbers,
        bodies,
    } = file;
    match called(procs, numbers, callable, name.bytes()) {
        None => scoped(procs, held, scope),
        Some(k) => {
            let body = &bodies[k];
            let locals = procs[k].locals.as_slice();
            begin_call(
                alloc,
                procs,
                k,
                body.kept.as_slice(),
                locals,
                arguments,
                scope,
                held,
            )?;
            waits_for_call(waiting, body.statements.as_slice())
        }
    }
}

// An assignment; another statement is left out.
fn put_assignment<'a>(
    alloc: Global,
    procs: &'a [Proc],
    s: &Live<'a>,
    scope: Scope<'a>,
    held: &mut Held<'a>,
) -> Result<(), Memory>
    ensures { OnOk result (held_of procs.now held.new
        ≡ assigned_one (live_of s.now) (with_scope (scope_of procs.now scope.entry) (held_of procs.now held.old))) }
{
    match assignment(alloc, &scope.names, s)? {
        None => scoped(procs, held, scope),
        Some(made) => {
            put_statement(&mut held.made.open_blocks, made)?;
            scoped(procs, held, scope)
        }
    }
}

// A choice.
fn choice<'b, 'a>(
    alloc: Global,
    procs: &'a [Proc],
    waiting: &mut Vec<Pending<'b, 'a>>,
    guard: &'a Guard,
    first: &'b [Live<'a>],
    second: &'b [Live<'a>],
    scope: Scope<'a>,
    held: &mut Held<'a>,
) -> Result<(), Memory>
    ensures { OnOk result (finished (pending_all waiting.new.items) (held_of procs.now held.new)
        ≡ finished (pending_all waiting.old.items)
        (expanded_one (Choice (test_of guard.now) (live_block first.now) (live_block second.now))
        (with_scope (scope_of procs.now scope.entry) (held_of procs.now held.old)))) }
{
    let guard = renamed_guard(alloc, &scope.names, guard)?;
    waits_for_choice(waiting, guard, first, second)?;
    scoped(procs, held, scope)?;
    open_block(alloc, &mut held.made.open_blocks)
}

// A loop.
fn repeat<'b, 'a>(
    alloc: Global,
    procs: &'a [Proc],
    waiting: &mut Vec<Pending<'b, 'a>>,
    guard: &'a Guard,
    body: &'b [Live<'a>],
    scope: Scope<'a>,
    held: &mut Held<'a>,
) -> Result<(), Memory>
    ensures { OnOk result (finished (pending_all waiting.new.items) (held_of procs.now held.new)
        ≡ finished (pending_all waiting.old.items)
        (expanded_one (Loop (test_of guard.now) (live_block body.now))
        (with_scope (scope_of procs.now scope.entry) (held_of procs.now held.old)))) }
{
    let guard = renamed_guard(alloc, &scope.names, guard)?;
    waits_for_loop(waiting, guard, body)?;
    scoped(procs, held, scope)?;
    open_block(alloc, &mut held.made.open_blocks)
}

// One statement, in the scope of its statements.
fn statement<'b, 'a>(
    alloc: Global,
    file: Procedures<'b, 'a>,
    waiting: &mut Vec<Pending<'b, 'a>>,
    s: &'b Live<'a>,
    scope: Scope<'a>,
    held: &mut Held<'a>,
) -> Result<(), Memory>
    requires { AreReady file }
    ensures { OnOk result (finished (pending_all waiting.new.items) (held_of file.entry.procs.now held.new)
        ≡ finished (pending_all waiting.old.items) (expanded_one (live_of s.now)
        (with_scope (scope_of file.entry.procs.now scope.entry) (held_of file.entry.procs.now held.old)))) }
{
    match s {
        Live::Set(_, _) => put_assignment(alloc, file.procs, s, scope, held),
        Live::Put(_, _, _) => put_assignment(alloc, file.procs, s, scope, held),
        Live::If(guard, first, second) => {
            choice(
                alloc,
                file.procs,
                waiting,
                *guard,
                first.as_slice(),
                second.as_slice(),
                scope,
                held,
            )
        }
        Live::While(guard, body) => {
            repeat(
                alloc,
                file.procs,
                waiting,
                *guard,
                body.as_slice(),
                scope,
                held,
            )
        }
        Live::Call(name, arguments) => {
            let callable = scope.callable;
            call(
                alloc,
                file,
                waiting,
                *name,
                arguments.as_slice(),
                callable,
                scope,
                held,
            )
        }
    }
}

// A statement followed by others.
fn first_of<'b, 'a>(
    alloc: Global,
    file: Procedures<'b, 'a>,
    waiting: &mut Vec<Pending<'b, 'a>>,
    s: &'b Live<'a>,
    others: &'b [Live<'a>],
    scope: Scope<'a>,
    held: &mut Held<'a>,
) -> Result<(), Memory>
    requires { AreReady file }
    ensures { OnOk result (finished (pending_all waiting.new.items) (held_of file.entry.procs.now held.new)
        ≡ finished (pending_all waiting.old.items) (expanded (Then (live_of s.now) (live_block others.now))
        (with_scope (scope_of file.entry.procs.now scope.entry) (held_of file.entry.procs.now held.old)))) }
{
    waits_for(waiting, others)?;
    statement(alloc, file, waiting, s, scope, held)
}

// Removes the innermost scope and returns it, if there is one.
fn innermost<'a>(procs: &'a [Proc], held: &mut Held<'a>) -> Option<Scope<'a>>
    ensures found { IfSome result (λ scope. with_scope (scope_of procs.now scope) (held_of procs.now held.new)
        ≡ held_of procs.now held.old) }
    ensures none { IfNone result ((b : Block) → held_of procs.now held.new ≡ expanded b (held_of procs.now held.old)) }
{
    held.scopes.pop()
}

// The first of some statements, where one is left.
fn rest<'b, 'a>(
    alloc: Global,
    file: Procedures<'b, 'a>,
    waiting: &mut Vec<Pending<'b, 'a>>,
    statements: &'b [Live<'a>],
    held: &mut Held<'a>,
) -> Result<(), Memory>
    requires { AreReady file }
    ensures { OnOk result (finished (pending_all waiting.new.items) (held_of file.entry.procs.now held.new)
        ≡ finished (pending_all waiting.old.items)
        (expanded (live_block statements.now) (held_of file.entry.procs.now held.old))) }
{
    if statements.is_empty() {
        return Ok(());
    }
    match innermost(file.procs, held) {
        None => Ok(()),
        Some(scope) => {
            let (_, others) = statements.split_at(1);
            first_of(alloc, file, waiting, &statements[0], others, scope, held)
        }
    }
}

// What is to be done next.
fn step<'b, 'a>(
    alloc: Global,
    file: Procedures<'b, 'a>,
    waiting: &mut Vec<Pending<'b, 'a>>,
    next: Pending<'b, 'a>,
    held: &mut Held<'a>,
) -> Result<(), Memory>
    requires { AreReady file }
    ensures { OnOk result (finished (pending_all waiting.new.items) (held_of file.entry.procs.now held.new)
        ≡ finished (pending_of next.entry ∷ pending_all waiting.old.items) (held_of file.entry.procs.now held.old)) }
{
    match next {
        Pending::Rest(left) => rest(alloc, file, waiting, left.statements, held),
        Pending::Return => {
            drop(held.scopes.pop());
            Ok(())
        }
        Pending::Open => open_block(alloc, &mut held.made.open_blocks),
        Pending::EndChoice(guard) => close_choice(&mut held.made.open_blocks, guard),
        Pending::EndLoop(guard) => close_loop(&mut held.made.open_blocks, guard),
    }
}

// Expands all pending statements.
pub(crate) fn expand<'b, 'a>(
    alloc: Global,
    file: Procedures<'b, 'a>,
    waiting: &mut Vec<Pending<'b, 'a>>,
    held: &mut Held<'a>,
) -> Result<(), Memory>
    requires { AreReady file }
    ensures { OnOk result (held_of file.entry.procs.now held.new
        ≡ finished (pending_all waiting.old.items) (held_of file.entry.procs.now held.old)) }
{
    for _ in 0..u64::MAX {
        match waiting.pop() {
            None => return Ok(()),
            Some(next) => step(alloc, file, waiting, next, held)?,
        }
    }
    Err(Memory)
}
