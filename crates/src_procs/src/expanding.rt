ghost use Rattle.std.specs.Prelude.{◌≡◌, ◌∷◌, ◌++◌, [], IfNone, IfOk, IfSome, OnOk, map, option_map, reverse};
ghost use Rattle.src_tree.specs.Prelude.{SetElement, SetVariable, expr_tree, test_of, statement_of};
ghost use Rattle.procs_tree.specs.Inlined.{renamed};
ghost use Rattle.src_procs.specs.Expanding.{EndChoice, EndLoop, Open, Rest, Return, closed_choice, closed_loop, plain_statement, put};
ghost use Rattle.procs_pruning.specs.LiveSeen.{live_block, live_of};
ghost use Rattle.src_procs.specs.Views.{blocks_of, names_of, pending_all, pending_of, statements_seen};

use crate::scopes::{Naming, Scope, new_name_of, renamed};
use gr_base::Memory;
use gr_word::{Label, Name};
use procs_pruning::Live;
use src_tree::{Expr, Guard, Stmt};
use std::alloc::Global;

// The statements that are left of a block.
#[derive(Drop)]
pub(crate) struct Left<'b, 'a> {
    pub statements: &'b [Live<'a>],
}

// What is still to be done: to go through the statements that are left of a block; to return to the caller's names; to
// open a block; to end a choice whose second block is done, or a loop whose body is.
#[derive(Drop)]
pub(crate) enum Pending<'b, 'a> {
    Rest(Left<'b, 'a>),
    Return,
    Open,
    EndChoice(Guard),
    EndLoop(Guard),
}

// What was made so far: the statements of the open blocks, the innermost last, and the labels of the new variables.
#[derive(Drop)]
pub(crate) struct Made {
    pub open_blocks: Vec<Vec<Stmt>>,
    pub labels: Vec<Label>,
}

// The scopes, the innermost last, and what was made so far.
#[derive(Drop)]
pub(crate) struct Held<'a> {
    pub scopes: Vec<Scope<'a>>,
    pub made: Made,
}

// A block is open, inside those that are.
fn push_block(open_blocks: &mut Vec<Vec<Stmt>>, block: Vec<Stmt>) -> Result<(), Memory>
    ensures { OnOk result (blocks_of open_blocks.new.items ≡ statements_seen block ∷ blocks_of open_blocks.old.items) }
{
    open_blocks.push(block)?;
    Ok(())
}

// Takes the innermost block out of those that are open, if there is one.
fn pop_block(open_blocks: &mut Vec<Vec<Stmt>>) -> Option<Vec<Stmt>>
    ensures found { IfSome result (λ block. blocks_of open_blocks.old.items
        ≡ statements_seen block ∷ blocks_of open_blocks.new.items) }
    ensures none { IfNone result (blocks_of open_blocks.old.items ≡ []) }
    ensures none_left { IfNone result (blocks_of open_blocks.new.items ≡ []) }
{
    open_blocks.pop()
}

// One statement more in a block.
fn with_statement(mut block: Vec<Stmt>, s: Stmt) -> Result<Vec<Stmt>, Memory>
    ensures { IfOk result (λ r. statements_seen r ≡ statements_seen block ++ statement_of s ∷ []) }
{
    block.push(s)?;
    Ok(block)
}

// One statement more in the innermost open block. What isn't used is dropped by a call, here and below: where a
// statement, a guard or an expression is dropped in line, all that it may hold is proved there.
pub(crate) fn put_statement(open_blocks: &mut Vec<Vec<Stmt>>, s: Stmt) -> Result<(), Memory>
    ensures { OnOk result (blocks_of open_blocks.new.items
        ≡ put (statement_of s ∷ []) (blocks_of open_blocks.old.items)) }
{
    match pop_block(open_blocks) {
        None => {
            drop(s);
            Ok(())
        }
        Some(here) => {
            let here = with_statement(here, s)?;
            push_block(open_blocks, here)
        }
    }
}

// A choice ends with its second block.
pub(crate) fn close_choice(open_blocks: &mut Vec<Vec<Stmt>>, guard: Guard) -> Result<(), Memory>
    ensures { OnOk result (blocks_of open_blocks.new.items
        ≡ closed_choice (test_of guard) (blocks_of open_blocks.old.items)) }
{
    match pop_block(open_blocks) {
        None => {
            drop(guard);
            Ok(())
        }
        Some(second) => match pop_block(open_blocks) {
            None => {
                drop(guard);
                Ok(())
            }
            Some(first) => put_statement(open_blocks, Stmt::If(guard, first, second)),
        },
    }
}

// A loop ends with its body.
pub(crate) fn close_loop(open_blocks: &mut Vec<Vec<Stmt>>, guard: Guard) -> Result<(), Memory>
    ensures { OnOk result (blocks_of open_blocks.new.items
        ≡ closed_loop (test_of guard) (blocks_of open_blocks.old.items)) }
{
    match pop_block(open_blocks) {
        None => {
            drop(guard);
            Ok(())
        }
        Some(body) => put_statement(open_blocks, Stmt::While(guard, body)),
    }
}

// A block opens.
pub(crate) fn open_block(alloc: Global, open_blocks: &mut Vec<Vec<Stmt>>) -> Result<(), Memory>
    ensures { OnOk result (blocks_of open_blocks.new.items ≡ [] ∷ blocks_of open_blocks.old.items) }
{
    push_block(open_blocks, Vec::new(alloc))
}

// The program's assignment to a variable.
fn set<'a>(alloc: Global, names: &Naming<'a>, name: &Name, value: &Expr) -> Result<Stmt, Memory>
    ensures { IfOk result (λ s. statement_of s
        ≡ SetVariable (names_of names.now name.now) (renamed (names_of names.now) (expr_tree value.now))) }
{
    let name = new_name_of(alloc, names, name)?;
    let value = renamed(alloc, names, value)?;
    Ok(Stmt::Set(name, value))
}

// The program's assignment to an element.
fn set_element<'a>(
    alloc: Global,
    names: &Naming<'a>,
    name: &Name,
    index: &Expr,
    value: &Expr,
) -> Result<Stmt, Memory>
    ensures { IfOk result (λ s. statement_of s
        ≡ SetElement (names_of names.now name.now) (renamed (names_of names.now) (expr_tree index.now))
        (renamed (names_of names.now) (expr_tree value.now))) }
{
    let name = new_name_of(alloc, names, name)?;
    let index = renamed(alloc, names, index)?;
    match renamed(alloc, names, value) {
        Ok(value) => Ok(Stmt::Put(name, index, value)),
        Err(error) => {
            drop(index);
            Err(error)
        }
    }
}

// The statement of the program for an assignment.
pub(crate) fn assignment<'a>(
    alloc: Global,
    names: &Naming<'a>,
    s: &Live<'a>,
) -> Result<Option<Stmt>, Memory>
    ensures { IfOk result (λ made. option_map statement_of made ≡ plain_statement (names_of names.now) (live_of s.now)) }
{
    match s {
        Live::Set(name, value) => Ok(Some(set(alloc, names, *name, *value)?)),
        Live::Put(name, index, value) => {
            Ok(Some(set_element(alloc, names, *name, *index, *value)?))
        }
        Live::If(_, _, _) => Ok(None),
        Live::While(_, _) => Ok(None),
        Live::Call(_, _) => Ok(None),
    }
}

// One thing more is to be done, before all others.
fn wait<'b, 'a>(waiting: &mut Vec<Pending<'b, 'a>>, next: Pending<'b, 'a>) -> Result<(), Memory>
    ensures { OnOk result (pending_all waiting.new.items ≡ pending_of next.entry ∷ pending_all waiting.old.items) }
{
    waiting.push(next)?;
    Ok(())
}

// The statements after one are to be done.
pub(crate) fn waits_for<'b, 'a>(
    waiting: &mut Vec<Pending<'b, 'a>>,
    others: &'b [Live<'a>],
) -> Result<(), Memory>
    ensures { OnOk result (pending_all waiting.new.items
        ≡ Rest (live_block others.now) ∷ pending_all waiting.old.items) }
{
    wait(waiting, Pending::Rest(Left { statements: others }))
}

// The statements of a procedure are to be done, and then the caller's names count again.
pub(crate) fn waits_for_call<'b, 'a>(
    waiting: &mut Vec<Pending<'b, 'a>>,
    body: &'b [Live<'a>],
) -> Result<(), Memory>
    ensures { OnOk result (pending_all waiting.new.items
        ≡ Rest (live_block body.now) ∷ Return ∷ pending_all waiting.old.items) }
{
    wait(waiting, Pending::Return)?;
    waits_for(waiting, body)
}

// The blocks of a choice are to be done, the second in a block that opens after the first.
pub(crate) fn waits_for_choice<'b, 'a>(
    waiting: &mut Vec<Pending<'b, 'a>>,
    guard: Guard,
    first: &'b [Live<'a>],
    second: &'b [Live<'a>],
) -> Result<(), Memory>
    ensures { OnOk result (pending_all waiting.new.items
        ≡ Rest (live_block first.now) ∷ Open ∷ Rest (live_block second.now) ∷ EndChoice (test_of guard)
        ∷ pending_all waiting.old.items) }
{
    wait(waiting, Pending::EndChoice(guard))?;
    waits_for(waiting, second)?;
    wait(waiting, Pending::Open)?;
    waits_for(waiting, first)
}

// The body of a loop is to be done.
pub(crate) fn waits_for_loop<'b, 'a>(
    waiting: &mut Vec<Pending<'b, 'a>>,
    guard: Guard,
    body: &'b [Live<'a>],
) -> Result<(), Memory>
    ensures { OnOk result (pending_all waiting.new.items
        ≡ Rest (live_block body.now) ∷ EndLoop (test_of guard) ∷ pending_all waiting.old.items) }
{
    wait(waiting, Pending::EndLoop(guard))?;
    waits_for(waiting, body)
}
