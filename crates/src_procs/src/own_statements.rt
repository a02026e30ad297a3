ghost use Rattle.std.specs.Prelude.{◌≡◌, ◌∷◌, IfOk, OnOk, map, reverse};
ghost use Rattle.src_tree.specs.Prelude.{expr_tree, test_of};
ghost use Rattle.src_procs.specs.Expanding.{EndChoice, EndLoop, Open, Rest, expanded, expanded_one, finished};
ghost use Rattle.procs_tree.specs.Measured.{HasSizes};
ghost use Rattle.procs_pruning.specs.Pruned.{AreReady};
ghost use Rattle.procs_tree.specs.Seen.{block_of_all, procedure_of, statement_of, trees_of};
ghost use Rattle.procs_tree.specs.Trees.{Call, Choice, Loop, SetElement, SetVariable};
ghost use Rattle.src_procs.specs.Views.{own_held, own_of, owns_all};

use crate::expanding::{Made, close_choice, close_loop, open_block, put_statement};
use crate::kept_names::{own_expr, own_guard, own_name};
use crate::own_calls::with_own_call;
use gr_base::Memory;
use gr_word::Name;
use procs_pruning::Procedures;
use procs_tree::{PStmt, Proc, call_size};
use src_tree::{Expr, Guard, Stmt};
use std::alloc::Global;
use std::mem;

// What is still to be done for a file's own statements: to go through those that are left of a block, of which the next
// is the last; to open a block; to end a choice whose second block is done, or a loop whose body is.
#[derive(Drop)]
pub(crate) enum Own {
    Rest(Vec<PStmt>),
    Open,
    EndChoice(Guard),
    EndLoop(Guard),
}

// One thing more is to be done, before all others.
fn wait(waiting: &mut Vec<Own>, next: Own) -> Result<(), Memory>
    ensures { OnOk result (owns_all waiting.new.items ≡ own_of next ∷ owns_all waiting.old.items) }
{
    waiting.push(next)?;
    Ok(())
}

// The statements that are left of a block are to be done, the next of which is the last.
fn waits_for_rest(waiting: &mut Vec<Own>, left: Vec<PStmt>) -> Result<(), Memory>
    ensures { OnOk result (owns_all waiting.new.items
        ≡ Rest (block_of_all (reverse left.items)) ∷ owns_all waiting.old.items) }
{
    wait(waiting, Own::Rest(left))
}

// The statements of a block are to be done.
fn waits_for(waiting: &mut Vec<Own>, mut block: Vec<PStmt>) -> Result<(), Memory>
    ensures { OnOk result (owns_all waiting.new.items ≡ Rest (block_of_all block.items) ∷ owns_all waiting.old.items) }
{
    block.reverse();
    waits_for_rest(waiting, block)
}

// The second block of a choice is to be done, in a block that opens first.
fn waits_for_second(waiting: &mut Vec<Own>, guard: Guard, second: Vec<PStmt>) -> Result<(), Memory>
    ensures { OnOk result (owns_all waiting.new.items
        ≡ Open ∷ Rest (block_of_all second.items) ∷ EndChoice (test_of guard) ∷ owns_all waiting.old.items) }
{
    wait(waiting, Own::EndChoice(guard))?;
    waits_for(waiting, second)?;
    wait(waiting, Own::Open)
}

// The blocks of a choice are to be done, the second in a block that opens after the first.
fn waits_for_choice(
    waiting: &mut Vec<Own>,
    guard: Guard,
    first: Vec<PStmt>,
    second: Vec<PStmt>,
) -> Result<(), Memory>
    ensures { OnOk result (owns_all waiting.new.items
        ≡ Rest (block_of_all first.items) ∷ Open ∷ Rest (block_of_all second.items) ∷ EndChoice (test_of guard)
        ∷ owns_all waiting.old.items) }
{
    waits_for_second(waiting, guard, second)?;
    waits_for(waiting, first)
}

// The body of a loop is to be done.
fn waits_for_loop(waiting: &mut Vec<Own>, guard: Guard, body: Vec<PStmt>) -> Result<(), Memory>
    ensures { OnOk result (owns_all waiting.new.items
        ≡ Rest (block_of_all body.items) ∷ EndLoop (test_of guard) ∷ owns_all waiting.old.items) }
{
    wait(waiting, Own::EndLoop(guard))?;
    waits_for(waiting, body)
}

// A choice.
fn choice(
    alloc: Global,
    procs: &[Proc],
    waiting: &mut Vec<Own>,
    guard: Guard,
    first: Vec<PStmt>,
    second: Vec<PStmt>,
    made: &mut Made,
) -> Result<(), Memory>
    ensures { OnOk result (finished (owns_all waiting.new.items) (own_held procs.now made.new)
        ≡ finished (owns_all waiting.old.items)
        (expanded_one (Choice (test_of guard) (block_of_all first.items) (block_of_all second.items))
        (own_held procs.now made.old))) }
{
    let guard = own_guard(alloc, guard)?;
    waits_for_choice(waiting, guard, first, second)?;
    open_block(alloc, &mut made.open_blocks)
}

// A loop.
fn repeat(
    alloc: Global,
    procs: &[Proc],
    waiting: &mut Vec<Own>,
    guard: Guard,
    body: Vec<PStmt>,
    made: &mut Made,
) -> Result<(), Memory>
    ensures { OnOk result (finished (owns_all waiting.new.items) (own_held procs.now made.new)
        ≡ finished (owns_all waiting.old.items)
        (expanded_one (Loop (test_of guard) (block_of_all body.items)) (own_held procs.now made.old))) }
{
    let guard = own_guard(alloc, guard)?;
    waits_for_loop(waiting, guard, body)?;
    open_block(alloc, &mut made.open_blocks)
}

// An assignment to a variable.
#[tactic(auto, using(crate::proofs::OwnSteps::own_set))]
fn set(
    alloc: Global,
    procs: &[Proc],
    name: Name,
    value: Expr,
    made: &mut Made,
) -> Result<(), Memory>
    ensures { OnOk result (own_held procs.now made.new
        ≡ expanded_one (SetVariable name (expr_tree value)) (own_held procs.now made.old)) }
{
    let value = own_expr(alloc, value)?;
    match own_name(alloc, name) {
        Ok(name) => put_statement(&mut made.open_blocks, Stmt::Set(name, value)),
        Err(error) => {
            drop(value);
            Err(error)
        }
    }
}

// An assignment to an element.
#[tactic(auto, using(crate::proofs::OwnSteps::own_element))]
fn set_element(
    alloc: Global,
    procs: &[Proc],
    name: Name,
    index: Expr,
    value: Expr,
    made: &mut Made,
) -> Result<(), Memory>
    ensures { OnOk result (own_held procs.now made.new
        ≡ expanded_one (SetElement name (expr_tree index) (expr_tree value)) (own_held procs.now made.old)) }
{
    let name = own_name(alloc, name)?;
    match own_expr(alloc, index) {
        Ok(index) => match own_expr(alloc, value) {
            Ok(value) => put_statement(&mut made.open_blocks, Stmt::Put(name, index, value)),
            Err(error) => {
                drop(index);
                Err(error)
            }
        },
        Err(error) => {
            drop(value);
            Err(error)
        }
    }
}

// A call, unless it is replaced by nothing.
fn replace_call<'b, 'a>(
    alloc: Global,
    file: Procedures<'b, 'a>,
    sizes: &[u64],
    name: Name,
    arguments: Vec<Expr>,
    made: &mut Made,
) -> Result<(), Memory>
    requires file { AreReady file }
    requires sizes { HasSizes (map procedure_of file.procs.now) sizes.now }
    ensures { OnOk result (own_held file.entry.procs.now made.new
        ≡ expanded_one (Call name (trees_of arguments.items)) (own_held file.entry.procs.now made.old)) }
{
    let callable = file.procs.len();
    let size = call_size(
        file.procs,
        file.numbers,
        sizes,
        callable,
        &name,
        arguments.as_slice(),
    );
    if size == 0 {
        return Ok(());
    }
    let nothing = Made {
        open_blocks: Vec::new(alloc),
        labels: Vec::new(alloc),
    };
    let before = mem::replace(made, nothing);
    let after = with_own_call(alloc, file, &name, arguments, before)?;
    drop(mem::replace(made, after));
    Ok(())
}

// One statement.
fn statement<'b, 'a>(
    alloc: Global,
    file: Procedures<'b, 'a>,
    sizes: &[u64],
    waiting: &mut Vec<Own>,
    s: PStmt,
    made: &mut Made,
) -> Result<(), Memory>
    requires file { AreReady file }
    requires sizes { HasSizes (map procedure_of file.procs.now) sizes.now }
    ensures { OnOk result (finished (owns_all waiting.new.items) (own_held file.entry.procs.now made.new)
        ≡ finished (owns_all waiting.old.items)
        (expanded_one (statement_of s) (own_held file.entry.procs.now made.old))) }
{
    match s {
        PStmt::Set(name, value) => set(alloc, file.procs, name, value, made),
        PStmt::Put(name, index, value) => {
            set_element(alloc, file.procs, name, index, value, made)
        }
        PStmt::If(guard, first, second) => {
            choice(alloc, file.procs, waiting, guard, first, second, made)
        }
        PStmt::While(guard, body) => repeat(alloc, file.procs, waiting, guard, body, made),
        PStmt::Call(name, arguments) => { replace_call(alloc, file, sizes, name, arguments, made) }
    }
}

// The first of some statements, of which the next is the last, if one is left.
#[tactic(auto, using(crate::proofs::OwnSteps::own_none, crate::proofs::OwnSteps::own_then))]
fn rest<'b, 'a>(
    alloc: Global,
    file: Procedures<'b, 'a>,
    sizes: &[u64],
    waiting: &mut Vec<Own>,
    mut statements: Vec<PStmt>,
    made: &mut Made,
) -> Result<(), Memory>
    requires file { AreReady file }
    requires sizes { HasSizes (map procedure_of file.procs.now) sizes.now }
    ensures { OnOk result (finished (owns_all waiting.new.items) (own_held file.entry.procs.now made.new)
        ≡ finished (owns_all waiting.old.items)
        (expanded (block_of_all (reverse statements.items)) (own_held file.entry.procs.now made.old))) }
{
    match statements.pop() {
        None => Ok(()),
        Some(s) => match waits_for_rest(waiting, statements) {
            Ok(_) => statement(alloc, file, sizes, waiting, s, made),
            Err(error) => {
                drop(s);
                Err(error)
            }
        },
    }
}

// What is to be done next.
fn step<'b, 'a>(
    alloc: Global,
    file: Procedures<'b, 'a>,
    sizes: &[u64],
    waiting: &mut Vec<Own>,
    next: Own,
    made: &mut Made,
) -> Result<(), Memory>
    requires file { AreReady file }
    requires sizes { HasSizes (map procedure_of file.procs.now) sizes.now }
    ensures { OnOk result (finished (owns_all waiting.new.items) (own_held file.entry.procs.now made.new)
        ≡ finished (own_of next ∷ owns_all waiting.old.items) (own_held file.entry.procs.now made.old)) }
{
    match next {
        Own::Rest(statements) => rest(alloc, file, sizes, waiting, statements, made),
        Own::Open => open_block(alloc, &mut made.open_blocks),
        Own::EndChoice(guard) => close_choice(&mut made.open_blocks, guard),
        Own::EndLoop(guard) => close_loop(&mut made.open_blocks, guard),
    }
}

// Expands a file's own statements.
pub(crate) fn expand_own<'b, 'a>(
    alloc: Global,
    file: Procedures<'b, 'a>,
    sizes: &[u64],
    body: Vec<PStmt>,
    made: &mut Made,
) -> Result<(), Memory>
    requires file { AreReady file }
    requires sizes { HasSizes (map procedure_of file.procs.now) sizes.now }
    ensures { OnOk result (own_held file.entry.procs.now made.new
        ≡ expanded (block_of_all body.items) (own_held file.entry.procs.now made.old)) }
{
    let mut waiting = Vec::new(alloc);
    waits_for(&mut waiting, body)?;
    for _ in 0..u64::MAX {
        match waiting.pop() {
            None => return Ok(()),
            Some(next) => step(alloc, file, sizes, &mut waiting, next, made)?,
        }
    }
    Err(Memory)
}
