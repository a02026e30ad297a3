ghost use Rattle.std.specs.Prelude.{◌≡◌, ◌≤◌, IfOk, OnOk, length};
ghost use Rattle.src_tree.specs.Prelude.{block_of_all, expr_tree, source_of, statement_of, test_of};
ghost use Rattle.block_cache_gen.specs.Prelude.{BlockHasWords, StatementHasWords, HasWords, TestHasWords};
ghost use Rattle.compiled_objects.specs.Prelude.{held_for, with_block, with_place, with_places, with_statement, with_test, with_tree};

use bank_alloc::Place;
use block_cache_gen::reducer_at;
use gr_base::Memory;
use held_registers::{Held, held_scalars, hold_number};
use src_tree::{Expr, Guard, Program, Stmt};
use std::alloc::Global;

// Gives each number of an expression a register that has none, as long as one is left.
fn hold_tree(held: &mut Vec<Held>, e: &Expr) -> Result<(), Memory>
    requires few { length held.old.items ≤ 13 }
    ensures held { OnOk result (held.new.items ≡ with_tree held.old.items (expr_tree e.now)) }
    ensures few { OnOk result (length held.new.items ≤ 13) }
    ensures words { OnOk result (HasWords (expr_tree e.now)) }
{
    match e {
        Expr::Num(value) => hold_number(held, *value),
        Expr::Var(_) => Ok(()),
        Expr::Item(_, index) => hold_tree(held, index),
        Expr::Bin(_, left, right) => {
            hold_tree(held, left)?;
            hold_tree(held, right)
        }
    }
}

fn hold_test(held: &mut Vec<Held>, guard: &Guard) -> Result<(), Memory>
    requires few { length held.old.items ≤ 13 }
    ensures held { OnOk result (held.new.items ≡ with_test held.old.items (test_of guard.now)) }
    ensures few { OnOk result (length held.new.items ≤ 13) }
    ensures words { OnOk result (TestHasWords (test_of guard.now)) }
{
    hold_tree(held, &guard.left)?;
    hold_tree(held, &guard.right)
}

#[cycle(holding)]
fn hold_statement(held: &mut Vec<Held>, s: &Stmt) -> Result<(), Memory>
    requires few { length held.old.items ≤ 13 }
    ensures held { OnOk result (held.new.items ≡ with_statement held.old.items (statement_of s.now)) }
    ensures few { OnOk result (length held.new.items ≤ 13) }
    ensures words { OnOk result (StatementHasWords (statement_of s.now)) }
{
    match s {
        Stmt::Set(_, value) => hold_tree(held, value),
        Stmt::Put(_, index, value) => {
            hold_tree(held, value)?;
            hold_tree(held, index)
        }
        Stmt::If(guard, first, second) => {
            hold_test(held, guard)?;
            hold_block(held, first.as_slice())?;
            hold_block(held, second.as_slice())
        }
        Stmt::While(guard, body) => {
            hold_test(held, guard)?;
            hold_block(held, body.as_slice())
        }
    }
}

#[cycle(holding)]
fn hold_block(held: &mut Vec<Held>, statements: &[Stmt]) -> Result<(), Memory>
    requires few { length held.old.items ≤ 13 }
    ensures held { OnOk result (held.new.items ≡ with_block held.old.items (block_of_all statements.now)) }
    ensures few { OnOk result (length held.new.items ≤ 13) }
    ensures words { OnOk result (BlockHasWords (block_of_all statements.now)) }
{
    for statement in statements {
        hold_statement(held, statement)?;
    }
    Ok(())
}

// Gives the numbers that the code of an array needs registers, if the place is an array's.
fn hold_place(held: &mut Vec<Held>, place: Place) -> Result<(), Memory>
    requires few { length held.old.items ≤ 13 }
    ensures held { OnOk result (held.new.items ≡ with_place held.old.items place) }
    ensures few { OnOk result (length held.new.items ≤ 13) }
{
    if place.length == 1 {
        return Ok(());
    }
    hold_number(held, reducer_at(place))?;
    hold_number(held, i64::from(place.word))
}

fn hold_places(held: &mut Vec<Held>, places: &[Place]) -> Result<(), Memory>
    requires few { length held.old.items ≤ 13 }
    ensures held { OnOk result (held.new.items ≡ with_places held.old.items places.now) }
    ensures few { OnOk result (length held.new.items ≤ 13) }
{
    for place in places {
        hold_place(held, *place)?;
    }
    Ok(())
}

/// What registers hold for the whole run of a program: its first scalars, then the numbers that the code of its arrays
/// needs, then those of its expressions in the order of their code. The only error is running out of memory.
#[tactic(auto, unfolding(compiled_objects::specs::HeldNumbers::held_for))]
pub(crate) fn held_for(
    alloc: Global,
    program: &Program,
    places: &[Place],
) -> Result<Vec<Held>, Memory>
    requires few { length program.now.decls.items ≤ 256 }
    ensures held { IfOk result (λ held. held.items ≡ held_for (source_of program.now) places.now) }
    ensures words { OnOk result (BlockHasWords (source_of program.now).body) }
{
    let mut held = held_scalars(alloc, program.decls.as_slice())?;
    hold_places(&mut held, places)?;
    hold_block(&mut held, program.body.as_slice())?;
    Ok(held)
}
