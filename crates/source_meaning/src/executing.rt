ghost use Rattle.std.specs.Prelude.{◌≡◌, IfOk};
ghost use Rattle.source_meaning.specs.Kept.{KeepsFit};
ghost use Rattle.source_meaning.specs.Placed.{left_with, with_turns};
ghost use Rattle.src_tree.specs.Prelude.{evaluated, guard_holds, run_of, run_of_block, expr_tree, test_of, statement_of, block_of_all};

use crate::placing::{number_of, place_statement};
use crate::running::run_step;
use crate::stores::{element, scalar, set_element, set_scalar};
use gr_base::Memory;
use gr_word::{Inputs, apply, holds};
use src_tree::{Decl, Expr, Guard, Stmt};
use std::alloc::Global;

// The value of an expression outside of all loops. It is computed once at most, and so its names are looked up here.
fn evaluated(decls: &[Decl], store: &Inputs, e: &Expr) -> i64
    ensures { result ≡ evaluated decls.now store.now (expr_tree e.now) }
{
    match e {
        Expr::Num(word) => *word,
        Expr::Var(name) => scalar(store, number_of(decls, name.bytes())),
        Expr::Item(name, index) => {
            let index = evaluated(decls, store, index);
            element(store, number_of(decls, name.bytes()), index)
        }
        Expr::Bin(op, left, right) => {
            let left = evaluated(decls, store, left);
            let right = evaluated(decls, store, right);
            apply(*op, left, right)
        }
    }
}

fn is_true(decls: &[Decl], store: &Inputs, guard: &Guard) -> bool
    ensures { result ≡ guard_holds decls.now store.now (test_of guard.now) }
{
    let left = evaluated(decls, store, &guard.left);
    let right = evaluated(decls, store, &guard.right);
    holds(guard.cmp, left, right)
}

// Executes a statement outside of all loops, or a whole loop, for which names are replaced by numbers of variables
// once. Returns the iterations that are left, or `None` if a loop needed one more.
#[cycle(executing)]
#[tactic(auto, using(crate::proofs::Keeping::keeps_same, crate::proofs::Keeping::keeps_then))]
fn execute(
    alloc: Global,
    decls: &[Decl],
    store: &mut Inputs,
    turns: u64,
    s: &Stmt,
) -> Result<Option<u64>, Memory>
    ensures left { IfOk result (λ more. with_turns store.new more
        ≡ run_of decls.now (statement_of s.now) (left_with store.old turns)) }
    ensures kept { KeepsFit store.old store.new }
{
    match s {
        Stmt::Set(name, value) => {
            let word = evaluated(decls, store, value);
            set_scalar(store, number_of(decls, name.bytes()), word);
            Ok(Some(turns))
        }
        Stmt::Put(name, index, value) => {
            let index = evaluated(decls, store, index);
            let word = evaluated(decls, store, value);
            set_element(store, number_of(decls, name.bytes()), index, word);
            Ok(Some(turns))
        }
        Stmt::If(guard, first, second) => {
            if is_true(decls, store, guard) {
                execute_block(alloc, decls, store, turns, first.as_slice())
            } else {
                execute_block(alloc, decls, store, turns, second.as_slice())
            }
        }
        Stmt::While(_, _) => {
            let step = place_statement(alloc, decls, s)?;
            Ok(run_step(store, turns, &step))
        }
    }
}

// Executes statements outside of all loops, in order.
#[cycle(executing)]
#[tactic(auto, using(crate::proofs::Keeping::keeps_same, crate::proofs::Keeping::keeps_then))]
pub(crate) fn execute_block(
    alloc: Global,
    decls: &[Decl],
    store: &mut Inputs,
    turns: u64,
    statements: &[Stmt],
) -> Result<Option<u64>, Memory>
    ensures left { IfOk result (λ more. with_turns store.new more
        ≡ run_of_block decls.now (block_of_all statements.now) (left_with store.old turns)) }
    ensures kept { KeepsFit store.old store.new }
{
    let mut turns = turns;
    for statement in statements {
        match execute(alloc, decls, store, turns, statement)? {
            None => return Ok(None),
            Some(more) => turns = more,
        }
    }
    Ok(Some(turns))
}
