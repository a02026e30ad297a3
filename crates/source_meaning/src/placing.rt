ghost use Rattle.std.specs.Prelude.{◌≡◌, IfOk};
ghost use Rattle.src_tree.specs.Prelude.{variable_number, expr_tree, test_of, statement_of, block_of_all};
ghost use Rattle.source_meaning.specs.Placed.{placed_tree, placed_test, placed_statement, placed_block, placed_of, placed_check, action_of, actions_of_all};

use crate::placed::{Check, Step, Term};
use gr_base::Memory;
use src_tree::{Decl, Expr, Guard, Stmt};
use std::alloc::Global;

// The number of a name's variable, or the number of declarations if the name isn't declared. The declarations are
// searched one by one: there are at most 256, and a program has at most 8,192 names.
pub(crate) fn number_of(decls: &[Decl], name: &[u8]) -> usize
    ensures { result ≡ variable_number decls.now name.now }
{
    for (i, decl) in decls.iter().enumerate() {
        if name == decl.name.bytes() {
            return i;
        }
    }
    decls.len()
}

fn place_expression(alloc: Global, decls: &[Decl], e: &Expr) -> Result<Term, Memory>
    ensures { IfOk result (λ term. placed_of term ≡ placed_tree decls.now (expr_tree e.now)) }
{
    match e {
        Expr::Num(value) => Ok(Term::Constant(*value)),
        Expr::Var(name) => Ok(Term::Scalar(number_of(decls, name.bytes()))),
        Expr::Item(name, index) => {
            let array = number_of(decls, name.bytes());
            let index = place_expression(alloc, decls, index)?;
            Ok(Term::Element(array, Box::new(alloc, index)?))
        }
        Expr::Bin(op, left, right) => {
            let left = place_expression(alloc, decls, left)?;
            let right = place_expression(alloc, decls, right)?;
            Ok(Term::Operation(*op, Box::new(alloc, left)?, Box::new(alloc, right)?))
        }
    }
}

fn place_guard(alloc: Global, decls: &[Decl], guard: &Guard) -> Result<Check, Memory>
    ensures { IfOk result (λ check. placed_check check ≡ placed_test decls.now (test_of guard.now)) }
{
    let left = place_expression(alloc, decls, &guard.left)?;
    let right = place_expression(alloc, decls, &guard.right)?;
    Ok(Check {
        cmp: guard.cmp,
        left,
        right,
    })
}

#[cycle(placing)]
pub(crate) fn place_statement(alloc: Global, decls: &[Decl], s: &Stmt) -> Result<Step, Memory>
    ensures { IfOk result (λ step. action_of step ≡ placed_statement decls.now (statement_of s.now)) }
{
    match s {
        Stmt::Set(name, value) => {
            let value = place_expression(alloc, decls, value)?;
            Ok(Step::SetScalar(number_of(decls, name.bytes()), value))
        }
        Stmt::Put(name, index, value) => {
            let index = place_expression(alloc, decls, index)?;
            let value = place_expression(alloc, decls, value)?;
            Ok(Step::SetElement(number_of(decls, name.bytes()), index, value))
        }
        Stmt::If(guard, first, second) => {
            let check = place_guard(alloc, decls, guard)?;
            let first = place_block(alloc, decls, first.as_slice())?;
            let second = place_block(alloc, decls, second.as_slice())?;
            Ok(Step::Choice(check, first, second))
        }
        Stmt::While(guard, body) => {
            let check = place_guard(alloc, decls, guard)?;
            let body = place_block(alloc, decls, body.as_slice())?;
            Ok(Step::Loop(check, body))
        }
    }
}

// Replaces each name by the number of its variable, in statements in order.
#[cycle(placing)]
#[tactic(auto, using(crate::proofs::Joined::joined_none, crate::proofs::Joined::joined_push))]
fn place_block(alloc: Global, decls: &[Decl], statements: &[Stmt]) -> Result<Vec<Step>, Memory>
    ensures { IfOk result (λ steps. actions_of_all steps.items ≡ placed_block decls.now (block_of_all statements.now)) }
{
    let mut steps = Vec::new(alloc);
    for statement in statements {
        steps.push(place_statement(alloc, decls, statement)?)?;
    }
    Ok(steps)
}
