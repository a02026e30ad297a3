ghost use Rattle.std.specs.Prelude.{◌≡◌, IfOk, OnOk};
ghost use Rattle.src_tree.specs.Prelude.{statement_of, block_of_all, source_of};
ghost use Rattle.source_folding.specs.Numbers.{BlockNumbersFit, StatementNumbersFit};
ghost use Rattle.source_folding.specs.Folded.{folded_statement, folded_block, folded_source};

use crate::expressions::{folded as folded_expression, folded_guard};
use gr_base::Memory;
use src_tree::{Decl, Program, Stmt};
use std::alloc::Global;

#[cycle(folding)]
fn folded_statement(alloc: Global, s: &Stmt) -> Result<Stmt, Memory>
    ensures folded { IfOk result (λ r. statement_of r ≡ folded_statement (statement_of s.now)) }
    ensures numbers { OnOk result (StatementNumbersFit (statement_of s.now)) }
{
    match s {
        Stmt::Set(name, value) => {
            let name = name.copy(alloc)?;
            Ok(Stmt::Set(name, folded_expression(alloc, value)?))
        }
        Stmt::Put(name, index, value) => {
            let name = name.copy(alloc)?;
            let index = folded_expression(alloc, index)?;
            Ok(Stmt::Put(name, index, folded_expression(alloc, value)?))
        }
        Stmt::If(guard, first, second) => {
            let first = folded_block(alloc, first.as_slice())?;
            let second = folded_block(alloc, second.as_slice())?;
            Ok(Stmt::If(folded_guard(alloc, guard)?, first, second))
        }
        Stmt::While(guard, body) => {
            let body = folded_block(alloc, body.as_slice())?;
            Ok(Stmt::While(folded_guard(alloc, guard)?, body))
        }
    }
}

// Statements in order, with cheaper expressions.
#[cycle(folding)]
#[tactic(auto, using(crate::proofs::Joined::joined_none, crate::proofs::Joined::joined_push))]
fn folded_block(alloc: Global, statements: &[Stmt]) -> Result<Vec<Stmt>, Memory>
    ensures folded { IfOk result (λ made. block_of_all made.items ≡ folded_block (block_of_all statements.now)) }
    ensures numbers { OnOk result (BlockNumbersFit (block_of_all statements.now)) }
{
    let mut made = Vec::new(alloc);
    for statement in statements {
        made.push(folded_statement(alloc, statement)?)?;
    }
    Ok(made)
}

fn copied(alloc: Global, decl: &Decl) -> Result<Decl, Memory>
    ensures { IfOk result (λ d. d ≡ decl.now) }
{
    Ok(Decl {
        name: decl.name.copy(alloc)?,
        label: decl.label,
        length: decl.length,
    })
}

fn all_copied(alloc: Global, decls: &[Decl]) -> Result<Vec<Decl>, Memory>
    ensures { IfOk result (λ all. all.items ≡ decls.now) }
{
    let mut all = Vec::new(alloc);
    for decl in decls {
        all.push(copied(alloc, decl)?)?;
    }
    Ok(all)
}

/// A program with cheaper expressions that means the same ([`folding_laws`](crate::folding_laws)). The only error is
/// that memory ran out.
pub fn folded(alloc: Global, p: &Program) -> Result<Program, Memory>
    ensures folded { IfOk result (λ q. source_of q ≡ folded_source (source_of p.now)) }
    ensures numbers { OnOk result (BlockNumbersFit (source_of p.now).body) }
{
    let decls = all_copied(alloc, p.decls.as_slice())?;
    let body = folded_block(alloc, p.body.as_slice())?;
    Ok(Program { decls, body })
}
