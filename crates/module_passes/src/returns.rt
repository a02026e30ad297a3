ghost use Rattle.std.specs.Prelude.{◌≡◌, [], ◌∷◌, IfOk, map, reverse};
ghost use Rattle.module_calls.specs.Tails.{always, always_in, choice_before, followed, tailed_all, tailed_function, tails};
ghost use Rattle.module_passes.specs.Owned.{expression_of, statement_of, block_of_all, function_of};
ghost use Rattle.module_passes.specs.BeforeRest.{before_rest};

use crate::trees::{Expr, Function, Stmt};
use gr_base::Memory;
use std::alloc::Global;

#[cycle(returning)]
fn always_returns(statement: &Stmt) -> bool
    ensures { result ≡ always (statement_of statement.now) }
{
    match statement {
        Stmt::If(_, first, second) => always_return(first.as_slice())
            && always_return(second.as_slice()),
        Stmt::Return(_) => true,
        Stmt::Block(body) => always_return(body.as_slice()),
        _ => false,
    }
}

#[cycle(returning)]
fn always_return(statements: &[Stmt]) -> bool
    ensures { result ≡ always_in (block_of_all statements.now) }
{
    for statement in statements {
        if always_returns(statement) {
            return true;
        }
    }
    false
}

// A block and the statements after it, which are given from the last to the first.
fn followed(block: Vec<Stmt>, rest: Vec<Stmt>) -> Result<Vec<Stmt>, Memory>
    ensures { IfOk result (λ made. block_of_all made.items
        ≡ followed (block_of_all block.items) (block_of_all (reverse rest.items))) }
{
    if rest.is_empty() {
        return Ok(block);
    }
    let mut rest = rest;
    rest.push(Stmt::Block(block))?;
    rest.reverse();
    Ok(rest)
}

fn one(alloc: Global, statement: Stmt) -> Result<Vec<Stmt>, Memory>
    ensures { IfOk result (λ made. made.items ≡ statement ∷ []) }
{
    let mut made = Vec::new(alloc);
    made.push(statement)?;
    Ok(made)
}

// A choice, and the statements after it, from the last to the first.
fn choice_before(
    alloc: Global,
    test: Expr,
    first: Vec<Stmt>,
    second: Vec<Stmt>,
    first_returns: bool,
    second_returns: bool,
    rest: Vec<Stmt>,
) -> Result<Vec<Stmt>, Memory>
    ensures { IfOk result (λ made. block_of_all (reverse made.items)
        ≡ choice_before (expression_of test) (block_of_all first.items) (block_of_all second.items) first_returns
        second_returns (block_of_all (reverse rest.items))) }
{
    if first_returns {
        let second = followed(second, rest)?;
        return one(alloc, Stmt::If(test, first, second));
    }
    if second_returns {
        let first = followed(first, rest)?;
        return one(alloc, Stmt::If(test, first, second));
    }
    let mut rest = rest;
    rest.push(Stmt::If(test, first, second))?;
    Ok(rest)
}

#[cycle(moving)]
fn before_rest(alloc: Global, statement: Stmt, rest: Vec<Stmt>) -> Result<Vec<Stmt>, Memory>
    ensures { IfOk result (λ made. block_of_all (reverse made.items)
        ≡ before_rest (statement_of statement) (block_of_all (reverse rest.items))) }
{
    match statement {
        Stmt::If(test, first, second) => {
            let first_returns = always_return(first.as_slice());
            let second_returns = always_return(second.as_slice());
            let first = tails(alloc, first)?;
            let second = tails(alloc, second)?;
            choice_before(
                alloc,
                test,
                first,
                second,
                first_returns,
                second_returns,
                rest,
            )
        }
        other => {
            let mut rest = rest;
            rest.push(other)?;
            Ok(rest)
        }
    }
}

/// The statements of a function's body with their returns at the ends. The only error is that memory ran out.
#[cycle(moving)]
pub fn tails(alloc: Global, statements: Vec<Stmt>) -> Result<Vec<Stmt>, Memory>
    ensures { IfOk result (λ made. block_of_all made.items ≡ tails (block_of_all statements.items)) }
{
    let mut left = statements;
    let mut rest = Vec::new(alloc);
    while let Some(statement) = left.pop() {
        rest = before_rest(alloc, statement, rest)?;
    }
    rest.reverse();
    Ok(rest)
}

fn tailed_function(alloc: Global, function: Function) -> Result<Function, Memory>
    ensures { IfOk result (λ made. function_of made ≡ tailed_function (function_of function)) }
{
    let body = tails(alloc, function.body)?;
    Ok(Function {
        name: function.name,
        returns_word: function.returns_word,
        parameters: function.parameters,
        body,
    })
}

/// Functions with their returns at the ends of their bodies. The only error is that memory ran out.
pub fn tailed(alloc: Global, functions: Vec<Function>) -> Result<Vec<Function>, Memory>
    ensures { IfOk result (λ made. map function_of made.items ≡ tailed_all (map function_of functions.items)) }
{
    let mut left = functions;
    let mut made = Vec::new(alloc);
    while let Some(function) = left.pop() {
        made.push(tailed_function(alloc, function)?)?;
    }
    made.reverse();
    Ok(made)
}
