ghost use Rattle.std.specs.Prelude.{◌≡◌, ◌&&◌, [], map, not, reverse, take};
ghost use Rattle.gr_base.specs.Prelude.{found_under};
ghost use Rattle.src_tree.specs.Prelude.{shown_place, expr_tree};
ghost use Rattle.procs_tree.specs.Numbered.{AreNumbered, procedure_by_number};
ghost use Rattle.procs_tree.specs.Seen.{statement_of, block_of_all, trees_of, parameter_of, procedure_of};
ghost use Rattle.procs_tree.specs.Trees.{Call};
ghost use Rattle.procs_tree.specs.InlineFaults as spec;

use crate::errors::InlineError;
use crate::finding::called;
use crate::own_names::Numbers;
use crate::trees::{PStmt, Param, Proc};
use gr_word::Name;
use src_tree::Expr;

fn is_bare(e: &Expr) -> bool
    ensures { result ≡ spec.is_bare (expr_tree e.now) }
{
    match e {
        Expr::Var(_) => true,
        Expr::Num(_) => false,
        Expr::Item(_, _) => false,
        Expr::Bin(_, _, _) => false,
    }
}

fn names_variable(param: &Param) -> bool
    ensures { result ≡ spec.names_variable (parameter_of param.now) }
{
    match param {
        Param::Scalar(_, _) => false,
        Param::Array(_) => true,
    }
}

fn lacks(param: &Param, argument: &Expr) -> bool
    ensures { result ≡ (spec.names_variable (parameter_of param.now) && not (spec.is_bare (expr_tree argument.now))) }
{
    names_variable(param) && !is_bare(argument)
}

// Whether an array's argument isn't a bare name.
fn lacks_name(params: &[Param], arguments: &[Expr]) -> bool
    ensures { result ≡ spec.lacks_name (map parameter_of params.now) (trees_of arguments.now) }
{
    for (i, param) in params.iter().enumerate() {
        if i >= arguments.len() {
            return false;
        }
        if lacks(param, &arguments[i]) {
            return true;
        }
    }
    false
}

// What is wrong with a call of a procedure.
fn arguments_fault(n: u32, params: &[Param], arguments: &[Expr]) -> Option<InlineError>
    ensures { result ≡ spec.arguments_fault n (trees_of arguments.now) (map parameter_of params.now) }
{
    if arguments.len() != params.len() {
        return Some(InlineError::WrongCount(n));
    }
    if lacks_name(params, arguments) {
        return Some(InlineError::NotAnArray(n));
    }
    None
}

// What is wrong with call number `n`, where the first `callable` procedures can be called.
fn call_fault<'a>(
    procs: &[Proc],
    numbers: &Numbers<'a>,
    callable: usize,
    n: u32,
    name: &Name,
    arguments: &[Expr],
) -> Option<InlineError>
    ensures { result ≡ spec.call_fault n (trees_of arguments.now)
        (procedure_by_number (map procedure_of procs.now) callable (found_under numbers.now) name.now) }
{
    match called(procs, numbers, callable, name.bytes()) {
        None => Some(InlineError::NoProcedure(n)),
        Some(k) => arguments_fault(n, procs[k].params.as_slice(), arguments),
    }
}

fn next_call(n: u32, fault: Option<InlineError>) -> Result<u32, InlineError>
    ensures { result ≡ spec.next_call n fault }
{
    match fault {
        None => Ok(n.saturating_add(1)),
        Some(fault) => Err(fault),
    }
}

// The number of the call after this one, or what is wrong with it.
fn walk_call<'a>(
    procs: &[Proc],
    numbers: &Numbers<'a>,
    callable: usize,
    n: u32,
    name: &Name,
    arguments: &[Expr],
) -> Result<u32, InlineError>
    ensures { result ≡ spec.calls_walked
        (procedure_by_number (map procedure_of procs.now) callable (found_under numbers.now)) n
        (Call name.now (trees_of arguments.now)) }
{
    next_call(n, call_fault(procs, numbers, callable, n, name, arguments))
}

#[cycle(calls)]
fn walk_statement<'a>(
    procs: &[Proc],
    numbers: &Numbers<'a>,
    callable: usize,
    n: u32,
    s: &PStmt,
) -> Result<u32, InlineError>
    ensures { result ≡ spec.calls_walked
        (procedure_by_number (map procedure_of procs.now) callable (found_under numbers.now)) n (statement_of s.now) }
{
    match s {
        PStmt::Set(_, _) => Ok(n),
        PStmt::Put(_, _, _) => Ok(n),
        PStmt::If(_, first, second) => {
            let middle = walk_block(procs, numbers, callable, n, first.as_slice())?;
            walk_block(procs, numbers, callable, middle, second.as_slice())
        }
        PStmt::While(_, body) => walk_block(procs, numbers, callable, n, body.as_slice()),
        PStmt::Call(name, arguments) => {
            walk_call(procs, numbers, callable, n, name, arguments.as_slice())
        }
    }
}

#[cycle(calls)]
fn walk_block<'a>(
    procs: &[Proc],
    numbers: &Numbers<'a>,
    callable: usize,
    n: u32,
    statements: &[PStmt],
) -> Result<u32, InlineError>
    ensures { result ≡ spec.calls_walked_all
        (procedure_by_number (map procedure_of procs.now) callable (found_under numbers.now)) n
        (block_of_all statements.now) }
{
    let mut n = n;
    for statement in statements {
        n = walk_statement(procs, numbers, callable, n, statement)?;
    }
    Ok(n)
}

fn walk_procedures<'a>(procs: &'a [Proc], numbers: &Numbers<'a>) -> Result<u32, InlineError>
    requires { AreNumbered (map procedure_of procs.now) (found_under numbers.now) }
    ensures { result ≡ spec.procedures_walked [] 0 (map procedure_of procs.now) }
{
    let mut n = 0u32;
    for (i, p) in procs.iter().enumerate() {
        n = walk_block(procs, numbers, i, n, p.body.as_slice())?;
    }
    Ok(n)
}

// The number of the calls of a file, or the first fault of one.
pub(crate) fn walk_file<'a>(
    procs: &'a [Proc],
    numbers: &Numbers<'a>,
    body: &[PStmt],
) -> Result<u32, InlineError>
    requires { AreNumbered (map procedure_of procs.now) (found_under numbers.now) }
    ensures { result ≡ spec.file_walked (map procedure_of procs.now) (block_of_all body.now) }
{
    let n = walk_procedures(procs, numbers)?;
    walk_block(procs, numbers, procs.len(), n, body)
}
