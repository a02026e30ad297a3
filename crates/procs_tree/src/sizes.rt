ghost use Rattle.std.specs.Prelude.{◌≡◌, ◌+◌, ◌<◌, ◌≤◌, ◌∷◌, [], IfOk, length, map, min, reverse, slice_index_or, take};
ghost use Rattle.gr_base.specs.Prelude.{found_under};
ghost use Rattle.src_tree.specs.Prelude.{shown_number};
ghost use Rattle.procs_tree.specs.Frames.{new_values};
ghost use Rattle.procs_tree.specs.Seen.{statement_of, block_of_all, trees_of, parameter_of, procedure_of};
ghost use Rattle.procs_tree.specs.Sizes.{sizes_of, size_of, size_of_all};
ghost use Rattle.procs_tree.specs.Measured.{AreSizes, IsMeasured, counted_call, scalars, sizes_by};
ghost use Rattle.procs_tree.specs.Numbered.{AreNumbered, by_number, found_before};

use crate::finding::called;
use crate::own_names::Numbers;
use crate::trees::{PStmt, Param, Proc};
use gr_base::Memory;
use gr_word::Name;
use src_tree::{Decl, Expr};
use std::alloc::Global;

fn size_at(sizes: &[u64], k: usize) -> u64
    ensures { result ≡ slice_index_or sizes.now k 0 }
{
    if k < sizes.len() { sizes[k] } else { 0 }
}

fn with_parameter(count: u64, param: &Param) -> u64
    ensures { result ≡ shown_number (count + scalars (parameter_of param.now ∷ [])) }
{
    match param {
        Param::Scalar(_, _) => count.saturating_add(1),
        Param::Array(_) => count,
    }
}

/// How many parameters are scalars.
pub fn scalars(params: &[Param]) -> u64
    ensures { result ≡ shown_number (scalars (map parameter_of params.now)) }
{
    let mut count = 0u64;
    for param in params {
        count = with_parameter(count, param);
    }
    count
}

// How many new variables a call has.
fn new_count(params: &[Param], arguments: &[Expr], locals: &[Decl]) -> u64
    ensures { result ≡ shown_number (length (new_values (map parameter_of params.now) (trees_of arguments.now) locals.now)) }
{
    let (given, _) = params.split_at(params.len().min(arguments.len()));
    scalars(given).saturating_add(locals.len() as u64)
}

/// How many statements a call is replaced by, up to 2^64 - 1, where the bodies have these sizes.
pub fn call_size<'a>(
    procs: &[Proc],
    numbers: &Numbers<'a>,
    sizes: &[u64],
    callable: usize,
    name: &Name,
    arguments: &[Expr],
) -> u64
    ensures { result ≡ shown_number
        (counted_call sizes.now (trees_of arguments.now)
        (found_before (map procedure_of procs.now) callable (found_under numbers.now name.now))) }
{
    match called(procs, numbers, callable, name.bytes()) {
        None => 0,
        Some(k) => {
            let p = &procs[k];
            let values = new_count(p.params.as_slice(), arguments, p.locals.as_slice());
            values.saturating_add(size_at(sizes, k))
        }
    }
}

#[cycle(sizes)]
fn statement_count<'a>(
    procs: &[Proc],
    numbers: &Numbers<'a>,
    sizes: &[u64],
    callable: usize,
    s: &PStmt,
) -> u64
    ensures { result ≡ shown_number
        (size_of (sizes_by sizes.now (by_number (map procedure_of procs.now) callable (found_under numbers.now)))
        (statement_of s.now)) }
{
    match s {
        PStmt::Set(_, _) => 1,
        PStmt::Put(_, _, _) => 1,
        PStmt::If(_, first, second) => {
            let first = block_count(procs, numbers, sizes, callable, first.as_slice());
            let second = block_count(procs, numbers, sizes, callable, second.as_slice());
            first.saturating_add(second).saturating_add(1)
        }
        PStmt::While(_, body) => {
            block_count(procs, numbers, sizes, callable, body.as_slice()).saturating_add(1)
        }
        PStmt::Call(name, arguments) => {
            call_size(procs, numbers, sizes, callable, name, arguments.as_slice())
        }
    }
}

#[cycle(sizes)]
fn block_count<'a>(
    procs: &[Proc],
    numbers: &Numbers<'a>,
    sizes: &[u64],
    callable: usize,
    statements: &[PStmt],
) -> u64
    ensures { result ≡ shown_number (size_of_all
        (sizes_by sizes.now (by_number (map procedure_of procs.now) callable (found_under numbers.now)))
        (block_of_all statements.now)) }
{
    let mut sum = 0u64;
    for statement in statements {
        sum = sum.saturating_add(statement_count(procs, numbers, sizes, callable, statement));
    }
    sum
}

// How many statements some are replaced by, up to 2^64 - 1, where the first `callable` procedures can be called.
pub(crate) fn block_size<'a>(
    procs: &[Proc],
    numbers: &Numbers<'a>,
    sizes: &[u64],
    callable: usize,
    statements: &[PStmt],
) -> u64
    requires numbers { AreNumbered (map procedure_of procs.now) (found_under numbers.now) }
    requires sizes { IsMeasured (map procedure_of procs.now) sizes.now callable }
    ensures { result ≡ shown_number
        (size_of_all (sizes_of (reverse (take callable (map procedure_of procs.now)))) (block_of_all statements.now)) }
{
    block_count(procs, numbers, sizes, callable, statements)
}

// How many statements the body of procedure number `k` is replaced by, up to 2^64 - 1, from the sizes of those before it.
fn body_size<'a>(procs: &[Proc], numbers: &Numbers<'a>, sizes: &[u64], k: usize, p: &Proc) -> u64
    requires numbers { AreNumbered (map procedure_of procs.now) (found_under numbers.now) }
    requires sizes { AreSizes (map procedure_of procs.now) sizes.now }
    requires all { length sizes.now ≡ k }
    ensures { result ≡ shown_number
        (size_of_all (sizes_of (reverse (take k (map procedure_of procs.now)))) (procedure_of p.now).body) }
{
    block_size(procs, numbers, sizes, k, p.body.as_slice())
}

// How many statements the body of each procedure is replaced by, up to 2^64 - 1.
pub(crate) fn body_sizes<'a>(
    alloc: Global,
    procs: &'a [Proc],
    numbers: &Numbers<'a>,
) -> Result<Vec<u64>, Memory>
    requires { AreNumbered (map procedure_of procs.now) (found_under numbers.now) }
    ensures sizes { IfOk result (λ r. AreSizes (map procedure_of procs.now) r.items) }
    ensures all { IfOk result (λ r. length procs.now ≤ length r.items) }
{
    let mut sizes = Vec::new(alloc);
    for (i, p) in procs.iter().enumerate() {
        let size = body_size(procs, numbers, sizes.as_slice(), i, p);
        sizes.push(size)?;
    }
    Ok(sizes)
}
