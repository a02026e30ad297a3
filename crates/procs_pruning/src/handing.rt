ghost use Rattle.std.specs.Prelude.{◌≡◌, ◌<◌, ◌≤◌, ◌++◌, ◌∷◌, [], IfOk, IfSome, OnOk, Some, length, map, option_map, reverse, take};
ghost use Rattle.gr_base.specs.Prelude.{found_under};
ghost use Rattle.src_tree.specs.Prelude.{expr_tree};
ghost use Rattle.procs_pruning.specs.Handed.{HandsOn, SameStatement, argument_seen, arguments_under};
ghost use Rattle.procs_tree.specs.Numbered.{AreNumbered};
ghost use Rattle.procs_pruning.specs.Pruned.{ArePruned, SameCode};
ghost use Rattle.procs_tree.specs.Seen.{parameter_of, procedure_of};
ghost use Rattle.procs_tree.specs.Trees.{Call, Nothing, Then};
ghost use Rattle.procs_pruning.specs.LiveSeen.{bodies_of, live_block, live_of, trees_seen};
ghost use Rattle.procs_pruning.specs.Handed as spec;

use crate::live::Live;
use crate::needed::Body;
use gr_base::Memory;
use gr_word::Name;
use procs_tree::{Numbers, Param, Proc, called, parameter_name, scalars};
use src_tree::Expr;
use std::alloc::Global;
use std::collections::BTreeMap;

// The arguments of a call by the names of the parameters.
type Given<'a> = BTreeMap<&'a [u8], &'a Expr>;

fn give<'a>(given: &mut Given<'a>, name: &'a [u8], argument: &'a Expr) -> Result<(), Memory>
    ensures { OnOk result (arguments_under given.new
        ≡ spec.with_argument name.now (expr_tree argument.now) (arguments_under given.old)) }
{
    match given.insert(name, argument) {
        Ok(_) => Ok(()),
        Err(_) => Err(Memory),
    }
}

// From the last to the first, since of two parameters with one name the first counts.
fn by_name<'a>(
    alloc: Global,
    params: &'a [Param],
    arguments: &[&'a Expr],
) -> Result<Given<'a>, Memory>
    requires { length params.now ≡ length arguments.now }
    ensures { IfOk result (λ given. arguments_under given
        ≡ spec.argument_of (map parameter_of params.now) (trees_seen arguments.now)) }
{
    let mut given: Given<'a> = BTreeMap::new(alloc);
    for i in 0..params.len() {
        let at = params.len() - 1 - i;
        give(&mut given, parameter_name(&params[at]), arguments[at])?;
    }
    Ok(given)
}

fn argument_named<'a>(given: &Given<'a>, name: &'a [u8]) -> Option<&'a Expr>
    ensures { result ≡ found_under given.now name.now }
{
    given.get(&name).copied()
}

fn bare<'a>(e: &'a Expr) -> Option<&'a Expr>
    ensures { option_map argument_seen result ≡ spec.bare (Some (expr_tree e.now)) }
{
    match e {
        Expr::Var(_) => Some(e),
        Expr::Num(_) => None,
        Expr::Item(_, _) => None,
        Expr::Bin(_, _, _) => None,
    }
}

// What a bare name in a procedure's statements is in its caller's, where that is a bare name too.
fn handed<'a>(given: &Given<'a>, e: &'a Expr) -> Option<&'a Expr>
    ensures { option_map argument_seen result ≡ spec.handed (arguments_under given.now) (expr_tree e.now) }
{
    match e {
        Expr::Var(name) => match argument_named(given, name.bytes()) {
            None => None,
            Some(argument) => bare(argument),
        },
        Expr::Num(_) => None,
        Expr::Item(_, _) => None,
        Expr::Bin(_, _, _) => None,
    }
}

// One argument more.
pub(crate) fn add<'a>(arguments: &mut Vec<&'a Expr>, argument: &'a Expr) -> Result<(), Memory>
    ensures { OnOk result (trees_seen arguments.new.items
        ≡ trees_seen arguments.old.items ++ expr_tree argument.now ∷ []) }
{
    arguments.push(argument)?;
    Ok(())
}

fn all_handed<'a>(
    alloc: Global,
    given: &Given<'a>,
    es: &[&'a Expr],
) -> Result<Option<Vec<&'a Expr>>, Memory>
    ensures { IfOk result (λ r. IfSome r (λ all. map Some (trees_seen all.items)
        ≡ map (spec.handed (arguments_under given.now)) (trees_seen es.now))) }
{
    let mut all = Vec::new(alloc);
    for e in es {
        match handed(given, *e) {
            None => return Ok(None),
            Some(argument) => add(&mut all, argument)?,
        }
    }
    Ok(Some(all))
}

// The arguments of a procedure's own call, with its parameters replaced by these arguments. `None` if they aren't bare
// names.
fn handed_arguments<'a>(
    alloc: Global,
    params: &'a [Param],
    arguments: &[&'a Expr],
    own: &[&'a Expr],
) -> Result<Option<Vec<&'a Expr>>, Memory>
    requires { length params.now ≡ length arguments.now }
    ensures { IfOk result (λ r. IfSome r (λ all. map Some (trees_seen all.items)
        ≡ map (spec.handed (spec.argument_of (map parameter_of params.now) (trees_seen arguments.now)))
        (trees_seen own.now))) }
{
    let given = by_name(alloc, params, arguments)?;
    all_handed(alloc, &given, own)
}

// A call with its arguments.
#[derive(Drop)]
struct OneCall<'c, 'a> {
    name: &'a Name,
    arguments: &'c [&'a Expr],
}

// The call, if the statements are a single call.
fn one_call<'c, 'a>(statements: &'c [Live<'a>]) -> Option<OneCall<'c, 'a>>
    ensures { IfSome result (λ c. live_block statements.now
        ≡ Then (Call c.name.now (trees_seen c.arguments.now)) Nothing) }
{
    if statements.len() != 1 {
        return None;
    }
    match &statements[0] {
        Live::Call(name, arguments) => Some(OneCall {
            name: *name,
            arguments: arguments.as_slice(),
        }),
        Live::Set(_, _) => None,
        Live::Put(_, _, _) => None,
        Live::If(_, _, _) => None,
        Live::While(_, _) => None,
    }
}

// The call in place of a procedure's only one, for a call of that procedure with these arguments, where it has no
// variables of its own and hands bare names on.
fn handed_on<'a>(
    alloc: Global,
    p: &'a Proc,
    arguments: &[&'a Expr],
    next: OneCall<'_, 'a>,
) -> Result<Option<Live<'a>>, Memory>
    ensures { IfOk result (λ r. IfSome r (λ live. HandsOn (procedure_of p.now) (trees_seen arguments.now)
        next.entry.name.now (trees_seen next.entry.arguments.now) (live_of live))) }
{
    let params = p.params.as_slice();
    if params.len() != arguments.len() {
        return Ok(None);
    }
    if !p.locals.is_empty() {
        return Ok(None);
    }
    if scalars(params) != 0 {
        return Ok(None);
    }
    match handed_arguments(alloc, params, arguments, next.arguments)? {
        None => Ok(None),
        Some(all) => Ok(Some(Live::Call(next.name, all))),
    }
}

// The call that a call comes down to, where its procedure only hands its arguments on. Where that has many more arguments,
// the call stays, so that all calls together have little more of them than those of the file.
fn passed_on<'a>(
    alloc: Global,
    procs: &'a [Proc],
    numbers: &Numbers<'a>,
    bodies: &[Body<'a>],
    callable: usize,
    name: &'a Name,
    arguments: &[&'a Expr],
) -> Result<Option<Live<'a>>, Memory>
    requires numbers { AreNumbered (map procedure_of procs.now) (found_under numbers.now) }
    requires bodies { ArePruned (map procedure_of procs.now) (bodies_of bodies.now) }
    ensures { IfOk result (λ r. IfSome r (λ live. SameStatement (reverse (take callable (map procedure_of procs.now)))
        (live_of live) (Call name.now (trees_seen arguments.now)))) }
{
    let k = match called(procs, numbers, callable, name.bytes()) {
        None => return Ok(None),
        Some(k) => k,
    };
    if k >= bodies.len() {
        return Ok(None);
    }
    let next = match one_call(bodies[k].statements.as_slice()) {
        None => return Ok(None),
        Some(next) => next,
    };
    if next.arguments.len() / 2 > arguments.len().saturating_add(4) {
        return Ok(None);
    }
    match called(procs, numbers, k, next.name.bytes()) {
        None => Ok(None),
        Some(_) => handed_on(alloc, &procs[k], arguments, next),
    }
}

// The call that can replace some statements, if they are a single call.
fn passed_down<'a>(
    alloc: Global,
    procs: &'a [Proc],
    numbers: &Numbers<'a>,
    bodies: &[Body<'a>],
    callable: usize,
    statements: &[Live<'a>],
) -> Result<Option<Live<'a>>, Memory>
    requires numbers { AreNumbered (map procedure_of procs.now) (found_under numbers.now) }
    requires bodies { ArePruned (map procedure_of procs.now) (bodies_of bodies.now) }
    ensures { IfOk result (λ r. IfSome r (λ live. SameCode (reverse (take callable (map procedure_of procs.now)))
        (Then (live_of live) Nothing) (live_block statements.now))) }
{
    match one_call(statements) {
        None => Ok(None),
        Some(call) => {
            passed_on(
                alloc,
                procs,
                numbers,
                bodies,
                callable,
                call.name,
                call.arguments,
            )
        }
    }
}

// A block of one statement.
fn one_statement<'a>(alloc: Global, live: Live<'a>) -> Result<Vec<Live<'a>>, Memory>
    ensures { IfOk result (λ r. live_block r.items ≡ Then (live_of live.entry) Nothing) }
{
    let mut block = Vec::new(alloc);
    block.push(live)?;
    Ok(block)
}

// The statements; or, if they are a single call, the call that can replace it.
#[tactic(auto, using(crate::proofs::HandedOn::one_code))]
pub(crate) fn come_down<'a>(
    alloc: Global,
    procs: &'a [Proc],
    numbers: &Numbers<'a>,
    bodies: &[Body<'a>],
    callable: usize,
    statements: Vec<Live<'a>>,
) -> Result<Vec<Live<'a>>, Memory>
    requires numbers { AreNumbered (map procedure_of procs.now) (found_under numbers.now) }
    requires bodies { ArePruned (map procedure_of procs.now) (bodies_of bodies.now) }
    ensures { IfOk result (λ r. SameCode (reverse (take callable (map procedure_of procs.now)))
        (live_block r.items) (live_block statements.entry.items)) }
{
    match passed_down(
        alloc,
        procs,
        numbers,
        bodies,
        callable,
        statements.as_slice(),
    )? {
        None => Ok(statements),
        Some(live) => {
            let less = one_statement(alloc, live)?;
            Ok(less)
        }
    }
}
