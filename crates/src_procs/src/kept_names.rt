ghost use Rattle.std.specs.Prelude.{◌≡◌, IfOk};
ghost use Rattle.src_tree.specs.Prelude.{expr_tree, test_of};
ghost use Rattle.procs_tree.specs.Inlined.{kept_name, renamed, renamed_test};
ghost use Rattle.src_procs.specs.Expanding as spec;

use crate::scopes::{Naming, no_name, renamed};
use gr_base::Memory;
use gr_word::Name;
use procs_tree::is_hidden;
use src_tree::{Expr, Guard};
use std::alloc::Global;

// Whether an expression has a name that begins with `__`.
fn has_hidden(e: &Expr) -> bool
    ensures { result ≡ spec.has_hidden (expr_tree e.now) }
{
    match e {
        Expr::Num(_) => false,
        Expr::Var(name) => is_hidden(name.bytes()),
        Expr::Item(name, index) => is_hidden(name.bytes()) || has_hidden(index),
        Expr::Bin(_, left, right) => has_hidden(left) || has_hidden(right),
    }
}

// The program's name for one in the file's own statements.
pub(crate) fn own_name(alloc: Global, name: Name) -> Result<Name, Memory>
    ensures { IfOk result (λ kept. kept ≡ kept_name name) }
{
    if is_hidden(name.bytes()) {
        return no_name(alloc);
    }
    Ok(name)
}

// The program's expression for one in the file's own statements. It is moved, since the program runs it only there, and a
// copy of a long expression takes much memory. Only a file that wasn't parsed has names that change.
#[tactic(auto, using(crate::proofs::KeptNames::kept_whole))]
pub(crate) fn own_expr(alloc: Global, e: Expr) -> Result<Expr, Memory>
    ensures { IfOk result (λ r. expr_tree r ≡ renamed kept_name (expr_tree e)) }
{
    if has_hidden(&e) {
        return renamed(alloc, &Naming::Own, &e);
    }
    Ok(e)
}

pub(crate) fn own_guard(alloc: Global, guard: Guard) -> Result<Guard, Memory>
    ensures { IfOk result (λ g. test_of g ≡ renamed_test kept_name (test_of guard)) }
{
    let Guard { cmp, left, right } = guard;
    match own_expr(alloc, left) {
        Ok(left) => match own_expr(alloc, right) {
            Ok(right) => Ok(Guard { cmp, left, right }),
            Err(error) => {
                drop(left);
                Err(error)
            }
        },
        Err(error) => {
            drop(right);
            Err(error)
        }
    }
}
