ghost use Rattle.std.specs.Prelude.{◌≡◌, IfOk};
ghost use Rattle.src_tree.specs.Prelude.{block_of_all, expr_tree, statement_of, test_of, variable_number};
ghost use Rattle.scalar_ranges.specs.Known.{after_block, after_statement, forgotten_block, forgotten_statement, inside, inside_by, keeps_least, learned, with_range};
ghost use Rattle.scalar_ranges.specs.Ranges.{range_at};

use crate::expressions::{range_at, range_of};
use crate::names::{label_at, number_of};
use crate::operations::counted;
use crate::ranges::Range;
use gr_base::Memory;
use gr_word::Label;
use src_tree::{Decl, Expr, Guard, Stmt};
use std::alloc::Global;

// Replaces what is known of a name.
fn set_range(decls: &[Decl], known: &mut Vec<Option<Range>>, name: &[u8], range: Option<Range>)
    ensures { known.new.items ≡ with_range decls.now known.old.items name.now range }
{
    let number = number_of(decls, name);
    if number < known.len() {
        known[number] = range;
    }
}

// Forgets the variables that a statement assigns.
#[cycle(forgetting)]
fn forget(decls: &[Decl], known: &mut Vec<Option<Range>>, s: &Stmt)
    ensures { known.new.items ≡ forgotten_statement decls.now known.old.items (statement_of s.now) }
{
    match s {
        Stmt::Set(name, _) => set_range(decls, known, name.bytes(), None),
        Stmt::Put(name, _, _) => set_range(decls, known, name.bytes(), None),
        Stmt::If(_, first, second) => {
            forget_all(decls, known, first.as_slice());
            forget_all(decls, known, second.as_slice());
        }
        Stmt::While(_, body) => forget_all(decls, known, body.as_slice()),
    }
}

/// Forgets the variables that statements assign.
#[cycle(forgetting)]
pub fn forget_all(decls: &[Decl], known: &mut Vec<Option<Range>>, statements: &[Stmt])
    ensures { known.new.items ≡ forgotten_block decls.now known.old.items (block_of_all statements.now) }
{
    for statement in statements {
        forget(decls, known, statement);
    }
}

// What an assignment of a value to a scalar says of it. Nothing is known of secret scalars, since secret code executes
// statements without their effect.
fn learned(decls: &[Decl], known: &[Option<Range>], name: &[u8], value: &Expr) -> Option<Range>
    ensures { result ≡ learned decls.now known.now name.now (expr_tree value.now) }
{
    match label_at(decls, name) {
        Label::Public => range_of(decls, known, value),
        Label::Secret => None,
    }
}

/// Replaces what is known before a statement by what is known after it.
pub fn pass(decls: &[Decl], known: &mut Vec<Option<Range>>, s: &Stmt)
    ensures { known.new.items ≡ after_statement decls.now known.old.items (statement_of s.now) }
{
    match s {
        Stmt::Set(name, value) => {
            let range = learned(decls, known.as_slice(), name.bytes(), value);
            set_range(decls, known, name.bytes(), range);
        }
        Stmt::Put(_, _, _) => forget(decls, known, s),
        Stmt::If(_, _, _) => forget(decls, known, s),
        Stmt::While(_, _) => forget(decls, known, s),
    }
}

fn pass_all(decls: &[Decl], known: &mut Vec<Option<Range>>, statements: &[Stmt])
    ensures { known.new.items ≡ after_block decls.now known.old.items (block_of_all statements.now) }
{
    for statement in statements {
        pass(decls, known, statement);
    }
}

/// A copy of what is known. The only error is that memory ran out.
pub fn copied(alloc: Global, known: &[Option<Range>]) -> Result<Vec<Option<Range>>, Memory>
    ensures { IfOk result (λ all. all.items ≡ known.now) }
{
    let mut all = Vec::new(alloc);
    for range in known {
        all.push(*range)?;
    }
    Ok(all)
}

// Whether a scalar isn't below what it was at the start.
fn keeps_least(start: Option<Range>, after: Option<Range>) -> bool
    ensures { result ≡ keeps_least start after }
{
    match start {
        None => false,
        Some(start) => match after {
            None => false,
            Some(after) => start.least <= after.least,
        },
    }
}

// Whether the body of a loop keeps the least of its counter, if it begins with what is known.
fn keeps_counter(
    alloc: Global,
    decls: &[Decl],
    known: &[Option<Range>],
    name: &[u8],
    start: Option<Range>,
    body: &[Stmt],
) -> Result<bool, Memory>
    ensures { IfOk result (λ keeps. keeps ≡ keeps_least start
        (range_at (after_block decls.now known.now (block_of_all body.now)) (variable_number decls.now name.now))) }
{
    let mut after = copied(alloc, known)?;
    pass_all(decls, &mut after, body);
    Ok(keeps_least(start, range_at(after.as_slice(), number_of(decls, name))))
}

// What is known in the body of a loop whose guard bounds a counter.
fn inside_by(
    alloc: Global,
    decls: &[Decl],
    forgotten: Vec<Option<Range>>,
    name: &[u8],
    start: Option<Range>,
    guess: Option<Range>,
    body: &[Stmt],
) -> Result<Vec<Option<Range>>, Memory>
    ensures { IfOk result (λ known. known.items
        ≡ inside_by decls.now forgotten.items name.now start guess (block_of_all body.now)) }
{
    if guess.is_none() {
        return Ok(forgotten);
    }
    let mut known = copied(alloc, forgotten.as_slice())?;
    set_range(decls, &mut known, name, guess);
    if keeps_counter(alloc, decls, known.as_slice(), name, start, body)? {
        return Ok(known);
    }
    Ok(forgotten)
}

/// What is known in the body of a loop, by what is known before the loop. The only error is that memory ran out.
pub fn inside(
    alloc: Global,
    decls: &[Decl],
    known: &[Option<Range>],
    guard: &Guard,
    body: &[Stmt],
) -> Result<Vec<Option<Range>>, Memory>
    ensures { IfOk result
        (λ inner. inner.items ≡ inside decls.now known.now (test_of guard.now) (block_of_all body.now)) }
{
    let mut forgotten = copied(alloc, known)?;
    forget_all(decls, &mut forgotten, body);
    match &guard.left {
        Expr::Var(name) => {
            let start = range_at(known, number_of(decls, name.bytes()));
            let bound = range_of(decls, forgotten.as_slice(), &guard.right);
            let guess = counted(guard.cmp, start, bound);
            inside_by(alloc, decls, forgotten, name.bytes(), start, guess, body)
        }
        Expr::Num(_) => Ok(forgotten),
        Expr::Item(_, _) => Ok(forgotten),
        Expr::Bin(_, _, _) => Ok(forgotten),
    }
}
