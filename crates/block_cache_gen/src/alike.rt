ghost use Rattle.std.specs.Prelude.{◌==◌, ◌≡◌, ◌+◌, ◌≤◌, ◌&&◌, pos, true, is_some, bytes_eq, length};
ghost use Rattle.gr_word.specs.declared.variables.Label.{Label};
ghost use Rattle.lt_isa.specs.Prelude.{bank_kind};
ghost use Rattle.src_tree.specs.Prelude.{context_of, block_of_all, statement_of, expr_tree, TypedBlock, TypedStatement, TypedTree};
ghost use Rattle.symbolic_values.specs.Prelude.{same_op};
ghost use Rattle.block_cache_gen.specs.Alike.{held_alike, numbers_alike, are_plain, by_same_number, is_same_number, same_flag, straight_alike, numbered_alike, reduced_alike, both_products, in_one_bank, in_step, is_alike, is_pair, is_product, is_same, pair_count};
ghost use Rattle.block_cache_gen.specs.Codes.{is_cached, is_masked, is_within_home, reducer};
ghost use Rattle.block_cache_gen.specs.Variables.{home_in};
ghost use Rattle.block_cache_gen.specs.Homes.{further_slots, home_of};
ghost use Rattle.src_tree.specs.Trees as trees;

use crate::accesses::{is_cached, is_masked, is_resident, is_within_home};
use crate::emitter::Emitter;
use crate::indexes::reducer;
use crate::operands::{operand, straight};
use crate::steps::{is_product, may_step};
use crate::variables::Variable;
use gr_word::{Name, Op};
use lt_isa::{BankKind, bank_kind};
use src_tree::{Expr, Stmt};

// Whether both of two operations are products, or neither is.
fn both_products(op: Op, other: Op) -> bool
    ensures { result ≡ both_products op other }
{
    if is_product(op) {
        is_product(other)
    } else {
        !is_product(other)
    }
}

fn same_op(op: Op, other: Op) -> bool
    ensures { result ≡ same_op op other }
{
    op == other
}

fn same_name(x: &Name, y: &Name) -> bool
    ensures { result ≡ bytes_eq x.now y.now }
{
    x.bytes() == y.bytes()
}

// The same expression.
fn is_same(e: &Expr, other: &Expr) -> bool
    ensures { result ≡ is_same (expr_tree e.now) (expr_tree other.now) }
{
    match e {
        Expr::Num(value) => match other {
            Expr::Num(word) => *value == *word,
            Expr::Var(_) | Expr::Item(_, _) | Expr::Bin(_, _, _) => false,
        },
        Expr::Var(x) => match other {
            Expr::Num(_) => false,
            Expr::Var(y) => same_name(x, y),
            Expr::Item(_, _) | Expr::Bin(_, _, _) => false,
        },
        Expr::Item(x, index) => match other {
            Expr::Num(_) | Expr::Var(_) => false,
            Expr::Item(y, place) => same_name(x, y) && is_same(index, place),
            Expr::Bin(_, _, _) => false,
        },
        Expr::Bin(op, left, right) => match other {
            Expr::Num(_) | Expr::Var(_) | Expr::Item(_, _) => false,
            Expr::Bin(by, first, second) => {
                same_op(*op, *by) && (is_same(left, first) && is_same(right, second))
            }
        },
    }
}

// The kind of a variable's bank.
fn kind_of<'a>(emitter: &Emitter<'a, '_, '_>, name: &'a Name) -> BankKind
    requires { is_some (context_of emitter.now.decls name.now) ≡ true }
    ensures { result ≡ bank_kind (home_of emitter.now name.now).bank }
{
    bank_kind(emitter.variable(name.bytes()).place.bank)
}

fn same_flag(one: bool, other: bool) -> bool
    ensures { result ≡ same_flag one other }
{
    if one { other } else { !other }
}

// Whether registers hold two numbers for the whole run, or neither.
fn numbers_alike(emitter: &Emitter<'_, '_, '_>, one: i64, other: i64) -> bool
    ensures { result ≡ numbers_alike emitter.now one other }
{
    same_flag(
        emitter.number_held(one).is_some(),
        emitter.number_held(other).is_some(),
    )
}

// The same of the numbers by which the indexes of two arrays are reduced.
fn reducers_alike(emitter: &Emitter<'_, '_, '_>, one: Variable, other: Variable) -> bool
    ensures { result ≡ numbers_alike emitter.now (reducer (home_in one)) (reducer (home_in other)) }
{
    numbers_alike(emitter, reducer(one), reducer(other))
}

// The same of the numbers of two blocks or words.
fn places_alike(emitter: &Emitter<'_, '_, '_>, one: u32, other: u32) -> bool
    ensures { result ≡ numbers_alike emitter.now (pos one) (pos other) }
{
    numbers_alike(emitter, i64::from(one), i64::from(other))
}

// The same of both numbers of two arrays of oblivious banks.
fn are_found_alike(emitter: &Emitter<'_, '_, '_>, one: Variable, other: Variable) -> bool
    ensures { result ≡ (numbers_alike emitter.now (reducer (home_in one)) (reducer (home_in other))
        && numbers_alike emitter.now (pos (home_in one).block) (pos (home_in other).block)) }
{
    reducers_alike(emitter, one, other) && places_alike(emitter, one.place.block, other.place.block)
}

// Whether two arrays are in one oblivious bank, and registers hold the numbers of their code alike.
fn in_one_bank(emitter: &Emitter<'_, '_, '_>, one: Variable, other: Variable) -> bool
    ensures { result ≡ in_one_bank emitter.now (home_in one) (home_in other) }
{
    bank_kind(one.place.bank) == BankKind::Oblivious
        && (one.place.bank == other.place.bank && are_found_alike(emitter, one, other))
}

// Whether slots hold as many blocks of two variables for the whole run.
fn as_many_blocks(one: Variable, other: Variable) -> bool
    requires first { one.further ≤ 4 }
    requires second { other.further ≤ 4 }
    ensures { result ≡ (length (further_slots (home_in one)) == length (further_slots (home_in other))) }
{
    one.further == other.further
}

// Whether indexes of two arrays are both known to be below the lengths, or neither is and they are reduced alike.
fn numbered_alike(
    emitter: &Emitter<'_, '_, '_>,
    one: Variable,
    other: Variable,
    one_within: bool,
    other_within: bool,
) -> bool
    ensures { result ≡ numbered_alike emitter.now (home_in one) (home_in other) one_within other_within }
{
    if one_within {
        return other_within;
    }
    !other_within
        && (same_flag(is_masked(one), is_masked(other)) && reducers_alike(emitter, one, other))
}

// Whether two variables are resident arrays of as many blocks whose indexes are reduced alike.
fn reduced_alike(
    emitter: &Emitter<'_, '_, '_>,
    one: Variable,
    other: Variable,
    index: &Expr,
    place: &Expr,
) -> bool
    requires first { one.further ≤ 4 }
    requires second { other.further ≤ 4 }
    ensures { result
        ≡ reduced_alike emitter.now (home_in one) (home_in other) (expr_tree index.now) (expr_tree place.now) }
{
    is_resident(one)
        && (is_resident(other)
            && (same_flag(is_cached(one), is_cached(other))
                && (same_flag(one.place.word == 0, other.place.word == 0)
                    && (numbered_alike(
                        emitter,
                        one,
                        other,
                        is_within_home(emitter, one, index),
                        is_within_home(emitter, other, place),
                    ) && (places_alike(
                        emitter,
                        u32::from(one.place.word),
                        u32::from(other.place.word),
                    ) && as_many_blocks(one, other))))))
}

// Whether elements of two arrays with alike indexes are alike.
fn in_step<'a>(
    emitter: &Emitter<'a, '_, '_>,
    x: &'a Name,
    y: &'a Name,
    index: &'a Expr,
    place: &'a Expr,
) -> bool
    requires first { is_some (context_of emitter.now.decls x.now) ≡ true }
    requires second { is_some (context_of emitter.now.decls y.now) ≡ true }
    ensures { result ≡ in_step emitter.now (home_of emitter.now x.now) (home_of emitter.now y.now)
        (expr_tree index.now) (expr_tree place.now) }
{
    let one = emitter.variable(x.bytes());
    let other = emitter.variable(y.bytes());
    in_one_bank(emitter, one, other) || reduced_alike(emitter, one, other, index, place)
}

// The same number.
fn is_same_number(e: &Expr, other: &Expr) -> bool
    ensures { result ≡ is_same_number (expr_tree e.now) (expr_tree other.now) }
{
    match e {
        Expr::Num(value) => match other {
            Expr::Num(word) => *value == *word,
            Expr::Var(_) | Expr::Item(_, _) | Expr::Bin(_, _, _) => false,
        },
        Expr::Var(_) | Expr::Item(_, _) | Expr::Bin(_, _, _) => false,
    }
}

// The same operation by the same number.
fn by_same_number(op: Op, right: &Expr, by: Op, second: &Expr) -> bool
    ensures { result ≡ by_same_number op (expr_tree right.now) by (expr_tree second.now) }
{
    same_op(op, by) && is_same_number(right, second)
}

// Whether steps may replace neither of two operations.
fn are_plain<'a>(
    emitter: &Emitter<'a, '_, '_>,
    op: Op,
    right: &'a Expr,
    by: Op,
    second: &'a Expr,
) -> bool
    ensures { result ≡ are_plain emitter.now op (expr_tree right.now) by (expr_tree second.now) }
{
    !may_step(emitter, op, right) && !may_step(emitter, by, second)
}

// Whether registers hold two numbers or scalars for the whole run, or neither.
fn held_alike<'a>(emitter: &Emitter<'a, '_, '_>, e: &'a Expr, other: &'a Expr) -> bool
    requires first { TypedTree (context_of emitter.now.decls) (expr_tree e.now) }
    requires second { TypedTree (context_of emitter.now.decls) (expr_tree other.now) }
    ensures { result ≡ held_alike emitter.now (expr_tree e.now) (expr_tree other.now) }
{
    same_flag(
        operand(emitter, e).is_some(),
        operand(emitter, other).is_some(),
    )
}

// The same of the targets of two assignments.
fn targets_alike<'a>(emitter: &Emitter<'a, '_, '_>, x: &'a Name, y: &'a Name) -> bool
    requires first { is_some (context_of emitter.now.decls x.now) ≡ true }
    requires second { is_some (context_of emitter.now.decls y.now) ≡ true }
    ensures { result ≡ held_alike emitter.now (trees.Variable x.now) (trees.Variable y.now) }
{
    let one = emitter.variable(x.bytes()).held;
    let other = emitter.variable(y.bytes()).held;
    same_flag(one.is_some(), other.is_some())
}

// Whether two expressions show the same events in secret code.
fn is_alike<'a>(emitter: &Emitter<'a, '_, '_>, e: &'a Expr, other: &'a Expr) -> bool
    requires first { TypedTree (context_of emitter.now.decls) (expr_tree e.now) }
    requires second { TypedTree (context_of emitter.now.decls) (expr_tree other.now) }
    ensures { result ≡ is_alike emitter.now (expr_tree e.now) (expr_tree other.now) }
{
    match e {
        Expr::Num(_) => match other {
            Expr::Num(_) => held_alike(emitter, e, other),
            Expr::Var(_) | Expr::Item(_, _) | Expr::Bin(_, _, _) => false,
        },
        Expr::Var(_) => match other {
            Expr::Num(_) => false,
            Expr::Var(_) => held_alike(emitter, e, other),
            Expr::Item(_, _) | Expr::Bin(_, _, _) => false,
        },
        Expr::Item(x, index) => match other {
            Expr::Num(_) | Expr::Var(_) => false,
            Expr::Item(y, place) => {
                (in_step(emitter, x, y, index, place) && is_alike(emitter, index, place))
                    || (kind_of(emitter, x) != BankKind::Oblivious
                        && (same_name(x, y) && is_same(index, place)))
            }
            Expr::Bin(_, _, _) => false,
        },
        Expr::Bin(op, left, right) => match other {
            Expr::Num(_) | Expr::Var(_) | Expr::Item(_, _) => false,
            Expr::Bin(by, first, second) => {
                is_alike(emitter, left, first)
                    && (by_same_number(*op, right, *by, second)
                        || (are_plain(emitter, *op, right, *by, second)
                            && (both_products(*op, *by) && is_alike(emitter, right, second))))
            }
        },
    }
}

// Whether two assignments show the same events in secret code.
fn is_pair<'a>(emitter: &Emitter<'a, '_, '_>, s: &'a Stmt, other: &'a Stmt) -> bool
    requires first { (code : Label) × TypedStatement (context_of emitter.now.decls) code (statement_of s.now) }
    requires second { (code : Label) × TypedStatement (context_of emitter.now.decls) code (statement_of other.now) }
    ensures { result ≡ is_pair emitter.now (statement_of s.now) (statement_of other.now) }
{
    match s {
        Stmt::Set(x, e) => match other {
            Stmt::Set(y, g) => {
                targets_alike(emitter, x, y)
                    && (same_flag(
                        straight(emitter, x, e).is_some(),
                        straight(emitter, y, g).is_some(),
                    ) && is_alike(emitter, e, g))
            }
            Stmt::Put(_, _, _) | Stmt::If(_, _, _) | Stmt::While(_, _) => false,
        },
        Stmt::Put(x, i, e) => match other {
            Stmt::Set(_, _) => false,
            Stmt::Put(y, j, g) => {
                is_alike(emitter, e, g)
                    && ((in_step(emitter, x, y, i, j) && is_alike(emitter, i, j))
                        || (kind_of(emitter, x) == BankKind::Encrypted
                            && (same_name(x, y) && is_same(i, j))))
            }
            Stmt::If(_, _, _) | Stmt::While(_, _) => false,
        },
        Stmt::If(_, _, _) | Stmt::While(_, _) => false,
    }
}

/// How many statements of two parts of a branch on a secret pair, from the first of each on: each such two show the
/// same events in secret code.
pub fn pair_count<'a>(emitter: &Emitter<'a, '_, '_>, first: &'a [Stmt], second: &'a [Stmt]) -> usize
    requires first { (code : Label) × TypedBlock (context_of emitter.now.decls) code (block_of_all first.now) }
    requires second { (code : Label) × TypedBlock (context_of emitter.now.decls) code (block_of_all second.now) }
    ensures { result ≡ pair_count emitter.now (block_of_all first.now) (block_of_all second.now) }
{
    let mut count = 0;
    while count < first.len() && count < second.len() {
        if !is_pair(emitter, &first[count], &second[count]) {
            return count;
        }
        count += 1;
    }
    count
}
