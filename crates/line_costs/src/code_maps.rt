//! Which statement each instruction of a compiled program belongs to.
//!
//! The code is read along the program: an assignment ends with its store or its result in a register, a guard with its
//! branch, and the targets of branches and jumps say where loops, choices and arms end. Code of an arm without effect has
//! the map of the same code with the effect, which the other arm has. Code of any other form has no map.

use crate::code_shapes::{Arms, CompiledCode, Region};
use gr_base::Memory;
use src_tree::{Program, Stmt};
use std::alloc::Global;

/// The statement of an instruction, by its number in the order of the text, and whether the instruction only makes both
/// arms of a branch on a secret show the same events.
#[derive(Clone, Copy)]
pub struct Owner {
    /// The number of the statement.
    pub statement: u32,
    /// Whether the instruction only pads.
    pub pads: bool,
}

/// The owner of each instruction; those of a program's start and end have none.
pub type Owners = Vec<Option<Owner>>;

/// The owner of each instruction of a program's code, or `None` if the code isn't of the form that the compiler gives it.
pub fn owners_of(
    alloc: Global,
    compiled: CompiledCode<'_>,
    program: &Program,
) -> Result<Option<Owners>, Memory> {
    let mut owners = vec![in alloc; None; compiled.code.len()]?;
    let start = compiled.body_start();
    let body = program.body.as_slice();
    let first = Owner {
        statement: 0,
        pads: false,
    };
    match map_block(compiled, &mut owners, body, first, start) {
        Some(end) => if compiled.ends_from(end) {
            Ok(Some(owners))
        } else {
            Ok(None)
        },
        None => Ok(None),
    }
}

// How many statements a statement is, with those within it.
#[cycle(counting)]
fn statements_in(s: &Stmt) -> u32 {
    match s {
        Stmt::Set(_, _) | Stmt::Put(_, _, _) => 1,
        Stmt::If(_, first, second) => {
            let inner = statements_in_all(first).saturating_add(statements_in_all(second));
            inner.saturating_add(1)
        }
        Stmt::While(_, body) => statements_in_all(body).saturating_add(1),
    }
}

// How many statements a block has, with those within them.
#[cycle(counting)]
fn statements_in_all(statements: &[Stmt]) -> u32 {
    let mut count: u32 = 0;
    for s in statements {
        count = count.saturating_add(statements_in(s));
    }
    count
}

// Makes a statement the owner of the instructions from a place to another.
fn claim(owners: &mut Owners, from: usize, to: usize, owner: Owner) {
    for at in from..to.max(from) {
        if at < owners.len() {
            owners[at] = Some(owner);
        }
    }
}

// Maps the code of public statements; `owner` has the number of the first. The code begins at a place; returns its end.
#[cycle(mapping)]
fn map_block(
    compiled: CompiledCode<'_>,
    owners: &mut Owners,
    statements: &[Stmt],
    owner: Owner,
    from: usize,
) -> Option<usize> {
    let mut at = from;
    let mut owner = owner;
    for s in statements {
        at = map_statement(compiled, owners, s, owner, at)?;
        owner = later_owner(owner, s);
    }
    Some(at)
}

// Maps a public statement. The branch of a choice leads over its first block, and a jump over the second, if it has any.
#[cycle(mapping)]
fn map_statement(
    compiled: CompiledCode<'_>,
    owners: &mut Owners,
    s: &Stmt,
    owner: Owner,
    from: usize,
) -> Option<usize> {
    match s {
        Stmt::Set(name, _) => map_assignment(compiled, owners, name.bytes(), false, owner, from),
        Stmt::Put(name, _, _) => map_assignment(compiled, owners, name.bytes(), true, owner, from),
        Stmt::If(guard, first, second) => {
            if compiled.is_secret_guard(guard) {
                return map_padded(compiled, owners, s, owner, from);
            }
            let branch = compiled.guard_end(from)?;
            let start = branch.checked_add(1)?;
            let other = compiled.target(branch)?;
            claim(owners, from, start, owner);
            let end = map_block(compiled, owners, first, first_owner(owner), start)?;
            if second.is_empty() {
                return reached(end, other);
            }
            let join = compiled.target(end)?;
            let after = reached(end.checked_add(1)?, other)?;
            claim(owners, end, after, owner);
            let last = map_block(compiled, owners, second, second_owner(owner, first), other)?;
            reached(last, join)
        }
        Stmt::While(_, body) => map_loop(compiled, owners, body, owner, from),
    }
}

fn map_assignment(
    compiled: CompiledCode<'_>,
    owners: &mut Owners,
    name: &[u8],
    is_element: bool,
    owner: Owner,
    from: usize,
) -> Option<usize> {
    let end = compiled.assignment_end(name, is_element, from)?;
    claim(owners, from, end, owner);
    Some(end)
}

// Maps a loop: a jump to its guard, the body, and the guard with its branch back to the body.
#[cycle(mapping)]
fn map_loop(
    compiled: CompiledCode<'_>,
    owners: &mut Owners,
    body: &[Stmt],
    owner: Owner,
    from: usize,
) -> Option<usize> {
    let start = from.checked_add(1)?;
    let guard = compiled.target(from)?;
    claim(owners, from, start, owner);
    let end = map_block(compiled, owners, body, first_owner(owner), start)?;
    let branch = compiled.guard_end(reached(end, guard)?)?;
    reached(compiled.target(branch)?, start)?;
    let after = branch.checked_add(1)?;
    claim(owners, guard, after, owner);
    Some(after)
}

// A place that code was expected to reach.
fn reached(end: usize, expected: usize) -> Option<usize> {
    if end == expected { Some(end) } else { None }
}

// Makes a branch on a secret the owner of its guard and its jump, and of what does nothing before its first arm.
fn claim_region(owners: &mut Owners, from: usize, region: Region, arms: Arms, owner: Owner) {
    claim(owners, from, arms.idle, owner);
    claim(owners, arms.idle, arms.untaken, padding(owner));
    claim(owners, region.jump, arms.taken, owner);
}

// Makes a branch on a secret the owner of the instructions between two places after an arm, if they do nothing.
fn claim_idle(
    compiled: CompiledCode<'_>,
    owners: &mut Owners,
    from: usize,
    to: usize,
    owner: Owner,
) -> Option<usize> {
    if !compiled.idles(from, to) {
        return None;
    }
    claim(owners, from, to, padding(owner));
    Some(to)
}

// An owner of instructions that pad.
fn padding(owner: Owner) -> Owner {
    Owner {
        pads: true,
        ..owner
    }
}

// The owner with the number of the first statement within a statement.
fn first_owner(owner: Owner) -> Owner {
    Owner {
        statement: owner.statement.saturating_add(1),
        ..owner
    }
}

// The owner with the number of the statement that follows one with this number.
fn later_owner(owner: Owner, s: &Stmt) -> Owner {
    Owner {
        statement: owner.statement.saturating_add(statements_in(s)),
        ..owner
    }
}

// The owner with the number of the first statement of a choice's second block.
fn second_owner(owner: Owner, first: &[Stmt]) -> Owner {
    let number = owner.statement.saturating_add(1);
    Owner {
        statement: number.saturating_add(statements_in_all(first)),
        ..owner
    }
}

// Maps the statements of an arm from one on up to another, where `owner` has the number of the part's first statement.
#[cycle(padding)]
fn map_row(
    compiled: CompiledCode<'_>,
    owners: &mut Owners,
    part: &[Stmt],
    from: usize,
    to: usize,
    owner: Owner,
    start: usize,
) -> Option<usize> {
    let mut at = start;
    let mut owner = owner;
    for (place, s) in part.iter().enumerate() {
        if from <= place && place < to {
            at = map_padded(compiled, owners, s, owner, at)?;
        }
        owner = later_owner(owner, s);
    }
    Some(at)
}

// How many statements of the blocks of a branch on a secret pair, and whether each arm has the code of the other block's
// rest too, without its effect.
#[derive(Clone, Copy)]
struct Rests {
    pairs: usize,
    are_mirrored: bool,
}

// The rests of blocks of these lengths. If each arm has as many visible ends as its own block has statements, it only has
// that block: other code either has such ends too, or follows the last of them.
fn rests_of(
    compiled: CompiledCode<'_>,
    region: Region,
    arms: Arms,
    first: usize,
    second: usize,
) -> Option<Rests> {
    let own = compiled.statements_between(arms.taken, region.end) == Some(first)
        && compiled.statements_between(arms.untaken, region.jump) == Some(second);
    if own {
        return Some(Rests {
            pairs: 0,
            are_mirrored: false,
        });
    }
    let count = compiled.statements_in_both(region, arms)?;
    Some(Rests {
        pairs: first.checked_add(second)?.checked_sub(count)?,
        are_mirrored: true,
    })
}

// Maps the code without effect of a rest, if there is any, which begins at a place, as the code with the effect between two
// places; returns its end.
fn map_mirrored(
    owners: &mut Owners,
    rests: Rests,
    from: usize,
    to: usize,
    start: usize,
) -> Option<usize> {
    if !rests.are_mirrored {
        return Some(start);
    }
    let mut at = start;
    for place in from..to.max(from) {
        if place < owners.len() && at < owners.len() {
            owners[at] = owners[place].map(padding);
        }
        at = at.checked_add(1)?;
    }
    Some(at)
}

// Maps a statement of an arm, with its effect. A branch has its guard, two arms, a jump, and instructions that do nothing.
// An arm begins with the statements of its own block that pair; the rest of the first block follows, and then that of the
// second. The arm of a branch that isn't taken has the effect of the second block, and the other arm that of the first.
#[cycle(padding)]
fn map_padded(
    compiled: CompiledCode<'_>,
    owners: &mut Owners,
    s: &Stmt,
    owner: Owner,
    from: usize,
) -> Option<usize> {
    match s {
        Stmt::Set(name, _) => map_assignment(compiled, owners, name.bytes(), false, owner, from),
        Stmt::Put(name, _, _) => map_assignment(compiled, owners, name.bytes(), true, owner, from),
        Stmt::If(_, first, second) => {
            let region = compiled.region_at(compiled.guard_end(from)?)?;
            let arms = compiled.arms_of(region)?;
            claim_region(owners, from, region, arms, owner);
            let rests = rests_of(compiled, region, arms, first.len(), second.len())?;
            let pairs = rests.pairs;
            let one = first_owner(owner);
            let paired = map_row(compiled, owners, first, 0, pairs, one, arms.taken)?;
            let own = map_row(compiled, owners, first, pairs, first.len(), one, paired)?;
            let other = second_owner(owner, first);
            let at = map_row(compiled, owners, second, 0, pairs, other, arms.untaken)?;
            let between = map_mirrored(owners, rests, paired, own, at)?;
            let last = map_row(
                compiled,
                owners,
                second,
                pairs,
                second.len(),
                other,
                between,
            )?;
            let after = map_mirrored(owners, rests, between, last, own)?;
            claim_idle(compiled, owners, last, region.jump, owner)?;
            claim_idle(compiled, owners, after, region.end, owner)
        }
        Stmt::While(_, _) => None,
    }
}
