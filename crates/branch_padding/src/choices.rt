ghost use Rattle.std.specs.Prelude.{◌≡◌, ◌+◌, ◌-◌, ◌*◌, ◌<◌, ◌≤◌, [], ◌∷◌, ◌++◌, OnOk, length};
ghost use Rattle.src_tree.specs.Prelude.{context_of, label_of_test, LowBlock, LowStatement, block_weight, statement_weight, block_of_all, statement_of, test_of, TypedBlock, TypedStatement};
ghost use Rattle.lt_isa.specs.Prelude.{most_instructions};
ghost use Rattle.block_cache_gen.specs.Prelude.{pair_count, Appended, CodeGrows, no_notes, notes_in, guard_notes, BlockHasWords, StatementHasWords};
ghost use Rattle.branch_padding.specs.EmittedBranches.{PartsFit, both_weights, choice_of};
ghost use Rattle.branch_padding.specs.Rows.{HaveWords, row_between};
ghost use Rattle.branch_padding.specs.Padded.{arm_mode, first_arm, idle, in_a_row, padded_code, padded_codes, second_arm};
ghost use Rattle.gr_word.specs.declared.variables.Label.TheVariants as label;
ghost use Rattle.block_cache_gen.specs.declared.frames.Mode.TheVariants as modes;

use crate::cycles::{Slack, slack_of};
use block_cache_gen::{
    CodeBuf, Emitter, Mode, pair_count, put_guard, put_set_element, put_set_variable,
};
use gr_base::Memory;
use lt_isa::Instr;
use src_tree::{Guard, Stmt};

// The two blocks of a branch on a secret, how many of their first statements pair, how long each way idles if the branch
// is quiet, and the mode in which each block's code is made in its own arm.
#[derive(Clone, Copy)]
struct Parts<'a> {
    first: &'a [Stmt],
    second: &'a [Stmt],
    pairs: usize,
    slack: Option<Slack>,
    mode: Mode,
}

// The mode of the code in the arms of a branch in code of a mode.
fn arm_mode(mode: Mode) -> Mode
    ensures { result ≡ arm_mode mode }
{
    match mode {
        Mode::Public => Mode::Real,
        Mode::Real => Mode::Real,
        Mode::Mirrored => Mode::Mirrored,
    }
}

// Appends instructions that do nothing.
fn put_idle(out: &mut CodeBuf, cycles: u8) -> Result<(), Memory>
    ensures appended { OnOk result (Appended out.old out.new (idle cycles) no_notes) }
    ensures grows { CodeGrows out.old out.new }
{
    let mut done = 0;
    while done < cycles {
        out.put(&[Instr::Nop])?;
        done += 1;
    }
    Ok(())
}

// A statement of secret code.
#[cycle(padding)]
fn put_padded<'a>(
    emitter: &Emitter<'a, '_, '_>,
    out: &mut CodeBuf,
    s: &'a Stmt,
    mode: Mode,
) -> Result<(), Memory>
    requires arm { arm_mode mode ≡ mode }
    requires few { emitter.now.profile.taken ≤ 32 }
    requires typed { TypedStatement (context_of emitter.now.decls) label.Secret (statement_of s.now) }
    requires low { LowStatement (statement_of s.now) }
    requires room { length out.old.code.items
        + 120 * statement_weight (context_of emitter.now.decls) label.Secret (statement_of s.now) ≤ most_instructions }
    ensures emitted { OnOk result
        (Appended out.old out.new (padded_code emitter.now mode (statement_of s.now)) no_notes) }
    ensures words { OnOk result (StatementHasWords (statement_of s.now)) }
    ensures grows { CodeGrows out.old out.new }
{
    match s {
        Stmt::Set(name, value) => put_set_variable(emitter, out, name, value, mode),
        Stmt::Put(name, index, value) => put_set_element(emitter, out, name, index, value, mode),
        Stmt::If(guard, first, second) => {
            put_choice(
                emitter,
                out,
                guard,
                first.as_slice(),
                second.as_slice(),
                mode,
            )
        }
        Stmt::While(_, _) => Ok(()),
    }
}

// The statements of a part from one on up to another.
#[cycle(padding)]
fn put_row<'a>(
    emitter: &Emitter<'a, '_, '_>,
    out: &mut CodeBuf,
    part: &'a [Stmt],
    from: usize,
    to: usize,
    mode: Mode,
) -> Result<(), Memory>
    requires order { from ≤ to }
    requires within { to ≤ length part.now }
    requires arm { arm_mode mode ≡ mode }
    requires few { emitter.now.profile.taken ≤ 32 }
    requires typed { TypedBlock (context_of emitter.now.decls) label.Secret (block_of_all part.now) }
    requires low { LowBlock (block_of_all part.now) }
    requires room { length out.old.code.items
        + 120 * block_weight (context_of emitter.now.decls) label.Secret (block_of_all part.now) ≤ most_instructions }
    ensures emitted { OnOk result (Appended out.old out.new
        (row_between from to (padded_codes emitter.now mode (block_of_all part.now))) no_notes) }
    ensures words { OnOk result (HaveWords from to part.now) }
    ensures grows { CodeGrows out.old out.new }
{
    for i in from..to {
        put_padded(emitter, out, &part[i], mode)?;
    }
    Ok(())
}

// Appends an arm of a quiet branch: a block, and then idle cycles.
#[cycle(padding)]
fn put_idling<'a>(
    emitter: &Emitter<'a, '_, '_>,
    out: &mut CodeBuf,
    part: &'a [Stmt],
    cycles: u8,
    mode: Mode,
) -> Result<(), Memory>
    requires arm { arm_mode mode ≡ mode }
    requires few { emitter.now.profile.taken ≤ 32 }
    requires typed { TypedBlock (context_of emitter.now.decls) label.Secret (block_of_all part.now) }
    requires low { LowBlock (block_of_all part.now) }
    requires room { length out.old.code.items
        + 120 * block_weight (context_of emitter.now.decls) label.Secret (block_of_all part.now) ≤ most_instructions }
    ensures emitted { OnOk result (Appended out.old out.new
        (in_a_row (padded_codes emitter.now mode (block_of_all part.now)) ++ idle cycles) no_notes) }
    ensures words { OnOk result (BlockHasWords (block_of_all part.now)) }
    ensures grows { CodeGrows out.old out.new }
{
    put_row(emitter, out, part, 0, part.len(), mode)?;
    put_idle(out, cycles)
}

// Appends the arm after the branch, which runs if the branch isn't taken. If it is mirrored, as many idle cycles are
// before it as a taken branch costs more than an untaken one.
#[cycle(padding)]
fn put_untaken<'a>(
    emitter: &Emitter<'a, '_, '_>,
    out: &mut CodeBuf,
    p: &Parts<'a>,
) -> Result<(), Memory>
    requires parts { PartsFit emitter.now p.now.mode p.now.pairs p.now.first.now p.now.second.now }
    requires room { length out.old.code.items + 40 + 240 * both_weights emitter.now (block_of_all p.now.first.now)
        (block_of_all p.now.second.now) ≤ most_instructions }
    ensures emitted { OnOk result (Appended out.old out.new (first_arm p.now.slack emitter.now.profile.taken p.now.pairs
        (padded_codes emitter.now p.now.mode (block_of_all p.now.second.now))
        (padded_codes emitter.now modes.Mirrored (block_of_all p.now.first.now))) no_notes) }
    ensures words { OnOk result (BlockHasWords (block_of_all p.now.second.now)) }
    ensures grows { CodeGrows out.old out.new }
{
    let (first, second) = (p.first, p.second);
    if let Some(slack) = p.slack {
        return put_idling(emitter, out, second, slack.untaken, p.mode);
    }
    put_idle(out, emitter.taken() - 1)?;
    put_row(emitter, out, second, 0, p.pairs, p.mode)?;
    put_row(emitter, out, first, p.pairs, first.len(), Mode::Mirrored)?;
    put_row(emitter, out, second, p.pairs, second.len(), p.mode)
}

// Appends the arm that the branch jumps to if it is taken. If it is mirrored, as many idle cycles are after it as the
// other arm's jump costs.
#[cycle(padding)]
fn put_taken<'a>(
    emitter: &Emitter<'a, '_, '_>,
    out: &mut CodeBuf,
    p: &Parts<'a>,
) -> Result<(), Memory>
    requires parts { PartsFit emitter.now p.now.mode p.now.pairs p.now.first.now p.now.second.now }
    requires room { length out.old.code.items + 40 + 120 * both_weights emitter.now (block_of_all p.now.first.now)
        (block_of_all p.now.second.now) ≤ most_instructions }
    ensures emitted { OnOk result (Appended out.old out.new (second_arm p.now.slack emitter.now.profile.taken p.now.pairs
        (padded_codes emitter.now p.now.mode (block_of_all p.now.first.now))
        (padded_codes emitter.now modes.Mirrored (block_of_all p.now.second.now))) no_notes) }
    ensures words { OnOk result (BlockHasWords (block_of_all p.now.first.now)) }
    ensures grows { CodeGrows out.old out.new }
{
    let (first, second) = (p.first, p.second);
    if let Some(slack) = p.slack {
        return put_idling(emitter, out, first, slack.taken, p.mode);
    }
    put_row(emitter, out, first, 0, first.len(), p.mode)?;
    put_row(emitter, out, second, p.pairs, second.len(), Mode::Mirrored)?;
    put_idle(out, emitter.taken())
}

/// Appends the code of a branch whose arms show the same events, in code of any mode. In public code its guard is
/// public code. The only error is running out of memory.
#[cycle(padding)]
pub(crate) fn put_choice<'a>(
    emitter: &Emitter<'a, '_, '_>,
    out: &mut CodeBuf,
    guard: &'a Guard,
    first: &'a [Stmt],
    second: &'a [Stmt],
    mode: Mode,
) -> Result<(), Memory>
    requires few { emitter.now.profile.taken ≤ 32 }
    requires typed { TypedStatement (context_of emitter.now.decls) label.Secret
        (choice_of guard.now first.now second.now) }
    requires low { LowStatement (choice_of guard.now first.now second.now) }
    requires room { length out.old.code.items + 120 * statement_weight (context_of emitter.now.decls) label.Secret
        (choice_of guard.now first.now second.now) ≤ most_instructions }
    ensures emitted { OnOk result (Appended out.old out.new
        (padded_code emitter.now mode (choice_of guard.now first.now second.now))
        (λ place. notes_in mode (guard_notes emitter.now 0 place (test_of guard.now)))) }
    ensures words { OnOk result (StatementHasWords (choice_of guard.now first.now second.now)) }
    ensures grows { CodeGrows out.old out.new }
{
    put_guard(emitter, out, guard, 0, mode)?;
    let slack = slack_of(emitter, first, second)?;
    let parts = Parts {
        first,
        second,
        pairs: pair_count(emitter, first, second),
        slack,
        mode: arm_mode(mode),
    };
    let branch = out.next_place();
    out.put(&[Instr::Nop])?;
    put_untaken(emitter, out, &parts)?;
    let jump = out.next_place();
    out.put(&[Instr::Nop])?;
    out.set_branch(branch, guard.cmp);
    put_taken(emitter, out, &parts)?;
    out.set_jump(jump);
    Ok(())
}

/// Appends the code of a branch on a secret in public code: its guard, and one region of two arms that show the same
/// events. It serves `code_gen`: its clause names the code, and [`emit_secret_if`](crate::emit_secret_if) states what
/// that code does.
pub fn put_secret_if<'a>(
    emitter: &Emitter<'a, '_, '_>,
    out: &mut CodeBuf,
    guard: &'a Guard,
    first: &'a [Stmt],
    second: &'a [Stmt],
) -> Result<(), Memory>
    requires secret { label_of_test (context_of emitter.now.decls) (test_of guard.now) ≡ label.Secret }
    requires typed { TypedStatement (context_of emitter.now.decls) label.Public
        (choice_of guard.now first.now second.now) }
    requires low { LowStatement (choice_of guard.now first.now second.now) }
    requires room { length out.old.code.items + 120 * statement_weight (context_of emitter.now.decls) label.Public
        (choice_of guard.now first.now second.now) ≤ most_instructions }
    ensures emitted { OnOk result (Appended out.old out.new
        (padded_code emitter.now modes.Public (choice_of guard.now first.now second.now))
        (λ place. guard_notes emitter.now 0 place (test_of guard.now))) }
    ensures short { OnOk result (length out.new.code.items ≤ length out.old.code.items + 120
        * statement_weight (context_of emitter.now.decls) label.Public (choice_of guard.now first.now second.now)) }
    ensures words { OnOk result (StatementHasWords (choice_of guard.now first.now second.now)) }
    ensures grows { CodeGrows out.old out.new }
{
    // its clause says that it is at most 32
    let _taken = emitter.taken();
    put_choice(emitter, out, guard, first, second, Mode::Public)
}
