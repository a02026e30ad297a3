ghost use Rattle.std.specs.Prelude.{◌≡◌, ◌+◌, ◌*◌, ◌≤◌, OnOk, length};
ghost use Rattle.src_tree.specs.Prelude.{context_of, LowStatement, statement_weight, source_of, statement_of, TypedStatement};
ghost use Rattle.lt_isa.specs.Prelude.{most_instructions};
ghost use Rattle.block_cache_gen.specs.Prelude.{IsEffect, by_mode, code_behind, notes_behind, CodeGrows, Extends, StatementHasWords, IsFrame, setting_of, stored_words};
ghost use Rattle.branch_padding.specs.Branches.{IsBranchFor, IsPassedAsBranch, code_for};
ghost use Rattle.branch_padding.specs.Effects.{effect_of};
ghost use Rattle.branch_padding.specs.EmittedBranches.{EmitsBranch, IsChoice};
ghost use Rattle.branch_padding.specs.Makes.{Makes};
ghost use Rattle.branch_padding.specs.Regions.{IsRegionOf};
ghost use Rattle.branch_padding.specs.SecretChoices.{IsWalkedAsStatement};
ghost use Rattle.branch_padding.specs.Stores.{stores_of};
ghost use Rattle.gr_word.specs.declared.variables.Label.TheVariants as label;
ghost use Rattle.block_cache_gen.specs.declared.frames.Mode.TheVariants as modes;

use crate::choices::put_choice;
use block_cache_gen::{CodeBuf, Emitter, Frame, Mode, Prepared};
use gr_base::Memory;
use src_tree::Stmt;
use std::alloc::Global;

// A statement that is a branch.
fn put_branch<'a>(
    emitter: &Emitter<'a, '_, '_>,
    out: &mut CodeBuf,
    s: &'a Stmt,
    mode: Mode,
) -> Result<(), Memory>
    requires few { emitter.now.profile.taken ≤ 32 }
    requires choice { IsChoice (statement_of s.now) }
    requires typed { TypedStatement (context_of emitter.now.decls) label.Secret (statement_of s.now) }
    requires low { LowStatement (statement_of s.now) }
    requires room { length out.old.code.items
        + 120 * statement_weight (context_of emitter.now.decls) label.Secret (statement_of s.now) ≤ most_instructions }
    ensures emitted { OnOk result (EmitsBranch emitter.now mode (statement_of s.now) out.old out.new) }
    ensures words { OnOk result (StatementHasWords (statement_of s.now)) }
    ensures grows { CodeGrows out.old out.new }
{
    match s {
        Stmt::If(guard, first, second) => {
            put_choice(
                emitter,
                out,
                guard,
                first.as_slice(),
                second.as_slice(),
                mode,
            )
        }
        Stmt::Set(_, _) => unreachable!(),
        Stmt::Put(_, _, _) => unreachable!(),
        Stmt::While(_, _) => unreachable!(),
    }
}

/// Makes the code of a branch of a program whose arms are secret code, and appends it and the notes of its guard: in
/// public code a branch by a secret guard, in secret code any branch. It is one region of two arms, and what both show
/// and load depends only on the frame and the statement (`region`). In public code, and with its effect in secret code,
/// it leaves the store of the statement; without effect it leaves the store as it was. If memory runs out, what was
/// there before is still a prefix. The clause `words` serves the proofs of callers.
pub fn emit_secret_if<'a>(
    alloc: Global,
    f: &Frame<'a>,
    out: &mut CodeBuf,
    s: &'a Stmt,
    mode: Mode,
) -> Result<(), Memory>
    requires frame { IsFrame f.now }
    requires branch { IsBranchFor (source_of f.now.program.now) mode (statement_of s.now) }
    requires room { length out.old.code.items
        + 120 * statement_weight (context_of f.now.program.now.decls.items) (code_for mode) (statement_of s.now)
        ≤ most_instructions }
    ensures runs { OnOk result (Makes (setting_of f.now) (code_behind out.old out.new)
        (λ store. by_mode mode (effect_of f.now.program.now.decls.items (statement_of s.now) store) store)) }
    ensures means { IsEffect f.now.program.now.decls.items (statement_of s.now)
        (effect_of f.now.program.now.decls.items (statement_of s.now)) }
    ensures passes { OnOk result (mode ≡ modes.Public → IsPassedAsBranch (setting_of f.now) (length out.old.code.items)
        (code_behind out.old out.new) (notes_behind out.old out.new)) }
    ensures walked { OnOk result (¬ (mode ≡ modes.Public)
        → IsWalkedAsStatement (setting_of f.now) (statement_of s.now) (code_behind out.old out.new)) }
    ensures region { OnOk result (IsRegionOf (setting_of f.now) mode (statement_of s.now) (length out.old.code.items)
        (code_behind out.old out.new) (notes_behind out.old out.new)) }
    ensures stores { OnOk result (stored_words (setting_of f.now).reduces (code_behind out.old out.new)
        ≡ stores_of (setting_of f.now) (code_for mode) (statement_of s.now)) }
    ensures words { OnOk result (StatementHasWords (statement_of s.now)) }
    ensures extends { OnOk result (Extends (length f.now.places.now.blocks.items) mode
        (statement_weight (context_of f.now.program.now.decls.items) (code_for mode) (statement_of s.now))
        out.old out.new) }
    ensures grows { CodeGrows out.old out.new }
{
    let frame = f.plain();
    let prepared = Prepared::new(alloc, &frame)?;
    let emitter = Emitter::new(&prepared);
    put_branch(&emitter, out, s, mode)
}
