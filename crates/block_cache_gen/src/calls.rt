ghost use Rattle.std.specs.Prelude.{◌≡◌, ◌+◌, ◌*◌, ◌≤◌, OnOk, length};
ghost use Rattle.gr_word.specs.declared.variables.Label.{Label};
ghost use Rattle.src_tree.specs.Prelude.{context_of, height_of, statement_weight, test_weight, tree_weight, source_of, statement_of, test_of, expr_tree, TypedTest, TypedTree};
ghost use Rattle.lt_isa.specs.Prelude.{most_instructions};
ghost use Rattle.block_cache_gen.specs.Assignments.{IsAssignment, IsEffect, assigned};
ghost use Rattle.block_cache_gen.specs.Behind.{CodeGrows, code_behind, notes_behind};
ghost use Rattle.block_cache_gen.specs.Conditions.{IsStatementFor};
ghost use Rattle.block_cache_gen.specs.Extends.{Extends};
ghost use Rattle.block_cache_gen.specs.InstructionsOf.{IsCodeOfSet};
ghost use Rattle.block_cache_gen.specs.PublicCode.{IsPassedAsExpr, IsPassedAsSet, IsPassedAsTest};
ghost use Rattle.block_cache_gen.specs.PublicIndexes.{HasPublicIndexes, TestHasPublicIndexes};
ghost use Rattle.block_cache_gen.specs.RunsOf.{Evaluates, EvaluatesTest, Performs};
ghost use Rattle.block_cache_gen.specs.SecretCode.{IsWalkedAsExpr, IsWalkedAsSet, IsWalkedAsTest};
ghost use Rattle.block_cache_gen.specs.Settings.{IsFrame, setting_of};
ghost use Rattle.block_cache_gen.specs.StoredWords.{mode_writes, set_stores, stored_words, written_words};
ghost use Rattle.block_cache_gen.specs.TreeWords.{HasWords, SetHasWords, TestHasWords};
ghost use Rattle.block_cache_gen.specs.Twins.{HasTwin};
ghost use Rattle.block_cache_gen.specs.declared.frames.Mode.TheVariants as modes;

use crate::emitter::Emitter;
use crate::expressions::put_expr;
use crate::frames::{CodeBuf, Frame, Mode};
use crate::prepared::Prepared;
use crate::statements::{put_guard, put_set};
use gr_base::Memory;
use src_tree::{Expr, Guard, Stmt};
use std::alloc::Global;

/// Makes the code of an expression of a program, and appends it and its notes. Run from its first instruction in a
/// state that represents a store, it ends just past its last, with the expression's value in register `to`. If memory
/// runs out, what was there before is still a prefix. The clause `words` serves the proofs of callers.
pub fn emit_expr<'a>(
    alloc: Global,
    f: &Frame<'a>,
    out: &mut CodeBuf,
    e: &'a Expr,
    to: u8,
    mode: Mode,
) -> Result<(), Memory>
    requires frame { IsFrame f.now }
    requires typed { TypedTree (context_of f.now.program.now.decls.items) (expr_tree e.now) }
    requires indexes { HasPublicIndexes (setting_of f.now) (expr_tree e.now) }
    requires registers { to + height_of (expr_tree e.now) ≤ 26 }
    requires room { length out.old.code.items + 120 * tree_weight (expr_tree e.now) ≤ most_instructions }
    ensures runs { OnOk result (Evaluates (setting_of f.now) mode to (expr_tree e.now) (code_behind out.old out.new)) }
    ensures passes { OnOk result (mode ≡ modes.Public → IsPassedAsExpr (setting_of f.now) to (expr_tree e.now)
        (length out.old.code.items) (code_behind out.old out.new) (notes_behind out.old out.new)) }
    ensures walked { OnOk result
        (¬ (mode ≡ modes.Public) → IsWalkedAsExpr (setting_of f.now) to (expr_tree e.now)
        (code_behind out.old out.new)) }
    ensures stores { OnOk result (stored_words (setting_of f.now).reduces (code_behind out.old out.new) ≡ 0) }
    ensures words { OnOk result (HasWords (expr_tree e.now)) }
    ensures extends { OnOk result
        (Extends (length f.now.places.now.blocks.items) mode (tree_weight (expr_tree e.now)) out.old out.new) }
    ensures grows { CodeGrows out.old out.new }
{
    let frame = f.plain();
    let prepared = Prepared::new(alloc, &frame)?;
    let emitter = Emitter::new(&prepared);
    put_expr(&emitter, out, e, to, mode, emitter.base_mask())
}

/// Makes the code of a guard of a program, and appends it and its notes. It leaves the guard's two sides in register
/// `to` and the next. If memory runs out, what was there before is still at the front. The clause `words` serves the
/// proofs of callers.
pub fn emit_guard<'a>(
    alloc: Global,
    f: &Frame<'a>,
    out: &mut CodeBuf,
    g: &'a Guard,
    to: u8,
    mode: Mode,
) -> Result<(), Memory>
    requires frame { IsFrame f.now }
    requires typed { TypedTest (context_of f.now.program.now.decls.items) (test_of g.now) }
    requires indexes { TestHasPublicIndexes (setting_of f.now) (test_of g.now) }
    requires left { to + height_of (expr_tree g.now.left) ≤ 26 }
    requires right { to + 1 + height_of (expr_tree g.now.right) ≤ 26 }
    requires room { length out.old.code.items + 120 * test_weight (test_of g.now) ≤ most_instructions }
    ensures runs { OnOk result
        (EvaluatesTest (setting_of f.now) mode to (test_of g.now) (code_behind out.old out.new)) }
    ensures passes { OnOk result (mode ≡ modes.Public → IsPassedAsTest (setting_of f.now) to (test_of g.now)
        (length out.old.code.items) (code_behind out.old out.new) (notes_behind out.old out.new)) }
    ensures walked { OnOk result
        (¬ (mode ≡ modes.Public) → IsWalkedAsTest (setting_of f.now) to (test_of g.now) (code_behind out.old out.new)) }
    ensures stores { OnOk result (stored_words (setting_of f.now).reduces (code_behind out.old out.new) ≡ 0) }
    ensures words { OnOk result (TestHasWords (test_of g.now)) }
    ensures extends { OnOk result
        (Extends (length f.now.places.now.blocks.items) mode (test_weight (test_of g.now)) out.old out.new) }
    ensures grows { CodeGrows out.old out.new }
{
    let frame = f.plain();
    let prepared = Prepared::new(alloc, &frame)?;
    let emitter = Emitter::new(&prepared);
    put_guard(&emitter, out, g, to, mode)
}

/// Makes the code of an assignment of a program, and appends it and its notes. In public code, and with its effect in
/// secret code, it leaves the store of the assignment; without effect in secret code it leaves the store as it was. The
/// two codes of secret code differ only in the registers that they store or write, of which there is one unless slots
/// hold several blocks of an array for the whole run ([`twin_laws`](crate::twin_laws)). If memory runs out, what was
/// there before is still a prefix. The clause `words` serves the proofs of callers.
#[tactic(auto, using(crate::proofs::AssignmentsMean::assignment_means))]
pub fn emit_set<'a>(
    alloc: Global,
    f: &Frame<'a>,
    out: &mut CodeBuf,
    s: &'a Stmt,
    mode: Mode,
) -> Result<(), Memory>
    requires frame { IsFrame f.now }
    requires assignment { IsAssignment (statement_of s.now) }
    requires stands { IsStatementFor (source_of f.now.program.now) mode (statement_of s.now) }
    requires room { length out.old.code.items
        + 120 * statement_weight (context_of f.now.program.now.decls.items) Label.Public (statement_of s.now)
        ≤ most_instructions }
    ensures runs { OnOk result (Performs (setting_of f.now) mode (statement_of s.now) (code_behind out.old out.new)) }
    ensures means { IsEffect f.now.program.now.decls.items (statement_of s.now)
        (assigned f.now.program.now.decls.items (statement_of s.now)) }
    ensures passes { OnOk result (mode ≡ modes.Public → IsPassedAsSet (setting_of f.now) (length out.old.code.items)
        (code_behind out.old out.new) (notes_behind out.old out.new)) }
    ensures walked { OnOk result (¬ (mode ≡ modes.Public)
        → IsWalkedAsSet (setting_of f.now) (statement_of s.now) (code_behind out.old out.new)) }
    ensures stores { OnOk result
        (stored_words (setting_of f.now).reduces (code_behind out.old out.new)
        ≡ set_stores (setting_of f.now) (statement_of s.now)) }
    ensures writes { OnOk result
        (written_words (setting_of f.now).reduces (code_behind out.old out.new)
        ≡ mode_writes mode (setting_of f.now) (statement_of s.now)) }
    ensures instructions { OnOk result
        (IsCodeOfSet (setting_of f.now) mode (statement_of s.now) (code_behind out.old out.new)) }
    ensures twin { OnOk result
        (¬ (mode ≡ modes.Public) → HasTwin (setting_of f.now) mode (statement_of s.now) (code_behind out.old out.new)) }
    ensures words { OnOk result (SetHasWords (statement_of s.now)) }
    ensures extends { OnOk result (Extends (length f.now.places.now.blocks.items) mode
        (statement_weight (context_of f.now.program.now.decls.items) Label.Public (statement_of s.now))
        out.old out.new) }
    ensures grows { CodeGrows out.old out.new }
{
    let frame = f.plain();
    let prepared = Prepared::new(alloc, &frame)?;
    let emitter = Emitter::new(&prepared);
    put_set(&emitter, out, s, mode)
}
