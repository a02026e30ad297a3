ghost use Rattle.std.specs.Prelude.{◌≡◌, IfOk};
ghost use Rattle.scalar_ranges.specs.Prelude.{after_statement, forgotten_block, inside};
ghost use Rattle.src_tree.specs.Prelude.{block_of_all, statement_of, test_of};
ghost use Rattle.compiled_objects.specs.Prelude.{at_start};

use block_cache_gen::Emitter;
use gr_base::Memory;
use scalar_ranges::{Range, copied, forget_all, inside, nothing_known, pass};
use src_tree::{Guard, Stmt};
use std::alloc::Global;

/// Replaces what is known before a statement by what is known after it. If no ranges are kept, none is ever known.
pub(crate) fn learn(emitter: &Emitter<'_, '_, '_>, known: &mut Vec<Option<Range>>, s: &Stmt)
    ensures { known.new.items ≡ after_statement emitter.now.decls known.old.items (statement_of s.now) }
{
    if known.as_slice().is_empty() {
        return;
    }
    pass(emitter.decls(), known, s);
}

/// What is known at the guard of a loop and after it. The only error is that memory ran out.
pub(crate) fn known_behind(
    emitter: &Emitter<'_, '_, '_>,
    body: &[Stmt],
) -> Result<Vec<Option<Range>>, Memory>
    ensures { IfOk result
        (λ known. known.items ≡ forgotten_block emitter.now.decls emitter.now.ranges (block_of_all body.now)) }
{
    let known = emitter.known();
    if known.is_empty() {
        return Ok(Vec::new(emitter.alloc()));
    }
    let mut forgotten = copied(emitter.alloc(), known)?;
    forget_all(emitter.decls(), &mut forgotten, body);
    Ok(forgotten)
}

/// What is known in the body of a loop. The only error is that memory ran out.
pub(crate) fn known_inside(
    emitter: &Emitter<'_, '_, '_>,
    guard: &Guard,
    body: &[Stmt],
) -> Result<Vec<Option<Range>>, Memory>
    ensures { IfOk result (λ known. known.items
        ≡ inside emitter.now.decls emitter.now.ranges (test_of guard.now) (block_of_all body.now)) }
{
    let known = emitter.known();
    if known.is_empty() {
        return Ok(Vec::new(emitter.alloc()));
    }
    inside(emitter.alloc(), emitter.decls(), known, guard, body)
}

/// What is known at the beginning of a program: nothing of any scalar. If no steps replace operations, no ranges are
/// kept. The only error is that memory ran out.
pub(crate) fn known_at_start(
    alloc: Global,
    emitter: &Emitter<'_, '_, '_>,
) -> Result<Vec<Option<Range>>, Memory>
    ensures { IfOk result (λ known. known.items ≡ (at_start emitter.now).ranges) }
{
    if emitter.reduces() {
        return nothing_known(alloc, emitter.decls().len());
    }
    Ok(Vec::new(alloc))
}
