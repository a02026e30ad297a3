ghost use Rattle.std.specs.Prelude.{◌≡◌, ◌-◌, ◌^◌, ◌<◌, ◌≤◌, pos, negsuc, [], ◌∷◌, OnOk, length, slice_set};
ghost use Rattle.lt_isa.specs.Prelude.{most_instructions};
ghost use Rattle.lt_isa.specs.declared.instructions.Instr.TheVariants.{Br};
ghost use Rattle.block_cache_gen.specs.Prelude.{Appended};
ghost use Rattle.code_gen.specs.Statements.{head_note, head_unless, opposite};

use block_cache_gen::{CodeBuf, Emitter};
use gr_base::Memory;
use gr_word::Cmp;
use lt_isa::Note;

// The comparison that holds exactly if another doesn't.
fn opposite(cmp: Cmp) -> Cmp
    ensures { result ≡ opposite cmp }
{
    match cmp {
        Cmp::Eq => Cmp::Ne,
        Cmp::Ne => Cmp::Eq,
        Cmp::Lt => Cmp::Ge,
        Cmp::Le => Cmp::Gt,
        Cmp::Gt => Cmp::Le,
        Cmp::Ge => Cmp::Lt,
    }
}

/// The offset of a jump this many places back.
pub(crate) fn backward(places: u32) -> i32
    requires some { 1 ≤ places }
    requires few { places ≤ most_instructions }
    ensures { result ≡ negsuc (places - 1) }
{
    -(places as i32)
}

/// Sets the branch at a place to jump to the end of the code so far if a comparison of registers 0 and 1 fails.
pub(crate) fn set_branch_unless(out: &mut CodeBuf, at: u32, cmp: Cmp)
    requires before { at < length out.old.code.items }
    requires room { length out.old.code.items ≤ most_instructions }
    ensures code { out.new.code.items
        ≡ slice_set out.old.code.items at (Br (opposite cmp) 0 1 (pos (length out.old.code.items - at))) }
    ensures notes { out.new.notes.items ≡ out.old.notes.items }
{
    out.set_branch(at, opposite(cmp));
}

/// Appends a note after the code so far, to which public code may jump: every register may hold a secret, but those
/// that hold something public for the whole run. The only error is running out of memory.
pub(crate) fn put_head_note(emitter: &Emitter<'_, '_, '_>, out: &mut CodeBuf) -> Result<(), Memory>
    requires room { length out.old.code.items < 2 ^ 32 }
    ensures appended { OnOk result (Appended out.old out.new [] (λ place. head_note emitter.now place ∷ [])) }
{
    out.put_note(Note {
        pc: out.next_place(),
        secrets: emitter.base_mask(),
        slots: emitter.claims(),
    })
}

/// The same if there is no note yet, which `noted` says.
pub(crate) fn put_head_note_unless(
    emitter: &Emitter<'_, '_, '_>,
    out: &mut CodeBuf,
    noted: bool,
) -> Result<(), Memory>
    requires room { length out.old.code.items < 2 ^ 32 }
    ensures appended { OnOk result (Appended out.old out.new [] (λ place. head_unless noted emitter.now place)) }
{
    if noted {
        return Ok(());
    }
    put_head_note(emitter, out)
}
