ghost use Rattle.std.specs.Prelude.{◌≡◌};
ghost use Rattle.lt_assembler.specs.Drafts.{has_code, takes_bank, takes_symbol, takes_code, is_noted};
ghost use Rattle.lt_assembler.specs.Seen.{draft_of};

use crate::draft::Draft;
use lt_isa::ranges::next_place;

/// Whether a line of code was read.
#[tactic(auto, using(crate::proofs::LabelMaps::by_name_none))]
fn has_code(draft: &Draft) -> bool
    ensures { result ≡ has_code (draft_of draft.now) }
{
    !draft.code.is_empty() || !draft.notes.is_empty() || !draft.labels.is_empty()
}

/// Whether the next line may be a bank.
pub fn takes_bank(draft: &Draft) -> bool
    ensures { result ≡ takes_bank (draft_of draft.now) }
{
    draft.profile.is_some() && draft.symbols.is_empty() && !has_code(draft)
}

/// Whether the next line may be code.
pub fn takes_code(draft: &Draft) -> bool
    ensures { result ≡ takes_code (draft_of draft.now) }
{
    2 <= draft.banks.len()
}

/// Whether the next line may be a symbol.
pub fn takes_symbol(draft: &Draft) -> bool
    ensures { result ≡ takes_symbol (draft_of draft.now) }
{
    draft.profile.is_some() && takes_code(draft) && !has_code(draft)
}

/// Whether the next instruction already has a note.
pub fn is_noted(draft: &Draft) -> bool
    ensures { result ≡ is_noted (draft_of draft.now) }
{
    (draft.code.len() as u64) < next_place(&draft.notes)
}
