ghost use Rattle.std.specs.Prelude.{◌≡◌, ℕ, ◌≤◌, List};
ghost use Rattle.gr_word.specs.Prelude.{FitsWants};
ghost use Rattle.gr_word.specs.declared.variables.Want.{Want};
ghost use Rattle.src_tree.specs.Prelude.{IsWithinLimits, weight_of, Store, meaning, Source, IsTyped};
ghost use Rattle.source_folding.specs.Numbers.{BlockNumbersFit};
ghost use Rattle.source_folding.specs.Folded.{folded_source};

/// Laws of the program that [`folded`](crate::folded) returns: it means the same on every store of words, it is well
/// typed and within the limits if the given program is, and its weight isn't greater.
pub fn folding_laws()
    ensures meaning { (p : Source) (wants : List Want) (store : Store) (turns : ℕ)
        → BlockNumbersFit p.body
        → FitsWants wants store
        → meaning (folded_source p) store turns ≡ meaning p store turns }
    ensures typed { (p : Source) → IsTyped p → IsTyped (folded_source p) }
    ensures within { (p : Source) → IsWithinLimits p → IsWithinLimits (folded_source p) }
    ensures weight { (p : Source) → weight_of (folded_source p) ≤ weight_of p }
{}
