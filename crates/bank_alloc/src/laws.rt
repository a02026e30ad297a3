ghost use Rattle.std.specs.Prelude.{◌≡◌, ℕ, ◌^◌, ◌<◌, ◌≤◌, ◌↔◌, List, length, slice_index_or};
ghost use Rattle.src_tree.specs.declared.trees.Decl.{Decl};
ghost use Rattle.src_tree.specs.Prelude.{IsWithinLimits, Source, IsTyped};
ghost use Rattle.bank_alloc.specs.declared.places.Place.{Place};
ghost use Rattle.bank_alloc.specs.Apart.{AreApart, IsBankOf, LiesWithin};
ghost use Rattle.bank_alloc.specs.Fits.{Fits};
ghost use Rattle.bank_alloc.specs.PlaceRules.{ArePlaced, BanksNeed};
ghost use Rattle.bank_alloc.specs.Places.{bank_count, blocks_needed, blocks_of_banks, places_of};
ghost use Rattle.bank_alloc.specs.Samples.{sample, sample_blocks, sample_places};

/// Does nothing; its clauses are the laws of places. Each variable is stored in a bank of its label and within it, no
/// two share a word, and every bank has a block. The places are exactly those by the variables that are declared
/// before.
#[tactic(auto, using(crate::proofs::EachPlace::bank_of_label, crate::proofs::BankSizes::bank_some))]
pub fn place_laws()
    ensures labels { (p : Source) (w k : ℕ) (d : Decl) (q : Place)
        → k < length p.decls
        → IsBankOf (slice_index_or p.decls k d).label (slice_index_or (places_of p w) k q).bank }
    ensures within { (p : Source) (w k : ℕ) (d : Decl) (q : Place)
        → IsWithinLimits p
        → Fits p w
        → k < length p.decls
        → LiesWithin p w (slice_index_or p.decls k d) (slice_index_or (places_of p w) k q) }
    ensures apart { (p : Source) (w i j : ℕ) (q : Place)
        → Fits p w
        → i < j
        → j < length p.decls
        → AreApart (2 ^ w) (slice_index_or (places_of p w) i q) (slice_index_or (places_of p w) j q) }
    ensures blocks { (p : Source) (w bank : ℕ)
        → IsWithinLimits p
        → bank < bank_count (places_of p w)
        → 1 ≤ blocks_needed p w bank }
    ensures placed { (p : Source) (w : ℕ) (places : List Place) → (places ≡ places_of p w) ↔ ArePlaced p w places }
    ensures needed { (p : Source) (w : ℕ) → BanksNeed p w }
{}

/// Does nothing; its clauses state that a program with a variable of each class meets the conditions for programs, and
/// the places of its variables.
#[tactic(auto, using(crate::proofs::SampleLaid::sample_typed, crate::proofs::SampleLaid::sample_within, crate::proofs::SampleLaid::sample_fits, crate::proofs::SampleLaid::sample_placed, crate::proofs::SampleLaid::sample_banks))]
pub fn sample_laws()
    ensures typed { IsTyped sample }
    ensures within { IsWithinLimits sample }
    ensures fits { Fits sample 3 }
    ensures places { places_of sample 3 ≡ sample_places }
    ensures blocks { blocks_of_banks sample 3 ≡ sample_blocks }
{}
