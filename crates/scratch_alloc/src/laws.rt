ghost use Rattle.std.specs.Prelude.{ℕ, List, ◌<◌, length, slice_index_or, take};
ghost use Rattle.bank_alloc.specs.declared.places.Place.{Place};
ghost use Rattle.bank_alloc.specs.Prelude.{Fits};
ghost use Rattle.scratch_alloc.specs.Plans.{ArePlansSound, standard_plan};
ghost use Rattle.scratch_alloc.specs.Slots.{HasSlot, slots_of};

/// Does nothing; its clause is the law of slots: each variable has a slot by what its place is.
#[tactic(auto, using(crate::proofs::SlotBanks::slot_at))]
pub fn slot_laws()
    ensures { (places : List Place) (k d : ℕ) (q : Place)
        → k < length places
        → HasSlot (take k places) (slice_index_or places k q) (slice_index_or (slots_of places) k d) }
{}

/// Does nothing; its clause says that the plan of [`crate::slots`] is sound for each program with room for its variables.
pub fn plan_laws()
    ensures standard { ArePlansSound Fits standard_plan }
{}
