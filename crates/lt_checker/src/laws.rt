ghost use Rattle.std.specs.Prelude.{◌≡◌, ◌↔◌, ◌⊎◌, ◌<◌, ℕ, length, true, Some};
ghost use Rattle.lt_isa.specs.Prelude.{Parts};
ghost use Rattle.trace_patterns.specs.declared.reasons.Reason.{Reason as Why};
ghost use Rattle.trace_patterns.specs.Prelude.{Known, FitsClaim, fits, SymState, IsJoin, common, claimed_at, VisitedAt, Accepts, FirstRefusal};

/// Does nothing; its clauses are the laws of acceptance. Each object is either accepted or has a first refusal, and it
/// has at most one first refusal. What is known at a visited place of an accepted object is unique. What is known fits
/// a note's claim exactly if it does so for each register and each slot. What is known at a join is also stated for
/// each register and each slot.
pub fn acceptance_laws()
    ensures decided { (o : Parts) → Accepts o ⊎ ((place : ℕ) × (reason : Why) × FirstRefusal o place reason) }
    ensures refused { (o : Parts) (place : ℕ) (reason : Why) → FirstRefusal o place reason → ¬ Accepts o }
    ensures once { (o : Parts) (p q : ℕ) (r u : Why) → FirstRefusal o p r → FirstRefusal o q u → (p ≡ q) × (r ≡ u) }
    ensures known { (o : Parts)
        → Accepts o → (p : ℕ) (j k : Known) → p < length o.code → VisitedAt o p j → VisitedAt o p k → j ≡ k }
    ensures fits { (o : Parts) (p : ℕ) (k claimed : Known)
        → claimed_at o p ≡ Some claimed → (fits k claimed ≡ true) ↔ FitsClaim k claimed }
    ensures joins { (left right : SymState) → IsJoin left right (common left right) }
{}
