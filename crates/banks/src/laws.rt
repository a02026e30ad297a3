ghost use Rattle.std.specs.Prelude.{◌≡◌, ℕ, ◌<◌, ◌≤◌, List, length};
ghost use Rattle.std.specs.List.{All};
ghost use Rattle.lt_isa.specs.Prelude.{State, Parts, blocks_of, IsInRange, IsShaped, step, trace_from};
ghost use Rattle.banks.specs.Accesses.{Access, AreAccesses, ShowsItsAccess, accessed, accesses_from, in_bank};
ghost use Rattle.banks.specs.ObliviousEvents.{accesses_shown};

/// Does nothing; its clauses are laws of the accesses of runs. The accesses of runs satisfy the relation that defines
/// them, and nothing else does. Each access is the one that its event shows. A trace shows as many accesses to an
/// oblivious bank as are made to it, and only existing blocks of a bank are accessed.
#[tactic(auto, using(crate::proofs::AccessRuns::are_accesses, crate::proofs::AccessRuns::no_other_accesses, crate::proofs::ShownAccesses::shows_its_access))]
pub fn access_laws()
    ensures accesses { (o : Parts) → IsInRange o → AreAccesses o (accesses_from o) }
    ensures no_other_accesses { (o : Parts)
        → IsInRange o
        → (accesses : State → ℕ → List Access)
        → AreAccesses o accesses
        → (s : State)
        → IsShaped o s
        → (n : ℕ)
        → accesses s n ≡ accesses_from o s n }
    ensures events { (o : Parts) (s : State) → ShowsItsAccess (step o s) (accessed o s) }
    ensures shown { (b : ℕ)
        → 2 ≤ b
        → (o : Parts) (s : State) (n : ℕ)
        → accesses_shown b (trace_from o s n) ≡ length (in_bank b (accesses_from o s n)) }
    ensures exist { (o : Parts)
        → IsInRange o
        → (s : State) (n : ℕ)
        → IsShaped o s
        → (b : ℕ)
        → All (λ a. a < blocks_of o b) (in_bank b (accesses_from o s n)) }
{}
