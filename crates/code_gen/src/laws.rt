ghost use Rattle.std.specs.Prelude.{◌≡◌, ◌+◌, ◌<◌, ℕ, false, length};
ghost use Rattle.lt_isa.specs.Prelude.{Parts};
ghost use Rattle.trace_patterns.specs.Prelude.{Accepts, has_secret_in_ram, Known, start_known, Leaves, ruling_at};
ghost use Rattle.stretches.specs.Prelude.{CheckedUpTo, HoldsAt, Passes};

/// Does nothing; its clauses state what it means that a stretch of public code is passed, as the clauses of the calls
/// that make code do. The check's state on entry to its first place is carried to the place after it, and no place
/// between is refused. The check begins at the first place of the code; an object whose code is passed so up to its
/// last place is accepted if no secret variable is stored in plain memory.
pub fn passing_laws()
    ensures starts { (o : Parts) → CheckedUpTo o 0 start_known }
    ensures carried { (o : Parts) (p q : ℕ) (comes last : Known)
        → CheckedUpTo o p comes → Passes o p comes q last → q < length o.code → CheckedUpTo o q last }
    ensures accepted { (o : Parts) (q : ℕ) (comes holds : Known)
        → CheckedUpTo o q comes
        → HoldsAt o q comes holds
        → ruling_at o q holds ≡ Leaves
        → q + 1 ≡ length o.code
        → has_secret_in_ram o ≡ false
        → Accepts o }
{}
