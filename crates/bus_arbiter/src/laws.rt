ghost use Rattle.std.specs.Prelude.{◌≡◌, ◌↔◌, ◌<◌, ◌++◌, ◌∷◌, [], ℕ, ℤ, List, None, Some, length, map, slice_get};
ghost use Rattle.lt_isa.specs.Prelude.{Parts, IsInRange, Stamped};
ghost use Rattle.bus_arbiter.specs.Laws.{AllAgree, AllFit, AllOblivious, AreOnBus, NoneOverlap, Run, runs_of, shown_to, traces_on};
ghost use Rattle.bus_arbiter.specs.Refusals.{refusal};
ghost use Rattle.bus_arbiter.specs.Shares.{IsPlan, PlanRefuses, PlanTakes, ShareFits, share_of};
ghost use Rattle.bus_arbiter.specs.Transfers.{IsJoined, Transfer, joined_of, of_core, transfers_of};
ghost use Rattle.bus_arbiter.specs.declared.errors.BusError.{BusError};
ghost use Rattle.bus_arbiter.specs.declared.shares.Share.{Share};

/// Does nothing; its clauses are the laws of a bus. Runs that a plan has taken have one joined list, the computed one;
/// in no cycle are two of its transfers on the bus; and a core's part of it is what that core's run shows without the
/// others. Inputs that agree give the same traces, so the joined lists and the halts are the same too. And a plan takes
/// a share, or refuses it for one cause, the computed one.
pub fn bus_laws()
    ensures none_overlap { (runs : List Run)
        → AreOnBus runs
        → (n : ℕ)
        → (joined : List Transfer)
        → IsJoined (map (shown_to n) runs) joined
        → NoneOverlap runs joined }
    ensures worked_out { (runs : List Run)
        → AreOnBus runs
        → (n : ℕ)
        → IsJoined (map (shown_to n) runs) (joined_of (map (shown_to n) runs)) }
    ensures own_part { (runs : List Run)
        → AreOnBus runs
        → (n : ℕ)
        → (joined : List Transfer)
        → IsJoined (map (shown_to n) runs) joined
        → (k : ℕ) (r : Run)
        → slice_get runs k ≡ Some r
        → of_core k joined ≡ transfers_of k (shown_to n r) }
    ensures one_list { (traces : List (List Stamped)) (one other : List Transfer)
        → IsJoined traces one
        → IsJoined traces other
        → one ≡ other }
    ensures agreeing { (os : List Parts) (ds es : List (List (List ℤ)))
        → AllOblivious os
        → AllAgree os ds es
        → (n : ℕ)
        → traces_on os ds n ≡ traces_on os es n }
    ensures takes { (plan : List Share) (s : Share)
        → IsPlan plan
        → ShareFits s
        → (refusal plan s ≡ None) ↔ PlanTakes plan s }
    ensures refuses { (plan : List Share) (s : Share)
        → IsPlan plan
        → ShareFits s
        → (cause : BusError)
        → (refusal plan s ≡ Some cause) ↔ PlanRefuses plan s cause }
{}

/// Does nothing; its clauses are the laws of a plan. No share is a plan. A plan of at most seven shares that takes one
/// more is a plan with it. The share of an object in range fits. If objects have a plan, their runs, each on inputs that
/// fit it, are on the bus, so the laws of a bus apply to them. In particular their transfers never overlap.
pub fn plan_laws()
    ensures none { IsPlan [] }
    ensures one_more { (plan : List Share) (s : Share)
        → IsPlan plan
        → length plan < 8
        → ShareFits s
        → PlanTakes plan s
        → IsPlan (plan ++ s ∷ []) }
    ensures own_share { (o : Parts) → IsInRange o → ShareFits (share_of o) }
    ensures on_bus { (os : List Parts) (ds : List (List (List ℤ)))
        → AllFit os ds
        → IsPlan (map share_of os)
        → AreOnBus (runs_of os ds) }
    ensures traces { (os : List Parts) (ds : List (List (List ℤ))) (n : ℕ)
        → map (shown_to n) (runs_of os ds) ≡ traces_on os ds n }
    ensures apart { (os : List Parts) (ds : List (List (List ℤ)))
        → AllFit os ds
        → IsPlan (map share_of os)
        → (n : ℕ)
        → (joined : List Transfer)
        → IsJoined (traces_on os ds n) joined
        → NoneOverlap (runs_of os ds) joined }
{}
