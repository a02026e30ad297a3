ghost use Rattle.std.specs.Prelude.{◌≡◌, ℕ, length};
ghost use Rattle.src_tree.specs.Prelude.{Source};
ghost use Rattle.scratch_alloc.specs.Prelude.{IsSoundPlan, Plan};
ghost use Rattle.spread_alloc.specs.Spread.{spread_plan};
ghost use Rattle.spread_alloc.specs.SpreadFits.{PlanFits};

/// Does nothing; its clauses say that the arrays of a sound plan can be spread, and that the plan is still sound then.
pub fn spread_laws()
    ensures fits { (p : Source) (w : ℕ) (plan : Plan)
        → IsSoundPlan p w plan
        → PlanFits plan }
    ensures sound { (p : Source) (w : ℕ) (plan : Plan)
        → IsSoundPlan p w plan
        → length plan.pins ≡ 8
        → IsSoundPlan p w (spread_plan w plan) }
{}
