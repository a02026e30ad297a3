ghost use Rattle.scratch_alloc.specs.Prelude.{ArePlansSound};
ghost use Rattle.resident_alloc.specs.ResidentFits.{ResidentsFit};
ghost use Rattle.resident_alloc.specs.ResidentPlan.{resident_plan};

/// Does nothing; its clause says that the plan is sound for each program with room for its variables.
pub fn resident_laws()
    ensures sound { ArePlansSound ResidentsFit resident_plan }
{}
