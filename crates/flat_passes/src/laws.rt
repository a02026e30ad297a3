ghost use Rattle.std.specs.Prelude.{ℕ, Bool};
ghost use Rattle.flat_tree.specs.Trees.{Term, Statement};
ghost use Rattle.flat_tree.specs.Keeps.{Below, Keeps};
ghost use Rattle.flat_passes.specs.Conditions.{conditions};
ghost use Rattle.flat_passes.specs.Values.{values};

/// A law: statements whose conditions became choices do what the statements did, regardless of what counts as light.
pub fn conditions_law()
    ensures { (light : Statement → Bool) (n : ℕ) (s : Statement) → Below n s → Keeps n s (conditions light s) }
{}

/// A law: statements with new variables from number n on do what the statements did, regardless of which terms become
/// variables.
pub fn values_law()
    ensures { (needs_name : Term → Bool) (n : ℕ) (s : Statement) → Below n s → Keeps n s (values needs_name n s) }
{}
