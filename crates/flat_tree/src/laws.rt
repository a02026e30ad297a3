ghost use Rattle.std.specs.Prelude.{ℕ, ◌≤◌};
ghost use Rattle.flat_tree.specs.Trees.{Statement};
ghost use Rattle.flat_tree.specs.Keeps.{Below, Keeps};
ghost use Rattle.flat_tree.specs.Bounds.{bound};

/// Laws of `Keeps`: statements keep what they do themselves; passes compose, and the second may keep more variables than
/// the first; and all variables of statements have numbers below their bound.
pub fn keeps_laws()
    ensures same { (n : ℕ) (s : Statement) → Below n s → Keeps n s s }
    ensures composed { (n p : ℕ) (a b c : Statement) → n ≤ p → Keeps n a b → Keeps p b c → Keeps n a c }
    ensures bounded { (n : ℕ) (s : Statement) → bound s ≤ n → Below n s }
{}
