ghost use Rattle.std.specs.Prelude.{ℕ, Bool, List};
ghost use Rattle.module_tree.specs.Trees.{Module};
ghost use Rattle.module_calls.specs.Tails.{tailed, MeansTheSame};
ghost use Rattle.module_calls.specs.Fine.{FineModule};
ghost use Rattle.module_calls.specs.Rules.{pure_in, ObeysRules};
ghost use Rattle.module_calls.specs.Promise.{InliningKeeps, FlattensMeaning};

/// A law: a module means the same after its returns moved to the ends of its functions.
pub fn tails_law()
    ensures { (m : Module) → MeansTheSame m }
{}

/// A law: if a module obeys the rules of the language, then it has what the inliner needs after `tails`.
pub fn rules_law()
    ensures { (m : Module) → ObeysRules m → FineModule (pure_in m) (tailed m) }
{}

/// A law: the inlined `main` does with the module's variables what the module means.
pub fn inlining_law()
    ensures { (pure : List ℕ → Bool) (m : Module) (main : List ℕ) → FineModule pure m → InliningKeeps m main }
{}

/// A law: the statement that a module becomes does with the module's variables what the module means, if all variables
/// without an input begin as zeros.
pub fn flattening_law()
    ensures { (m : Module) (main : List ℕ) → ObeysRules m → FlattensMeaning m main }
{}
