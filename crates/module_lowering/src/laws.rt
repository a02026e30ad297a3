ghost use Rattle.std.specs.Prelude.{ℕ, Bool, List, [], length};
ghost use Rattle.src_tree.specs.declared.trees.Decl.{Decl};
ghost use Rattle.module_tree.specs.Trees.{Module};
ghost use Rattle.module_calls.specs.Rules.{ObeysRules};
ghost use Rattle.flat_tree.specs.Trees.{Term, Statement};
ghost use Rattle.flat_core.specs.Core.{CoreStatement};
ghost use Rattle.module_lowering.specs.Lowering.{prepared};
ghost use Rattle.module_lowering.specs.Naming.{SetsScalars};
ghost use Rattle.module_lowering.specs.Shape.{depth, NamesTheRest, Scoped};
ghost use Rattle.module_lowering.specs.Promise.{Declares, locals_of, Lowers};

/// A law: the passes leave only forms of the core, regardless of what is light, if each term that the core lacks may
/// become a variable.
pub fn shape_law()
    ensures { (all : ℕ) (is_scalar : ℕ → Bool) (light : Statement → Bool) (needs_name : Term → Bool) (n : ℕ) (s : Statement)
        → NamesTheRest needs_name
        → Scoped all is_scalar [] s
        → CoreStatement all is_scalar (depth (prepared light needs_name n s)) [] (prepared light needs_name n s) }
{}

/// A law: the core program that a module becomes does with the module's variables what the module means.
pub fn lowering_law()
    ensures { (light : Statement → Bool) (needs_name : Term → Bool) (decls : List Decl) (name : ℕ → List ℕ)
        (m : Module) (main : List ℕ)
        → NamesTheRest needs_name
        → ObeysRules m
        → SetsScalars m
        → Declares decls name (length m.items) (locals_of light needs_name m main)
        → Lowers light needs_name decls name m main }
{}
