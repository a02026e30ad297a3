ghost use Rattle.std.specs.Prelude.{◌≡◌, ℕ, ◌+◌, ◌<◌, Bool, List};
ghost use Rattle.src_tree.specs.declared.trees.Decl.{Decl};
ghost use Rattle.src_tree.specs.Prelude.{variable_number};
ghost use Rattle.flat_tree.specs.Trees.{Statement};
ghost use Rattle.flat_core.specs.Promise.{CoreKeeps};

/// A law: the core's statements do with the module's variables what the flat statements do, if the declarations name
/// these variables, and after them a scalar for each local that may be active.
pub fn core_law()
    ensures { (decls : List Decl) (all most : ℕ) (name : ℕ → List ℕ) (is_scalar : ℕ → Bool) (s : Statement)
        → ((p : ℕ) → p < all + most → variable_number decls (name p) ≡ p)
        → CoreKeeps decls all most name is_scalar s }
{}
