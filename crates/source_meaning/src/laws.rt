ghost use Rattle.std.specs.Prelude.{◌≡◌, ℕ, suc, true, false, List, Some, None};
ghost use Rattle.src_tree.specs.declared.trees.Decl.{Decl};
ghost use Rattle.src_tree.specs.Prelude.{Test, Block, Loop, Store, guard_holds, in_turn, run_of, run_of_block};

/// Laws of loops, as the language defines them. A loop whose guard is false leaves everything as it is. A loop whose
/// guard is true is spent if no iteration is left; otherwise it executes its body with one fewer iteration, and then
/// the loop again.
pub fn loop_laws()
    ensures ends { (decls : List Decl) (guard : Test) (body : Block) (store : Store) (turns : ℕ)
        → guard_holds decls store guard ≡ false
        → run_of decls (Loop guard body) (record { store = store; turns = turns })
        ≡ Some (record { store = store; turns = turns }) }
    ensures spent { (decls : List Decl) (guard : Test) (body : Block) (store : Store)
        → guard_holds decls store guard ≡ true
        → run_of decls (Loop guard body) (record { store = store; turns = 0 }) ≡ None }
    ensures again { (decls : List Decl) (guard : Test) (body : Block) (store : Store) (turns : ℕ)
        → guard_holds decls store guard ≡ true
        → run_of decls (Loop guard body) (record { store = store; turns = suc turns })
        ≡ in_turn (run_of_block decls body) (run_of decls (Loop guard body)) (record { store = store; turns = turns }) }
{}
