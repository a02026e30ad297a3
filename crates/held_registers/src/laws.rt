ghost use Rattle.std.specs.Prelude.{◌≡◌, ◌<◌, ℕ, ℤ, List, [], length};
ghost use Rattle.gr_word.specs.Prelude.{IsWord};
ghost use Rattle.src_tree.specs.declared.trees.Decl.{Decl};
ghost use Rattle.held_registers.specs.declared.registers.Held.{Held};
ghost use Rattle.held_registers.specs.Held.{IsSoundHeld, held_scalars, with_number};

/// Does nothing; its clauses name sound contents of the registers: nothing, the first scalars, and sound contents with
/// one number more.
pub fn register_laws()
    ensures none { (decls : List Decl) → IsSoundHeld decls [] }
    ensures scalars { (decls : List Decl) → IsSoundHeld decls (held_scalars decls) }
    ensures number { (decls : List Decl) (held : List Held) (z : ℤ)
        → 0 < length held → IsWord z → IsSoundHeld decls held → IsSoundHeld decls (with_number held z) }
{}
