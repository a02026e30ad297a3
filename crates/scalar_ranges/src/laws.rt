ghost use Rattle.std.specs.Prelude.{◌≡◌, ◌<◌, ℕ, List, Some, length, true};
ghost use Rattle.gr_word.specs.Prelude.{unsigned_of};
ghost use Rattle.src_tree.specs.declared.trees.Decl.{Decl};
ghost use Rattle.src_tree.specs.Prelude.{Left, Store, evaluated, run_of_block, words_of_number, Block, Statement, Test, Tree, context_of, TypedBlock};
ghost use Rattle.gr_word.specs.declared.variables.Label.TheVariants.{Secret};
ghost use Rattle.scalar_ranges.specs.Comes.{Comes};
ghost use Rattle.scalar_ranges.specs.Known.{after_statement, inside, is_within, nothing_known};
ghost use Rattle.scalar_ranges.specs.Ranges.{AreOfPublic, AreWithin, Ranges};

/// Laws of ranges: the store at each statement that an execution reaches is within what is known there, if the store at
/// the beginning is. Each store that has a word for each variable is within what is known at the beginning of a program.
/// An index that is known to be below a length is below it. Ranges are known of public scalars only, so that secret code
/// keeps a store within them.
pub fn range_laws()
    ensures comes { (decls : List Decl) (known : Ranges) (b : Block) (before : Left) (there : Ranges) (s : Statement)
        (store : Store) → Comes decls known b before there s store → AreWithin known before.store
        → AreWithin there store }
    ensures begins { (count : ℕ) (store : Store) → ((k : ℕ) → k < count → 0 < length (words_of_number store k))
        → AreWithin (nothing_known count) store }
    ensures within { (decls : List Decl) (known : Ranges) (store : Store) → AreWithin known store → (i : Tree)
        (length : ℕ) → is_within decls known i length ≡ true → unsigned_of (evaluated decls store i) < length }
    ensures secret { (decls : List Decl) (known : Ranges) → AreOfPublic decls known → (b : Block) (before after : Left)
        → TypedBlock (context_of decls) Secret b → AreWithin known before.store
        → run_of_block decls b before ≡ Some after → AreWithin known after.store }
    ensures public { (decls : List Decl) (known : Ranges) → AreOfPublic decls known
        → ((s : Statement) → AreOfPublic decls (after_statement decls known s))
        × ((t : Test) (a : Block) → AreOfPublic decls (inside decls known t a)) }
{}
