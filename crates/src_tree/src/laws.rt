ghost use Rattle.std.specs.Prelude.{◌≡◌, ℕ, Some, None};
ghost use Rattle.gr_word.specs.declared.variables.Label.TheVariants.{Public};
ghost use Rattle.src_tree.specs.declared.faults.TypeError.{TypeError};
ghost use Rattle.src_tree.specs.Trees.{Source};
ghost use Rattle.src_tree.specs.Contexts.{context_of};
ghost use Rattle.src_tree.specs.Statements.{in_order};
ghost use Rattle.src_tree.specs.Typing.{IsTyped};
ghost use Rattle.src_tree.specs.Limits.{IsWithinLimits};
ghost use Rattle.src_tree.specs.FirstFault.{StatementFault, IsFirstAt, statements_fault, first_fault};
ghost use Rattle.src_tree.specs.Causes.{IsFirstFault};

/// Laws of errors: a program has no first error exactly if it is well typed and within the limits.
pub fn no_fault()
    ensures typed { (p : Source) → first_fault p ≡ None → IsTyped p }
    ensures within { (p : Source) → first_fault p ≡ None → IsWithinLimits p }
    ensures faultless { (p : Source) → IsTyped p → IsWithinLimits p → first_fault p ≡ None }
{}

/// Laws of a kind of error of statements: the first error that is found is that of the first statement that has one,
/// and of no other.
pub fn first_statement()
    ensures found { (fault : StatementFault) (p : Source) (k : ℕ) (e : TypeError)
        → IsFirstAt fault 0 (in_order (context_of p.decls) Public p.body) k e → statements_fault fault p ≡ Some e }
    ensures only { (fault : StatementFault) (p : Source) (e : TypeError) → statements_fault fault p ≡ Some e
        → (k : ℕ) × IsFirstAt fault 0 (in_order (context_of p.decls) Public p.body) k e }
{}

/// Laws of the first error: it is the one that the relation defines, and no other.
pub fn first_cause()
    ensures found { (p : Source) (e : TypeError) → IsFirstFault p e → first_fault p ≡ Some e }
    ensures only { (p : Source) (e : TypeError) → first_fault p ≡ Some e → IsFirstFault p e }
{}
