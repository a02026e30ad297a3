ghost use Rattle.std.specs.Prelude.{◌≡◌, ℤ, List, Some};
ghost use Rattle.gr_word.specs.Prelude.{IsWord, applied};
ghost use Rattle.gr_word.specs.declared.operations.Op.{Op};
ghost use Rattle.gr_word.specs.declared.operations.Op.TheVariants.{Mul};
ghost use Rattle.strength_reduction.specs.Reduced.{steps_by_number};
ghost use Rattle.strength_reduction.specs.Steps.{Replaces, Step};

/// Does nothing; its clauses are laws. The steps by a number do what the operation by that number does. The factors of
/// a product may be exchanged, so a product of a number and a value is the product of the value and the number.
pub fn replacement_laws()
    ensures replaces { (op : Op) (number : ℤ) (steps : List Step)
        → steps_by_number op number ≡ Some steps
        → Replaces op number steps }
    ensures turned { (a b : ℤ) → IsWord a → IsWord b → applied Mul a b ≡ applied Mul b a }
{}
