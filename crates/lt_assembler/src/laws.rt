ghost use Rattle.std.specs.Prelude.{◌≡◌, ◌≤◌, ◌↔◌, ℕ, List, length, Ok, Err, MatchResult};
ghost use Rattle.lt_isa.specs.Prelude.{Parts, IsInRange};
ghost use Rattle.lt_assembler.specs.declared.errors.AsmError.{AsmError};
ghost use Rattle.lt_assembler.specs.Canonical.{canonical};
ghost use Rattle.lt_assembler.specs.Spelled.{SpellsInText};
ghost use Rattle.lt_assembler.specs.Assembled.{assembled};
ghost use Rattle.lt_assembler.specs.FirstFaults.{IsFirstTextFault};

use crate::assembly::assemble;
use crate::disassembly::disassemble;
use crate::errors::AsmError;
use lt_isa::Object;
use std::alloc::Global;

/// Does nothing; its clauses are the laws of the format.
pub fn text_laws()
    // What is assembled from a text is what the text encodes, which is at most one object.
    ensures computes { (text : List ℕ) (o : Parts) → (assembled text ≡ Ok o) ↔ SpellsInText text o }
    ensures one_object { (text : List ℕ) (o p : Parts) → SpellsInText text o → SpellsInText text p → o ≡ p }

    // The canonical text of an object encodes it.
    ensures read_again { (o : Parts) → IsInRange o → SpellsInText (canonical o) o }

    // An error is returned exactly if it is the text's first. So a text that encodes no object has exactly one.
    ensures first_fault { (text : List ℕ) (e : AsmError) → (assembled text ≡ Err e) ↔ IsFirstTextFault text e }
{}

/// Writes an object as text and reads the text. The object is the same; the only error is that memory runs out.
pub fn written_again(alloc: Global, object: &Object) -> Result<Object, AsmError>
    ensures { MatchResult result (λ o. o ≡ object.now) (λ e. e ≡ AsmError.Memory) }
{
    let text = disassemble(alloc, object)?;
    assemble(alloc, &text)
}
