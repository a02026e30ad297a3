ghost use Rattle.std.specs.Prelude.{◌≡◌, ◌≢◌, ◌≤◌, ◌==◌, ◌&&◌, not, nat_le, length, Ok, IfOk, IfErr, MatchResult};
ghost use Rattle.lt_isa.specs.Prelude.{Parts, IsInRange};
ghost use Rattle.lt_assembler.specs.Faults.{Finds};
ghost use Rattle.lt_assembler.specs.Assembled.{finished, text_read, assembled};
ghost use Rattle.lt_assembler.specs.FirstFaults.{IsFirstTextFault};
ghost use Rattle.lt_assembler.specs.Spelled.{SpellsInText};
ghost use Rattle.lt_assembler.specs.Seen.{draft_of};

use crate::draft::Draft;
use crate::errors::AsmError;
use crate::lines::MOST_WORDS;
use crate::reading::read_line;
use crate::targets::settle;
use lt_isa::{BankSpec, Instr, Object};
use std::alloc::Global;

/// Reads all lines of a text. The number is that of the line after the last.
fn read_text(alloc: Global, text: &[u8]) -> Result<(Draft<'_>, u32), AsmError>
    requires { length text.now ≤ 67108864 }
    ensures { Finds (λ x. (draft_of x.0, x.1)) result (text_read text.now) }
{
    let mut draft = Draft::new(alloc);
    let mut number: u32 = 1;
    let mut list: [&[u8]; MOST_WORDS] = [b""; MOST_WORDS];
    let mut rest = text;
    while !rest.is_empty() {
        let behind = match read_line(alloc, &mut draft, number, rest, &mut list) {
            Ok(behind) => behind,
            Err(fault) => return Err(fault.at(number)),
        };
        number += 1;
        rest = behind;
    }
    Ok((draft, number))
}

/// Whether there are two banks and an instruction.
fn is_whole(banks: &[BankSpec], code: &[Instr]) -> bool
    ensures { result ≡ (nat_le 2 (length banks.now) && not (length code.now == 0)) }
{
    2 <= banks.len() && !code.is_empty()
}

/// The object of a draft at the end of a text; `end` is the number of the line after the last.
#[tactic(auto, unfolding(crate::specs::Assembled::finished))]
fn finish(draft: Draft, end: u32) -> Result<Object, AsmError>
    requires { (o : Parts) → finished end (draft_of draft) ≡ Ok o → IsInRange o }
    ensures { Finds (λ o. o) result (finished end (draft_of draft.entry)) }
{
    let Draft {
        profile,
        banks,
        symbols,
        notes,
        code,
        labels,
        uses,
    } = draft;
    let Some(profile) = profile else {
        return Err(AsmError::BadLine(end));
    };
    if !is_whole(&banks, &code) {
        return Err(AsmError::BadLine(end));
    }
    let code = settle(code, &labels, &uses)?;
    Ok(Object::of_parts(profile, banks, symbols, notes, code))
}

#[tactic(auto, unfolding(crate::specs::Assembled::assembled))]
fn assembled(alloc: Global, text: &[u8]) -> Result<Object, AsmError>
    requires { length text.now ≤ 67108864 }
    ensures { Finds (λ o. o) result (assembled text.now) }
{
    let (draft, end) = read_text(alloc, text)?;
    finish(draft, end)
}

/// The object that an assembly text encodes, or the text's first error; the text has at most 67,108,864 bytes. The
/// first error is that of the first line with an error; if no line has one, that the text ends too early; and otherwise
/// the first use of a label that isn't defined. Within a line the form comes first, then numbers, repeated names, and
/// limits. Running out of memory says nothing about the text.
pub fn assemble(alloc: Global, text: &[u8]) -> Result<Object, AsmError>
    requires { length text.now ≤ 67108864 }

    // The text encodes the object that is found, which is in range.
    ensures spelled { IfOk result (λ o. SpellsInText text.now o) }
    ensures in_range { IfOk result (λ o. IsInRange o) }

    // If the text encodes an object, that object is found, unless memory runs out.
    ensures only { (o : Parts) → SpellsInText text.now o → MatchResult result (λ p. p ≡ o) (λ e. e ≡ AsmError.Memory) }

    // An error is that of the first line with one or, if no line has one, of the text as a whole.
    ensures first { IfErr result (λ e. e ≢ AsmError.Memory → IsFirstTextFault text.now e) }
{
    assembled(alloc, text)
}
