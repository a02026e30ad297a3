ghost use Rattle.std.specs.Prelude.{◌≡◌, map, slice_set, slice_index_or};
ghost use Rattle.lt_assembler.specs.Faults.{Finds};
ghost use Rattle.lt_assembler.specs.Instructions.{offset_to};
ghost use Rattle.lt_isa.specs.Prelude.{with_offset};
ghost use Rattle.lt_assembler.specs.Assembled.{settled};
ghost use Rattle.lt_assembler.specs.Seen.{seen_use, by_name};

use crate::draft::{CodePlace, Use};
use crate::errors::AsmError;
use crate::label_keys::Labels;
use crate::labels::place_of;
use lt_isa::Instr;
use lt_isa::instruction_table::with_offset;

/// The offset from one place to another.
fn offset_to(target: CodePlace, place: CodePlace) -> i32
    ensures { result ≡ offset_to target.number place.number }
{
    target.number as i32 - place.number as i32
}

/// Makes another place the target of the instruction at a place.
fn lead(code: &mut Vec<Instr>, place: CodePlace, target: CodePlace)
    ensures { code.new.items ≡ slice_set code.old.items place.number
        (with_offset (offset_to target.number place.number) (slice_index_or code.old.items place.number Instr.Nop)) }
{
    let index = place.number as usize;
    if index < code.len() {
        let old = code[index];
        code[index] = with_offset(old, offset_to(target, place));
    }
}

/// Makes each label's place the target where the label is used. It is an error if a label isn't defined; the first such
/// use is reported.
#[tactic(auto, unfolding(crate::specs::Assembled::settled, crate::specs::Assembled::aimed))]
pub fn settle<'a>(
    code: Vec<Instr>,
    labels: &Labels<'a>,
    uses: &[Use<'a>],
) -> Result<Vec<Instr>, AsmError>
    ensures { Finds (λ v. v.items) result
        (settled (by_name labels.now.entries) (map seen_use uses.now) code.items) }
{
    let mut code = code;
    for found in uses {
        match place_of(labels, found.name) {
            Some(target) => lead(&mut code, found.place, target),
            None => return Err(AsmError::UnknownName(found.line)),
        }
    }
    Ok(code)
}
