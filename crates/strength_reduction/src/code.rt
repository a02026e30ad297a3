ghost use Rattle.std.specs.Prelude.{◌≡◌, ◌+◌, ◌<◌, IfOk, option_map, vec_items};
ghost use Rattle.strength_reduction.specs.Reduced.{steps_by_bits, steps_by_number};
ghost use Rattle.strength_reduction.specs.Steps.{code_of};

use crate::bits::{power_of, set_bits};
use crate::products::product_code;
use crate::quotients::{mask_code, quotient_code, remainder_code};
use gr_base::Memory;
use gr_word::Op;
use lt_isa::Instr;
use std::alloc::Global;

/// The most bits of a number by which a product is computed by shifts and sums.
const MOST_BITS: usize = 8;

/// The code that replaces an operation on the value in register `to` by a number, and leaves the result there. It also
/// uses the two registers that follow. `None` if no steps replace the operation. The only error is running out of
/// memory.
pub fn code_by_number(
    alloc: Global,
    op: Op,
    number: i64,
    to: u8,
) -> Result<Option<Vec<Instr>>, Memory>
    requires registers { to + 2 < 32 }
    ensures exact { IfOk result (λ found.
        option_map vec_items found ≡ option_map (code_of to) (steps_by_number op number)) }
{
    let bits = set_bits(alloc, number)?;
    code_by_bits(alloc, op, &bits, to)
}

/// The same for the bits of the number.
fn code_by_bits(alloc: Global, op: Op, bits: &[u8], to: u8) -> Result<Option<Vec<Instr>>, Memory>
    requires registers { to + 2 < 32 }
    ensures { IfOk result (λ found.
        option_map vec_items found ≡ option_map (code_of to) (steps_by_bits op bits.now)) }
{
    match op {
        Op::Mul => {
            if bits.len() <= MOST_BITS {
                Ok(Some(product_code(alloc, bits, to)?))
            } else {
                Ok(None)
            }
        }
        Op::Div => match power_of(bits) {
            Some(k) => Ok(Some(quotient_code(alloc, k, to)?)),
            None => Ok(None),
        },
        Op::Rem => match power_of(bits) {
            Some(k) => Ok(Some(remainder_code(alloc, k, to)?)),
            None => Ok(None),
        },
        Op::Remu => match power_of(bits) {
            Some(k) => Ok(Some(mask_code(alloc, k, to)?)),
            None => Ok(None),
        },
        Op::Add | Op::Sub | Op::And | Op::Or | Op::Xor | Op::Shl | Op::Shr => Ok(None),
    }
}
