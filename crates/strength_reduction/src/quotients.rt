ghost use Rattle.std.specs.Prelude.{◌≡◌, ◌+◌, ◌<◌, ◌≤◌, [], IfOk};
ghost use Rattle.strength_reduction.specs.Reduced.{low_bits, mask_steps, quotient_steps, remainder_steps, rounding_steps};
ghost use Rattle.strength_reduction.specs.Steps.{code_of};

use crate::instructions::{compute, load, zero_code};
use gr_base::Memory;
use gr_word::Op;
use lt_isa::Instr;
use std::alloc::Global;

/// 2^k - 1.
fn low_bits(k: u8) -> i64
    requires { k ≤ 62 }
    ensures { result ≡ low_bits k }
{
    ((1u64 << k) - 1) as i64
}

/// Adds 2^k - 1 to a negative value.
fn rounding_code(alloc: Global, k: u8, to: u8) -> Result<Vec<Instr>, Memory>
    requires bit { k ≤ 62 }
    requires registers { to + 2 < 32 }
    ensures { IfOk result (λ code. code.items ≡ code_of to (rounding_steps k [])) }
{
    let mut code = Vec::new(alloc);
    code.push(load(to + 1, 63))?;
    code.push(compute(Op::Shr, to + 1, to, to + 1))?;
    code.push(load(to + 2, low_bits(k)))?;
    code.push(compute(Op::And, to + 1, to + 1, to + 2))?;
    code.push(compute(Op::Add, to, to, to + 1))?;
    Ok(code)
}

/// A quotient by 2^k.
pub(crate) fn quotient_code(alloc: Global, k: u8, to: u8) -> Result<Vec<Instr>, Memory>
    requires bit { k ≤ 62 }
    requires registers { to + 2 < 32 }
    ensures { IfOk result (λ code. code.items ≡ code_of to (quotient_steps k)) }
{
    if k == 0 {
        return Ok(Vec::new(alloc));
    }
    let mut code = rounding_code(alloc, k, to)?;
    code.push(load(to + 2, i64::from(k)))?;
    code.push(compute(Op::Shr, to, to, to + 2))?;
    Ok(code)
}

/// A remainder by 2^k.
pub(crate) fn remainder_code(alloc: Global, k: u8, to: u8) -> Result<Vec<Instr>, Memory>
    requires bit { k ≤ 62 }
    requires registers { to + 2 < 32 }
    ensures { IfOk result (λ code. code.items ≡ code_of to (remainder_steps k)) }
{
    if k == 0 {
        return zero_code(alloc, to);
    }
    let mut code = rounding_code(alloc, k, to)?;
    code.push(compute(Op::And, to, to, to + 2))?;
    code.push(compute(Op::Sub, to, to, to + 1))?;
    Ok(code)
}

/// A remainder of unsigned words by 2^k.
pub(crate) fn mask_code(alloc: Global, k: u8, to: u8) -> Result<Vec<Instr>, Memory>
    requires bit { k ≤ 62 }
    requires registers { to + 2 < 32 }
    ensures { IfOk result (λ code. code.items ≡ code_of to (mask_steps k)) }
{
    if k == 0 {
        return zero_code(alloc, to);
    }
    let mut code = Vec::new(alloc);
    code.push(load(to + 1, low_bits(k)))?;
    code.push(compute(Op::And, to, to, to + 1))?;
    Ok(code)
}
