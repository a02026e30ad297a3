ghost use Rattle.std.specs.Prelude.{◌≡◌, ◌+◌, ◌<◌, IfOk};
ghost use Rattle.lt_isa.specs.declared.instructions.Instr.TheVariants.{Alu, Li};
ghost use Rattle.strength_reduction.specs.Reduced.{zero_steps};
ghost use Rattle.strength_reduction.specs.Steps.{code_of, numbered};

use gr_base::Memory;
use gr_word::Op;
use lt_isa::Instr;
use std::alloc::Global;

/// Register `i`, counted from the value's register.
pub(crate) fn numbered(to: u8, i: u8) -> u8
    requires { to + i < 32 }
    ensures { result ≡ numbered to i }
{
    to + i
}

/// Register `rd` becomes a constant.
pub(crate) fn load(rd: u8, value: i64) -> Instr
    ensures { result ≡ Li rd value }
{
    Instr::Li { rd, value }
}

/// Register `rd` becomes the result of an operation on two registers.
pub(crate) fn compute(op: Op, rd: u8, ra: u8, rb: u8) -> Instr
    ensures { result ≡ Alu op rd ra rb }
{
    Instr::Alu { op, rd, ra, rb }
}

/// Register `to` becomes 0 by an operation on its value.
pub(crate) fn zero_code(alloc: Global, to: u8) -> Result<Vec<Instr>, Memory>
    ensures { IfOk result (λ code. code.items ≡ code_of to zero_steps) }
{
    let mut code = Vec::new(alloc);
    code.push(compute(Op::Xor, to, to, to))?;
    Ok(code)
}
