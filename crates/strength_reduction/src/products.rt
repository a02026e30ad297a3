ghost use Rattle.std.specs.Prelude.{◌≡◌, ◌+◌, ◌++◌, ◌<◌, ◌≤◌, IfOk, OnOk};
ghost use Rattle.strength_reduction.specs.Reduced.{product_steps, shifted_steps, sum_register, sum_steps, term_steps};
ghost use Rattle.strength_reduction.specs.Steps.{code_of};

use crate::instructions::{compute, load, numbered, zero_code};
use gr_base::Memory;
use gr_word::Op;
use lt_isa::Instr;
use std::alloc::Global;

/// A product by a number that has these bits.
pub(crate) fn product_code(alloc: Global, bits: &[u8], to: u8) -> Result<Vec<Instr>, Memory>
    requires registers { to + 2 < 32 }
    ensures { IfOk result (λ code. code.items ≡ code_of to (product_steps bits.now)) }
{
    match bits {
        [] => zero_code(alloc, to),
        [first, rest @ ..] => {
            if *first == 0 {
                sum_code(alloc, rest, to)
            } else {
                shifted_code(alloc, *first, rest, to)
            }
        }
    }
}

/// The sum of the value and of the value times 2^k, for each of some bits k.
fn sum_code(alloc: Global, bits: &[u8], to: u8) -> Result<Vec<Instr>, Memory>
    requires registers { to + 2 < 32 }
    ensures { IfOk result (λ code. code.items ≡ code_of to (sum_steps 0 bits.now)) }
{
    let mut code = Vec::new(alloc);
    put_sum(&mut code, 0, bits, to)?;
    Ok(code)
}

/// The same, where the first term is the value times 2^k.
fn shifted_code(alloc: Global, k: u8, bits: &[u8], to: u8) -> Result<Vec<Instr>, Memory>
    requires registers { to + 2 < 32 }
    ensures { IfOk result (λ code. code.items ≡ code_of to (shifted_steps k bits.now)) }
{
    let mut code = Vec::new(alloc);
    code.push(load(to + 2, i64::from(k)))?;
    code.push(compute(Op::Shl, numbered(to, sum_register(bits)), to, to + 2))?;
    put_sum(&mut code, 1, bits, to)?;
    Ok(code)
}

/// The register that has a sum if these bits follow, counted from the value's register.
fn sum_register(bits: &[u8]) -> u8
    ensures value { result ≡ sum_register bits.now }
    ensures low { result ≤ 1 }
{
    if bits.is_empty() { 0 } else { 1 }
}

/// Adds the value times 2^k, for each of some bits k, to the sum that a register has.
fn put_sum(code: &mut Vec<Instr>, sum: u8, bits: &[u8], to: u8) -> Result<(), Memory>
    requires registers { to + 2 < 32 }
    requires sum { sum ≤ 1 }
    ensures { OnOk result (code.new.items ≡ code.old.items ++ code_of to (sum_steps sum bits.now)) }
{
    let mut held = sum;
    for i in 0..bits.len() {
        let next = sum_register(&bits[i + 1..]);
        put_term(code, next, held, bits[i], to)?;
        held = 1;
    }
    Ok(())
}

/// Adds the value times 2^k to a sum.
fn put_term(code: &mut Vec<Instr>, next: u8, sum: u8, k: u8, to: u8) -> Result<(), Memory>
    requires registers { to + 2 < 32 }
    requires next { next ≤ 1 }
    requires sum { sum ≤ 1 }
    ensures { OnOk result (code.new.items ≡ code.old.items ++ code_of to (term_steps next sum k)) }
{
    code.push(load(to + 2, i64::from(k)))?;
    code.push(compute(Op::Shl, to + 2, to, to + 2))?;
    code.push(compute(Op::Add, numbered(to, next), numbered(to, sum), to + 2))?;
    Ok(())
}
