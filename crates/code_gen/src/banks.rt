ghost use Rattle.std.specs.Prelude.{◌≡◌, IfOk};
ghost use Rattle.compiled_objects.specs.Prelude.{latency_for};
ghost use Rattle.code_gen.specs.Made.{banks_from};

use gr_base::Memory;
use lt_isa::{BankSpec, Latencies};
use std::alloc::Global;

// The latency of a bank, by its kind.
fn latency_for(l: &Latencies, bank: usize) -> u32
    ensures { result ≡ latency_for l.now bank }
{
    match bank {
        0 => l.ram,
        1 => l.eram,
        _ => l.oram,
    }
}

/// The banks, where the number of blocks of each is given, each with the latency of its kind. The only error is running
/// out of memory.
pub(crate) fn bank_specs(
    alloc: Global,
    blocks: &[u32],
    l: &Latencies,
) -> Result<Vec<BankSpec>, Memory>
    ensures { IfOk result (λ banks. banks.items ≡ banks_from l.now 0 blocks.now) }
{
    let mut banks = Vec::with_capacity(alloc, blocks.len())?;
    for (bank, blocks) in blocks.iter().enumerate() {
        banks.push(BankSpec {
            blocks: *blocks,
            latency: latency_for(l, bank),
        })?;
    }
    Ok(banks)
}
