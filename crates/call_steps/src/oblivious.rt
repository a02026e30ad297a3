ghost use Rattle.std.specs.Prelude.{◌≡◌, ◌-◌, ◌<◌, ◌≤◌, ℕ, ℤ, List, IfOk, length};
ghost use Rattle.lt_isa.specs.Prelude.{Parts, block_words, most_blocks, IsInRange, FitsObject, start_bank};
ghost use Rattle.processor.specs.Prelude.{starting_bank};
ghost use Rattle.rand_chacha.specs.ChaCha.{of_seed};
ghost use Rattle.call_steps.specs.Beginning.{BankBegins, BeginFrom, HasBegun, RecursiveBegins};
ghost use Rattle.call_steps.specs.Seeds.{seed_bytes};

use gr_base::Memory;
use gr_word::Inputs;
use lt_checker::Accepted;
use path_oram::PathOram;
use processor::{Bank, Machine, PlainBank, bank_at_start, load_over};
use rand_chacha::ChaCha20Rng;
use rand_core::SeedableRng;
use recursive_oram::RecursiveOram;
use std::alloc::Global;

/// An oblivious bank whose random words a seed makes.
pub type SeededOram = PathOram<ChaCha20Rng>;

/// One whose positions are kept in smaller ones.
pub type SeededRecursive = RecursiveOram<ChaCha20Rng>;

/// A kind of oblivious bank, which can be made for an object and a seed.
pub trait Seeded: Bank {
    /// Whether this is a bank of an object at the start of a run on some inputs, over the words that a seed makes: the
    /// object, the inputs, the seed, the core's number, and the bank's number.
    ghost begins: { Parts → List (List ℤ) → ℕ → ℕ → ℕ → Self → Type 0 };

    /// An oblivious bank over these blocks, with its random words from this source. If they are those of an object's
    /// bank and of the seed, it is that bank at the start of a run.
    fn over_blocks(alloc: Global, words: ChaCha20Rng, blocks: PlainBank) -> Result<Self, Memory>
        requires { length blocks.contents ≤ most_blocks 2 }
        ensures { (o : Parts) (inputs : List (List ℤ)) (seed core b : ℕ)
            → words ≡ of_seed (seed_bytes seed core b) → blocks ≡ starting_bank o inputs b
            → IfOk result (λ oram. begins o inputs seed core b oram) };

    /// Such a bank holds what the object's has at the start, and has the object's width.
    ghost begins_with: { (o : Parts) (inputs : List (List ℤ)) (seed core b : ℕ) (oram : Self)
        → begins o inputs seed core b oram
        → (Self.contents oram ≡ start_bank o inputs b) × (Self.width oram ≡ block_words o) };
}

impl Seeded for SeededOram {
    ghost begins = { λ o inputs seed core b oram. BankBegins o inputs seed core b oram };

    fn over_blocks(
        alloc: Global,
        words: ChaCha20Rng,
        blocks: PlainBank,
    ) -> Result<SeededOram, Memory> {
        PathOram::over(alloc, words, blocks)
    }

    ghost begins_with = { λ o inputs seed core b oram begun. (begun.contents, begun.width) };
}

impl Seeded for SeededRecursive {
    ghost begins = { λ o inputs seed core b oram. RecursiveBegins o inputs seed core b oram };

    fn over_blocks(
        alloc: Global,
        words: ChaCha20Rng,
        blocks: PlainBank,
    ) -> Result<SeededRecursive, Memory> {
        RecursiveOram::over(alloc, words, blocks)
    }

    ghost begins_with = { λ o inputs seed core b oram begun. (begun.contents, begun.width) };
}

/// A machine for an accepted object at the start of a run on some inputs, its oblivious banks over the random words
/// that a seed makes for a core of a bus. A run without a bus is that of core 0.
pub fn load_seeded<'a, B: Seeded + Drop>(
    alloc: Global,
    accepted: &'a Accepted,
    inputs: &Inputs,
    seed: u64,
    core: u8,
) -> Result<Machine<'a, B>, Memory>
    requires in_range { IsInRange accepted.now }
    requires fits { FitsObject accepted.now inputs.now }
    ensures { IfOk result
        (λ machine. HasBegun (B.begins accepted.now inputs.now seed core) accepted.now inputs.now machine) }
{
    let banks = accepted.object().banks().len() as u8;
    let orams = orams_at_start(alloc, accepted, inputs, banks, seed, core)?;
    load_over(alloc, accepted, inputs, orams)
}

// The object's oblivious banks at the start of a run, if it has this many banks.
fn orams_at_start<B: Seeded + Drop>(
    alloc: Global,
    accepted: &Accepted,
    inputs: &Inputs,
    banks: u8,
    seed: u64,
    core: u8,
) -> Result<Vec<B>, Memory>
    requires in_range { IsInRange accepted.now }
    requires fits { FitsObject accepted.now inputs.now }
    requires least { 2 ≤ banks }
    requires all { banks ≡ length accepted.now.banks }
    ensures count { IfOk result (λ orams. length orams.items ≡ banks - 2) }
    ensures begun { IfOk result
        (λ orams. BeginFrom (B.begins accepted.now inputs.now seed core) 2 orams.items) }
{
    let mut orams = Vec::new(alloc);
    for bank in 2..banks {
        let blocks = bank_at_start(alloc, accepted, inputs, bank)?;
        orams.push(B::over_blocks(alloc, source_for(seed, core, bank), blocks)?)?;
    }
    Ok(orams)
}

// The source of random words of a core's bank.
fn source_for(seed: u64, core: u8, bank: u8) -> ChaCha20Rng
    ensures { result ≡ of_seed (seed_bytes seed core bank) }
{
    ChaCha20Rng::from_seed(seed_for(seed, core, bank))
}

// The bytes that the source of random words of a core's bank is made of.
fn seed_for(seed: u64, core: u8, bank: u8) -> [u8; 32]
    ensures { result ≡ seed_bytes seed core bank }
{
    let mut bytes = [0; 32];
    bytes[..8].copy_from_slice(&seed.to_le_bytes());
    bytes[8] = bank;
    bytes[9] = core;
    bytes
}
