ghost use Rattle.std.specs.Prelude.{◌≡◌, ◌++◌, ◌∷◌, ◌==◌, ◌<◌, [], IfOk, OnOk, if◌then◌else◌};
ghost use Rattle.std.specs.Int.{bit_at};
ghost use Rattle.strength_reduction.specs.Reduced.{power_of, set_bits};

use gr_base::Memory;
use std::alloc::Global;

/// The positions of the bits of a word that are 1, from the lowest up.
pub(crate) fn set_bits(alloc: Global, word: i64) -> Result<Vec<u8>, Memory>
    ensures { IfOk result (λ bits. bits.items ≡ set_bits word) }
{
    let number = word.cast_unsigned();
    let mut bits = Vec::new(alloc);
    for k in 0..64u8 {
        put_bit(&mut bits, number, k)?;
    }
    Ok(bits)
}

/// Adds a position if that bit is 1.
#[tactic(auto, using(crate::proofs::SetBits::put_set, crate::proofs::SetBits::put_clear))]
fn put_bit(bits: &mut Vec<u8>, number: u64, k: u8) -> Result<(), Memory>
    requires { k < 64 }
    ensures { OnOk result (bits.new.items ≡ bits.old.items ++ (if bit_at number k == 1 then k ∷ [] else [])) }
{
    if (number >> k) & 1 == 1 {
        match bits.push(k) {
            Ok(()) => Ok(()),
            Err(_) => Err(Memory),
        }
    } else {
        Ok(())
    }
}

/// The only bit, unless it is the sign.
pub(crate) fn power_of(bits: &[u8]) -> Option<u8>
    ensures { result ≡ power_of bits.now }
{
    match bits {
        [k] => { if *k <= 62 { Some(*k) } else { None } }
        _ => None,
    }
}
