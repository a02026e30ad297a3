ghost use Rattle.std.specs.Prelude.{◌≡◌, ◌==◌, None, slice_index_or};
ghost use Rattle.std.specs.List.{list_any};
ghost use Rattle.block_cache_gen.specs.Notes.{claim_by};
ghost use Rattle.block_cache_gen.specs.ServedBlocks.{pin_in, pin_or};
ghost use Rattle.block_cache_gen.specs.Settings.{is_pin_to, is_pinned};
ghost use Rattle.block_cache_gen.specs.Variables.{claim_in, claims_in};

use scratch_alloc::Pin;

/// The block that a slot is pinned to, `None` if it isn't pinned.
pub(crate) fn pin_at(pins: &[Option<Pin>], slot: usize) -> Option<Pin>
    ensures { result ≡ slice_index_or pins.now slot None }
{
    match pins.get(slot) {
        Some(pin) => *pin,
        None => None,
    }
}

/// Whether a slot holds one block for the whole run.
pub(crate) fn is_pinned(pins: &[Option<Pin>], slot: u8) -> bool
    ensures { result ≡ is_pinned pins.now slot }
{
    pin_at(pins, usize::from(slot)).is_some()
}

/// Whether a slot is pinned to a block.
pub(crate) fn is_pin_to(pin: Option<Pin>, bank: u8, block: u64) -> bool
    ensures { result ≡ is_pin_to pin bank block }
{
    match pin {
        None => false,
        Some(pin) => pin.bank == bank && u64::from(pin.block) == block,
    }
}

/// A block of a bank, if there is one.
pub(crate) fn pin_in(bank: u8, block: Option<u32>) -> Option<Pin>
    ensures { result ≡ pin_in bank block }
{
    match block {
        Some(block) => Some(Pin { bank, block }),
        None => None,
    }
}

/// The block that a slot is pinned to, or another if it isn't pinned.
pub(crate) fn pin_or(pin: Option<Pin>, other: Option<Pin>) -> Option<Pin>
    ensures { result ≡ pin_or pin other }
{
    match pin {
        Some(pin) => Some(pin),
        None => other,
    }
}

// Whether a slot is among some.
fn is_used(slots: &[u8], slot: u8) -> bool
    ensures { result ≡ list_any (λ s. s == slot) slots.now }
{
    slots.iter().any(|used| *used == slot)
}

// The claim for a slot that serves one bank: the bank where a variable uses the slot, and none else.
fn claim_in(slots: &[u8], slot: u8, bank: u8) -> u8
    ensures { result ≡ claim_in slots.now slot bank }
{
    if is_used(slots, slot) { bank } else { 255 }
}

// The claim for a slot: the bank of its pinned block, or another claim if it isn't pinned.
fn claim_by(pin: Option<Pin>, other: u8) -> u8
    ensures { result ≡ claim_by pin other }
{
    match pin {
        Some(pin) => pin.bank,
        None => other,
    }
}

/// What each note claims about the slots, by the pins and by the slots of the variables.
pub(crate) fn claims_in(pins: &[Option<Pin>], slots: &[u8]) -> [u8; 8]
    ensures { result ≡ claims_in pins.now slots.now }
{
    [
        claim_by(pin_at(pins, 0), 255),
        claim_by(pin_at(pins, 1), 255),
        claim_by(pin_at(pins, 2), claim_in(slots, 2, 0)),
        claim_by(pin_at(pins, 3), claim_in(slots, 3, 0)),
        claim_by(pin_at(pins, 4), claim_in(slots, 4, 1)),
        claim_by(pin_at(pins, 5), claim_in(slots, 5, 1)),
        255,
        claim_by(pin_at(pins, 7), 255),
    ]
}
