ghost use Rattle.std.specs.Prelude.{◌≡◌, ◌<◌, ◌≤◌, ◌+◌, ◌^◌, ◌&&◌, ◌==◌, All, IfOk, OnOk, is_some, not, None, length, slice_index_or};
ghost use Rattle.std.specs.List.{list_any};
ghost use Rattle.gr_base.specs.Prelude.{Within};
ghost use Rattle.bank_alloc.specs.Prelude.{blocks_for};
ghost use Rattle.scratch_alloc.specs.Prelude.{place_at, plan_from};
ghost use Rattle.spread_alloc.specs.Spread.{free_slots, has_room, is_free, is_long, last_bank, may_move, pinned_from, place_behind, serves_other, spread_one, spread_over, spread_plan, spread_turn};
ghost use Rattle.spread_alloc.specs.SpreadFits.{PlanFits};

use bank_alloc::allocation::block_words;
use bank_alloc::placing::{blocks_for, is_oblivious};
use bank_alloc::{Place, Places};
use gr_base::Memory;
use scratch_alloc::{Pin, PinnedPlan};
use std::alloc::Global;

const SPREAD_SLOTS: [u8; 5] = [2, 3, 4, 5, 7];

// Whether a slot is among some.
fn is_among(slots: &[u8], slot: u8) -> bool
    ensures { result ≡ list_any (λ s. s == slot) slots.now }
{
    slots.iter().any(|s| *s == slot)
}

// Whether a slot serves a variable other than this one.
fn serves_other(slots: &[u8], variable: usize, slot: u8) -> bool
    requires { variable < length slots.now }
    ensures { result ≡ serves_other slots.now variable slot }
{
    is_among(&slots[..variable], slot) || is_among(&slots[variable + 1..], slot)
}

// Whether a slot holds one block for the whole run.
fn is_pinned(pins: &[Option<Pin>], slot: u8) -> bool
    ensures { result ≡ is_some (slice_index_or pins.now slot None) }
{
    match pins.get(usize::from(slot)) {
        Some(pin) => pin.is_some(),
        None => false,
    }
}

// Whether a slot may hold a block of a variable.
fn is_free(slots: &PinnedPlan, variable: usize, slot: u8) -> bool
    requires { variable < length slots.now.plan.of_var.items }
    ensures { result ≡ is_free slots.now.pins slots.now.plan.of_var.items variable slot }
{
    !is_pinned(&slots.pins, slot) && !serves_other(slots.plan.of_var.as_slice(), variable, slot)
}

// The slots that may hold blocks of a variable. The only error is running out of memory.
fn free_slots(alloc: Global, slots: &PinnedPlan, variable: usize) -> Result<Vec<u8>, Memory>
    requires { variable < length slots.now.plan.of_var.items }
    ensures { IfOk result (λ free. free.items ≡ free_slots slots.now.pins slots.now.plan.of_var.items variable) }
{
    let mut free = Vec::new(alloc);
    for slot in SPREAD_SLOTS {
        if is_free(slots, variable, slot) {
            free.push(slot)?;
        }
    }
    Ok(free)
}

// The blocks of encrypted memory.
fn encrypted_blocks(blocks: &[u32]) -> u32
    ensures { result ≡ slice_index_or blocks.now 1 0 }
{
    match blocks.get(1) {
        Some(blocks) => *blocks,
        None => 0,
    }
}

// Whether a place is one of the turn: in an oblivious bank, or in encrypted memory.
fn may_move(oblivious: bool, place: Place) -> bool
    ensures { result ≡ may_move oblivious place }
{
    if oblivious {
        is_oblivious(place)
    } else {
        place.bank == 1
    }
}

// Whether a place has two to five blocks.
fn is_long(size: u32, place: Place) -> bool
    requires { Within 8 512 size }
    ensures { result ≡ is_long size place }
{
    size < place.length && place.length <= 5 * size
}

// Whether there are slots for this many blocks, and room in encrypted memory.
fn has_room(blocks: u32, free: usize, encrypted: u32) -> bool
    ensures { result ≡ has_room blocks free encrypted }
{
    blocks as usize <= free && u64::from(encrypted) + u64::from(blocks) <= 65536
}

// Pins consecutive blocks of encrypted memory to some slots, in order.
fn pin_from(pins: &mut [Option<Pin>; 8], slots: &[u8], block: u32)
    requires slots { All (λ s. s < 8) slots.now }
    requires few { block + length slots.now < 2 ^ 32 }
    ensures { pins.new ≡ pinned_from pins.old slots.now 1 block }
{
    for i in 0..slots.len() {
        pins[usize::from(slots[i])] = Some(Pin {
            bank: 1,
            block: block + i as u32,
        });
    }
}

// The place after this many blocks of encrypted memory.
fn place_behind(blocks: u32, place: Place) -> Place
    ensures { result ≡ place_behind blocks place }
{
    Place {
        bank: 1,
        block: blocks,
        word: 0,
        length: place.length,
    }
}

// Spreads a variable over slots, one for each of its blocks. An array of an oblivious bank moves to the end of encrypted
// memory.
fn spread_over(
    size: u32,
    oblivious: bool,
    places: &mut Places,
    slots: &mut PinnedPlan,
    variable: usize,
    over: &[u8],
)
    requires size { Within 8 512 size }
    requires fits { PlanFits (plan_from places.old slots.old) }
    requires variable { variable < length places.old.of_var.items }
    requires slots { All (λ s. s < 8) over.now }
    requires some { 1 ≤ length over.now }
    requires each { length over.now ≡ blocks_for size (place_at (plan_from places.old slots.old) variable).length }
    requires room { slice_index_or places.old.blocks.items 1 0 + length over.now ≤ 65536 }
    ensures { plan_from places.new slots.new
        ≡ spread_over size oblivious (plan_from places.old slots.old) variable over.now }
{
    let mut place = places.of_var[variable];
    if oblivious {
        let encrypted = places.blocks[1];
        place = place_behind(encrypted, place);
        places.blocks[1] = encrypted + over.len() as u32;
    }
    places.of_var[variable] = place;
    slots.plan.of_var[variable] = over[0];
    pin_from(&mut slots.pins, over, place.block);
}

// Whether a variable is spread if it has room: it is long, and no slot holds its block for the whole run.
fn is_candidate(size: u32, oblivious: bool, place: Place, pinned: bool) -> bool
    requires { Within 8 512 size }
    ensures { result ≡ (may_move oblivious place && (is_long size place && not pinned)) }
{
    may_move(oblivious, place) && is_long(size, place) && !pinned
}

// Spreads a variable if it may be, and has room. The only error is running out of memory.
fn spread_one(
    alloc: Global,
    size: u32,
    oblivious: bool,
    places: &mut Places,
    slots: &mut PinnedPlan,
    variable: usize,
) -> Result<(), Memory>
    requires size { Within 8 512 size }
    requires fits { PlanFits (plan_from places.old slots.old) }
    requires variable { variable < length places.old.of_var.items }
    ensures { OnOk result (plan_from places.new slots.new
        ≡ spread_one size oblivious (plan_from places.old slots.old) variable) }
{
    let place = places.of_var[variable];
    let pinned = is_pinned(&slots.pins, slots.plan.of_var[variable]);
    if !is_candidate(size, oblivious, place, pinned) {
        return Ok(());
    }
    let blocks = blocks_for(size, place.length);
    let free = free_slots(alloc, slots, variable)?;
    let encrypted = encrypted_blocks(places.blocks.as_slice());
    if has_room(blocks, free.len(), encrypted) {
        let over = &free.as_slice()[..blocks as usize];
        spread_over(size, oblivious, places, slots, variable, over);
    }
    Ok(())
}

// Spreads each array of the oblivious banks, or of encrypted memory, that may be spread and has room, in order of
// declaration. The only error is running out of memory.
fn spread_turn(
    alloc: Global,
    size: u32,
    oblivious: bool,
    places: &mut Places,
    slots: &mut PinnedPlan,
) -> Result<(), Memory>
    requires size { Within 8 512 size }
    requires fits { PlanFits (plan_from places.old slots.old) }
    ensures { OnOk result (plan_from places.new slots.new ≡ spread_turn size oblivious (plan_from places.old slots.old)) }
{
    for variable in 0..places.of_var.len() {
        spread_one(alloc, size, oblivious, places, slots, variable)?;
    }
    Ok(())
}

// The last bank that has a variable, or encrypted memory.
fn last_bank(places: &[Place]) -> u8
    ensures { result ≡ last_bank places.now }
{
    let mut last = 1;
    for place in places {
        last = last.max(place.bank);
    }
    last
}

/// Keeps secret arrays of two to five blocks in the scratchpad for the whole run, where a block has 2^w words: those
/// that no slot holds yet, as long as there are free slots. Arrays of oblivious banks come first, and move to the end
/// of encrypted memory. Oblivious banks after the last one that is still in use are dropped. The only error is running
/// out of memory.
pub fn spread(
    alloc: Global,
    w: u8,
    places: &mut Places,
    slots: &mut PinnedPlan,
) -> Result<(), Memory>
    requires block_log { Within 3 9 w }
    requires fits { PlanFits (plan_from places.old slots.old) }
    ensures plan { OnOk result (plan_from places.new slots.new ≡ spread_plan w (plan_from places.old slots.old)) }
{
    let size = block_words(w);
    spread_turn(alloc, size, true, places, slots)?;
    spread_turn(alloc, size, false, places, slots)?;
    let last = last_bank(places.of_var.as_slice());
    places.blocks.truncate(usize::from(last) + 1);
    Ok(())
}
