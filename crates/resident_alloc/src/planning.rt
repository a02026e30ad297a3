ghost use Rattle.std.specs.Prelude.{◌≡◌, ◌^◌, ◌<◌, ◌≤◌, ◌==◌, ◌&&◌, IfOk, IfErr, OnOk, OnErr, length, map};
ghost use Rattle.std.specs.List.{range_with_len};
ghost use Rattle.gr_base.specs.Prelude.{Within};
ghost use Rattle.src_tree.specs.Prelude.{IsWithinLimits, source_of, IsTyped};
ghost use Rattle.bank_alloc.specs.Prelude.{first_full};
ghost use Rattle.scratch_alloc.specs.Prelude.{plan_from};
ghost use Rattle.resident_alloc.specs.Ranges.{AreShort, plan_of, scalars_lack};
ghost use Rattle.resident_alloc.specs.ResidentFits.{ResidentsFit, ResidentsRefuse};
ghost use Rattle.resident_alloc.specs.ResidentPlan.{is_own_storage, own_pin, pins_of, resident_banks, resident_blocks, resident_plan};

use crate::owning::{blocks_of_all, in_oblivious_banks, own_secret};
use crate::placing::blocks_in_turn;
use crate::sharing::unshared;
use crate::storages::{Planned, Storage};
use crate::variables::planned_all;
use crate::wants::{Want, count_of, wants_of};
use bank_alloc::allocation::{block_words, first_full};
use bank_alloc::{Class, Place, PlaceError, Places};
use gr_base::Memory;
use gr_word::Label;
use scratch_alloc::{Pin, PinnedPlan, SlotPlan};
use src_tree::Program;
use std::alloc::Global;

/// Where the variables of a program are stored, and how its code uses the slots of the scratchpad.
#[derive(Debug, Drop)]
pub struct ResidentPlan {
    pub places: Places,
    pub slots: PinnedPlan,
}

fn places_of(alloc: Global, planned: &[Planned]) -> Result<Vec<Place>, Memory>
    ensures { IfOk result (λ places. places.items ≡ map (λ v. v.place) planned.now) }
{
    let mut places = Vec::with_capacity(alloc, planned.len())?;
    for v in planned {
        places.push(v.place)?;
    }
    Ok(places)
}

fn slots_of(alloc: Global, planned: &[Planned]) -> Result<Vec<u8>, Memory>
    ensures { IfOk result (λ slots. slots.items ≡ map (λ v. v.slot) planned.now) }
{
    let mut slots = Vec::with_capacity(alloc, planned.len())?;
    for v in planned {
        slots.push(v.slot)?;
    }
    Ok(slots)
}

fn is_own_storage(storage: Storage) -> bool
    ensures { result ≡ is_own_storage storage }
{
    match storage {
        Storage::Own => true,
        _ => false,
    }
}

// Whether a variable has a slot of its own, and which.
fn has_own(slot: u8, v: Planned) -> bool
    ensures { result ≡ (is_own_storage v.storage && (v.slot == slot)) }
{
    is_own_storage(v.storage) && v.slot == slot
}

// The block of the array that has a slot of its own.
fn own_pin(planned: &[Planned], slot: u8) -> Option<Pin>
    ensures { result ≡ own_pin planned.now slot }
{
    for v in planned {
        if has_own(slot, *v) {
            return Some(Pin {
                bank: v.place.bank,
                block: v.place.block,
            });
        }
    }
    None
}

// The block that each slot holds for the whole run.
fn pins_of(planned: &[Planned]) -> [Option<Pin>; 8]
    ensures { result ≡ pins_of planned.now }
{
    [
        Some(Pin { bank: 0, block: 0 }),
        Some(Pin { bank: 1, block: 0 }),
        own_pin(planned, 2),
        own_pin(planned, 3),
        own_pin(planned, 4),
        own_pin(planned, 5),
        None,
        own_pin(planned, 7),
    ]
}

// The blocks of a bank. The only error is running out of memory.
fn resident_blocks(alloc: Global, size: u32, all: &[Want], bank: u8) -> Result<u32, Memory>
    requires size { Within 8 512 size }
    requires short { AreShort all.now }
    ensures { IfOk result (λ blocks. blocks ≡ resident_blocks size all.now bank) }
{
    if bank == 0 {
        let arrays = unshared(alloc, size, all, Class::PublicArray, all)?;
        return Ok(1 + blocks_of_all(size, arrays.as_slice()));
    }
    if bank == 1 {
        let own = own_secret(alloc, size, all)?;
        let arrays = unshared(alloc, size, all, Class::EncryptedArray, all)?;
        return Ok(1 + (own + blocks_of_all(size, arrays.as_slice())));
    }
    let arrays = in_oblivious_banks(alloc, size, all, all)?;
    Ok(blocks_in_turn(size, (bank - 2) as usize, arrays.as_slice()))
}

// The number of banks. The only error is running out of memory.
fn resident_banks(alloc: Global, size: u32, all: &[Want]) -> Result<u8, Memory>
    requires size { Within 8 512 size }
    requires short { AreShort all.now }
    ensures { IfOk result (λ banks. banks ≡ resident_banks size all.now) }
{
    let arrays = in_oblivious_banks(alloc, size, all, all)?;
    Ok(2 + arrays.len().min(8) as u8)
}

// The blocks of each bank. The only error is running out of memory.
fn blocks_of_banks(alloc: Global, size: u32, all: &[Want]) -> Result<Vec<u32>, Memory>
    requires size { Within 8 512 size }
    requires short { AreShort all.now }
    ensures { IfOk result (λ blocks.
        blocks.items ≡ map (resident_blocks size all.now) (range_with_len 0 (resident_banks size all.now))) }
{
    let mut blocks = Vec::new(alloc);
    for bank in 0..resident_banks(alloc, size, all)? {
        let needed = resident_blocks(alloc, size, all, bank)?;
        blocks.push(needed)?;
    }
    Ok(blocks)
}

// The plan for some variables. The only error is running out of memory.
fn plan_of(alloc: Global, size: u32, all: &[Want]) -> Result<ResidentPlan, Memory>
    requires size { Within 8 512 size }
    requires short { AreShort all.now }
    ensures { IfOk result (λ r. plan_from r.places r.slots ≡ plan_of size all.now) }
{
    let planned = planned_all(alloc, size, all)?;
    let planned = planned.as_slice();
    let of_var = places_of(alloc, planned)?;
    let blocks = blocks_of_banks(alloc, size, all)?;
    let places = Places { of_var, blocks };
    let of_var = slots_of(alloc, planned)?;
    let plan = SlotPlan { of_var };
    let pins = pins_of(planned);
    let slots = PinnedPlan { plan, pins };
    Ok(ResidentPlan { places, slots })
}

// What lacks room among the scalars.
fn scalars_lack(size: u32, all: &[Want]) -> Option<PlaceError>
    ensures { result ≡ scalars_lack size all.now }
{
    if (size as usize) < count_of(Class::PublicScalar, all) {
        return Some(PlaceError::TooManyScalars(Label::Public));
    }
    if (size as usize) < count_of(Class::SecretScalar, all) {
        return Some(PlaceError::TooManyScalars(Label::Secret));
    }
    None
}

/// Plans the memory of a program for `--fast`, where a block has 2^w words and the program is well typed and within the
/// limits that don't depend on a machine.
///
/// `TooManyScalars` is returned if the public scalars, or otherwise the secret ones, are more than a block has words;
/// otherwise `BankFull` for the lowest bank that needs more blocks than it may have. `Memory` says nothing of the
/// program.
pub fn resident_plan(alloc: Global, p: &Program, w: u8) -> Result<ResidentPlan, PlaceError>
    requires typed { IsTyped (source_of p.now) }
    requires within { IsWithinLimits (source_of p.now) }
    requires block_log { Within 3 9 w }
    ensures plan { IfOk result (λ r. plan_from r.places r.slots ≡ resident_plan (source_of p.now) w) }
    ensures fits { OnOk result (ResidentsFit (source_of p.now) w) }
    ensures refused { IfErr result (λ e. ResidentsRefuse (source_of p.now) w e) }
{
    let wants = wants_of(alloc, p)?;
    let size = block_words(w);
    match scalars_lack(size, wants.as_slice()) {
        Some(lack) => Err(lack),
        None => {
            let plan = plan_of(alloc, size, wants.as_slice())?;
            match first_full(plan.places.blocks.as_slice()) {
                Some(lack) => Err(lack),
                None => Ok(plan),
            }
        }
    }
}
