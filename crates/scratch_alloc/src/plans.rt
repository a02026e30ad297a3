ghost use Rattle.std.specs.Prelude.{◌≡◌, ◌%◌, ◌+◌, ◌<◌, IfOk, [], length};
ghost use Rattle.lt_isa.specs.Prelude.{is_ram};
ghost use Rattle.bank_alloc.specs.Prelude.{arrays_in};
ghost use Rattle.scratch_alloc.specs.Plans.{scalar_pins};
ghost use Rattle.scratch_alloc.specs.Slots.{array_slot, alternate_slot, scalar_slot, slot_behind, slots_of};

use bank_alloc::placing::{is_array, is_array_in, is_oblivious};
use bank_alloc::{Place, Places};
use gr_base::Memory;
use lt_isa::{BankKind, bank_kind};
use std::alloc::Global;

/// A block of plain or encrypted memory, which a slot of the scratchpad holds for a whole run.
#[derive(Clone, Copy, Debug, PartialEq, Eq)]
pub struct Pin {
    pub bank: u8,
    pub block: u32,
}

/// The slots by which compiled code reaches the variables of a program.
#[derive(Debug, Drop)]
pub struct SlotPlan {
    /// The slot that serves each variable, in order of declaration.
    pub of_var: Vec<u8>,
}

/// A plan of slots, and which of them hold one block for the whole run.
#[derive(Debug, Drop)]
pub struct PinnedPlan {
    pub plan: SlotPlan,
    /// The block that each slot holds for the whole run, from slot 0 on. Any other slot holds several blocks in turn.
    pub pins: [Option<Pin>; 8],
}

// Whether a bank is plain memory.
fn is_plain(bank: u8) -> bool
    ensures { result ≡ is_ram bank }
{
    match bank_kind(bank) {
        BankKind::Plain => true,
        BankKind::Encrypted => false,
        BankKind::Oblivious => false,
    }
}

fn arrays_in(bank: u8, places: &[Place]) -> usize
    ensures { result ≡ arrays_in bank places.now }
{
    places
        .iter()
        .filter(|place| is_array_in(bank, **place))
        .count()
}

// The slot of an array of plain or encrypted memory, which have two slots each in turn: `slot` or the next, by how many
// arrays of its bank are declared before it.
fn in_turn(slot: u8, arrays: usize) -> u8
    requires { slot < 8 }
    ensures { result ≡ alternate_slot slot arrays }
{
    slot + (arrays % 2) as u8
}

fn scalar_slot(place: Place) -> u8
    ensures { result ≡ scalar_slot place }
{
    if is_plain(place.bank) { 0 } else { 1 }
}

fn array_slot(before: &[Place], place: Place) -> u8
    ensures { result ≡ array_slot before.now place }
{
    if is_oblivious(place) {
        return 6;
    }
    if is_plain(place.bank) {
        in_turn(2, arrays_in(0, before))
    } else {
        in_turn(4, arrays_in(1, before))
    }
}

// The slot of a variable whose place is after those of others.
fn slot_behind(before: &[Place], place: Place) -> u8
    ensures { result ≡ slot_behind before.now place }
{
    if is_array(place) {
        array_slot(before, place)
    } else {
        scalar_slot(place)
    }
}

/// Gives each variable its slot, where `places` was answered by [`bank_alloc::banks`]: slot 0 for the public scalars
/// and slot 1 for the secret ones, slots 2 and 3 in turn for arrays of plain memory, 4 and 5 in turn for those of
/// encrypted memory, and slot 6 for oblivious arrays. The only error is running out of memory.
pub fn slots(alloc: Global, places: &Places) -> Result<SlotPlan, Memory>
    ensures slots { IfOk result (λ plan. plan.of_var.items ≡ slots_of places.now.of_var.items) }
{
    let places = places.of_var.as_slice();
    let mut of_var = Vec::with_capacity(alloc, places.len())?;
    for (i, place) in places.iter().enumerate() {
        of_var.push(slot_behind(&places[..i], *place))?;
    }
    Ok(SlotPlan { of_var })
}

/// The block that each slot holds for the whole run without `--fast`: slots 0 and 1 hold those of the scalars.
pub fn scalar_pins() -> [Option<Pin>; 8]
    ensures { result ≡ scalar_pins }
{
    let plain = Pin { bank: 0, block: 0 };
    let encrypted = Pin { bank: 1, block: 0 };
    [
        Some(plain),
        Some(encrypted),
        None,
        None,
        None,
        None,
        None,
        None,
    ]
}
