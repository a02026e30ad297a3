ghost use Rattle.std.specs.Prelude.{◌≡◌, ◌*◌, ◌+◌, ◌%◌, ◌≤◌, ◌==◌, IfOk, if◌then◌else◌};
ghost use Rattle.gr_base.specs.Prelude.{Within};
ghost use Rattle.src_tree.specs.Prelude.{max_length};
ghost use Rattle.bank_alloc.specs.Prelude.{blocks_for};
ghost use Rattle.bank_alloc.specs.declared.classes.Class.TheVariants.{EncryptedArray, ObliviousArray, PublicArray};
ghost use Rattle.resident_alloc.specs.declared.storages.Storage.TheVariants.{Cached, Oblivious, Own};
ghost use Rattle.resident_alloc.specs.Ranges.{AreShort, IsPlannable};
ghost use Rattle.resident_alloc.specs.Residents.{room_beside};
ghost use Rattle.resident_alloc.specs.ResidentPlan.{block_place, blocks_in_turn, oblivious_place, place_by, scalar_place, shared_place};

use crate::owning::{blocks_of_all, in_oblivious_banks, own_secret, short_among};
use crate::sharing::{room_after, room_beside, room_for, unshared};
use crate::storages::Storage;
use crate::wants::{Context, Want, count_of};
use bank_alloc::placing::blocks_for;
use bank_alloc::{Class, Place};
use gr_base::Memory;
use std::alloc::Global;

// The blocks of an array, if its number has this rest by 8.
fn blocks_at_turn(size: u32, turn: usize, number: usize, v: Want) -> u32
    requires size { Within 8 512 size }
    requires length { v.words ≤ max_length }
    ensures blocks { result ≡ (if number % 8 == turn then blocks_for size v.words else 0) }
    ensures few { result ≤ max_length + 511 }
{
    if number % 8 == turn {
        blocks_for(size, v.words)
    } else {
        0
    }
}

/// The blocks of those among some arrays whose number has this rest by 8.
pub(crate) fn blocks_in_turn(size: u32, turn: usize, vs: &[Want]) -> u32
    requires size { Within 8 512 size }
    requires short { AreShort vs.now }
    ensures { result ≡ blocks_in_turn size turn 0 vs.now }
{
    let mut blocks = 0;
    for (number, v) in vs.iter().enumerate() {
        blocks += blocks_at_turn(size, turn, number, *v);
    }
    blocks
}

// The place of a scalar of a bank.
fn scalar_place(context: Context, bank: u8, v: Want) -> Place
    requires { IsPlannable context }
    ensures { result ≡ scalar_place context.entry.size context.entry.all.now context.entry.before.now bank v }
{
    let Context { size, all, before } = context;
    let first = room_beside(size, all, v.class) as u16;
    Place {
        bank,
        block: 0,
        word: first + count_of(v.class, before) as u16,
        length: v.words,
    }
}

// The place of an array that shares the block of the scalars of a bank, which leave a room.
fn shared_place(context: Context, bank: u8, scalar: Class, v: Want) -> Place
    requires { IsPlannable context }
    ensures { result ≡ shared_place context.entry.size context.entry.all.now context.entry.before.now bank
        (room_beside context.entry.size context.entry.all.now scalar) v }
{
    let Context { size, all, before } = context;
    let left = room_after(v.class, room_for(size, all, v.class), before);
    let word = room_beside(size, all, scalar).saturating_sub(left);
    Place {
        bank,
        block: 0,
        word: word as u16,
        length: v.words,
    }
}

// The place of an array on whole blocks.
fn block_place(bank: u8, block: u32, v: Want) -> Place
    ensures { result ≡ block_place bank block v }
{
    Place {
        bank,
        block,
        word: 0,
        length: v.words,
    }
}

// The place in an oblivious bank, where others are in these banks already.
fn oblivious_place(size: u32, before: &[Want], v: Want) -> Place
    requires size { Within 8 512 size }
    requires short { AreShort before.now }
    ensures { result ≡ oblivious_place size before.now v }
{
    let turn = before.len() % 8;
    block_place(2 + turn as u8, blocks_in_turn(size, turn, before), v)
}

// The place of a public array that isn't shared. The only error is running out of memory.
fn plain_place(alloc: Global, context: Context, v: Want) -> Result<Place, Memory>
    requires { IsPlannable context }
    ensures { IfOk result (λ place.
        place ≡ place_by context.entry.size context.entry.all.now context.entry.before.now v PublicArray Cached) }
{
    let Context { size, all, before } = context;
    let earlier = unshared(alloc, size, all, Class::PublicArray, before)?;
    let block = 1 + blocks_of_all(size, earlier.as_slice());
    Ok(block_place(0, block, v))
}

// The place of a secret array without a secret index that isn't shared. The only error is running out of memory.
fn encrypted_place(alloc: Global, context: Context, v: Want) -> Result<Place, Memory>
    requires { IsPlannable context }
    ensures { IfOk result (λ place.
        place ≡ place_by context.entry.size context.entry.all.now context.entry.before.now v EncryptedArray Cached) }
{
    let Context { size, all, before } = context;
    let own = own_secret(alloc, size, all)?;
    let earlier = unshared(alloc, size, all, Class::EncryptedArray, before)?;
    let block = 1 + (own + blocks_of_all(size, earlier.as_slice()));
    Ok(block_place(1, block, v))
}

// The place of a secret array with a secret index and a slot of its own. The only error is running out of memory.
fn own_place(alloc: Global, context: Context, v: Want) -> Result<Place, Memory>
    requires { IsPlannable context }
    ensures { IfOk result (λ place.
        place ≡ place_by context.entry.size context.entry.all.now context.entry.before.now v ObliviousArray Own) }
{
    let Context { size, all, before } = context;
    let earlier = unshared(alloc, size, all, Class::ObliviousArray, before)?;
    let block = 1 + short_among(size, earlier.as_slice());
    Ok(block_place(1, block as u32, v))
}

// The place of any other secret array with a secret index. The only error is running out of memory.
fn place_in_oblivious(alloc: Global, context: Context, v: Want) -> Result<Place, Memory>
    requires { IsPlannable context }
    ensures { IfOk result (λ place.
        place ≡ place_by context.entry.size context.entry.all.now context.entry.before.now v ObliviousArray Oblivious) }
{
    let Context { size, all, before } = context;
    let earlier = in_oblivious_banks(alloc, size, all, before)?;
    Ok(oblivious_place(size, earlier.as_slice(), v))
}

/// Where a variable is stored, by its class and its storage. The only error is running out of memory.
pub(crate) fn place_by(
    alloc: Global,
    context: Context,
    v: Want,
    storage: Storage,
) -> Result<Place, Memory>
    requires { IsPlannable context }
    ensures { IfOk result (λ place.
        place ≡ place_by context.entry.size context.entry.all.now context.entry.before.now v v.class storage) }
{
    match v.class {
        Class::PublicScalar => Ok(scalar_place(context, 0, v)),
        Class::SecretScalar => Ok(scalar_place(context, 1, v)),
        Class::PublicArray => match storage {
            Storage::Shared => Ok(shared_place(context, 0, Class::PublicScalar, v)),
            _ => plain_place(alloc, context, v),
        },
        Class::EncryptedArray => match storage {
            Storage::Shared => Ok(shared_place(context, 1, Class::SecretScalar, v)),
            _ => encrypted_place(alloc, context, v),
        },
        Class::ObliviousArray => match storage {
            Storage::Shared => Ok(shared_place(context, 1, Class::SecretScalar, v)),
            Storage::Own => own_place(alloc, context, v),
            _ => place_in_oblivious(alloc, context, v),
        },
    }
}
