ghost use Rattle.std.specs.Prelude.{◌≡◌, ◌*◌, ◌+◌, ◌-◌, ◌≤◌, min, nat_le, IfOk, if◌then◌else◌, length};
ghost use Rattle.lt_isa.specs.Prelude.{most_blocks};
ghost use Rattle.gr_base.specs.Prelude.{Within};
ghost use Rattle.src_tree.specs.Prelude.{max_length};
ghost use Rattle.resident_alloc.specs.Ranges.{AreShort, IsPlannable, is_skipped};
ghost use Rattle.resident_alloc.specs.Residents.{array_storage, blocks_of_all, is_own, is_short, otherwise_stored, own_most, short_among, storage_of};
ghost use Rattle.resident_alloc.specs.ResidentPlan.{in_oblivious_banks, own_secret, without_short};

use crate::sharing::{is_shared, unshared};
use crate::storages::Storage;
use crate::wants::{Context, Want};
use bank_alloc::Class;
use bank_alloc::placing::blocks_for;
use gr_base::Memory;
use lt_isa::limits::most_blocks;
use std::alloc::Global;

// Whether an array fits into a block.
fn is_short(size: u32, v: Want) -> bool
    ensures { result ≡ is_short size v }
{
    v.words <= size
}

/// How many of some arrays fit into a block.
pub(crate) fn short_among(size: u32, vs: &[Want]) -> usize
    ensures count { result ≡ short_among size vs.now }
    ensures few { result ≤ length vs.now }
{
    vs.iter().filter(|v| is_short(size, **v)).count()
}

/// The blocks that some arrays take.
pub(crate) fn blocks_of_all(size: u32, vs: &[Want]) -> u32
    requires size { Within 8 512 size }
    requires short { AreShort vs.now }
    ensures blocks { result ≡ blocks_of_all size vs.now }
    ensures few { result ≤ 256 * (max_length + 511) }
{
    let mut blocks = 0;
    for v in vs {
        blocks += blocks_for(size, v.words);
    }
    blocks
}

// How many secret arrays with a secret index may have a slot of their own, where the other secret arrays that aren't
// shared are given.
fn own_most_secret(size: u32, encrypted: &[Want]) -> usize
    requires size { Within 8 512 size }
    requires short { AreShort encrypted.now }
    ensures { result ≡ min (3 - min 2 (length encrypted.now)) (most_blocks 1 - (1 + blocks_of_all size encrypted.now)) }
{
    let slots = 3 - encrypted.len().min(2);
    let blocks = most_blocks(1).saturating_sub(1 + blocks_of_all(size, encrypted));
    slots.min(blocks as usize)
}

// How many arrays of a kind may have a slot of their own, where all of these are given: each, if they are two at most.
fn own_most_in_turn(arrays: &[Want]) -> usize
    ensures { result ≡ (if nat_le (length arrays.now) 2 then 2 else 0) }
{
    if arrays.len() <= 2 { 2 } else { 0 }
}

/// How many short arrays of a class may have a slot of their own. The only error is running out of memory.
pub(crate) fn own_most(
    alloc: Global,
    size: u32,
    all: &[Want],
    class: Class,
) -> Result<usize, Memory>
    requires size { Within 8 512 size }
    requires short { AreShort all.now }
    ensures most { IfOk result (λ most. most ≡ own_most size all.now class) }
    ensures few { IfOk result (λ most. most ≤ 3) }
{
    match class {
        Class::PublicScalar => Ok(0),
        Class::SecretScalar => Ok(0),
        Class::PublicArray => {
            let arrays = unshared(alloc, size, all, Class::PublicArray, all)?;
            Ok(own_most_in_turn(arrays.as_slice()))
        }
        Class::EncryptedArray => {
            let arrays = unshared(alloc, size, all, Class::EncryptedArray, all)?;
            Ok(own_most_in_turn(arrays.as_slice()))
        }
        Class::ObliviousArray => {
            let encrypted = unshared(alloc, size, all, Class::EncryptedArray, all)?;
            Ok(own_most_secret(size, encrypted.as_slice()))
        }
    }
}

// Whether an array that isn't shared has a slot of its own. The only error is running out of memory.
fn is_own(alloc: Global, context: Context, v: Want) -> Result<bool, Memory>
    requires { IsPlannable context }
    ensures { IfOk result (λ own. own ≡ is_own context.entry.size context.entry.all.now context.entry.before.now v) }
{
    let Context { size, all, before } = context;
    let earlier = unshared(alloc, size, all, v.class, before)?;
    let most = own_most(alloc, size, all, v.class)?;
    Ok(is_short(size, v) && short_among(size, earlier.as_slice()) < most)
}

fn otherwise_stored(class: Class) -> Storage
    ensures { result ≡ otherwise_stored class }
{
    match class {
        Class::ObliviousArray => Storage::Oblivious,
        _ => Storage::Cached,
    }
}

// How an array is stored. The only error is running out of memory.
fn array_storage(alloc: Global, context: Context, v: Want) -> Result<Storage, Memory>
    requires { IsPlannable context }
    ensures { IfOk result (λ storage.
        storage ≡ array_storage context.entry.size context.entry.all.now context.entry.before.now v) }
{
    if is_shared(context.size, context.all, context.before, v) {
        return Ok(Storage::Shared);
    }
    if is_own(alloc, context, v)? {
        Ok(Storage::Own)
    } else {
        Ok(otherwise_stored(v.class))
    }
}

/// How a variable is stored, where others are declared before it. The only error is running out of memory.
pub(crate) fn storage_of(alloc: Global, context: Context, v: Want) -> Result<Storage, Memory>
    requires { IsPlannable context }
    ensures { IfOk result (λ storage.
        storage ≡ storage_of context.entry.size context.entry.all.now context.entry.before.now v) }
{
    match v.class {
        Class::PublicScalar => Ok(Storage::Scalar),
        Class::SecretScalar => Ok(Storage::Scalar),
        _ => array_storage(alloc, context, v),
    }
}

/// How many secret arrays with a secret index have a slot of their own. The only error is running out of memory.
pub(crate) fn own_secret(alloc: Global, size: u32, all: &[Want]) -> Result<u32, Memory>
    requires size { Within 8 512 size }
    requires short { AreShort all.now }
    ensures own { IfOk result (λ own. own ≡ own_secret size all.now) }
    ensures few { IfOk result (λ own. own ≤ 3) }
{
    let most = own_most(alloc, size, all, Class::ObliviousArray)?;
    let arrays = unshared(alloc, size, all, Class::ObliviousArray, all)?;
    Ok(most.min(short_among(size, arrays.as_slice())) as u32)
}

// Whether an array is one of the first short ones, if this many of these are left.
fn is_skipped(size: u32, left: usize, v: Want) -> bool
    ensures { result ≡ is_skipped size left v }
{
    0 < left && is_short(size, v)
}

// Some arrays without the first n short ones. The only error is running out of memory.
fn without_short(alloc: Global, size: u32, n: usize, vs: &[Want]) -> Result<Vec<Want>, Memory>
    ensures { IfOk result (λ out. out.items ≡ without_short size n vs.now) }
{
    let mut out = Vec::new(alloc);
    let mut left = n;
    for v in vs {
        if is_skipped(size, left, *v) {
            left -= 1;
            continue;
        }
        out.push(*v)?;
    }
    Ok(out)
}

/// The arrays of the oblivious banks, among some variables. The only error is running out of memory.
pub(crate) fn in_oblivious_banks(
    alloc: Global,
    size: u32,
    all: &[Want],
    vs: &[Want],
) -> Result<Vec<Want>, Memory>
    requires size { Within 8 512 size }
    requires short { AreShort all.now }
    requires short_some { AreShort vs.now }
    ensures arrays { IfOk result (λ arrays. arrays.items ≡ in_oblivious_banks size all.now vs.now) }
    ensures short { IfOk result (λ arrays. AreShort arrays.items) }
{
    let most = own_most(alloc, size, all, Class::ObliviousArray)?;
    let arrays = unshared(alloc, size, all, Class::ObliviousArray, vs)?;
    without_short(alloc, size, most, arrays.as_slice())
}
