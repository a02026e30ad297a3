ghost use Rattle.std.specs.Prelude.{◌≡◌, ◌<◌, IfOk, length};
ghost use Rattle.bank_alloc.specs.declared.classes.Class.TheVariants.{EncryptedArray, ObliviousArray, PublicArray};
ghost use Rattle.scratch_alloc.specs.Prelude.{alternate_slot};
ghost use Rattle.resident_alloc.specs.declared.storages.Storage.TheVariants.{Own};
ghost use Rattle.resident_alloc.specs.Ranges.{IsPlannable};
ghost use Rattle.resident_alloc.specs.Residents.{unshared};
ghost use Rattle.resident_alloc.specs.ResidentPlan.{slot_by, spare_slot};

use crate::owning::short_among;
use crate::sharing::unshared;
use crate::storages::Storage;
use crate::wants::Context;
use bank_alloc::Class;
use gr_base::Memory;
use std::alloc::Global;

// The slots for secret arrays with a secret index that have their own.
fn spare_slot(number: usize) -> u8
    ensures { result ≡ spare_slot number }
{
    match number {
        0 => 7,
        1 => 5,
        _ => 4,
    }
}

// Of two slots that serve arrays alternately, the one for an array after others.
fn in_turn(slot: u8, arrays: usize) -> u8
    requires { slot < 8 }
    ensures { result ≡ alternate_slot slot arrays }
{
    slot + (arrays % 2) as u8
}

// Of two slots that serve the arrays of a class alternately, the one for an array that isn't shared, where others are
// declared before it. The only error is running out of memory.
fn turn_slot(alloc: Global, context: Context, class: Class, slot: u8) -> Result<u8, Memory>
    requires context { IsPlannable context }
    requires few { slot < 8 }
    ensures { IfOk result (λ served.
        served ≡ alternate_slot slot
        (length (unshared context.entry.size context.entry.all.now class context.entry.before.now))) }
{
    let Context { size, all, before } = context;
    let earlier = unshared(alloc, size, all, class, before)?;
    Ok(in_turn(slot, earlier.len()))
}

// The slot of a secret array with a secret index and a slot of its own. The only error is running out of memory.
fn own_slot(alloc: Global, context: Context) -> Result<u8, Memory>
    requires { IsPlannable context }
    ensures { IfOk result (λ slot.
        slot ≡ slot_by context.entry.size context.entry.all.now context.entry.before.now ObliviousArray Own) }
{
    let Context { size, all, before } = context;
    let earlier = unshared(alloc, size, all, Class::ObliviousArray, before)?;
    Ok(spare_slot(short_among(size, earlier.as_slice())))
}

/// The slot that serves a variable of a class, by its storage. The only error is running out of memory.
pub(crate) fn slot_by(
    alloc: Global,
    context: Context,
    class: Class,
    storage: Storage,
) -> Result<u8, Memory>
    requires { IsPlannable context }
    ensures { IfOk result (λ slot.
        slot ≡ slot_by context.entry.size context.entry.all.now context.entry.before.now class storage) }
{
    match class {
        Class::PublicScalar => Ok(0),
        Class::SecretScalar => Ok(1),
        Class::PublicArray => match storage {
            Storage::Shared => Ok(0),
            _ => turn_slot(alloc, context, class, 2),
        },
        Class::EncryptedArray => match storage {
            Storage::Shared => Ok(1),
            _ => turn_slot(alloc, context, class, 4),
        },
        Class::ObliviousArray => match storage {
            Storage::Shared => Ok(1),
            Storage::Own => own_slot(alloc, context),
            _ => Ok(6),
        },
    }
}
