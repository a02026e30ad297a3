ghost use Rattle.std.specs.Prelude.{◌≡◌, ◌-◌, ◌<◌, ◌≤◌, ◌&&◌, nat_le, IfOk, if◌then◌else◌, count_by};
ghost use Rattle.resident_alloc.specs.Ranges.{AreShort, is_left_out, room_behind, takes_room};
ghost use Rattle.resident_alloc.specs.Residents.{is_shared, left_out, room_after, room_beside, room_for, unshared};

use crate::wants::{Want, count_of, is_of};
use bank_alloc::Class;
use gr_base::Memory;
use std::alloc::Global;

// Whether an array of a class takes its words of a room.
fn takes_room(class: Class, room: u32, v: Want) -> bool
    ensures { result ≡ takes_room class room v }
{
    is_of(class, v) && v.words <= room
}

// What is left of a room after a variable.
fn room_behind(class: Class, room: u32, v: Want) -> u32
    ensures left { result ≡ room_behind class room v }
    ensures less { result ≤ room }
{
    if takes_room(class, room, v) {
        room - v.words
    } else {
        room
    }
}

/// What is left of a room after the arrays of a class have taken their words of it, one after another.
pub(crate) fn room_after(class: Class, room: u32, vs: &[Want]) -> u32
    ensures left { result ≡ room_after class room vs.now }
    ensures less { result ≤ room }
{
    let mut left = room;
    for v in vs {
        left = room_behind(class, left, *v);
    }
    left
}

// Whether an array of a class is too long for what is left of a room.
fn is_left_out(class: Class, room: u32, v: Want) -> bool
    ensures { result ≡ is_left_out class room v }
{
    is_of(class, v) && room < v.words
}

// The arrays of a class that took nothing of a room. The only error is running out of memory.
fn left_out(alloc: Global, class: Class, room: u32, vs: &[Want]) -> Result<Vec<Want>, Memory>
    ensures { IfOk result (λ out. out.items ≡ left_out class room vs.now) }
{
    let mut out = Vec::new(alloc);
    let mut left = room;
    for v in vs {
        if is_left_out(class, left, *v) {
            out.push(*v)?;
            continue;
        }
        left = room_behind(class, left, *v);
    }
    Ok(out)
}

/// The words of a block of `size` words that its scalars, of a class, leave.
pub(crate) fn room_beside(size: u32, all: &[Want], scalar: Class) -> u32
    requires few { AreShort all.now }
    ensures room { result ≡ room_beside size all.now scalar }
    ensures less { result ≤ size }
{
    size.saturating_sub(count_of(scalar, all) as u32)
}

/// The room for the arrays of a class in the block of their scalars.
pub(crate) fn room_for(size: u32, all: &[Want], class: Class) -> u32
    requires few { AreShort all.now }
    ensures room { result ≡ room_for size all.now class }
    ensures less { result ≤ size }
{
    match class {
        Class::PublicScalar => 0,
        Class::SecretScalar => 0,
        Class::PublicArray => room_beside(size, all, Class::PublicScalar),
        Class::ObliviousArray => room_beside(size, all, Class::SecretScalar),
        Class::EncryptedArray => {
            let room = room_beside(size, all, Class::SecretScalar);
            room_after(Class::ObliviousArray, room, all)
        }
    }
}

/// Whether an array shares the block of the scalars, where others are declared before it.
pub(crate) fn is_shared(size: u32, all: &[Want], before: &[Want], v: Want) -> bool
    requires few { AreShort all.now }
    ensures shared { result ≡ is_shared size all.now before.now v }
{
    v.words <= room_after(v.class, room_for(size, all, v.class), before)
}

/// The arrays of a class, among some variables, that don't share the block of the scalars. The only error is running
/// out of memory.
pub(crate) fn unshared(
    alloc: Global,
    size: u32,
    all: &[Want],
    class: Class,
    vs: &[Want],
) -> Result<Vec<Want>, Memory>
    requires few { AreShort all.now }
    requires short { AreShort vs.now }
    ensures arrays { IfOk result (λ arrays. arrays.items ≡ unshared size all.now class vs.now) }
    ensures short { IfOk result (λ arrays. AreShort arrays.items) }
{
    left_out(alloc, class, room_for(size, all, class), vs)
}
