//! The check of object files as one C function, for loaders: a static library.
//!
//! [`gr_check`] takes the bytes of an object file. If it accepts them, they encode an object that the check accepts,
//! and so one that reveals only public data. `specs/Answers.antt` states what each result means; `include/ghostrider.h`
//! is the function for C.
#![tactic(auto)]

ghost use Rattle.std.specs.Prelude.{◌≡◌, ◌≢◌, ◌⊎◌, ◌↔◌, ◌<◌, length};
ghost use Rattle.ghost_c.specs.Answers.{IsAnswer, IsRefused, IsSafe, SpellsNothing};

use lt_checker::{CheckError, check};
use object_file::{DecodeError, decode};
use std::alloc::Global;

/// The most bytes that an object file may have.
const OBJECT_BYTES: usize = 33_554_432;

/// The bytes are accepted.
const ACCEPTED: u32 = 0;

/// Memory ran out.
const NO_MEMORY: u32 = 5;

/// The bytes don't encode an object.
const NO_OBJECT: u32 = 6;

/// The object is refused.
const REFUSED: u32 = 7;

/// There are more bytes than an object file may have.
const TOO_LONG: u32 = 11;

/// Checks the bytes of an object file. The result is one of the exit statuses of the program's `check`:
///
/// - 0: they encode an object that is accepted.
/// - 5: memory ran out, which says nothing about the bytes.
/// - 6: they don't encode an object.
/// - 7: they encode an object that is refused; `place` and `reason` then have the first refusal, a place in the code
///   and a reason from 1 to 13. They are written only with this result.
/// - 11: there are more than 33,554,432 bytes.
///
/// For the bytes of an object that the check accepts, the result is 0, 5 or 11, never 6 or 7. (This project's profile.)
#[unsafe(no_mangle)]
pub extern "C" fn gr_check(alloc: Global, bytes: &[u8], place: &mut u32, reason: &mut u32) -> u32
    ensures answers { IsAnswer result }
    ensures accepted { result ≡ 0 → IsSafe bytes.now }
    ensures no_object { result ≡ 6 → SpellsNothing bytes.now }
    ensures refused { result ≡ 7 → IsRefused bytes.now place.new reason.new }
    ensures too_long { (result ≡ 11) ↔ (33554432 < length bytes.now) }
    ensures safe_is_accepted { IsSafe bytes.now → result ≢ 11 → (result ≡ 0) ⊎ (result ≡ 5) }
    ensures place { result ≢ 7 → place.new ≡ place.old }
    ensures reason { result ≢ 7 → reason.new ≡ reason.old }
{
    if bytes.len() > OBJECT_BYTES {
        return TOO_LONG;
    }
    let object = match decode(alloc, bytes) {
        Ok(object) => object,
        Err(DecodeError::Memory) => return NO_MEMORY,
        Err(_) => return NO_OBJECT,
    };
    match check(alloc, object) {
        Ok(_) => ACCEPTED,
        Err(
            CheckError::Refused {
                pc,
                reason: why,
                ..
            },
        ) => {
            *place = pc;
            *reason = why.number() as u32;
            REFUSED
        }
        Err(CheckError::Memory { .. }) => NO_MEMORY,
    }
}
