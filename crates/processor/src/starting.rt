ghost use Rattle.std.specs.Prelude.{◌≡◌, ◌-◌, ◌<◌, ◌≤◌, [], ◌∷◌, true, All, IfOk, length, map};
ghost use Rattle.std.specs.List.{range_with_len};
ghost use Rattle.gr_word.specs.Prelude.{AreWords};
ghost use Rattle.lt_isa.specs.Prelude.{block_words, FitsObject, start_bank, start_state};
ghost use Rattle.processor.specs.Starting.{starting_bank};

use crate::images::start_front;
use crate::machine::{Machine, load};
use banks::{Bank, PlainBank};
use gr_word::{Inputs, Memory};
use lt_checker::Accepted;
use std::alloc::Global;

/// A machine for an accepted object at the start of a run on some inputs, over these oblivious banks, which hold what
/// the object's hold at the start.
pub fn load_over<'a, B: Bank + Drop>(
    alloc: Global,
    accepted: &'a Accepted,
    inputs: &Inputs,
    orams: Vec<B>,
) -> Result<Machine<'a, B>, Memory>
    requires fits { FitsObject accepted.now inputs.now }
    requires banks { map B.contents orams.items
        ≡ map (start_bank accepted.now inputs.now) (range_with_len 2 (length accepted.now.banks - 2)) }
    requires widths { All (λ bank. B.width bank ≡ block_words accepted.now) orams.items }
    ensures { IfOk result
        (λ machine. machine
        ≡ record {
          object = accepted.now;
          state = start_state accepted.now inputs.now;
          orams = orams.items;
          live = true;
        }) }
{
    let _ = accepted.object().banks();
    let ram = bank_at_start(alloc, accepted, inputs, 0)?;
    let eram = bank_at_start(alloc, accepted, inputs, 1)?;
    load(alloc, accepted, ram, eram, orams)
}

/// A machine for an accepted object at the start of a run on some inputs, each of its banks a plain list of blocks.
pub fn load_start<'a>(
    alloc: Global,
    accepted: &'a Accepted,
    inputs: &Inputs,
) -> Result<Machine<'a, PlainBank>, Memory>
    requires { FitsObject accepted.now inputs.now }
    ensures { IfOk result
        (λ machine. machine
        ≡ record {
          object = accepted.now;
          state = start_state accepted.now inputs.now;
          orams = map (starting_bank accepted.now inputs.now) (range_with_len 2 (length accepted.now.banks - 2));
          live = true;
        }) }
{
    let banks = accepted.object().banks().len() as u8;
    let orams = orams_at_start(alloc, accepted, inputs, banks)?;
    load_over(alloc, accepted, inputs, orams)
}

// The object's oblivious banks at the start of a run, if it has this many banks.
fn orams_at_start(
    alloc: Global,
    accepted: &Accepted,
    inputs: &Inputs,
    banks: u8,
) -> Result<Vec<PlainBank>, Memory>
    requires fits { FitsObject accepted.now inputs.now }
    requires least { 2 ≤ banks }
    requires all { banks ≡ length accepted.now.banks }
    ensures { IfOk result
        (λ orams. orams.items
        ≡ map (starting_bank accepted.now inputs.now) (range_with_len 2 (length accepted.now.banks - 2))) }
{
    let mut orams = Vec::new(alloc);
    for bank in 2..banks {
        orams.push(bank_at_start(alloc, accepted, inputs, bank)?)?;
    }
    Ok(orams)
}

/// A bank of the object at the start of a run on some inputs. It takes room for all words of the bank, of which it
/// touches those that an input reaches.
pub fn bank_at_start(
    alloc: Global,
    accepted: &Accepted,
    inputs: &Inputs,
    bank: u8,
) -> Result<PlainBank, Memory>
    requires fits { FitsObject accepted.now inputs.now }
    requires exists { bank < length accepted.now.banks }
    ensures { IfOk result (λ made. made ≡ starting_bank accepted.now inputs.now bank) }
{
    let object = accepted.object();
    let front = start_front(alloc, object, inputs, bank)?;
    let blocks = object.banks()[bank as usize].blocks;
    let width = object.profile().block_words();
    Ok(PlainBank::with_front(front, blocks, width))
}
