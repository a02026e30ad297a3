ghost use Rattle.std.specs.Prelude.{◌≡◌, ◌^◌, ◌<◌, ◌≤◌, IfOk, IfErr, OnOk, [], length, All};
ghost use Rattle.gr_base.specs.Prelude.{Within};
ghost use Rattle.src_tree.specs.Prelude.{IsWithinLimits, source_of, IsTyped};
ghost use Rattle.bank_alloc.specs.Fits.{Fits, Refuses};
ghost use Rattle.bank_alloc.specs.Lacks.{AreFew, first_full, first_lack};
ghost use Rattle.bank_alloc.specs.PlaceRules.{ArePlaced};
ghost use Rattle.bank_alloc.specs.Places.{IsPlacesOf};

use crate::indexes::indexed_in;
use crate::names::gather;
use crate::places::{PlaceError, Places};
use crate::placing::{blocks_of_banks, places_in, scalars_in};
use gr_base::Memory;
use gr_word::Label;
use lt_isa::limits::most_blocks;
use src_tree::Program;
use std::alloc::Global;

/// How many words a block has.
pub fn block_words(w: u8) -> u32
    requires { Within 3 9 w }
    ensures words { result ≡ 2 ^ w }
    ensures range { Within 8 512 result }
{
    1 << w
}

// The places of a program's variables, and the blocks that its banks need.
fn lay_out(alloc: Global, p: &Program, w: u8) -> Result<Places, Memory>
    requires typed { IsTyped (source_of p.now) }
    requires within { IsWithinLimits (source_of p.now) }
    requires block_log { Within 3 9 w }
    ensures places { IfOk result (λ places. IsPlacesOf (source_of p.now) w places) }
    ensures few { IfOk result (λ places. AreFew places.of_var.items) }
{
    let decls = p.decls.as_slice();
    let names = gather(alloc, decls)?;
    let indexed = indexed_in(alloc, &names, p.body.as_slice())?;
    let size = block_words(w);
    let of_var = places_in(alloc, size, &indexed, decls)?;
    let blocks = blocks_of_banks(alloc, size, of_var.as_slice())?;
    Ok(Places { of_var, blocks })
}

/// Reports the lowest bank that needs more blocks than it may have, where `blocks` has what each bank needs.
pub fn first_full(blocks: &[u32]) -> Option<PlaceError>
    requires banks { length blocks.now ≤ 10 }
    ensures lack { result ≡ first_full 0 blocks.now }
{
    for (bank, needed) in blocks.iter().enumerate() {
        if most_blocks(bank) < *needed {
            return Some(PlaceError::BankFull(bank as u8));
        }
    }
    None
}

// What lacks room first.
fn first_lack(size: u32, places: &Places) -> Option<PlaceError>
    requires { length places.now.blocks.items ≤ 10 }
    ensures { result ≡ first_lack size places.now.of_var.items places.now.blocks.items }
{
    if (size as usize) < scalars_in(0, places.of_var.as_slice()) {
        return Some(PlaceError::TooManyScalars(Label::Public));
    }
    if (size as usize) < scalars_in(1, places.of_var.as_slice()) {
        return Some(PlaceError::TooManyScalars(Label::Secret));
    }
    first_full(places.blocks.as_slice())
}

/// Gives each variable of a program its place, where a block has 2^w words and the program is well typed and within the
/// limits that don't depend on a machine. Scalars share the first block of plain or encrypted memory, arrays have whole
/// blocks, and secret arrays with a secret index go to oblivious banks in turn.
///
/// `TooManyScalars` comes where the public scalars, or else the secret ones, are more than a block has words; else
/// `BankFull` for the lowest bank that needs more blocks than it may have. `Memory` says nothing of the program.
pub fn banks(alloc: Global, p: &Program, w: u8) -> Result<Places, PlaceError>
    requires typed { IsTyped (source_of p.now) }
    requires within { IsWithinLimits (source_of p.now) }
    requires block_log { Within 3 9 w }
    ensures places { IfOk result (λ places. IsPlacesOf (source_of p.now) w places) }
    ensures placed { IfOk result (λ places. ArePlaced (source_of p.now) w places.of_var.items) }
    ensures fits { OnOk result (Fits (source_of p.now) w) }
    ensures refused { IfErr result (λ e. Refuses (source_of p.now) w e) }
{
    match lay_out(alloc, p, w) {
        Err(_) => Err(PlaceError::Memory),
        Ok(places) => match first_lack(block_words(w), &places) {
            Some(lack) => Err(lack),
            None => Ok(places),
        },
    }
}
