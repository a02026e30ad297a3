ghost use Rattle.std.specs.Prelude.{◌≡◌, ◌+◌, ◌^◌, ◌<◌, ◌≤◌, IfOk, IsTrue, [], length, All, map};
ghost use Rattle.std.specs.List.{range_with_len};
ghost use Rattle.gr_base.specs.Prelude.{Within};
ghost use Rattle.src_tree.specs.Prelude.{max_length, max_variables, words_of_length, words_of};
ghost use Rattle.bank_alloc.specs.Known.{class_in};
ghost use Rattle.bank_alloc.specs.Lacks.{AreFew};
ghost use Rattle.bank_alloc.specs.Places.{array_place, bank_count, blocks_for, blocks_taken, first_block, first_free_block, is_array, is_array_in, is_oblivious, is_scalar_in, oblivious_arrays, place_behind, places_behind, scalar_place, scalars_in};

use crate::classes::{Class, class_in};
use crate::indexes::Indexed;
use crate::places::Place;
use gr_base::Memory;
use lt_isa::{BankKind, bank_kind};
use src_tree::Decl;
use std::alloc::Global;

/// Whether a place is an oblivious bank's.
pub fn is_oblivious(place: Place) -> bool
    ensures { result ≡ is_oblivious place }
{
    bank_kind(place.bank) == BankKind::Oblivious
}

/// Whether a place is an array's: in an oblivious bank, or after the first block.
pub fn is_array(place: Place) -> bool
    ensures { result ≡ is_array place }
{
    is_oblivious(place) || 1 <= place.block
}

fn is_scalar_in(bank: u8, place: Place) -> bool
    ensures { result ≡ is_scalar_in bank place }
{
    place.bank == bank && !is_array(place)
}

/// Whether a place is that of an array of a bank.
pub fn is_array_in(bank: u8, place: Place) -> bool
    ensures { result ≡ is_array_in bank place }
{
    place.bank == bank && is_array(place)
}

/// The number of blocks for this many words, if a block has `size` words.
pub fn blocks_for(size: u32, words: u32) -> u32
    requires size { Within 8 512 size }
    requires words { words ≤ max_length }
    ensures blocks { result ≡ blocks_for size words }
    ensures few { result ≤ max_length + 511 }
{
    (words + (size - 1)) / size
}

/// How many scalars of a bank there are among some places.
pub(crate) fn scalars_in(bank: u8, places: &[Place]) -> usize
    ensures count { result ≡ scalars_in bank places.now }
    ensures few { result ≤ length places.now }
{
    places
        .iter()
        .filter(|place| is_scalar_in(bank, **place))
        .count()
}

fn oblivious_arrays(places: &[Place]) -> usize
    ensures { result ≡ oblivious_arrays places.now }
{
    places.iter().filter(|place| is_oblivious(**place)).count()
}

fn first_block(bank: u8) -> u32
    ensures { result ≡ first_block bank }
{
    match bank_kind(bank) {
        BankKind::Plain => 1,
        BankKind::Encrypted => 1,
        BankKind::Oblivious => 0,
    }
}

// The blocks of a bank that a place takes.
fn blocks_taken(size: u32, bank: u8, place: Place) -> u32
    requires size { Within 8 512 size }
    requires length { place.length ≤ max_length }
    ensures blocks { result ≡ blocks_taken size bank place }
    ensures few { result ≤ max_length + 511 }
{
    if is_array_in(bank, place) {
        blocks_for(size, place.length)
    } else {
        0
    }
}

/// The first block of a bank that is free after some places, if a block has `size` words.
pub(crate) fn first_free(size: u32, bank: u8, places: &[Place]) -> u32
    requires size { Within 8 512 size }
    requires few { AreFew places.now }
    ensures { result ≡ first_free_block size bank places.now }
{
    let mut free = first_block(bank);
    for place in places {
        free += blocks_taken(size, bank, *place);
    }
    free
}

fn scalar_place(before: &[Place], bank: u8, words: u32) -> Place
    requires few { AreFew before.now }
    ensures { result ≡ scalar_place before.now bank words }
{
    Place {
        bank,
        block: 0,
        word: scalars_in(bank, before) as u16,
        length: words,
    }
}

fn array_place(size: u32, before: &[Place], bank: u8, words: u32) -> Place
    requires size { Within 8 512 size }
    requires few { AreFew before.now }
    ensures { result ≡ array_place size before.now bank words }
{
    Place {
        bank,
        block: first_free(size, bank, before),
        word: 0,
        length: words,
    }
}

// The place of a variable of a class and this many words, after others.
fn place_behind(size: u32, before: &[Place], class: Class, words: u32) -> Place
    requires size { Within 8 512 size }
    requires few { AreFew before.now }
    ensures place { result ≡ place_behind size before.now class words }
    ensures length { result.length ≡ words }
{
    match class {
        Class::PublicScalar => scalar_place(before, 0, words),
        Class::SecretScalar => scalar_place(before, 1, words),
        Class::PublicArray => array_place(size, before, 0, words),
        Class::EncryptedArray => array_place(size, before, 1, words),
        Class::ObliviousArray => {
            let turn = (oblivious_arrays(before) % 8) as u8;
            array_place(size, before, 2 + turn, words)
        }
    }
}

/// The words of a variable.
pub fn words_of(decl: &Decl) -> u32
    requires fits { words_of decl.now ≤ max_length }
    ensures words { result ≡ words_of decl.now }
{
    match decl.length {
        None => 1,
        Some(words) => words as u32,
    }
}

/// The places of variables, in order of declaration, where the arrays with a secret index are given and a block has
/// `size` words. The only error is running out of memory.
#[tactic(auto, using(crate::proofs::PlacedBehind::few_more))]
pub(crate) fn places_in<'a>(
    alloc: Global,
    size: u32,
    indexed: &Indexed<'a>,
    decls: &'a [Decl],
) -> Result<Vec<Place>, Memory>
    requires size { Within 8 512 size }
    requires count { length decls.now ≤ max_variables }
    requires lengths { All (λ d. words_of d ≤ max_length) decls.now }
    ensures places { IfOk result (λ places. places.items ≡ places_behind (class_in indexed.now) size [] decls.now) }
    ensures few { IfOk result (λ places. AreFew places.items) }
{
    let mut places = Vec::with_capacity(alloc, decls.len())?;
    for decl in decls {
        let place = place_behind(
            size,
            places.as_slice(),
            class_in(indexed, decl),
            words_of(decl),
        );
        places.push(place)?;
    }
    Ok(places)
}

// The number of banks, if variables are stored at some places.
fn bank_count(places: &[Place]) -> u8
    ensures { result ≡ bank_count places.now }
{
    2 + oblivious_arrays(places).min(8) as u8
}

/// The number of blocks of each bank, if variables are stored at some places and a block has `size` words. The only
/// error is running out of memory.
pub(crate) fn blocks_of_banks(
    alloc: Global,
    size: u32,
    places: &[Place],
) -> Result<Vec<u32>, Memory>
    requires size { Within 8 512 size }
    requires few { AreFew places.now }
    ensures { IfOk result (λ blocks.
        blocks.items ≡ map (λ bank. first_free_block size bank places.now) (range_with_len 0 (bank_count places.now))) }
{
    let mut blocks = Vec::new(alloc);
    for bank in 0..bank_count(places) {
        blocks.push(first_free(size, bank, places))?;
    }
    Ok(blocks)
}
