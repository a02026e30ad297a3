ghost use Rattle.std.specs.Prelude.{◌≡◌, ℕ, ◌-◌, ◌*◌, ◌<◌, ◌≤◌, if◌then◌else◌, pos, [], IfOk, length, slice_index_or, vec_capacity};
ghost use Rattle.lt_isa.specs.Prelude.{block_words, blocks_of, first_word, end_word, FitsObject, covers, start_word, start_bank};
ghost use Rattle.banks.specs.Prelude.{in_blocks, words_of_blocks};

use banks::{fill_up, write_at};
use gr_word::{Inputs, Memory};
use lt_checker::Accepted;
use lt_isa::{Object, Symbol};
use std::alloc::Global;

/// Words of a bank, or that memory ran out.
pub type Image = Result<Vec<i64>, Memory>;

/// The words of a bank at the start of a run on some inputs, block after block: the inputs' words at their variables'
/// places, and 0 elsewhere.
pub fn start_image(alloc: Global, a: &Accepted, inputs: &Inputs, bank: u8) -> Image
    requires fits { FitsObject a.now inputs.now }
    requires exists { bank < length a.now.banks }
    ensures words { IfOk result (λ image. image.items ≡ words_of_blocks (start_bank a.now inputs.now bank)) }
    ensures blocks { IfOk result
        (λ image. in_blocks (block_words a.now) image.items ≡ start_bank a.now inputs.now bank) }
    ensures size { IfOk result (λ image. length image.items ≡ blocks_of a.now bank * block_words a.now) }
{
    let object = a.object();
    let mut image = start_front(alloc, object, inputs, bank)?;
    fill_up(&mut image, bank_words(object, bank));
    Ok(image)
}

/// The first words of a bank at the start of a run, in a vector with room for all of them. The others are 0.
pub(crate) fn start_front(alloc: Global, object: &Object, inputs: &Inputs, bank: u8) -> Image
    requires fits { FitsObject object.now inputs.now }
    requires exists { bank < length object.now.banks }
    ensures words { IfOk result (λ front. (i : ℕ)
        → slice_index_or front.items i (pos 0)
        ≡ start_word (block_words object.now) object.now.symbols inputs.now bank i) }
    ensures within { IfOk result (λ front. length front.items ≤ blocks_of object.now bank * block_words object.now) }
    ensures room { IfOk result (λ front. blocks_of object.now bank * block_words object.now ≤ vec_capacity front) }
{
    let mut front = Vec::with_capacity(alloc, bank_words(object, bank))?;
    fill(&mut front, object, inputs, bank);
    Ok(front)
}

// How many words a bank has.
fn bank_words(object: &Object, bank: u8) -> usize
    requires { bank < length object.now.banks }
    ensures { result ≡ blocks_of object.now bank * block_words object.now }
{
    let width = object.profile().block_words();
    let blocks = object.banks()[bank as usize].blocks;
    blocks as usize * width as usize
}

// Writes the words of the bank's variables to their places. The first variable that takes a place decides what is
// there, so the last one is written first.
fn fill(words: &mut Vec<i64>, object: &Object, inputs: &Inputs, bank: u8)
    requires fits { FitsObject object.now inputs.now }
    requires exists { bank < length object.now.banks }
    requires empty { words.old.items ≡ [] }
    requires room { blocks_of object.now bank * block_words object.now ≤ vec_capacity words.old }
    ensures words { (i : ℕ)
        → slice_index_or words.new.items i (pos 0)
        ≡ start_word (block_words object.now) object.now.symbols inputs.now bank i }
    ensures within { length words.new.items ≤ blocks_of object.now bank * block_words object.now }
    ensures room { blocks_of object.now bank * block_words object.now ≤ vec_capacity words.new }
{
    let width = object.profile().block_words();
    let symbols = object.symbols();
    for i in (0..symbols.len()).rev() {
        place(words, width, bank, &symbols[i], inputs.words(i));
    }
}

// Writes the words of a variable to their places, if it is stored in the bank.
fn place(words: &mut Vec<i64>, width: u32, bank: u8, symbol: &Symbol, from: &[i64])
    requires small { width ≤ 512 }
    requires size { length from.now ≡ symbol.now.length }
    requires room { symbol.now.bank ≡ bank → end_word width symbol.now ≤ vec_capacity words.old }
    ensures words { (i : ℕ)
        → slice_index_or words.new.items i (pos 0)
        ≡ (if covers width symbol.now bank i
        then slice_index_or from.now (i - first_word width symbol.now) (pos 0)
        else slice_index_or words.old.items i (pos 0)) }
    ensures within { (n : ℕ)
        → length words.old.items ≤ n
        → (symbol.now.bank ≡ bank → end_word width symbol.now ≤ n)
        → length words.new.items ≤ n }
    ensures capacity { vec_capacity words.old ≤ vec_capacity words.new }
{
    if symbol.bank == bank {
        let first = symbol.block as usize * width as usize + symbol.word as usize;
        write_at(words, first, from);
    }
}
