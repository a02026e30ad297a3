ghost use Rattle.std.specs.Prelude.{◌≡◌, ◌%◌, ◌<◌, [], pos, length, slice_index_or};
ghost use Rattle.gr_word.specs.Prelude.{unsigned_of};
ghost use Rattle.src_tree.specs.Prelude.{scalar, element, scalar_set, element_set, with_word, wrapped};
ghost use Rattle.source_meaning.specs.Kept.{KeepsFit};

use gr_word::Inputs;

// An index, as an unsigned number, modulo a number of words.
fn wrapped(length: usize, index: i64) -> usize
    requires { 0 < length }
    ensures { result ≡ unsigned_of index % length }
{
    (index.cast_unsigned() % (length as u64)) as usize
}

// The first of some words, or 0 if there are none.
fn first_word(words: &[i64]) -> i64
    ensures { result ≡ slice_index_or words.now 0 (pos 0) }
{
    if words.is_empty() { 0 } else { words[0] }
}

// The word at an index, or 0 if there are no words.
fn word_at(words: &[i64], index: i64) -> i64
    ensures { result ≡ slice_index_or words.now (wrapped words.now index) (pos 0) }
{
    if words.is_empty() {
        0
    } else {
        words[wrapped(words.len(), index)]
    }
}

// The first word of variable number `k`, or 0 if there is none.
pub(crate) fn scalar(store: &Inputs, k: usize) -> i64
    ensures { result ≡ scalar store.now k }
{
    if k < store.len() {
        first_word(store.words(k))
    } else {
        0
    }
}

// The word of variable number `k` at an index, or 0 if there is none.
pub(crate) fn element(store: &Inputs, k: usize, index: i64) -> i64
    ensures { result ≡ element store.now k index }
{
    if k < store.len() {
        word_at(store.words(k), index)
    } else {
        0
    }
}

// Replaces a word, if it exists.
#[tactic(auto, using(crate::proofs::Keeping::keeps_same, crate::proofs::Keeping::keeps_word))]
fn set_word(store: &mut Inputs, k: usize, at: usize, word: i64)
    ensures set { store.new ≡ with_word store.old k at word }
    ensures kept { KeepsFit store.old store.new }
{
    if k < store.len() {
        if at < store.words(k).len() {
            store.set(k, at, word);
        }
    }
}

// The number of words of variable number `k`.
fn count(store: &Inputs, k: usize) -> usize
    ensures { result ≡ length (slice_index_or store.now k []) }
{
    if k < store.len() {
        store.words(k).len()
    } else {
        0
    }
}

pub(crate) fn set_scalar(store: &mut Inputs, k: usize, word: i64)
    ensures set { store.new ≡ scalar_set store.old k word }
    ensures kept { KeepsFit store.old store.new }
{
    set_word(store, k, 0, word);
}

#[tactic(auto, using(crate::proofs::Keeping::keeps_same))]
pub(crate) fn set_element(store: &mut Inputs, k: usize, index: i64, word: i64)
    ensures set { store.new ≡ element_set store.old k index word }
    ensures kept { KeepsFit store.old store.new }
{
    let words = count(store, k);
    if words != 0 {
        set_word(store, k, wrapped(words, index), word);
    }
}
