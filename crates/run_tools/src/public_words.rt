//! The public words of inputs, which determine the trace of a run.

use crate::variables::words_of;
use gr_base::Memory;
use gr_word::{Inputs, Label};
use lt_isa::Symbol;
use std::alloc::Global;

/// A public word that isn't 0, with its number among all public words of an object.
#[derive(Clone, Copy, PartialEq, Eq, PartialOrd, Ord)]
pub(crate) struct PublicWord {
    number: u64,
    word: i64,
}

/// The public words of an object's inputs that aren't 0. Two inputs give the same list if and only if they agree on all
/// public words. Most words of a case are the zeros of variables that it doesn't name, so the list is as short as its text.
pub(crate) fn public_words(
    alloc: Global,
    symbols: &[Symbol],
    inputs: &Inputs,
) -> Result<Vec<PublicWord>, Memory> {
    let mut found = Vec::new(alloc);
    let mut number = 0u64;
    for (variable, symbol) in symbols.iter().enumerate() {
        if symbol.label == Label::Public {
            for word in words_of(inputs, variable) {
                if *word != 0 {
                    found.push(PublicWord {
                        number,
                        word: *word,
                    })?;
                }
                number = number.saturating_add(1);
            }
        }
    }
    found.shrink_to_fit();
    Ok(found)
}
