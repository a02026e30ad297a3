//! The nearest of some known words to one that is misspelt.

use crate::texts::piece;
use gr_base::Memory;
use std::alloc::Global;
use strsim::osa_distance;

/// The most bytes of a word to which a known word may be near. A comparison takes time in proportion to the word.
const MOST_BYTES: usize = 64;

/// A misspelt word in lower case, and the nearest known word so far.
#[derive(Drop)]
pub struct Nearest<'a> {
    misspelt: Vec<u8>,
    limit: usize,
    found: Option<&'a [u8]>,
}

// How many characters are to be changed, removed, added or exchanged with the next one.
fn distance(alloc: Global, first: &[u8], second: &[u8]) -> Result<usize, Memory> {
    let Ok(first) = std::str::from_utf8(first) else {
        return Ok(usize::MAX);
    };
    let Ok(second) = std::str::from_utf8(second) else {
        return Ok(usize::MAX);
    };
    Ok(osa_distance(alloc, first, second)?)
}

impl<'a> Nearest<'a> {
    /// Begins the search for a word, of which up to a third of the characters may be wrong. Nothing is near a word that is
    /// too long.
    pub fn to(alloc: Global, word: &[u8]) -> Result<Nearest<'a>, Memory> {
        let limit = if word.len() > MOST_BYTES {
            0
        } else {
            (word.len() / 3).saturating_add(1)
        };
        Ok(Nearest {
            misspelt: piece(word, 0, MOST_BYTES).to_ascii_lowercase(alloc)?,
            limit,
            found: None,
        })
    }

    /// Compares the word with a known word.
    pub fn compare(&mut self, alloc: Global, known: &'a [u8]) -> Result<(), Memory> {
        if self.limit == 0 {
            return Ok(());
        }
        let lowered = known.to_ascii_lowercase(alloc)?;
        let wrong = distance(alloc, self.misspelt.as_slice(), lowered.as_slice())?;
        if wrong < self.limit {
            self.limit = wrong;
            self.found = Some(known);
        }
        Ok(())
    }

    /// Compares the word with some words, with a space between them.
    pub fn compare_each(&mut self, alloc: Global, known: &'a str) -> Result<(), Memory> {
        for word in known.split(" ") {
            self.compare(alloc, word.as_bytes())?;
        }
        Ok(())
    }

    /// The nearest known word, if one is near.
    pub fn found(&self) -> Option<&'a [u8]> {
        self.found
    }
}
