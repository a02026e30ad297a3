ghost use Rattle.std.specs.Prelude.{◌≡◌, ◌<◌, ◌∷◌, length, map, slice_set};
ghost use Rattle.banks.specs.Prelude.{AreLeaves, block_numbered};
ghost use Rattle.processor.specs.ObliviousBanks.{Accessed};
ghost use Rattle.lt_isa.specs.Prelude.{word_in};
ghost use Rattle.processor.specs.Machines.{bank_numbered};

use banks::{Bank, Leaves};
use std::marker::Model;

/// The banks of a machine: plain memory, encrypted memory, and oblivious banks. Seen as a list of banks.
#[derive(Drop)]
pub(crate) struct Banks<P: Bank + Drop, B: Bank + Drop> {
    pub(crate) words: u32,
    pub(crate) ram: P,
    pub(crate) eram: P,
    pub(crate) orams: Vec<B>,
}

impl<P: Bank + Drop, B: Bank + Drop> Model for Banks<P, B> {
    ghost use Rattle.std.specs.Prelude.{◌≡◌, ◌∷◌, All, map};
    ghost use Rattle.processor.specs.Stores.{Memories};

    ghost Value = { Memories B };

    ghost view = { λ m. record {
      words = m.words;
      banks = P.contents m.ram ∷ P.contents m.eram ∷ map B.contents m.orams.items;
      orams = m.orams.items;
    } };

    ghost invariant = { λ m. (P.width m.ram ≡ m.words)
        × (P.width m.eram ≡ m.words)
        × All (λ b. B.width b ≡ m.words) m.orams.items };
}

impl<P: Bank + Drop, B: Bank + Drop> Banks<P, B> {
    /// Reads a block of a bank.
    pub(crate) fn read(&mut self, bank: u8, at: u32, into: &mut [i64]) -> Leaves
        requires bank_exists { bank < length self.old.banks }
        requires block_exists { at < length (bank_numbered self.old.banks bank) }
        requires size { length into.old ≡ self.old.words }
        ensures filled { into.new ≡ block_numbered (bank_numbered self.old.banks bank) at }
        ensures stays { self.new ≡ record self.old { orams = self.new.orams } }
        ensures leaves { AreLeaves result }
        ensures accessed { Accessed B.shows B.comes self.old.orams self.new.orams
            (record { bank = bank; block = at }) result }
    {
        match bank {
            0 => self.ram.read(at, into),
            1 => self.eram.read(at, into),
            _ => {
                let oram = &mut self.orams[bank as usize - 2];
                oram.read(at, into)
            }
        }
    }

    /// Writes a block of a bank.
    pub(crate) fn write(&mut self, bank: u8, at: u32, from: &[i64]) -> Leaves
        requires bank_exists { bank < length self.old.banks }
        requires block_exists { at < length (bank_numbered self.old.banks bank) }
        requires size { length from.now ≡ self.old.words }
        ensures written { self.new
            ≡ record self.old {
              banks = slice_set self.old.banks bank (slice_set (bank_numbered self.old.banks bank) at from.now);
              orams = self.new.orams;
            } }
        ensures leaves { AreLeaves result }
        ensures accessed { Accessed B.shows B.comes self.old.orams self.new.orams
            (record { bank = bank; block = at }) result }
    {
        match bank {
            0 => self.ram.write(at, from),
            1 => self.eram.write(at, from),
            _ => {
                let oram = &mut self.orams[bank as usize - 2];
                oram.write(at, from)
            }
        }
    }

    /// A word of a block of a bank. Reading it isn't an access.
    pub(crate) fn word(&self, bank: u8, at: u32, index: u32) -> i64
        requires bank_exists { bank < length self.now.banks }
        requires block_exists { at < length (bank_numbered self.now.banks bank) }
        requires within { index < self.now.words }
        ensures { result ≡ word_in (block_numbered (bank_numbered self.now.banks bank) at) index }
    {
        match bank {
            0 => self.ram.word(at, index),
            1 => self.eram.word(at, index),
            _ => {
                let oram = &self.orams[bank as usize - 2];
                oram.word(at, index)
            }
        }
    }
}
