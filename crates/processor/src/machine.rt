ghost use Rattle.std.specs.Prelude.{◌≡◌, ◌<◌, [], ◌∷◌, IfOk, IfSome, IsSomeAnd, ◌≤◌, drop, length, map, slice_get, true, Some};
ghost use Rattle.gr_word.specs.Prelude.{AreWords, words_at};
ghost use Rattle.lt_isa.specs.Prelude.{IsInRange, IsShaped, outputs, symbol_word, symbol_words};
ghost use Rattle.processor.specs.Machines.{AreBanksOf, LiesIn, bank_numbered, fresh_state};
ghost use Rattle.processor.specs.ObliviousBanks.{oram_of};

use crate::flat::{Flat, flat_code};
use crate::memories::Banks;
use crate::scratchpad::Scratchpad;
use banks::{Bank, PlainBank};
use gr_word::{Inputs, Memory};
use lt_checker::Accepted;
use lt_isa::symbol_places::first_word;
use lt_isa::{Object, Symbol};
use std::alloc::Global;
use std::marker::Model;

/// The machine, which runs an accepted object over banks of memory. Seen as the object, the state that it is in, and
/// whether it is live.
#[derive(Drop)]
pub struct Machine<'a, B: Bank + Drop> {
    // The place is stored apart from the cycle: side by side the two are added as one vector, which a jump then reads
    // back in halves.
    pub(crate) place: usize,
    pub(crate) object: &'a Object,
    pub(crate) flats: Vec<Flat>,
    pub(crate) registers: [i64; 32],
    pub(crate) pad: Scratchpad,
    pub(crate) banks: Banks<PlainBank, B>,
    pub(crate) cycle: u64,
    pub(crate) live: bool,
}

impl<'a, B: Bank + Drop> Model for Machine<'a, B> {
    ghost use Rattle.processor.specs.Machines.{Running};

    ghost Value = { Running B };

    ghost use Rattle.processor.specs.Flat.{IsFlatOf};
    ghost use Rattle.processor.specs.Stepping.{IsSound};

    ghost view = { λ m. record {
      object = m.object.now;
      state = record {
        registers = m.registers;
        slots = m.pad.slots;
        banks = m.banks.banks;
        place = m.place;
        cycle = m.cycle;
      };
      orams = m.banks.orams;
      live = m.live;
    } };

    ghost invariant = { λ m. record {
      sound : IsSound m.object.now (record {
        registers = m.registers;
        slots = m.pad.slots;
        banks = m.banks.banks;
        place = m.place;
        cycle = m.cycle;
      }) m.pad.words m.banks.words;
      flat : IsFlatOf m.flats.items m.object.now.code;
    } };
}

/// A machine for an accepted object with these banks, its oblivious banks from number 2 on: at the first instruction
/// and cycle 0, its registers 0 and its slots unbound. The room of the scratchpad and of the code's flat form is taken
/// here.
pub fn load<'a, B: Bank + Drop>(
    alloc: Global,
    accepted: &'a Accepted,
    ram: PlainBank,
    eram: PlainBank,
    orams: Vec<B>,
) -> Result<Machine<'a, B>, Memory>
    requires { AreBanksOf accepted.now (ram.contents ∷ eram.contents ∷ map B.contents orams.items)
        (ram.width ∷ eram.width ∷ map B.width orams.items) }
    ensures { IfOk result
        (λ machine. machine
        ≡ record {
          object = accepted.now;
          state = fresh_state (ram.contents ∷ eram.contents ∷ map B.contents orams.items);
          orams = orams.items;
          live = true;
        }) }
{
    let object = accepted.object();
    let words = object.profile().block_words();
    let flats = flat_code(alloc, object)?;
    let pad = Scratchpad::new(alloc, words)?;
    let banks = Banks {
        words,
        ram,
        eram,
        orams,
    };
    Ok(Machine {
        object,
        flats,
        registers: [0; 32],
        pad,
        banks,
        place: 0,
        cycle: 0,
        live: true,
    })
}

impl<'a, B: Bank + Drop> Machine<'a, B> {
    /// The object that the machine runs.
    pub fn object(&self) -> &'a Object
        ensures { result.now ≡ self.now.object }
    {
        self.object
    }

    /// Whether the machine may be run: it has not halted, and no watcher of it has failed.
    pub fn live(&self) -> bool
        ensures value { result ≡ self.now.live }
        ensures contents { map B.contents self.now.orams ≡ drop 2 self.now.state.banks }
        ensures shaped { IsShaped self.now.object self.now.state }
        ensures in_range { IsInRange self.now.object }
    {
        let _ = self.object.code();
        let _words = self.banks.words;
        self.live
    }

    /// The cycles that have passed.
    pub fn cycle(&self) -> u64
        ensures value { result ≡ self.now.state.cycle }
        ensures contents { map B.contents self.now.orams ≡ drop 2 self.now.state.banks }
        ensures shaped { IsShaped self.now.object self.now.state }
        ensures in_range { IsInRange self.now.object }
    {
        let _ = self.object.code();
        let _words = self.banks.words;
        self.cycle
    }

    /// An oblivious bank as it is, by its number.
    pub fn oram(&self, bank: u8) -> &B
        requires oblivious { 2 ≤ bank }
        requires exists { bank < length self.now.object.banks }
        ensures bank { oram_of self.now.orams bank ≡ Some result.now }
        ensures contents { B.contents result.now ≡ bank_numbered self.now.state.banks bank }
    {
        &self.banks.orams[bank as usize - 2]
    }

    /// A word of a symbol, as the banks have it.
    pub fn word(&self, symbol: usize, index: u32) -> i64
        requires { IsSomeAnd (slice_get self.now.object.symbols symbol) (λ s. index < s.length) }
        ensures { IfSome (slice_get self.now.object.symbols symbol)
            (λ s. result ≡ symbol_word self.now.object self.now.state s index) }
    {
        self.word_of(&self.object.symbols()[symbol], index)
    }

    /// The words of all symbols, as the banks have them, in the object's order.
    pub fn outputs(&self, alloc: Global) -> Result<Inputs, Memory>
        ensures { IfOk result (λ lists. lists ≡ outputs self.now.object self.now.state) }
    {
        let mut lists = Inputs::new(alloc);
        for symbol in self.object.symbols() {
            lists.push(self.words_of(alloc, symbol)?)?;
        }
        Ok(lists)
    }

    // The words of a symbol of the object.
    fn words_of(&self, alloc: Global, symbol: &Symbol) -> Result<Vec<i64>, Memory>
        requires { LiesIn self.now.object symbol.now }
        ensures { IfOk result (λ words. words.items ≡ symbol_words self.now.object self.now.state symbol.now) }
    {
        let mut words = Vec::with_capacity(alloc, symbol.length as usize)?;
        for index in 0..symbol.length {
            words.push(self.word_of(symbol, index))?;
        }
        Ok(words)
    }

    // A word of a symbol of the object.
    fn word_of(&self, symbol: &Symbol, index: u32) -> i64
        requires lies { LiesIn self.now.object symbol.now }
        requires within { index < symbol.now.length }
        ensures { result ≡ symbol_word self.now.object self.now.state symbol.now index }
    {
        let words = self.object.profile().block_words();
        let number = first_word(words, symbol) + u64::from(index);
        let block = number / u64::from(words);
        let at = number % u64::from(words);
        self.banks.word(symbol.bank, block as u32, at as u32)
    }
}
