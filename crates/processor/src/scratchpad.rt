ghost use Rattle.std.specs.Prelude.{◌≡◌, ◌<◌, IfOk, IfSome, length, map, replicate, slice_index_or, slice_set};
ghost use Rattle.lt_isa.specs.Prelude.{Bound, Unbound};
ghost use Rattle.banks.specs.Prelude.{AreLeaves, block_numbered};
ghost use Rattle.processor.specs.Machines.{bank_numbered};
ghost use Rattle.processor.specs.ObliviousBanks.{Accessed};

use crate::memories::Banks;
use banks::{Bank, Leaves};
use gr_base::Memory;
use std::alloc::Global;
use std::marker::Model;

/// The slots of the scratchpad.
pub(crate) const SLOTS: usize = 8;

/// A slot: whether it is bound, the block that it is bound to, and room for a block's words.
#[derive(Drop)]
pub(crate) struct Cell {
    pub(crate) bound: bool,
    pub(crate) bank: u8,
    pub(crate) block: u32,
    pub(crate) words: Vec<i64>,
}

/// What a bound slot holds.
#[derive(Clone, Copy)]
pub(crate) struct Held<'a> {
    pub(crate) bank: u8,
    pub(crate) block: u32,
    pub(crate) words: &'a [i64],
}

/// The scratchpad. Seen as its slots.
#[derive(Drop)]
pub(crate) struct Scratchpad {
    words: u32,
    pub(crate) cells: Vec<Cell>,
}

impl Model for Scratchpad {
    ghost use Rattle.std.specs.Prelude.{◌≡◌, length, map};
    ghost use Rattle.processor.specs.Stores.{Pad};

    ghost Value = { Pad };

    ghost use Rattle.processor.specs.Scratchpads.{cell_slot, HaveRoom};

    ghost view = { λ p. record { words = p.words; slots = map cell_slot p.cells.items } };

    ghost invariant = { λ p. (length p.cells.items ≡ 8) × HaveRoom p.words p.cells.items };
}

impl Scratchpad {
    ghost use Rattle.processor.specs.Scratchpads.{HaveRoom, held_slot, cell_slot, slot_with_word};

    /// A scratchpad of unbound slots with room for this many words each.
    pub(crate) fn new(alloc: Global, words: u32) -> Result<Scratchpad, Memory>
        ensures { IfOk result (λ p. p ≡ record { words = words; slots = replicate 8 Unbound }) }
    {
        let cells = Scratchpad::unbound_cells(alloc, SLOTS, words)?;
        Ok(Scratchpad { words, cells })
    }

    /// What a slot holds, none if it is unbound.
    pub(crate) fn held(&self, slot: u8) -> Option<Held<'_>>
        requires { slot < 8 }
        ensures value { held_slot result ≡ slice_index_or self.now.slots slot Unbound }
        ensures size { IfSome result (λ h. length h.words.now ≡ self.now.words) }
    {
        let cell = &self.cells[slot as usize];
        if cell.bound {
            Some(Held {
                bank: cell.bank,
                block: cell.block,
                words: cell.words.as_slice(),
            })
        } else {
            None
        }
    }

    /// Replaces a word of a slot. An unbound slot stays one.
    pub(crate) fn set_word(&mut self, slot: u8, index: usize, word: i64)
        requires exists { slot < 8 }
        requires within { index < self.old.words }
        ensures { self.new
            ≡ record self.old {
              slots = slice_set self.old.slots slot
                  (slot_with_word index word (slice_index_or self.old.slots slot Unbound));
            } }
    {
        let cell = &mut self.cells[slot as usize];
        cell.words[index] = word;
    }

    /// Binds a slot to a block, and reads the block into it.
    pub(crate) fn load<P: Bank + Drop, B: Bank + Drop>(
        &mut self,
        slot: u8,
        banks: &mut Banks<P, B>,
        bank: u8,
        block: u32,
    ) -> Leaves
        requires exists { slot < 8 }
        requires bank_exists { bank < length banks.old.banks }
        requires block_exists { block < length (bank_numbered banks.old.banks bank) }
        requires size { banks.old.words ≡ self.old.words }
        ensures bound { self.new
            ≡ record self.old {
              slots = slice_set self.old.slots slot
                  (Bound bank block (block_numbered (bank_numbered banks.old.banks bank) block));
            } }
        ensures banks { banks.new ≡ record banks.old { orams = banks.new.orams } }
        ensures leaves { AreLeaves result }
        ensures accessed { Accessed B.shows B.comes banks.old.orams banks.new.orams
            (record { bank = bank; block = block }) result }
    {
        let cell = &mut self.cells[slot as usize];
        cell.bound = true;
        cell.bank = bank;
        cell.block = block;
        banks.read(bank, block, cell.words.as_mut_slice())
    }

    // This many unbound cells with room for this many words each.
    fn unbound_cells(alloc: Global, count: usize, words: u32) -> Result<Vec<Cell>, Memory>
        ensures slots { IfOk result (λ cells. map cell_slot cells.items ≡ replicate count Unbound) }
        ensures count { IfOk result (λ cells. length cells.items ≡ count) }
        ensures room { IfOk result (λ cells. HaveRoom words cells.items) }
    {
        let mut cells = Vec::new(alloc);
        for _ in 0..count {
            cells.push(Scratchpad::unbound_cell(alloc, words)?)?;
        }
        Ok(cells)
    }

    fn unbound_cell(alloc: Global, words: u32) -> Result<Cell, Memory>
        ensures slot { IfOk result (λ cell. cell_slot cell ≡ Unbound) }
        ensures room { IfOk result (λ cell. length cell.words.items ≡ words) }
    {
        Ok(Cell {
            bound: false,
            bank: 0,
            block: 0,
            words: vec![in alloc; 0; words as usize]?,
        })
    }
}
