ghost use Rattle.std.specs.Prelude.{◌≡◌, IfOk};

use gr_word::{Label, Memory, Name, Shape, Want};
use std::alloc::Global;

/// A variable and its place: `length` words, from word `word` of block `block` of bank `bank` on.
#[derive(Debug, Drop)]
pub struct Symbol {
    pub name: Name,
    pub label: Label,
    pub shape: Shape,
    pub bank: u8,
    pub block: u32,
    pub word: u16,
    pub length: u32,
}

impl Symbol {
    ghost use Rattle.lt_isa.specs.Start.{want_of};

    /// What the words of the variable must fit.
    pub fn want(&self, alloc: Global) -> Result<Want, Memory>
        ensures { IfOk result (λ want. want ≡ want_of self.now) }
    {
        Ok(Want {
            name: self.name.copy(alloc)?,
            label: self.label,
            shape: self.shape,
            length: self.length,
        })
    }
}

/// Claims about the state at a place of the code: which registers may hold secrets, and to which bank each slot of the
/// scratchpad is bound.
#[derive(Clone, Copy, Debug, PartialEq, Eq)]
pub struct Note {
    /// The place.
    pub pc: u32,
    /// Bit r is set if register r may hold a secret.
    pub secrets: u32,
    /// For each slot a bank's number, or 255 for any bank or none.
    pub slots: [u8; 8],
}
