// The branches that are crossed as regions.
ghost use Rattle.std.specs.Prelude.{◌≡◌, ◌<◌, ◌∷◌, [], OnOk, OnErr, IfOk};
ghost use Rattle.note_infer.specs.Ways.{is_crossed};

use gr_word::Memory;
use std::alloc::Global;
use std::marker::Model;

/// The branches that are crossed as regions, seen as a list, the last that joined first, of code of a size.
#[derive(Drop)]
pub struct Crossed {
    // the branches in the order in which they joined
    joined: Vec<u32>,
    // of each place whether it is one of them
    among: Vec<bool>,
}

impl Model for Crossed {
    ghost use Rattle.std.specs.Prelude.{length, reverse};
    ghost use Rattle.note_infer.specs.Crossings.{Crossings, TellsCrossed};

    ghost Value = { Crossings };

    ghost view = { λ c. record { size = length c.among.items; list = reverse c.joined.items } };

    ghost invariant = { λ c. TellsCrossed (reverse c.joined.items) c.among.items };
}

impl Crossed {
    /// None of this many places.
    #[tactic(auto, using(crate::proofs::CrossedTables::tells_none))]
    pub fn new(alloc: Global, size: usize) -> Result<Crossed, Memory>
        ensures { IfOk result (λ crossed. crossed ≡ record { size = size; list = [] }) }
    {
        match vec![in alloc; false; size] {
            Err(_) => Err(Memory),
            Ok(among) => Ok(Crossed {
                joined: Vec::new(alloc),
                among,
            }),
        }
    }

    /// Whether the branch at a place is one of them.
    pub fn has(&self, place: u32) -> bool
        ensures { result ≡ is_crossed self.now.list place }
    {
        let place = place as usize;
        if place < self.among.len() {
            self.among[place]
        } else {
            false
        }
    }

    /// The branch at a place joins them. Running out of memory leaves them as they were.
    #[tactic(auto, using(crate::proofs::CrossedTables::tells_more))]
    pub fn join(&mut self, place: u32) -> Result<(), Memory>
        requires { place < self.old.size }
        ensures joined { OnOk result
            (self.new ≡ record { size = self.old.size; list = place ∷ self.old.list }) }
        ensures unchanged { OnErr result (self.new ≡ self.old) }
    {
        match self.joined.push(place) {
            Err(_) => Err(Memory),
            Ok(()) => {
                self.among[place as usize] = true;
                Ok(())
            }
        }
    }
}
