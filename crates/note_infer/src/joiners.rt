// The places of branches that may join those that are crossed, of which the lowest is taken first.
ghost use Rattle.std.specs.Prelude.{◌≡◌, ◌∷◌, ◌≤◌, [], OnOk, OnErr, IfSome, IfNone};
ghost use Rattle.std.specs.List.{All};
ghost use Rattle.std.specs.List.Sorted.{IsPermutation};

use gr_word::Memory;
use std::alloc::Global;
use std::cmp::Reverse;
use std::collections::BinaryHeap;
use std::marker::Model;

/// Places of branches that may join, seen as a list. One that may no longer join may be among them, and one may be
/// there more than once.
#[derive(Drop)]
pub struct Joiners {
    places: BinaryHeap<Reverse<u32>>,
}

impl Model for Joiners {
    ghost use Rattle.std.specs.Prelude.{ℕ, List, map};
    ghost use Rattle.std.specs.Ordering.{nat_cmp};
    ghost use Rattle.std.specs.BinaryHeap.{IsHeap, heap_items};

    ghost Value = { List ℕ };

    ghost view = { λ j. map (λ r. r.0) (heap_items j.places) };

    ghost invariant = { λ j. IsHeap (λ x y. nat_cmp y.0 x.0) (heap_items j.places) };
}

impl Joiners {
    /// There are none yet.
    pub fn new(alloc: Global) -> Joiners
        ensures { result ≡ [] }
    {
        Joiners {
            places: BinaryHeap::new(alloc),
        }
    }

    /// One more place. Running out of memory leaves them as they were.
    pub fn push(&mut self, place: u32) -> Result<(), Memory>
        ensures added { OnOk result (IsPermutation (place ∷ self.old) self.new) }
        ensures unchanged { OnErr result (self.new ≡ self.old) }
    {
        match self.places.push(Reverse(place)) {
            Err(_) => Err(Memory),
            Ok(()) => Ok(()),
        }
    }

    /// Takes the lowest place, if there is one.
    pub fn pop(&mut self) -> Option<u32>
        ensures taken { IfSome result (λ place. IsPermutation self.old (place ∷ self.new)) }
        ensures lowest { IfSome result (λ place. All (λ other. place ≤ other) self.old) }
        ensures none { IfNone result (self.old ≡ []) }
    {
        match self.places.pop() {
            None => None,
            Some(Reverse(place)) => Some(place),
        }
    }
}
