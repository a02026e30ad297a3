ghost use Rattle.std.specs.Prelude.{◌≡◌, option_map};
ghost use Rattle.trace_patterns.specs.Prelude.{Known};
ghost use Rattle.lt_checker.specs.ByPlace.{arrival_at, refusal_in};
ghost use Rattle.lt_checker.specs.Effects.{made, arrived, refused};

use trace_patterns::Reason;

/// The check's result for a place. What is known at the next place that is reached is stored separately.
#[derive(Clone, Copy, Debug)]
pub enum Effect {
    /// The place is refused.
    Refused(Reason),
    /// The place falls through to the next one.
    Falls,
    /// The place doesn't fall through to the next one.
    Leaves,
    /// The place opens a region that is crossed. The next place that is reached is its join.
    Joins(u32),
    /// The place opens a region that is refused at one of its places.
    Stuck { place: u32, reason: Reason },
}

/// How the place before one reaches it. What is known there, or at the join, is stored separately.
#[derive(Clone, Copy, Debug)]
pub enum Arrival {
    /// The place before doesn't reach it.
    Unreached,
    /// The place before reaches it.
    Here,
    /// The place is inside a region that was crossed, with this join. It isn't visited.
    Inside(u32),
}

/// The result of entering a place.
#[derive(Clone, Copy, Debug)]
pub enum Entry {
    /// The place is refused.
    Refused(Reason),
    /// The place isn't visited, since it is inside a region with this join.
    Passes(u32),
    /// The place is visited.
    Enters,
}

/// A place that is refused, and why.
#[derive(Clone, Copy, Debug)]
pub struct Refusal {
    pub pc: u32,
    pub reason: Reason,
}

impl Effect {
    /// The refusal, if this is the effect of `place` and something is refused.
    pub fn refusal(self, place: u32) -> Option<Refusal>
        ensures { (k : Known) → option_map refused result ≡ refusal_in place (made self k) }
    {
        match self {
            Effect::Refused(reason) => Some(Refusal { pc: place, reason }),
            Effect::Falls => None,
            Effect::Leaves => None,
            Effect::Joins(_) => None,
            Effect::Stuck { place, reason } => Some(Refusal { pc: place, reason }),
        }
    }

    /// How the place before `next` reaches it, if this is the effect of the place before.
    pub fn arrival(self, next: usize) -> Arrival
        ensures { (k : Known) → arrived result k ≡ arrival_at next (made self k) }
    {
        match self {
            Effect::Refused(_) => Arrival::Unreached,
            Effect::Falls => Arrival::Here,
            Effect::Leaves => Arrival::Unreached,
            Effect::Joins(join) => {
                if next == join as usize {
                    return Arrival::Here;
                }
                Arrival::Inside(join)
            }
            Effect::Stuck { .. } => Arrival::Unreached,
        }
    }
}
