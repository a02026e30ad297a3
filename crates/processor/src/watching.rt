ghost use Rattle.std.specs.Prelude.{◌≡◌, ◌≤◌, ◌^◌, ◌-◌, ℕ, List, Bool, IsTrue, OnOk, OnErr, is_ok, [], ◌∷◌, ◌++◌};
ghost use Rattle.gr_base.specs.Prelude.{Rose};
ghost use Rattle.lt_isa.specs.Prelude.{observed_of, seen_at};
ghost use Rattle.processor.specs.Watching.{AnEvent, APath, WatcherTold, events_in};

use banks::Leaves;
use lt_isa::Event;
use thiserror::Error;

/// A watcher failed to take a report, and counted the failure.
#[derive(Clone, Copy, Debug, PartialEq, Eq, Error)]
#[error("the watcher failed")]
pub struct WatchFailed;

/// A watcher of the memory bus. It receives each event with its stamp, the cycle at which the event's instruction
/// starts, and after each access to an oblivious bank the paths that the access showed.
///
/// What it heard is a relation between the watcher before some calls and the watcher after them, as for a bank before
/// and after some accesses. Once a call failed, the watcher takes no more, and what it was given last wasn't heard. Its
/// count of faults never falls and stops at 2^64 - 1.
pub trait Watch {
    /// Whether the second watcher is the first one after calls in which it heard these things, and no others, in this
    /// order.
    /// why: a relation and not a list that is read back, so a watcher that writes lines needs no parser for them, and
    /// one that forwards to another uses that one's relation.
    ghost hears: { Self → List WatcherTold → Self → Type 0 };

    /// Whether the watcher reveals the events that it hears: then those that it heard since another are one list. One
    /// that doesn't may hear any.
    /// why: a watcher that prints lines reveals no events, since a line determines its event only if its numbers are in
    /// their ranges, and in a contract the words of an event have no range.
    ghost tells: { Self → Type 0 };

    /// How many calls the watcher failed at.
    ghost faults: { Self → ℕ };

    /// Whether no call has failed.
    ghost whole: { Self → Bool };

    /// Whether the watcher may have failed at this.
    ghost torn: { Self → WatcherTold → Type 0 };

    /// What stays the same of a watcher through all its calls, such as the sink that it writes lines to.
    /// why: a caller that lends a sink to a watcher knows that the same sink is returned.
    ghost same: { Self → Self → Type 0 };

    /// An event is seen. A watcher that reveals its events after the call revealed them before.
    fn seen(&mut self, stamp: u32, event: &Event) -> Result<(), WatchFailed>
        requires { IsTrue (whole self.old) }
        ensures heard { OnOk result (hears self.old (AnEvent (seen_at stamp (observed_of event.now)) ∷ []) self.new) }
        ensures unheard { OnErr result (hears self.old [] self.new) }
        ensures told_before { tells self.new → tells self.old }
        ensures torn { OnErr result (torn self.new (AnEvent (seen_at stamp (observed_of event.now)))) }
        ensures failed { OnErr result (Rose (faults self.old) (faults self.new)) }
        ensures whole { whole self.new ≡ is_ok result }
        ensures count { faults self.old ≤ faults self.new }
        ensures count_stays { faults self.old ≡ 2 ^ 64 - 1 → faults self.new ≡ 2 ^ 64 - 1 }
        ensures same { same self.old self.new };

    /// An access to an oblivious bank, whose event was seen with this stamp, showed these paths. A watcher that reveals
    /// its events after the call revealed them before.
    fn path(&mut self, stamp: u32, bank: u8, leaves: &Leaves) -> Result<(), WatchFailed>
        requires { IsTrue (whole self.old) }
        ensures heard { OnOk result (hears self.old (APath stamp bank leaves.now ∷ []) self.new) }
        ensures unheard { OnErr result (hears self.old [] self.new) }
        ensures told_before { tells self.new → tells self.old }
        ensures torn { OnErr result (torn self.new (APath stamp bank leaves.now)) }
        ensures failed { OnErr result (Rose (faults self.old) (faults self.new)) }
        ensures whole { whole self.new ≡ is_ok result }
        ensures count { faults self.old ≤ faults self.new }
        ensures count_stays { faults self.old ≡ 2 ^ 64 - 1 → faults self.new ≡ 2 ^ 64 - 1 }
        ensures same { same self.old self.new };

    /// Where no call has failed, a watcher has heard nothing since itself.
    ghost hears_none: { (watcher : Self) → IsTrue (whole watcher) → hears watcher [] watcher };

    /// What was heard from a first watcher to a second, and from there to a third, was heard in sequence from the first
    /// to the third.
    ghost hears_then: { (first second third : Self) (told more : List WatcherTold)
        → hears first told second → hears second more third → hears first (told ++ more) third };

    /// If a watcher reveals its events, those that it heard since another are at most one list.
    ghost events_once: { (before now : Self) (told other : List WatcherTold)
        → tells now → hears before told now → hears before other now → events_in told ≡ events_in other };

    /// A watcher is the same as itself.
    ghost same_itself: { (watcher : Self) → same watcher watcher };

    /// What is the same through two stretches of calls is the same through both.
    ghost same_through: { (before between after : Self)
        → same before between → same between after → same before after };
}
