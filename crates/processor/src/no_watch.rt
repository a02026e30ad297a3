ghost use Rattle.std.specs.Prelude.{◌≡◌, IsOk};

use crate::watching::{Watch, WatchFailed};
use banks::Leaves;
use lt_isa::Event;

/// A watcher that records nothing and never fails. It reveals no events.
#[derive(Clone, Copy, Debug)]
pub struct NoWatch;

impl NoWatch {
    /// A watcher.
    pub fn new() -> NoWatch {
        NoWatch
    }
}

impl Watch for NoWatch {
    ghost use Rattle.std.specs.Prelude.{true};

    ghost hears = { λ before told now. Unit {0} };

    ghost tells = { λ watcher. ⊥ };

    ghost faults = { λ watcher. 0 };

    ghost whole = { λ watcher. true };

    ghost torn = { λ watcher shown. ⊥ };

    ghost same = { λ before after. Unit {0} };

    fn seen(&mut self, _stamp: u32, _event: &Event) -> Result<(), WatchFailed>
        ensures { IsOk result }
    {
        Ok(())
    }

    fn path(&mut self, _stamp: u32, _bank: u8, _leaves: &Leaves) -> Result<(), WatchFailed>
        ensures { IsOk result }
    {
        Ok(())
    }

    ghost hears_none = { λ watcher whole. tt };

    ghost hears_then = { λ first second third told more one two. tt };

    ghost events_once = { λ before now told other tells one two. absurd tells };

    ghost same_itself = { λ watcher. tt };

    ghost same_through = { λ before between after first second. tt };
}
