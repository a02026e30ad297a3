ghost use Rattle.std.specs.Prelude.{◌≡◌, [], true};
ghost use Rattle.lt_isa.specs.Prelude.{observed_of};
ghost use Rattle.call_steps.specs.Counting.{Counts, counted_all};

use lt_isa::Event;
use processor::{Leaves, Watch, WatchFailed};

/// A watcher that counts the accesses to plain memory, to encrypted memory and to oblivious bank 2, keeps nothing else
/// and never fails. A count stops at 2^32 - 1.
#[derive(Clone, Copy)]
pub struct CountWatch {
    /// The accesses to plain memory.
    pub ram: u32,
    /// The accesses to encrypted memory.
    pub eram: u32,
    /// The accesses to oblivious bank 2.
    pub oram2: u32,
}

impl CountWatch {
    /// A watcher that has counted nothing.
    pub fn new() -> CountWatch
        ensures { Counts result [] }
    {
        CountWatch {
            ram: 0,
            eram: 0,
            oram2: 0,
        }
    }

    // Counts an event.
    fn count(&mut self, event: &Event)
        ensures { self.new ≡ counted_all (observed_of event.now) self.old }
    {
        match event {
            Event::RamRead(..) | Event::RamWrite(..) => self.ram = self.ram.saturating_add(1),
            Event::EncRead(_) | Event::EncWrite(_) => self.eram = self.eram.saturating_add(1),
            Event::Oram(bank) => {
                if *bank == 2 {
                    self.oram2 = self.oram2.saturating_add(1);
                }
            }
            Event::Halt => {}
        }
    }
}

impl Watch for CountWatch {
    ghost use Rattle.std.specs.Prelude.{true};
    ghost use Rattle.call_steps.specs.Counting.{Counts};
    ghost use Rattle.processor.specs.Keeping.{tells-none, tells-then};
    ghost use Rattle.processor.specs.Watching.{TellsMore};

    ghost hears = { λ before told now. TellsMore (Counts before) (Counts now) told };

    ghost tells = { λ watcher. ⊥ };

    ghost faults = { λ watcher. 0 };

    ghost whole = { λ watcher. true };

    ghost torn = { λ watcher shown. ⊥ };

    ghost same = { λ before after. Unit {0} };

    fn seen(&mut self, _stamp: u32, event: &Event) -> Result<(), WatchFailed> {
        self.count(event);
        Ok(())
    }

    fn path(&mut self, _stamp: u32, _bank: u8, _leaves: &Leaves) -> Result<(), WatchFailed> {
        Ok(())
    }

    ghost hears_none = { λ watcher whole. tells-none (Counts watcher) };

    ghost hears_then = { λ first second third told more one two.
        tells-then (Counts first) (Counts second) (Counts third) told more one two };

    ghost events_once = { λ before now told other tells one two. absurd tells };

    ghost same_itself = { λ watcher. tt };

    ghost same_through = { λ before between after first second. tt };
}
