ghost use Rattle.std.specs.Prelude.{◌≡◌, ◌<◌, ◌≤◌, ◌-◌, [], IfOk, OnOk, IsTrue};
ghost use Rattle.run_tools.specs.TraceReading.{MayRead, TakesNext, left_to_read, wants_more};

use crate::recorder::{Recorded, Recorder};
use gr_base::Memory;
use processor::{Bank, Machine};
use std::alloc::Global;
use std::collections::VecDeque;

/// The cycles that a machine is run at once. Only the events of one such window are kept, of which there are at most as
/// many as cycles: an access takes a cycle at least.
const WINDOW: u32 = 1024;

/// Reads the trace of a machine below a cycle event by event. The machine is run only as far as it is read, window by
/// window, so that the memory needed doesn't grow with the trace.
#[derive(Drop)]
pub(crate) struct TraceReader {
    waiting: VecDeque<Recorded>,
    reached: u32,
    cycles: u32,
}

impl TraceReader {
    /// A reader of the events that start below this cycle, of a machine that wasn't run yet.
    pub(crate) fn new(alloc: Global, cycles: u32) -> TraceReader
        ensures waiting { result.waiting.items ≡ [] }
        ensures reached { result.reached ≡ 0 }
        ensures cycles { result.cycles ≡ cycles }
    {
        TraceReader {
            waiting: VecDeque::new(alloc),
            reached: 0,
            cycles,
        }
    }

    /// The next event of the trace; `None` once all were read.
    pub(crate) fn next<B: Bank + Drop>(
        &mut self,
        alloc: Global,
        machine: &mut Machine<'_, B>,
    ) -> Result<Option<Recorded>, Memory>
        requires { MayRead self.old machine.old.object machine.old.state }
        ensures next { IfOk result (λ event. TakesNext
            (left_to_read self.old machine.old.object machine.old.state machine.old.live)
            event
            (left_to_read self.new machine.new.object machine.new.state machine.new.live)) }
        ensures may_read { OnOk result (MayRead self.new machine.new.object machine.new.state) }
    {
        'reading: while self.wants_more(machine.live()) {
            self.read_window(alloc, machine)?;
        }
        Ok(self.waiting.pop_front())
    }

    // Whether no event waits, and the machine may show more.
    fn wants_more(&self, live: bool) -> bool
        ensures { result ≡ wants_more self.now live }
    {
        live && self.reached < self.cycles && self.waiting.is_empty()
    }

    // Runs the machine through one more window.
    fn read_window<B: Bank + Drop>(
        &mut self,
        alloc: Global,
        machine: &mut Machine<'_, B>,
    ) -> Result<(), Memory>
        requires may_read { MayRead self.old machine.old.object machine.old.state }
        requires wants_more { IsTrue (wants_more self.old machine.old.live) }
        ensures left { OnOk result
            (left_to_read self.new machine.new.object machine.new.state machine.new.live
            ≡ left_to_read self.old machine.old.object machine.old.state machine.old.live) }
        ensures may_read { OnOk result (MayRead self.new machine.new.object machine.new.state) }
        ensures nearer { OnOk result (self.new.cycles - self.new.reached < self.old.cycles - self.old.reached) }
    {
        let until = self.window_end();
        let mut recorder = Recorder::new(alloc);
        match machine.run(until, &mut recorder) {
            Ok(_) => {
                self.waiting = recorder.events;
                self.reached = until;
                Ok(())
            }
            Err(_) => Err(Memory),
        }
    }

    // The cycle up to which the next window goes.
    fn window_end(&self) -> u32
        ensures later { self.now.reached < self.now.cycles → self.now.reached < result }
        ensures most { self.now.reached < self.now.cycles → result ≤ self.now.cycles }
    {
        self.reached.saturating_add(WINDOW).min(self.cycles)
    }
}
