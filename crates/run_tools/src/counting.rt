ghost use Rattle.std.specs.Prelude.{◌≡◌, IfOk, IsTrue, length, replicate};
ghost use Rattle.lt_isa.specs.Prelude.{trace_from};
ghost use Rattle.run_tools.specs.Counting.{CountsEvents, CountsOneMore, access_counted};

use crate::recorder::{OwnedEvent, Recorded};
use crate::trace_reader::TraceReader;
use gr_base::Memory;
use processor::{Bank, End, Machine};
use std::alloc::Global;

/// How many events of each kind a run shows, and how it ends.
#[derive(Drop)]
pub struct Tally {
    /// Reads of plain memory.
    pub ram_reads: u32,
    /// Writes of plain memory.
    pub ram_writes: u32,
    /// Reads of encrypted memory.
    pub eram_reads: u32,
    /// Writes of encrypted memory.
    pub eram_writes: u32,
    /// Accesses to each bank, by its number, if it is an oblivious one.
    pub orams: Vec<u32>,
    /// How the run ends.
    pub end: End,
}

/// Counts the events of a machine's run that start below this cycle, and the accesses to oblivious banks for this many
/// banks, the object's. The memory needed doesn't grow with the trace.
pub fn count_events<B: Bank + Drop>(
    alloc: Global,
    machine: &mut Machine<'_, B>,
    banks: usize,
    cycles: u32,
) -> Result<Tally, Memory>
    requires { IsTrue machine.old.live }
    ensures counts { IfOk result
        (λ tally. CountsEvents tally (trace_from machine.old.object machine.old.state cycles)) }
    ensures banks { IfOk result (λ tally. length tally.orams.items ≡ banks) }
{
    let orams = zeros(alloc, banks)?;
    let mut trace = TraceReader::new(alloc, cycles);
    let mut counts = Tally {
        ram_reads: 0,
        ram_writes: 0,
        eram_reads: 0,
        eram_writes: 0,
        orams,
        end: End::Spent,
    };
    let _ = machine.live();
    'counting: loop {
        match trace.next(alloc, machine)? {
            Some(event) => {
                counts.count(&event);
                drop(event);
            }
            None => return Ok(counts),
        }
    }
}

fn zeros(alloc: Global, count: usize) -> Result<Vec<u32>, Memory>
    ensures { IfOk result (λ counts. counts.items ≡ replicate count 0) }
{
    Ok(vec![in alloc; 0; count]?)
}

impl Tally {
    // Counts an event. A count of 2^32 - 1, which no run reaches, doesn't rise.
    fn count(&mut self, recorded: &Recorded)
        ensures { CountsOneMore self.old recorded.now self.new }
    {
        match &recorded.event {
            OwnedEvent::RamRead(_, _) => self.ram_reads = self.ram_reads.saturating_add(1),
            OwnedEvent::RamWrite(_, _) => self.ram_writes = self.ram_writes.saturating_add(1),
            OwnedEvent::EncRead(_) => self.eram_reads = self.eram_reads.saturating_add(1),
            OwnedEvent::EncWrite(_) => self.eram_writes = self.eram_writes.saturating_add(1),
            OwnedEvent::Oram(bank) => count_access(&mut self.orams, *bank as usize),
            OwnedEvent::Halt => self.end = End::Halted(recorded.stamp),
        }
    }
}

// Counts an access to an oblivious bank.
fn count_access(orams: &mut Vec<u32>, bank: usize)
    ensures { orams.new.items ≡ access_counted bank orams.old.items }
{
    if bank < orams.len() {
        orams[bank] = orams[bank].saturating_add(1);
    }
}
