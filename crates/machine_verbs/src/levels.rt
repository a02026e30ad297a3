ghost use Rattle.std.specs.Prelude.{◌≡◌, ◌<◌, ◌≤◌, [], length, OnOk};
ghost use Rattle.path_oram.specs.Prelude.{AreLevels};
ghost use Rattle.run_data.specs.Prelude.{levels_line, PutsText};
ghost use Rattle.call_steps.specs.Prelude.{PutsBank, PutsLevels};

use call_steps::oblivious::SeededOram;
use gr_outside::{Sink, SinkFailed};
use processor::{Bank, Machine};
use run_data::{put_level, put_levels_head};

/// Prints a line for each oblivious bank of a machine that has this many banks, with the levels of its blocks. It
/// allocates no memory.
pub(crate) fn put_levels<O: Sink>(
    machine: &Machine<'_, SeededOram>,
    banks: u8,
    out: &mut O,
) -> Result<(), SinkFailed>
    requires least { 2 ≤ banks }
    requires banks { banks ≡ length machine.now.object.banks }
    ensures { PutsLevels (O.seen out.old) (O.seen out.new) banks machine.now.orams result }
{
    for bank in 2..banks {
        match put_bank(machine.oram(bank), bank, out) {
            Ok(()) => {}
            Err(error) => return Err(error),
        }
    }
    Ok(())
}

// Puts the line of one bank.
fn put_bank<O: Sink>(oram: &SeededOram, bank: u8, out: &mut O) -> Result<(), SinkFailed>
    ensures { PutsBank (O.seen out.old) (O.seen out.new) bank oram.now.places result }
{
    let _ = oram.height();
    match put_levels_head(out, bank) {
        Ok(()) => {}
        Err(error) => return Err(error),
    }
    for block in 0..oram.blocks() {
        match put_level(out, oram.level(block)) {
            Ok(()) => {}
            Err(error) => return Err(error),
        }
    }
    out.put(b"\n")
}
