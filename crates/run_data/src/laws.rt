ghost use Rattle.std.specs.Prelude.{◌≡◌, ℕ, ℤ, ◌^◌, ◌<◌, ◌≤◌, Bool, List, length};
ghost use Rattle.serde_json.specs.Data.{no_members};
ghost use Rattle.gr_word.specs.declared.variables.Want.{Want};
ghost use Rattle.lt_isa.specs.Prelude.{Stamped};
ghost use Rattle.run_data.specs.OutputText.{AreInOrder, members_with};
ghost use Rattle.run_data.specs.TraceText.{trace_text_of};
ghost use Rattle.run_data.specs.TraceGrammar.{AreEvents, SpellsTrace};
ghost use Rattle.run_data.specs.TraceFiles.{file_events, IsReadAs};

use crate::trace_files::{TraceError, TraceFile};
use crate::traces::{read_trace, trace_text};
use std::alloc::Global;

/// Does nothing; its clause is the law that a text has one reading: it encodes at most one trace.
pub fn trace_laws()
    ensures one_reading { (size : ℕ) (text : List ℕ) (one two : List Stamped) (h g : Bool)
        → SpellsTrace size text one h → SpellsTrace size text two g → (one ≡ two) × (h ≡ g) }
{}

/// Does nothing; its clause is the law that the names in the text of outputs rise and are those of the variables.
pub fn output_laws()
    ensures in_order { (wants : List Want) (lists : List (List ℤ))
        → length lists ≡ length wants → AreInOrder wants (members_with no_members wants lists) }
{}

/// Writes a trace as text and reads the text, where a block has 2^`block_log` words: the trace is the same, and only
/// running out of memory keeps it from being read.
pub fn written_again(
    alloc: Global,
    file: &TraceFile,
    block_log: u8,
) -> Result<TraceFile, TraceError>
    requires least { 3 ≤ block_log }
    requires most { block_log ≤ 9 }
    requires trace { AreEvents (2 ^ block_log) 0 (file_events file.now) file.now.halted }
    requires short { length (trace_text_of (file_events file.now) file.now.halted) < 2 ^ 32 }
    ensures { IsReadAs result (file_events file.now) file.now.halted }
{
    let text = match trace_text(alloc, file) {
        Ok(text) => text,
        Err(_) => return Err(TraceError::Memory),
    };
    read_trace(alloc, &text, block_log)
}
