//! What `help` and `--version` print.

ghost use Rattle.std.specs.Prelude.{◌≡◌, OnOk};

use crate::verb_table::{
    NOTES, OPTIONS, OptionHelp, READS, STATUSES, StatusHelp, VERBS, VerbHelp, WRITES,
    name_of_option, returns, takes, text_for,
};
use gr_outside::{Sink, SinkFailed};

/// The version of the program.
pub const VERSION: &str = "1.11.0";

/// Prints all verbs, options and exit statuses.
pub(crate) fn put_help<O: Sink>(out: &mut O) -> Result<(), SinkFailed>
    ensures { OnOk result (O.waiting out.new ≡ 0) }
{
    for verb in VERBS {
        put_usage(verb, out)?;
    }
    put("\nOptions:\n", out)?;
    for row in OPTIONS {
        put_option(row, row.text, out)?;
    }
    put("\n", out)?;
    put(READS, out)?;
    put(WRITES, out)?;
    put(NOTES, out)?;
    put("\nExit status:\n", out)?;
    for row in STATUSES {
        put_status(row, out)?;
        put(row.of, out)?;
        put("\n", out)?;
    }
    out.flush()
}

/// Prints what one verb does, its options, and the exit statuses that it can return.
pub(crate) fn put_help_on<O: Sink>(verb: VerbHelp, out: &mut O) -> Result<(), SinkFailed>
    ensures { OnOk result (O.waiting out.new ≡ 0) }
{
    put_usage(verb, out)?;
    put_options_of(verb, out)?;
    put_streams_of(verb, out)?;
    put("\nExit status:\n", out)?;
    for row in STATUSES {
        if returns(verb, row) {
            put_status(row, out)?;
            put("\n", out)?;
        }
    }
    out.flush()
}

/// Prints what a word does that may stand in the place of a verb or before it.
pub(crate) fn put_help_on_other<O: Sink>(row: VerbHelp, out: &mut O) -> Result<(), SinkFailed>
    ensures { OnOk result (O.waiting out.new ≡ 0) }
{
    put_usage(row, out)?;
    out.flush()
}

fn put_options_of<O: Sink>(verb: VerbHelp, out: &mut O) -> Result<(), SinkFailed> {
    let mut is_first = true;
    for row in OPTIONS {
        if takes(verb, name_of_option(row)) {
            if is_first {
                put("\nOptions:\n", out)?;
            }
            is_first = false;
            put_option(row, text_for(verb, row), out)?;
        }
    }
    Ok(())
}

fn put_streams_of<O: Sink>(verb: VerbHelp, out: &mut O) -> Result<(), SinkFailed> {
    put("\n", out)?;
    if !takes(verb, "ITEMS") {
        put(READS, out)?;
    }
    if takes(verb, "OUT") {
        put(WRITES, out)?;
    }
    Ok(())
}

fn put_usage<O: Sink>(verb: VerbHelp, out: &mut O) -> Result<(), SinkFailed> {
    put("ghostrider ", out)?;
    put(verb.usage, out)?;
    put("\n", out)?;
    put(verb.text, out)
}

fn put_option<O: Sink>(row: OptionHelp, text: &str, out: &mut O) -> Result<(), SinkFailed> {
    put("    ", out)?;
    put(row.option, out)?;
    put("\n", out)?;
    put(text, out)
}

// A status and its text, without the end of the line.
fn put_status<O: Sink>(row: StatusHelp, out: &mut O) -> Result<(), SinkFailed> {
    put("    ", out)?;
    put(row.status, out)?;
    put(if row.status.len() < 2 { "   " } else { "  " }, out)?;
    put(row.text, out)
}

// Prints a text, which the sink may hold back.
fn put<O: Sink>(text: &str, out: &mut O) -> Result<(), SinkFailed> {
    out.put(text.as_bytes())
}
