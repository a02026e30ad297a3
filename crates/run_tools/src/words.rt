ghost use Rattle.std.specs.Prelude.{◌≡◌, ◌↔◌, true, IfOk, IsTrue};
ghost use Rattle.clap.specs.Words.{app_of, is_simple_and_free, kind_of};
ghost use Rattle.command_words.specs.Prelude.{IsFound, texts, command_of};
ghost use Rattle.run_tools.specs.ToolWords.{tool_row};

use clap::error::ErrorKind;
use clap::{ArgMatches, Command, Error};
use command_words::verbs::{Argument, VerbWords, with_all};
use gr_base::Memory;
use std::alloc::Global;

/// The words of a tool that runs an object, without its name and the names of its files.
pub(crate) const OF_RUN: VerbWords<'static> = VerbWords {
    name: "",
    place: Argument::Word,
    places: &[],
    options: &["cycles", "seed"],
    flags: &["paths", "recursive"],
};

/// The words of a tool that compiles a source, without its name.
pub const OF_SOURCE: VerbWords<'static> = VerbWords {
    name: "",
    place: Argument::Word,
    places: &["SRC"],
    options: &["block-log", "window"],
    flags: &["procs", "fast"],
};

/// What a tool finds in the words, its name first, or `None` if they don't fit. The clause is about commands that `clap`
/// states in full.
pub fn matches_of<'a>(
    alloc: Global,
    tool: VerbWords<'static>,
    words: &'a [&'a str],
) -> Result<Option<ArgMatches<'a>>, Memory>
    ensures { is_simple_and_free (command_of (tool_row tool.entry)) ≡ true
        → IfOk result (IsFound (command_of (tool_row tool.entry)) (texts words.now)) }
{
    matches_in(command_of(alloc, tool)?, words)
}

// What a command finds in the words, or `None` if they don't fit.
fn matches_in<'a>(
    command: Command<'a>,
    words: &'a [&'a str],
) -> Result<Option<ArgMatches<'a>>, Memory>
    ensures { is_simple_and_free (app_of command.entry) ≡ true
        → IfOk result (IsFound (app_of command.entry) (texts words.now)) }
{
    match command.try_get_matches_from(words) {
        Ok(matches) => Ok(Some(matches)),
        Err(error) => {
            if wants_memory(&error) {
                return Err(Memory);
            }
            Ok(None)
        }
    }
}

fn wants_memory(error: &Error) -> bool
    ensures { IsTrue result ↔ (kind_of error.now ≡ ErrorKind.OutOfMemory) }
{
    error.kind() == ErrorKind::OutOfMemory
}

// The command of a tool's words.
fn command_of<'a>(alloc: Global, tool: VerbWords<'static>) -> Result<Command<'a>, Memory>
    ensures { IfOk result (λ command. app_of command ≡ command_of (tool_row tool.entry)) }
{
    let empty = Command::new(alloc, tool.name);
    let placed = with_all(alloc, empty, tool.place, tool.places)?;
    let optional = with_all(alloc, placed, Argument::Valued, tool.options)?;
    with_all(alloc, optional, Argument::Flag, tool.flags)
}
