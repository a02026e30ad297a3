//! Sources that tools compile in memory, each read once.

ghost use Rattle.std.specs.Prelude.{◌≡◌, ◌≤◌, IfOk, IfSome, length};
ghost use Rattle.lt_isa.specs.Prelude.{ProfileFits};

use crate::reports::{Outcome, Tool};
use crate::words::OF_SOURCE;
use call_replies::replies::{Reply, Verdict};
use call_steps::sources::find_source;
use call_steps::targets::Target;
use clap::ArgMatches;
use command_words::options::{block_log_given, flag_given, value};
use command_words::verbs::VerbWords;
use command_words::windows::{window_given, windowed};
use flow_types::Typed;
use gr_base::Memory;
use gr_outside::{File, Shelf, ShelfError, SureShelf};
use lt_checker::{Accepted, CheckError, check};
use lt_isa::Object;
use std::alloc::Global;

/// The most bytes of a source text.
const SOURCE_BYTES: u32 = 1_048_576;

/// The name of a source file, what it is compiled for, and whether it may have procedures.
#[derive(Clone, Copy)]
pub struct SourceWords<'a> {
    pub name: &'a str,
    pub target: Target,
    pub procs: bool,
}

/// The source that the words of a call name, or `None` if an option has no valid value.
pub fn source_in_words<'a>(matches: &ArgMatches<'a>) -> Option<SourceWords<'a>>
    ensures { IfSome result (λ asked. ProfileFits asked.target.profile) }
{
    Some(SourceWords {
        name: value(matches, "SRC")?,
        target: Target {
            profile: windowed(
                block_log_given(value(matches, "block-log"))?,
                window_given(value(matches, "window"))?,
            ),
            fast: flag_given(value(matches, "fast")),
        },
        procs: flag_given(value(matches, "procs")),
    })
}

/// The contents of the file of this name, or the reply if it can't be read, has more bytes than the limit, or memory ran
/// out.
pub fn read_file<'a, S: Shelf>(
    name: &'a str,
    limit: u32,
    shelf: &mut S,
) -> Result<Vec<u8>, Reply<'a>>
    ensures files { (S.seen shelf.new).files ≡ (S.seen shelf.old).files }
    ensures size { IfOk result (λ bytes. length bytes.items ≤ limit) }
{
    match shelf.read(name, limit as usize + 1) {
        Ok(bytes) => {
            if bytes.len() > limit as usize {
                return Err(Reply::TooLong(name, limit));
            }
            Ok(bytes)
        }
        Err(ShelfError::Missing) => Err(Reply::Unread(name)),
        Err(ShelfError::Failed) => Err(Reply::Unread(name)),
        Err(ShelfError::Memory) => Err(Reply::NoMemory),
    }
}

/// A program with the text that it was read from.
#[derive(Drop)]
pub struct ReadSource {
    pub text: Vec<u8>,
    pub program: Typed,
}

/// The program of a source file, with its text, or the reply if the file isn't one.
pub fn read_source<'a, S: Shelf>(
    alloc: Global,
    asked: SourceWords<'a>,
    shelf: &mut S,
) -> Result<ReadSource, Reply<'a>>
    ensures files { (S.seen shelf.new).files ≡ (S.seen shelf.old).files }
    ensures size { IfOk result (λ source. length source.text.items ≤ 1048576) }
{
    let text = read_file(asked.name, SOURCE_BYTES, shelf)?;
    let mut copy = shelf_of(alloc, asked.name, text.as_slice())?;
    let program = find_source(alloc, asked.name, asked.procs, &mut copy)?;
    Ok(ReadSource { text, program })
}

/// A tool of a source only: it prints what is known of its program without a run.
pub trait SourceTool {
    /// The name of the tool.
    const NAME: &'static str;

    /// Does the work on the program that was read, and returns what to print.
    fn report<'a>(alloc: Global, source: ReadSource, asked: SourceWords<'a>) -> Outcome<'a>
        requires { ProfileFits asked.target.profile };
}

impl<'a, T: SourceTool> Tool<'a> for T {
    type Words = SourceWords<'a>;

    ghost Fits = { λ words. ProfileFits words.target.profile };

    const ROW: VerbWords<'static> = VerbWords {
        name: T::NAME,
        ..OF_SOURCE
    };

    fn words(matches: &ArgMatches<'a>) -> Option<SourceWords<'a>> {
        source_in_words(matches)
    }

    fn serve<S: Shelf>(alloc: Global, words: SourceWords<'a>, shelf: &mut S) -> Outcome<'a> {
        let source = read_source(alloc, words, shelf)?;
        T::report(alloc, source, words)
    }
}

// A shelf with one file.
fn shelf_of(alloc: Global, name: &str, bytes: &[u8]) -> Result<SureShelf, Memory> {
    let name = Vec::from_slice(alloc, name.as_bytes())?;
    let bytes = Vec::from_slice(alloc, bytes)?;
    let mut files = Vec::new(alloc);
    files.push(File { name, bytes })?;
    Ok(SureShelf::new(alloc, files))
}

/// The object that the compiler made, checked like any other.
pub fn accepted_of<'a>(alloc: Global, object: Object) -> Result<Accepted, Reply<'a>>
    ensures { IfOk result (λ accepted. accepted ≡ object) }
{
    match check(alloc, object) {
        Ok(accepted) => Ok(accepted),
        Err(CheckError::Refused { pc, reason, .. }) => Err(Reply::Comes(Verdict::Refused(
            pc, reason,
        ))),
        Err(CheckError::Memory { .. }) => Err(Reply::NoMemory),
    }
}
