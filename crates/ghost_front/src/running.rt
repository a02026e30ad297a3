//! The program over the files of a system, and over the reader and the writers of its standard streams.

ghost use Rattle.std.specs.Prelude.{◌≡◌, false};
ghost use Rattle.command_words.specs.Prelude.{texts};
ghost use Rattle.ghost_front.specs.Requests.{asked, asks_front, asks_tool};
ghost use Rattle.ghost_front.specs.Served.{Around, Serves, begun};

use crate::answering::Program;
use crate::streams::StreamShelf;
use crate::top::front;
use real_outside::{RealInput, RealShelf, RealSink};
use std::alloc::Global;
use std::io::{Read, Write};
use std::os::unix::io::AsFd;
use std::rt::Files;

/// All that the program does with these words, over real files and streams, and its exit status: [`front`] with a shelf,
/// an input and sinks that have read and written nothing yet.
pub fn run<R: Files + Drop, I: Read + Drop, O: Write + Drop, E: Write + Drop>(
    alloc: Global,
    program: Program<'_>,
    words: &[&str],
    files: R,
    input: I,
    output: O,
    errors: E,
) -> u8
where
    R::File: AsFd,
    ensures { asks_front (asked (texts words.now)) ≡ false → asks_tool (asked (texts words.now)) ≡ false
        → (after : Around) × Serves (asked (texts words.now)) (begun (I.remaining input)) after result }
{
    let mut shelf = StreamShelf::new(alloc, RealShelf::new(alloc, files), program.explains);
    let mut input = RealInput::new(input);
    let mut out = RealSink::new(alloc, output);
    let mut errors = RealSink::new(alloc, errors);
    front(
        alloc,
        program,
        words,
        &mut shelf,
        &mut input,
        &mut out,
        &mut errors,
    )
}
