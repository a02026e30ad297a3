//! Answers what the words of a call ask the front itself.

ghost use Rattle.std.specs.Prelude.{◌≡◌, ◌≢◌, IsOk, OnOk};
ghost use Rattle.ghost_front.specs.Streams.{told};

use crate::help::{VERSION, put_help, put_help_on, put_help_on_other};
use crate::printing::{DONE, USAGE, put_all, status_after};
use crate::requests::Request;
use crate::serving::{Ended, Stop, refused};
use crate::streams::StreamShelf;
use gr_outside::{Shelf, Sink, SinkFailed};
use std::alloc::Global;

/// What the front knows of its own program.
#[derive(Clone, Copy)]
pub struct Program<'a> {
    /// The path of the program's file, if it is known.
    pub path: Option<&'a str>,
    /// Whether the fault of a call is explained on standard error.
    pub explains: bool,
}

/// The file beside the program that says what the program was made of.
const MADE: &str = "made";

/// The most bytes of that file that are printed.
const MOST_MADE: usize = 4096;

/// Printed if there is no such file.
const NOT_KNOWN: &str = "its sources are unknown: there is no file `made` beside it\n";

/// Does what a request asks for. `path` is the path of the program, if it is known.
pub(crate) fn answer<'a, F: Shelf + Drop, O: Sink>(
    alloc: Global,
    path: Option<&str>,
    request: Request<'a>,
    shelf: &mut StreamShelf<F>,
    out: &mut O,
) -> Ended<'a>
    ensures files { told shelf.new ≡ told shelf.old }
    ensures flushed { result.status ≢ 4 → O.waiting out.new ≡ 0 }
{
    match request {
        Request::Help => done(put_help(out)),
        Request::HelpOn(verb) => done(put_help_on(verb, out)),
        Request::HelpOnOther(row) => done(put_help_on_other(row, out)),
        Request::HelpOnNothing(word) => refused(Stop::NoVerb(word), out),
        Request::TooMany(word) => refused(Stop::TooMany(word), out),
        Request::Version => done(put_version(alloc, path, shelf, out)),
        Request::Which => put_path(path, out),
    }
}

// How a call ended whose text was printed, or couldn't be.
fn done(printed: Result<(), SinkFailed>) -> Ended<'static>
    ensures { result.status ≢ 4 → IsOk printed }
{
    Ended {
        status: status_after(printed, DONE),
        stop: None,
    }
}

// Prints the version, and what the program was made of.
fn put_version<F: Shelf + Drop, O: Sink>(
    alloc: Global,
    path: Option<&str>,
    shelf: &mut StreamShelf<F>,
    out: &mut O,
) -> Result<(), SinkFailed>
    ensures files { told shelf.new ≡ told shelf.old }
    ensures flushed { OnOk result (O.waiting out.new ≡ 0) }
{
    let made = made_text(alloc, path, shelf);
    put_all(&["ghostrider ", VERSION, "\n"], out)?;
    match made {
        Some(text) => out.put(text.as_slice())?,
        None => out.put(NOT_KNOWN.as_bytes())?,
    }
    out.flush()
}

// The text of the file `made` beside the program, if it can be read.
fn made_text<F: Shelf + Drop>(
    alloc: Global,
    path: Option<&str>,
    shelf: &mut StreamShelf<F>,
) -> Option<Vec<u8>>
    ensures { told shelf.new ≡ told shelf.old }
{
    let Some(path) = path else {
        return None;
    };
    let folder = match path.rsplit_once("/") {
        Some((folder, _)) => folder,
        None => ".",
    };
    let Ok(name) = format!(in alloc; "{folder}/{MADE}") else {
        return None;
    };
    match shelf.read(name.as_str(), MOST_MADE) {
        Ok(bytes) => Some(bytes),
        Err(_) => None,
    }
}

// Prints the path of the program.
fn put_path<O: Sink>(path: Option<&str>, out: &mut O) -> Ended<'static>
    ensures { result.status ≢ 4 → O.waiting out.new ≡ 0 }
{
    match path {
        Some(path) => done(put_all(&[path, "\n"], out)),
        None => refused(Stop::NoPath, out),
    }
}
