//! Explains on standard error why a call failed, and prints warnings if it didn't, from the bytes that the call read.

ghost use Rattle.std.specs.Prelude.{All, IfOk};
ghost use Rattle.fault_texts.specs.Plain.{IsPlain};
ghost use Rattle.ghost_front.specs.Saying.{Gains, SaysPlain};

use crate::held_text::{plain, push_string};
use crate::misused::{explain_misused, put_no_verb};
use crate::outside::Reasons;
use crate::paths::are_one_path;
use crate::printing::{DONE, USAGE};
use crate::requests::Manner;
use crate::serving::{Ended, Stop};
use crate::streams::{DASH, ReadFile, StreamShelf};
use crate::tools::CASE_FAILS;
use crate::verb_table::verb_help;
use explain_words::{Call, File};
use fault_texts::Words;
use gr_base::Memory;
use gr_outside::{Shelf, Sink};
use real_outside::RealInput;
use std::alloc::Global;
use std::io::Read;

/// The status if a file couldn't be read.
const NOT_READ: u8 = 3;

/// The status if output couldn't be written.
const NOT_WRITTEN: u8 = 4;

/// How a text begins that is about no file.
const PROGRAM: &str = "ghostrider: ";

/// What an explanation calls the file `-`.
const STREAM_NAME: &str = "standard input";

/// How the end of a call is explained: in words or as a line of JSON, with the words of the call and how it ended.
#[derive(Clone, Copy)]
struct Telling<'a> {
    is_json: bool,
    words: &'a [&'a str],
    ended: Ended<'a>,
}

impl Telling<'_> {
    // The text of some words.
    fn text(self, alloc: Global, words: &Words) -> Result<Vec<u8>, Memory>
        ensures { IfOk result (λ text. All IsPlain text.items) }
    {
        if self.is_json {
            words.report(alloc, self.ended.status)
        } else {
            words.finish(alloc)
        }
    }

    // What a call's files explain.
    fn explained(
        self,
        alloc: Global,
        call: &Call<'_, '_>,
        files: &[File<'_>],
    ) -> Result<Vec<u8>, Memory>
        ensures { IfOk result (λ text. All IsPlain text.items) }
    {
        if self.is_json {
            call.reported(alloc, files)
        } else {
            call.explained(alloc, files)
        }
    }

    // Nothing is known but the status.
    fn nothing(self, alloc: Global) -> Result<Vec<u8>, Memory>
        ensures { IfOk result (λ text. All IsPlain text.items) }
    {
        self.text(alloc, &Words::new(alloc))
    }

    // How a text begins that is about no file.
    fn begins(self) -> &'static str {
        if self.is_json { "" } else { PROGRAM }
    }

    // The line `ghostrider: ` with a name from outside between two texts.
    fn sentence(
        self,
        alloc: Global,
        before: &str,
        name: &str,
        after: &str,
    ) -> Result<Vec<u8>, Memory>
        ensures { IfOk result (λ text. All IsPlain text.items) }
    {
        let mut out = Words::new(alloc);
        out.say(self.begins());
        out.say(before);
        out.name(name);
        out.line(after);
        self.text(alloc, &out)
    }
}

/// What a call read from and wrote to, which know why they failed.
#[derive(Clone, Copy)]
pub(crate) struct Outsides<'a, F: Shelf + Drop, I: Read + Drop, O> {
    pub shelf: &'a StreamShelf<F>,
    pub input: &'a RealInput<I>,
    pub out: &'a O,
}

/// Prints why the call of these words ended with a status that isn't 0, and warnings if it ended with 0. A failure to
/// print is ignored. If memory runs out, nothing is printed.
#[tactic(auto, using(crate::proofs::Saying::says_nothing, crate::proofs::Saying::says_plain))]
pub(crate) fn explain<F: Shelf + Reasons + Drop, I: Read + Drop, O: Sink + Reasons, E: Sink>(
    alloc: Global,
    manner: Manner,
    words: &[&str],
    ended: Ended<'_>,
    outsides: Outsides<'_, F, I, O>,
    errors: &mut E,
)
    ensures { SaysPlain (E.seen errors.old) (E.seen errors.new) }
{
    let Some(telling) = telling_in(manner, words, ended) else {
        return;
    };
    match explanation(alloc, telling, outsides) {
        Ok(text) => put_text(text.as_slice(), errors),
        Err(_) => {}
    }
}

/// Prints why the front ended a call of which no more is known.
#[tactic(auto, using(crate::proofs::Saying::says_nothing, crate::proofs::Saying::says_plain))]
pub(crate) fn explain_end<E: Sink>(
    alloc: Global,
    manner: Manner,
    ended: Ended<'_>,
    stop: Stop<'_>,
    errors: &mut E,
)
    ensures { SaysPlain (E.seen errors.old) (E.seen errors.new) }
{
    let Some(telling) = telling_in(manner, &[], ended) else {
        return;
    };
    match explain_stop(alloc, telling, stop) {
        Ok(text) => put_text(text.as_slice(), errors),
        Err(_) => {}
    }
}

// How the end of a call is explained, if it is.
fn telling_in<'a>(manner: Manner, words: &'a [&'a str], ended: Ended<'a>) -> Option<Telling<'a>> {
    let is_json = match manner {
        Manner::Quiet => return None,
        Manner::Words => false,
        Manner::Json => true,
    };
    Some(Telling {
        is_json,
        words,
        ended,
    })
}

/// Prints a text if it isn't empty. A failure is ignored.
#[tactic(auto, using(crate::proofs::Saying::gains_none, crate::proofs::Saying::gains_front, crate::proofs::Saying::gains_all))]
pub(crate) fn put_text<E: Sink>(text: &[u8], errors: &mut E)
    ensures { Gains (E.seen errors.old) (E.seen errors.new) text.now }
{
    if text.is_empty() {
        return;
    }
    match errors.put(text) {
        Ok(()) => {}
        Err(_) => return,
    }
    let _ = errors.flush();
}

fn explanation<F: Shelf + Reasons + Drop, I: Read + Drop, O: Sink + Reasons>(
    alloc: Global,
    telling: Telling<'_>,
    outsides: Outsides<'_, F, I, O>,
) -> Result<Vec<u8>, Memory>
    ensures { IfOk result (λ text. All IsPlain text.items) }
{
    let Outsides { shelf, input, out } = outsides;
    if let Some(stop) = telling.ended.stop {
        return explain_stop(alloc, telling, stop);
    }
    match telling.ended.status {
        NOT_READ => read_reason(alloc, telling, shelf, input),
        NOT_WRITTEN => match out.reason(alloc) {
            Some(reason) => telling.sentence(alloc, "standard output: ", reason.as_str(), ""),
            None => files_reason(alloc, telling, shelf.files()),
        },
        USAGE => usage_text(alloc, telling),
        DONE => warnings_text(alloc, telling, shelf.read_files()),
        CASE_FAILS => other_text(alloc, telling),
        _ => fault_text(alloc, telling, shelf.read_files()),
    }
}

// What is wrong with the words of a call.
fn usage_text(alloc: Global, telling: Telling<'_>) -> Result<Vec<u8>, Memory>
    ensures { IfOk result (λ text. All IsPlain text.items) }
{
    let mut out = Words::new(alloc);
    explain_misused(telling.words, telling.begins(), &mut out);
    if !out.finish(alloc)?.is_empty() {
        return telling.text(alloc, &out);
    }
    let usage = usage_of(telling.words);
    let call = Call::new(alloc, telling.ended.status, usage, telling.words)?;
    telling.explained(alloc, &call, &[])
}

// A call that ended with status 1. What it printed explains itself, and with `--json` the cases of `test` that failed
// are printed already.
fn other_text(alloc: Global, telling: Telling<'_>) -> Result<Vec<u8>, Memory>
    ensures { IfOk result (λ text. All IsPlain text.items) }
{
    if is_verb(telling.words, "test") {
        return Ok(Vec::new(alloc));
    }
    telling.nothing(alloc)
}

// Whether the first word of a call is this one.
fn is_verb(words: &[&str], verb: &str) -> bool {
    match words.first() {
        Some(word) => *word == verb,
        None => false,
    }
}

// The warnings of a call that did its work.
fn warnings_text(alloc: Global, telling: Telling<'_>, read: &[ReadFile]) -> Result<Vec<u8>, Memory>
    ensures { IfOk result (λ text. All IsPlain text.items) }
{
    let mut text = fault_text(alloc, telling, read)?;
    let named = names_of(alloc, telling.words)?;
    let call = Call::new(alloc, telling.ended.status, usage_of(telling.words), &named)?;
    let Some(name) = replaced_source(telling.words, call.placed()) else {
        return Ok(text);
    };
    push_replaced(alloc, telling.is_json, name, &mut text)?;
    plain(alloc, text.as_slice())
}

// The source of a call of `compile` or `eval`, if OUT, its last file, has the same name and so replaced it.
fn replaced_source<'a>(words: &[&str], files: &[&'a str]) -> Option<&'a str> {
    if !is_verb(words, "compile") && !is_verb(words, "eval") {
        return None;
    }
    let source = *files.first()?;
    if files.len() > 1 && source != STREAM_NAME && are_one_path(*files.last()?, source) {
        Some(source)
    } else {
        None
    }
}

// Adds the warning that the output of a call replaced its source.
fn push_replaced(
    alloc: Global,
    is_json: bool,
    name: &str,
    text: &mut Vec<u8>,
) -> Result<(), Memory> {
    let mut reason = Words::new(alloc);
    reason.name(name);
    reason.say(" was the source; the output has replaced it");
    let reason = reason.finish(alloc)?;
    if is_json {
        text.extend_from_slice(
            b"{\"status\":0,\"file\":null,\"line\":null,\"column\":null,\"reason\":",
        )?;
        push_string(reason.as_slice(), text)?;
        text.extend_from_slice(b",\"hint\":null}\n")?;
    } else {
        text.extend_from_slice(b"ghostrider: warning: ")?;
        text.extend_from_slice(reason.as_slice())?;
        text.push(b'\n')?;
    }
    Ok(())
}

// Why the front ended the call itself.
fn explain_stop(alloc: Global, telling: Telling<'_>, stop: Stop<'_>) -> Result<Vec<u8>, Memory>
    ensures { IfOk result (λ text. All IsPlain text.items) }
{
    let (before, name, after) = match stop {
        Stop::NoMemory => return telling.nothing(alloc),
        Stop::ReadsTwice => ("standard input can be read as only one file", "", ""),
        Stop::TwoManners => (
            "only one of --quiet and --json may precede the verb",
            "",
            "",
        ),
        Stop::NotText => (
            "an argument is not valid UTF-8; if it is the name of a file, rename the file",
            "",
            "",
        ),
        Stop::NoVerb(word) => return no_verb(alloc, telling, word),
        Stop::TooMany(word) => ("unexpected word ", word, ""),
        Stop::NoPath => ("the path of this program isn't known", "", ""),
    };
    telling.sentence(alloc, before, name, after)
}

// A word that isn't a verb.
fn no_verb(alloc: Global, telling: Telling<'_>, word: &str) -> Result<Vec<u8>, Memory>
    ensures { IfOk result (λ text. All IsPlain text.items) }
{
    let mut out = Words::new(alloc);
    out.say(telling.begins());
    put_no_verb(word, &mut out);
    telling.text(alloc, &out)
}

// Why a file couldn't be read.
fn read_reason<F: Shelf + Reasons + Drop, I: Read + Drop>(
    alloc: Global,
    telling: Telling<'_>,
    shelf: &StreamShelf<F>,
    input: &RealInput<I>,
) -> Result<Vec<u8>, Memory>
    ensures { IfOk result (λ text. All IsPlain text.items) }
{
    match input.failure() {
        Some(cause) => match format!(in alloc; "{cause}") {
            Ok(reason) => telling.sentence(alloc, "standard input: ", reason.as_str(), ""),
            Err(_) => Err(Memory),
        },
        None => files_reason(alloc, telling, shelf.files()),
    }
}

// The system's reason for the last call on files that failed, and nothing if it isn't known.
fn files_reason<F: Reasons>(
    alloc: Global,
    telling: Telling<'_>,
    files: &F,
) -> Result<Vec<u8>, Memory>
    ensures { IfOk result (λ text. All IsPlain text.items) }
{
    match files.reason(alloc) {
        Some(reason) => telling.sentence(alloc, "", reason.as_str(), ""),
        None => telling.nothing(alloc),
    }
}

// What the fault of a call means, by the files that it read, or its warnings.
fn fault_text(alloc: Global, telling: Telling<'_>, read: &[ReadFile]) -> Result<Vec<u8>, Memory>
    ensures { IfOk result (λ text. All IsPlain text.items) }
{
    let Telling { words, ended, .. } = telling;
    let named = names_of(alloc, words)?;
    let call = Call::new(alloc, ended.status, usage_of(words), &named)?;
    let mut files = Vec::new(alloc);
    for (place, name) in call.placed().iter().enumerate() {
        if let Some(kind) = call.kind_at(place) {
            if let Some(bytes) = bytes_of(read, name) {
                files.push(File {
                    name: *name,
                    kind,
                    bytes,
                })?;
            }
        }
    }
    telling.explained(alloc, &call, &files)
}

// The words of a call, with the name of the stream in the place of `-`.
fn names_of<'a>(alloc: Global, words: &[&'a str]) -> Result<Vec<&'a str>, Memory> {
    let mut named = Vec::with_capacity(alloc, words.len())?;
    for word in words {
        named.push(shown_name(*word))?;
    }
    Ok(named)
}

/// What an explanation calls a file.
pub(crate) fn shown_name(name: &str) -> &str {
    if name == DASH { STREAM_NAME } else { name }
}

// The usage of the verb of a call, empty if there is no such verb.
fn usage_of(words: &[&str]) -> &'static str {
    match words.first() {
        Some(verb) => match verb_help(verb) {
            Some(help) => help.usage,
            None => "",
        },
        None => "",
    }
}

// The bytes of the file of this name, as the call read them.
fn bytes_of<'a>(read: &'a [ReadFile], name: &str) -> Option<&'a [u8]> {
    let wanted = if name == STREAM_NAME { DASH } else { name };
    for file in read {
        if file.name.as_str() == wanted {
            return Some(file.bytes.as_slice());
        }
    }
    None
}
