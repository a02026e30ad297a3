//! A call of the program that met a fault: which of its files are read again, and the words about each.

ghost use Rattle.std.specs.Prelude.{◌≡◌, true, IfOk, IfSome, All};
ghost use Rattle.gr_word.specs.Prelude.{AreVariables};
ghost use Rattle.explain_words.specs.FaultyFiles.{MayHaveFault, MayHaveWarnings};
ghost use Rattle.fault_texts.specs.Plain.{IsPlain};

use crate::cases::explain_cases;
use crate::duplicates::warn_of_inputs;
use crate::inputs::{explain_inputs, variables_of_object, variables_of_source};
use crate::usage::{Sorted, explain_usage};
use fault_texts::{FileKind, Words, is_word_of, put_other_kind};
use gr_base::Memory;
use gr_word::Want;
use object_faults::{
    Core, explain_assembly, explain_bus, explain_file, explain_inference, explain_refusal,
    object_in,
};
use source_faults::{Room, explain_source};
use source_warnings::warn_of_source;
use std::alloc::Global;
use std::marker::Model;

/// The logarithm of a block's words for which no option says a number.
const USUAL_BLOCK_LOG: u8 = 9;

/// The limit of cycles and of iterations without an option.
const USUAL_LIMIT: u64 = 1_000_000_000;

/// A file that the call read: its name, its kind, and its bytes. Of a file that is too long these are the first, one more
/// than a valid file may have.
#[derive(Clone, Copy)]
pub struct File<'a> {
    pub name: &'a str,
    pub kind: FileKind,
    pub bytes: &'a [u8],
}

/// A call of the program that met a fault. Contracts see its exit status.
#[derive(Drop)]
pub struct Call<'a, 'b> {
    status: u8,
    usage: &'a str,
    words: &'b [&'a str],
    sorted: Sorted<'a>,
}

impl<'a, 'b> Model for Call<'a, 'b> {
    ghost use Rattle.std.specs.Prelude.{ℕ};

    ghost Value = { ℕ };

    ghost view = { λ call. call.status };
}

impl<'a, 'b> Call<'a, 'b> {
    /// The call of some words, the verb first, that ended with a status. The verb's line of the table of verbs is empty
    /// if there is no such verb.
    pub fn new(
        alloc: Global,
        status: u8,
        usage: &'a str,
        words: &'b [&'a str],
    ) -> Result<Call<'a, 'b>, Memory>
        ensures { IfOk result (λ call. call ≡ status) }
    {
        let sorted = Sorted::of(alloc, usage, words)?;
        Ok(Call {
            status,
            usage,
            words,
            sorted,
        })
    }

    /// The positional words after the verb.
    pub fn placed(&self) -> &[&'a str] {
        self.sorted.placed.as_slice()
    }

    /// What the file in a place is to be, if the fault may be there, or if a call that did its work may have warnings of it.
    pub fn kind_at(&self, place: usize) -> Option<FileKind>
        ensures { IfSome result (MayHaveFault self.now) }
    {
        let mut places = self.usage.split(" ").skip(1);
        let repeats = is_word_of(self.usage, b"..");
        let kind = FileKind::named(places.nth(if repeats { place % 2 } else { place })?)?;
        if self.is_read(kind) { Some(kind) } else { None }
    }

    // Whether files of a kind are read again.
    fn is_read(&self, kind: FileKind) -> bool
        ensures { result ≡ true → MayHaveFault self.now kind }
    {
        match self.status {
            6 | 7 | 13 => matches!(kind, FileKind::Object),
            8 => matches!(kind, FileKind::Source),
            12 => matches!(kind, FileKind::Assembly),
            9 | 11 => true,
            0 => self.is_warned(kind),
            _ => false,
        }
    }

    // Whether a file of a call that did its work may have warnings.
    fn is_warned(&self, kind: FileKind) -> bool
        ensures { result ≡ true → MayHaveWarnings kind }
    {
        match kind {
            FileKind::Source => is_word_of("compile eval", self.verb().as_bytes()),
            FileKind::Inputs => is_word_of("eval run trace", self.verb().as_bytes()),
            FileKind::Object => false,
            FileKind::Assembly => false,
            FileKind::Cases => false,
        }
    }

    fn verb(&self) -> &str {
        match self.words.first() {
            Some(verb) => *verb,
            None => "",
        }
    }

    fn has_procs(&self) -> bool {
        self.sorted.has("--procs") || self.verb() == "expand"
    }

    // For which target the program is compiled, if it is.
    fn room(&self) -> Room {
        if !is_word_of(
            "compile layout listing profile test",
            self.verb().as_bytes(),
        ) {
            return Room::Unasked;
        }
        let block_log = match self.sorted.value("--block-log") {
            Some(log) => log.parse::<u8>().unwrap_or(USUAL_BLOCK_LOG),
            None => USUAL_BLOCK_LOG,
        };
        Room::Blocks {
            block_log,
            is_fast: self.sorted.has("--fast"),
        }
    }

    // The number that an option gives, or what it is without the option.
    fn number_of(&self, option: &str, usual: u64) -> u64 {
        match self.sorted.value(option) {
            Some(number) => number.parse::<u64>().unwrap_or(usual),
            None => usual,
        }
    }

    // What to do about a run or an evaluation that reached its limit.
    fn put_spent(&self, out: &mut Words) {
        if self.verb() == "eval" {
            out.fill(
                "The evaluation reached the limit of iterations, {}. Raise it with --turns N, or check for an endless \
                loop.\n",
                &[self.number_of("--turns", USUAL_LIMIT)],
            )
        } else {
            out.fill(
                "The run reached the limit of cycles, {}. Raise it with --cycles N, or check for an endless loop.\n",
                &[self.number_of("--cycles", USUAL_LIMIT)],
            )
        }
    }

    /// What the fault means, by the files that the call read; empty if nothing is known. If the call did its work, these are
    /// warnings about its source and its inputs. The text is ASCII, and nothing in it acts on a terminal.
    pub fn explained(&self, alloc: Global, files: &[File<'_>]) -> Result<Vec<u8>, Memory>
        ensures plain { IfOk result (λ text. All IsPlain text.items) }
    {
        let mut out = Words::new(alloc);
        self.explain(alloc, files, &mut out);
        out.finish(alloc)
    }

    /// The explanation or the warnings as lines of JSON, as [`Words::report`] says. A fault has one line, also if nothing
    /// can be said about it.
    pub fn reported(&self, alloc: Global, files: &[File<'_>]) -> Result<Vec<u8>, Memory>
        ensures plain { IfOk result (λ text. All IsPlain text.items) }
    {
        let mut out = Words::new(alloc);
        self.explain(alloc, files, &mut out);
        out.report(alloc, self.status)
    }

    fn explain(&self, alloc: Global, files: &[File<'_>], out: &mut Words) {
        match self.status {
            0 => for file in files {
                warn_of(alloc, file, self.sorted.has("--fast"), out);
            },
            2 => explain_usage(self.usage, self.words, &self.sorted, out),
            9 => self.explain_pairs(alloc, files, out),
            10 => self.put_spent(out),
            13 => match cores_of(alloc, files) {
                Ok(cores) => explain_bus(&cores, out),
                Err(_) => out.starve(),
            },
            _ => for file in files {
                if out.is_empty() {
                    self.explain_one(alloc, file, out);
                }
            },
        }
    }

    // The fault of a file by itself.
    fn explain_one(&self, alloc: Global, file: &File<'_>, out: &mut Words) {
        let name = file.name;
        let bytes = file.bytes;
        match self.status {
            6 => explain_file(alloc, name, bytes, out),
            7 => if self.verb() == "infer" {
                explain_inference(alloc, name, bytes, out)
            } else {
                explain_refusal(alloc, name, bytes, out)
            },
            8 => if !put_other_kind(name, file.kind, bytes, out) {
                explain_source(alloc, name, bytes, self.has_procs(), self.room(), out)
            },
            12 => if !put_other_kind(name, file.kind, bytes, out) {
                explain_assembly(alloc, name, bytes, out)
            },
            _ => if bytes.len() > file.kind.most_bytes() {
                out.name(name);
                out.fill(
                    " has more than {} bytes, which is the limit for such a file.\n",
                    &[file.kind.most_bytes() as u64],
                );
            },
        }
    }

    // The first inputs that don't fit the object or the source that they follow, or a file without cases.
    fn explain_pairs(&self, alloc: Global, files: &[File<'_>], out: &mut Words) {
        let mut program: Option<File<'_>> = None;
        for file in files {
            if out.is_empty() {
                match file.kind {
                    FileKind::Object => program = Some(*file),
                    FileKind::Source => program = Some(*file),
                    FileKind::Inputs => self.explain_given(alloc, program, file, out),
                    FileKind::Cases => explain_cases(file.name, file.bytes, out),
                    FileKind::Assembly => {}
                }
            }
        }
    }

    // Why inputs don't fit a program.
    fn explain_given(
        &self,
        alloc: Global,
        program: Option<File<'_>>,
        inputs: &File<'_>,
        out: &mut Words,
    ) {
        if let Some(program) = program {
            if let Some(wants) = self.variables_of(alloc, &program) {
                explain_inputs(alloc, inputs.name, inputs.bytes, &wants, out);
            }
        }
    }

    fn variables_of(&self, alloc: Global, file: &File<'_>) -> Option<Vec<Want>>
        ensures { IfSome result (λ wants. AreVariables wants.items) }
    {
        match file.kind {
            FileKind::Object => variables_of_object(alloc, file.bytes),
            FileKind::Source => variables_of_source(alloc, file.bytes, self.has_procs()),
            _ => None,
        }
    }
}

// Warns of what a file of a call that did its work may not mean.
fn warn_of(alloc: Global, file: &File<'_>, is_fast: bool, out: &mut Words) {
    let name = file.name;
    let text = file.bytes;
    match file.kind {
        FileKind::Inputs => warn_of_inputs(alloc, name, text, out),
        FileKind::Source => warn_of_source(alloc, name, text, is_fast, out),
        FileKind::Object => {}
        FileKind::Assembly => {}
        FileKind::Cases => {}
    }
}

// The objects of a bus.
fn cores_of<'a>(alloc: Global, files: &[File<'a>]) -> Result<Vec<Core<'a>>, Memory> {
    let mut cores = Vec::new(alloc);
    for file in files {
        if let Some(object) = object_in(alloc, file.bytes) {
            cores.push(Core {
                name: file.name,
                object,
            })?;
        }
    }
    Ok(cores)
}
