ghost use Rattle.std.specs.Prelude.{◌≡◌, IfErr, IfOk, List, ℕ, codes, length};
ghost use Rattle.lt_isa.specs.Prelude.{IsInRange};
ghost use Rattle.note_infer.specs.Prelude.{IsInferred};
ghost use Rattle.call_laws.specs.Prelude.{assemble_work, disassemble_work, infer_work, on_inferred};
ghost use Rattle.call_steps.specs.Prelude.{EndsWorkWith, SaysNotes, WhatIsInferred};
ghost use Rattle.call_replies.specs.Prelude.{said};

use call_replies::replies::{Done, Reply, Verdict};
use call_steps::reading::{find_assembly, find_object};
use call_steps::two_names::{Conversion, TwoNames};
use call_steps::verbs::{Made, Maker, NewFile};
use gr_outside::Shelf;
use lt_assembler::disassemble;
use lt_isa::Object;
use note_infer::InferError;
use object_file::encode;
use std::alloc::Global;

/// The verb `asm TEXT OUT`: writes the object file of an assembly text.
pub struct Assemble;

impl Conversion for Assemble {
    ghost converts = { assemble_work };

    ghost source = { codes "TEXT" };

    fn source_name() -> &'static str {
        "TEXT"
    }
}

impl<'a> Maker<'a> for Assemble {
    fn make<F: Shelf>(alloc: Global, words: TwoNames<'a>, shelf: &mut F) -> Made<'a> {
        let object = find_assembly(alloc, words.read, shelf)?;
        let bytes = encode(alloc, &object)?;
        Ok(NewFile {
            name: words.written,
            bytes,
            done: Done::Assembled,
        })
    }
}

/// The verb `dis OBJ OUT`: writes the assembly text of a file's object.
pub struct Disassemble;

impl Conversion for Disassemble {
    ghost converts = { disassemble_work };

    ghost source = { codes "OBJ" };

    fn source_name() -> &'static str {
        "OBJ"
    }
}

impl<'a> Maker<'a> for Disassemble {
    fn make<F: Shelf>(alloc: Global, words: TwoNames<'a>, shelf: &mut F) -> Made<'a> {
        let object = find_object(alloc, words.read, shelf)?;
        let bytes = disassemble(alloc, &object)?;
        Ok(NewFile {
            name: words.written,
            bytes,
            done: Done::Disassembled,
        })
    }
}

/// The verb `infer OBJ OUT`: writes the object file of an object with its least notes instead of its own.
pub struct Infer;

impl Conversion for Infer {
    ghost converts = { infer_work };

    ghost source = { codes "OBJ" };

    fn source_name() -> &'static str {
        "OBJ"
    }
}

impl<'a> Maker<'a> for Infer {
    fn make<F: Shelf>(alloc: Global, words: TwoNames<'a>, shelf: &mut F) -> Made<'a> {
        let object = find_object(alloc, words.read, shelf)?;
        let found = with_notes(alloc, &object)?;
        let count = note_count(&found);
        let bytes = encode(alloc, &found)?;
        Ok(NewFile {
            name: words.written,
            bytes,
            done: Done::Inferred(count),
        })
    }
}

/// The object with its least notes, or the reply if it gets none.
fn with_notes<'a>(alloc: Global, object: &Object) -> Result<Object, Reply<'a>>
    ensures found { IfOk result (λ found. IsInferred object.now found) }
    ensures refused { IfErr result (λ reply. (output : List ℕ)
        → EndsWorkWith (WhatIsInferred object.now) (on_inferred output) (said reply)) }
{
    match note_infer::infer(alloc, object) {
        Ok(found) => Ok(found),
        Err(why) => Err(without_notes(why)),
    }
}

/// How many notes an object has, which is in range.
fn note_count(object: &Object) -> u32
    ensures count { result ≡ length object.now.notes }
    ensures in_range { IsInRange object.now }
{
    let notes = object.notes();
    notes.len() as u32
}

/// The reply for an object that gets no notes.
fn without_notes<'a>(why: InferError) -> Reply<'a>
    ensures { SaysNotes why (said result) }
{
    match why {
        InferError::Dead(pc) => Reply::Comes(Verdict::NoNotes(InferError::Dead(pc))),
        InferError::Refused { pc, reason } => {
            Reply::Comes(Verdict::NoNotes(InferError::Refused { pc, reason }))
        }
        InferError::TooMany(count) => Reply::Comes(Verdict::NoNotes(InferError::TooMany(count))),
        InferError::Memory => Reply::NoMemory,
    }
}
