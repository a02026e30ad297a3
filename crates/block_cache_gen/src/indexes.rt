ghost use Rattle.std.specs.Prelude.{ℕ, ◌≡◌, ◌+◌, ◌^◌, ◌<◌, [], ◌∷◌, pos, ◌+ℤ◌, OnOk, length};
ghost use Rattle.block_cache_gen.specs.Codes.{applied_code, compared_code, least_word, numbered_register, reduced_code, reducer, reducing};
ghost use Rattle.block_cache_gen.specs.Indexed.{code_of_index, notes_of_index};
ghost use Rattle.block_cache_gen.specs.Notes.{note_of, unmarked};
ghost use Rattle.block_cache_gen.specs.Emitted.{Appended, CodeGrows, no_notes};
ghost use Rattle.block_cache_gen.specs.Settings.{home_at};
ghost use Rattle.block_cache_gen.specs.Variables.{home_in};

use crate::accesses::{is_masked, unmarked};
use crate::emitter::Emitter;
use crate::frames::{CodeBuf, PutResult};
use crate::operands::operand_register;
use crate::variables::Variable;
use bank_alloc::Place;
use gr_word::{Cmp, Label, Op};
use lt_isa::{Instr, Note};

/// How the number of a word is found of an index.
#[derive(Clone, Copy, Debug, PartialEq, Eq)]
pub(crate) enum Numbering {
    /// The index is compared with the length, and reduced if it isn't below it.
    Compared,
    /// The index is reduced.
    Reduced,
    /// The index is known to be below the length, so it is the number of the word.
    Within,
}

/// How an index becomes the number of a word of an array.
#[derive(Clone, Copy, Debug)]
pub(crate) struct Indexed {
    pub array: Variable,
    pub numbering: Numbering,
    /// The register that has the index.
    pub from: u8,
    /// The first of the registers that are overwritten. The number is left in it, or stays in `from` if the index is known
    /// to be below the length. If the index is compared with the length, it is in this register.
    pub to: u8,
    /// Which registers may be secret in a note.
    pub mask: u32,
}

/// Appends a note after the code so far. The only error is running out of memory.
pub(crate) fn put_note_behind(
    emitter: &Emitter<'_, '_, '_>,
    out: &mut CodeBuf,
    secrets: u32,
) -> PutResult
    requires { length out.old.code.items < 2 ^ 32 }
    ensures appended { OnOk result (Appended out.old out.new [] (λ place. note_of emitter.now secrets place ∷ [])) }
    ensures grows { CodeGrows out.old out.new }
{
    out.put_note(Note {
        pc: out.next_place(),
        secrets,
        slots: emitter.claims(),
    })
}

/// The register in which the number of a word is left.
pub(crate) fn numbered_register(numbering: Numbering, to: u8, from: u8) -> u8
    ensures { result ≡ numbered_register numbering to from }
{
    match numbering {
        Numbering::Compared => to,
        Numbering::Reduced => to,
        Numbering::Within => from,
    }
}

/// Appends code that leaves the number of the word that an index names. The only error is running out of memory.
pub(crate) fn put_numbered(
    emitter: &Emitter<'_, '_, '_>,
    out: &mut CodeBuf,
    index: Indexed,
) -> PutResult
    requires registers { index.to + 2 < 28 }
    requires room { length out.old.code.items + 6 < 2 ^ 32 }
    ensures appended { OnOk result
        (Appended out.old out.new (code_of_index emitter.now index) (notes_of_index emitter.now index)) }
    ensures grows { CodeGrows out.old out.new }
{
    match index.numbering {
        Numbering::Compared => put_compared(emitter, out, index),
        Numbering::Reduced => put_reduced(emitter, out, index.array, index.to, index.from),
        Numbering::Within => out.put(&[]),
    }
}

// An array's length less 2^63.
fn lowered_length(array: Variable) -> i64
    ensures { result ≡ least_word +ℤ pos (home_in array).length }
{
    i64::MIN + i64::from(array.place.length)
}

// Appends the same, where the remainder is taken only of an index that isn't below the length, and a note after it.
fn put_compared(emitter: &Emitter<'_, '_, '_>, out: &mut CodeBuf, index: Indexed) -> PutResult
    requires registers { index.to + 2 < 28 }
    requires room { length out.old.code.items + 6 < 2 ^ 32 }
    ensures appended { OnOk result (Appended out.old out.new (compared_code (home_in index.array) index.to)
        (λ place. note_of emitter.now (unmarked index.mask index.to) (place + 6) ∷ [])) }
    ensures grows { CodeGrows out.old out.new }
{
    let Indexed { array, to, .. } = index;
    out.put(&[
        Instr::Li {
            rd: to + 1,
            value: i64::MIN,
        },
        Instr::Alu {
            op: Op::Add,
            rd: to + 1,
            ra: to + 1,
            rb: to,
        },
        Instr::Li {
            rd: to + 2,
            value: lowered_length(array),
        },
        Instr::Br {
            cmp: Cmp::Lt,
            ra: to + 1,
            rb: to + 2,
            offset: 3,
        },
        Instr::Li {
            rd: to + 1,
            value: i64::from(array.place.length),
        },
        Instr::Alu {
            op: Op::Remu,
            rd: to,
            ra: to,
            rb: to + 1,
        },
    ])?;
    put_note_behind(emitter, out, unmarked(index.mask, to))
}

/// Appends an operation on a register and a number, whose result is in register `to`. If no register holds the number
/// for the whole run, it is loaded into register `own` first. The only error is running out of memory.
pub(crate) fn put_applied(
    emitter: &Emitter<'_, '_, '_>,
    out: &mut CodeBuf,
    op: Op,
    to: u8,
    from: u8,
    own: u8,
    number: i64,
) -> PutResult
    ensures appended { OnOk result (Appended out.old out.new (applied_code emitter.now op to from own number) no_notes) }
    ensures grows { CodeGrows out.old out.new }
{
    let held = emitter.number_held(number);
    let operation = Instr::Alu {
        op,
        rd: to,
        ra: from,
        rb: operand_register(held, own),
    };
    match held {
        Some(_) => out.put(&[operation]),
        None => out.put(&[
            Instr::Li {
                rd: own,
                value: number,
            },
            operation,
        ]),
    }
}

// The operation by which an index of an array is reduced.
fn reducing(array: Variable) -> Op
    ensures { result ≡ reducing (home_in array) }
{
    if is_masked(array) { Op::And } else { Op::Remu }
}

/// The number by which an index of an array is reduced: the length, or 1 less if a mask does it.
pub(crate) fn reducer(array: Variable) -> i64
    ensures { result ≡ reducer (home_in array) }
{
    if is_masked(array) {
        i64::from(array.place.length.saturating_sub(1))
    } else {
        i64::from(array.place.length)
    }
}

/// The same of an array at a place. It serves `code_gen`, which chooses the numbers that registers hold.
pub fn reducer_at(place: Place) -> i64
    ensures { (w : ℕ) → result ≡ reducer (home_at [] w place 0) }
{
    reducer(Variable {
        label: Label::Public,
        place,
        slot: 0,
        resident: false,
        further: 0,
        more: [0; 4],
        held: None,
    })
}

// The index in a register becomes the number of the word.
fn put_reduced(
    emitter: &Emitter<'_, '_, '_>,
    out: &mut CodeBuf,
    array: Variable,
    to: u8,
    from: u8,
) -> PutResult
    requires registers { to + 2 < 28 }
    ensures appended { OnOk result (Appended out.old out.new (reduced_code emitter.now (home_in array) to from) no_notes) }
    ensures grows { CodeGrows out.old out.new }
{
    put_applied(
        emitter,
        out,
        reducing(array),
        to,
        from,
        to + 1,
        reducer(array),
    )
}
