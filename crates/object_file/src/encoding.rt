ghost use Rattle.std.specs.Prelude.{◌≡◌, ◌<◌, ◌≤◌, ◌^◌, ◌++◌, length, OnOk, IfOk, flat_map};
ghost use Rattle.lt_isa.specs.Prelude.{IsInRange};
ghost use Rattle.object_file.specs.Spelling.{number, magic, listed, spelling, cycles, window, profile, bank, name, symbol, note, opcode_and_operands, instruction, label_code, shape_code};

use crate::header::{ALWAYS_OPEN, HEADER_BYTES, MAGIC, WINDOWED};
use crate::instructions::INSTRUCTION_BYTES;
use crate::notes::NOTE_BYTES;
use crate::symbols::SYMBOL_BYTES;
use byteorder::{ByteOrder, LittleEndian};
use gr_word::{Label, Memory, Name, Shape};
use lt_isa::instruction_table::{Operands, kind_of, opcode_of, operands_of};
use lt_isa::{BankSpec, Instr, Note, Object, Profile, Symbol};
use std::alloc::Global;

#[tactic(auto, unfolding(crate::specs::Spelling::number))]
fn put_u8(out: &mut Vec<u8>, x: u8) -> Result<(), Memory>
    ensures { OnOk result (out.new.items ≡ out.old.items ++ number 1 x) }
{
    out.push(x)?;
    Ok(())
}

#[tactic(auto, unfolding(crate::specs::Spelling::number))]
fn put_u16(out: &mut Vec<u8>, x: u16) -> Result<(), Memory>
    ensures { OnOk result (out.new.items ≡ out.old.items ++ number 2 x) }
{
    let mut bytes = [0; 2];
    LittleEndian::write_u16(&mut bytes, x);
    out.extend_from_slice(&bytes)?;
    Ok(())
}

#[tactic(auto, unfolding(crate::specs::Spelling::number))]
fn put_u32(out: &mut Vec<u8>, x: u32) -> Result<(), Memory>
    ensures { OnOk result (out.new.items ≡ out.old.items ++ number 4 x) }
{
    let mut bytes = [0; 4];
    LittleEndian::write_u32(&mut bytes, x);
    out.extend_from_slice(&bytes)?;
    Ok(())
}

#[tactic(auto, unfolding(crate::specs::Spelling::number))]
fn put_u64(out: &mut Vec<u8>, x: u64) -> Result<(), Memory>
    ensures { OnOk result (out.new.items ≡ out.old.items ++ number 8 x) }
{
    let mut bytes = [0; 8];
    LittleEndian::write_u64(&mut bytes, x);
    out.extend_from_slice(&bytes)?;
    Ok(())
}

#[tactic(auto, unfolding(crate::specs::Spelling::cycles))]
fn put_cycles(out: &mut Vec<u8>, p: &Profile) -> Result<(), Memory>
    ensures { OnOk result (out.new.items ≡ out.old.items ++ cycles p.now) }
{
    put_u8(out, p.block_log)?;
    put_u8(out, p.alu)?;
    put_u8(out, p.mul)?;
    put_u8(out, p.word)?;
    put_u8(out, p.taken)
}

#[tactic(auto, unfolding(crate::specs::Spelling::window))]
fn put_window(out: &mut Vec<u8>, p: &Profile) -> Result<(), Memory>
    ensures { OnOk result (out.new.items ≡ out.old.items ++ window p.now) }
{
    put_u32(out, p.period)?;
    put_u32(out, p.opens)?;
    put_u32(out, p.closes)
}

#[tactic(auto, unfolding(crate::specs::Spelling::profile))]
fn put_profile(out: &mut Vec<u8>, p: &Profile) -> Result<(), Memory>
    ensures { OnOk result (out.new.items ≡ out.old.items ++ profile p.now) }
{
    if p.has_unit_period() {
        put_u16(out, ALWAYS_OPEN)?;
        return put_cycles(out, p);
    }
    put_u16(out, WINDOWED)?;
    put_cycles(out, p)?;
    put_window(out, p)
}

fn put_bank(out: &mut Vec<u8>, b: BankSpec) -> Result<(), Memory>
    ensures { OnOk result (out.new.items ≡ out.old.items ++ bank b) }
{
    put_u32(out, b.blocks)?;
    put_u32(out, b.latency)
}

#[tactic(auto, unfolding(crate::specs::Spelling::listed))]
fn put_banks(out: &mut Vec<u8>, banks: &[BankSpec]) -> Result<(), Memory>
    requires { length banks.now < 2 ^ 8 }
    ensures { OnOk result (out.new.items ≡ out.old.items ++ listed 1 bank banks.now) }
{
    put_u8(out, banks.len() as u8)?;
    for bank in banks {
        put_bank(out, *bank)?;
    }
    Ok(())
}

fn put_fields(out: &mut Vec<u8>, opcode: u8, operands: &Operands) -> Result<(), Memory>
    ensures { OnOk result (out.new.items ≡ out.old.items ++ opcode_and_operands opcode operands.now) }
{
    put_u8(out, opcode)?;
    put_u8(out, operands.a)?;
    put_u8(out, operands.b)?;
    put_u8(out, operands.c)?;
    put_u32(out, operands.offset.cast_unsigned())?;
    put_u64(out, operands.constant.cast_unsigned())
}

#[tactic(auto, unfolding(crate::specs::Spelling::instruction))]
fn put_instruction(out: &mut Vec<u8>, instr: &Instr) -> Result<(), Memory>
    ensures { OnOk result (out.new.items ≡ out.old.items ++ instruction instr.now) }
{
    put_fields(out, opcode_of(kind_of(*instr)), &operands_of(*instr))
}

#[tactic(auto, unfolding(crate::specs::Spelling::listed))]
fn put_code(out: &mut Vec<u8>, code: &[Instr]) -> Result<(), Memory>
    requires { length code.now < 2 ^ 32 }
    ensures { OnOk result (out.new.items ≡ out.old.items ++ listed 4 instruction code.now) }
{
    put_u32(out, code.len() as u32)?;
    for instr in code {
        put_instruction(out, instr)?;
    }
    Ok(())
}

fn label_code(label: Label) -> u8
    ensures { result ≡ label_code label }
{
    match label {
        Label::Public => 0,
        Label::Secret => 1,
    }
}

fn shape_code(shape: Shape) -> u8
    ensures { result ≡ shape_code shape }
{
    match shape {
        Shape::Scalar => 0,
        Shape::Array => 1,
    }
}

#[tactic(auto, unfolding(crate::specs::Spelling::name))]
fn put_name(out: &mut Vec<u8>, text: &Name) -> Result<(), Memory>
    ensures { OnOk result (out.new.items ≡ out.old.items ++ name text.now) }
{
    let bytes = text.bytes();
    put_u8(out, bytes.len() as u8)?;
    out.extend_from_slice(bytes)?;
    Ok(())
}

fn put_symbol(out: &mut Vec<u8>, s: &Symbol) -> Result<(), Memory>
    ensures { OnOk result (out.new.items ≡ out.old.items ++ symbol s.now) }
{
    put_name(out, &s.name)?;
    put_u8(out, label_code(s.label))?;
    put_u8(out, shape_code(s.shape))?;
    put_u8(out, s.bank)?;
    put_u32(out, s.block)?;
    put_u16(out, s.word)?;
    put_u32(out, s.length)
}

#[tactic(auto, unfolding(crate::specs::Spelling::listed))]
fn put_symbols(out: &mut Vec<u8>, symbols: &[Symbol]) -> Result<(), Memory>
    requires { length symbols.now < 2 ^ 16 }
    ensures { OnOk result (out.new.items ≡ out.old.items ++ listed 2 symbol symbols.now) }
{
    put_u16(out, symbols.len() as u16)?;
    for symbol in symbols {
        put_symbol(out, symbol)?;
    }
    Ok(())
}

fn put_claims(out: &mut Vec<u8>, claims: &[u8]) -> Result<(), Memory>
    ensures { OnOk result (out.new.items ≡ out.old.items ++ flat_map (number 1) claims.now) }
{
    for claim in claims {
        put_u8(out, *claim)?;
    }
    Ok(())
}

fn put_note(out: &mut Vec<u8>, n: Note) -> Result<(), Memory>
    ensures { OnOk result (out.new.items ≡ out.old.items ++ note n) }
{
    put_u32(out, n.pc)?;
    put_u32(out, n.secrets)?;
    put_claims(out, &n.slots)
}

#[tactic(auto, unfolding(crate::specs::Spelling::listed))]
fn put_notes(out: &mut Vec<u8>, notes: &[Note]) -> Result<(), Memory>
    requires { length notes.now < 2 ^ 32 }
    ensures { OnOk result (out.new.items ≡ out.old.items ++ listed 4 note notes.now) }
{
    put_u32(out, notes.len() as u32)?;
    for note in notes {
        put_note(out, *note)?;
    }
    Ok(())
}

#[tactic(auto, using(crate::proofs::HeaderLaws::magic_is))]
fn put_header(out: &mut Vec<u8>, p: &Profile) -> Result<(), Memory>
    ensures { OnOk result (out.new.items ≡ out.old.items ++ magic ++ profile p.now) }
{
    put_u32(out, MAGIC)?;
    put_profile(out, p)
}

#[tactic(auto, unfolding(crate::specs::Spelling::spelling))]
fn put_object(out: &mut Vec<u8>, o: &Object) -> Result<(), Memory>
    ensures spelled { OnOk result (out.new.items ≡ out.old.items ++ spelling o.now) }
    ensures in_range { IsInRange o.now }
{
    put_header(out, o.profile())?;
    put_banks(out, o.banks())?;
    put_symbols(out, o.symbols())?;
    put_notes(out, o.notes())?;
    put_code(out, o.code())
}

/// Room for an object's encoding, which may need less.
fn room_for(o: &Object) -> usize {
    let symbols = SYMBOL_BYTES * o.symbols().len();
    let notes = NOTE_BYTES * o.notes().len();
    let code = INSTRUCTION_BYTES * o.code().len();
    HEADER_BYTES + symbols + notes + code
}

/// The one encoding of an object, which [`decode`](crate::decode) reads as the same object.
#[tactic(auto, using(crate::proofs::Sizes::short_spelling))]
pub fn encode(alloc: Global, o: &Object) -> Result<Vec<u8>, Memory>
    ensures spelled { IfOk result (λ bytes. bytes.items ≡ spelling o.now) }

    // No longer than what `decode` accepts.
    ensures short { IfOk result (λ bytes. length bytes.items ≤ 33554432) }
{
    let mut out = Vec::with_capacity(alloc, room_for(o))?;
    put_object(&mut out, o)?;
    Ok(out)
}
