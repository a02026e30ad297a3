ghost use Rattle.std.specs.Prelude.{◌≡◌, ◌<◌, ◌≤◌, ℕ, [], drop, length, IfSome, Some, Ok};
ghost use Rattle.byteorder.specs.Endian.{little_number};
ghost use Rattle.lt_isa.specs.Prelude.{kind_named};
ghost use Rattle.object_file.specs.Reading.{Decodes, kind_at, instruction_at, items_at, code_at};

use crate::errors::DecodeError;
use crate::fields::{Read, offset_of, u8_at, u8_field, u32_field, u64_field};
use byteorder::{ByteOrder, LittleEndian};
use lt_isa::Instr;
use lt_isa::instruction_table::{Kind, Operands, instruction_of, kind_named, limits_of};
use lt_isa::limits::MOST_INSTRUCTIONS;
use std::alloc::Global;

/// The number of bytes of an instruction.
pub const INSTRUCTION_BYTES: usize = 16;

/// The byte at a place.
#[tactic(auto, using(crate::proofs::AtOnce::byte_number))]
fn byte(bytes: &[u8], place: usize) -> u8
    requires { place < length bytes.now }
    ensures { result ≡ little_number 1 (drop place bytes.now) }
{
    bytes[place]
}

#[tactic(auto, unfolding(crate::specs::Reading::kind_at))]
fn kind(all: u32, bytes: &[u8]) -> Read<'_, Kind>
    ensures { Decodes (λ x. (x.0, x.1.now)) result (kind_at all bytes.now) }
{
    let (opcode, rest) = u8_at(all, bytes)?;
    match kind_named(opcode) {
        Some(kind) => Ok((kind, rest)),
        None => Err(DecodeError::BadField(offset_of(all, bytes))),
    }
}

/// The instruction of a kind whose operands are in these 16 bytes, if each is in its range.
#[inline(always)]
fn instruction_with(banks: u8, kind: Kind, bytes: &[u8]) -> Option<Instr>
    requires long { 16 ≤ length bytes.now }
    requires named { kind_named (little_number 1 (drop 0 bytes.now)) ≡ Some kind }
    ensures { IfSome result (λ i. (all : ℕ) → instruction_at banks all bytes.now ≡ Ok (i, drop 16 bytes.now)) }
{
    let most = limits_of(banks, kind);
    let a = byte(bytes, 1);
    let b = byte(bytes, 2);
    let c = byte(bytes, 3);
    let offset = LittleEndian::read_u32(&bytes[4..]);
    let constant = LittleEndian::read_u64(&bytes[8..]);
    if most.a < a || most.b < b || most.c < c || most.offset < offset || most.constant < constant {
        return None;
    }
    let operands = Operands {
        a,
        b,
        c,
        offset: offset.cast_signed(),
        constant: constant.cast_signed(),
    };
    Some(instruction_of(kind, operands))
}

/// The instruction that the first 16 bytes encode, if they encode one; all fields are tested together. Each kind has an
/// arm of its own, so that its ranges are constants there and the kind isn't examined again.
fn whole_instruction(banks: u8, bytes: &[u8]) -> Option<Instr>
    ensures there { IfSome result (λ i. 16 ≤ length bytes.now) }
    ensures read { IfSome result (λ i. (all : ℕ) → instruction_at banks all bytes.now ≡ Ok (i, drop 16 bytes.now)) }
{
    if bytes.len() < INSTRUCTION_BYTES {
        return None;
    }
    match kind_named(byte(bytes, 0))? {
        Kind::Nop => instruction_with(banks, Kind::Nop, bytes),
        Kind::Halt => instruction_with(banks, Kind::Halt, bytes),
        Kind::Li => instruction_with(banks, Kind::Li, bytes),
        Kind::Ldb => instruction_with(banks, Kind::Ldb, bytes),
        Kind::Stb => instruction_with(banks, Kind::Stb, bytes),
        Kind::Idb => instruction_with(banks, Kind::Idb, bytes),
        Kind::Ldw => instruction_with(banks, Kind::Ldw, bytes),
        Kind::Stw => instruction_with(banks, Kind::Stw, bytes),
        Kind::Jmp => instruction_with(banks, Kind::Jmp, bytes),
        Kind::Alu(op) => instruction_with(banks, Kind::Alu(op), bytes),
        Kind::Br(cmp) => instruction_with(banks, Kind::Br(cmp), bytes),
    }
}

/// An instruction, read field by field to find the first error.
#[cold]
#[inline(never)]
#[tactic(auto, unfolding(crate::specs::Reading::instruction_at))]
fn instruction_by_fields(all: u32, banks: u8, bytes: &[u8]) -> Read<'_, Instr>
    ensures { Decodes (λ x. (x.0, x.1.now)) result (instruction_at banks all bytes.now) }
{
    let (kind, rest) = kind(all, bytes)?;
    let most = limits_of(banks, kind);
    let (a, rest) = u8_field(all, 0, u64::from(most.a), rest)?;
    let (b, rest) = u8_field(all, 0, u64::from(most.b), rest)?;
    let (c, rest) = u8_field(all, 0, u64::from(most.c), rest)?;
    let (offset, rest) = u32_field(all, 0, u64::from(most.offset), rest)?;
    let (constant, rest) = u64_field(all, 0, most.constant, rest)?;
    let operands = Operands {
        a,
        b,
        c,
        offset: offset.cast_signed(),
        constant: constant.cast_signed(),
    };
    Ok((instruction_of(kind, operands), rest))
}

/// `count` instructions. Room is reserved once, for no more than the bytes can encode.
fn instruction_list(
    alloc: Global,
    all: u32,
    banks: u8,
    count: u32,
    bytes: &[u8],
) -> Read<'_, Vec<Instr>>
    ensures { Decodes (λ x. (x.0.items, x.1.now)) result
        (items_at (λ before. instruction_at banks all) count [] bytes.now) }
{
    let room = (bytes.len() / INSTRUCTION_BYTES).min(count as usize);
    let mut code = Vec::with_capacity(alloc, room)?;
    let mut rest = bytes;
    for _ in 0..count {
        match whole_instruction(banks, rest) {
            Some(instr) => {
                code.push(instr)?;
                rest = &rest[INSTRUCTION_BYTES..];
            }
            None => {
                let (instr, after) = instruction_by_fields(all, banks, rest)?;
                code.push(instr)?;
                rest = after;
            }
        }
    }
    Ok((code, rest))
}

/// The instructions: their number, at least `fewest`, and then as many instructions. The bytes after them are returned
/// too.
#[tactic(auto, unfolding(crate::specs::Reading::code_at, crate::specs::Reading::list_at))]
pub fn code(alloc: Global, all: u32, banks: u8, fewest: u64, bytes: &[u8]) -> Read<'_, Vec<Instr>>
    ensures { Decodes (λ x. (x.0.items, x.1.now)) result (code_at banks fewest all bytes.now) }
{
    let (count, rest) = u32_field(all, fewest, MOST_INSTRUCTIONS as u64, bytes)?;
    instruction_list(alloc, all, banks, count, rest)
}
