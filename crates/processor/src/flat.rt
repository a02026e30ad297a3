ghost use Rattle.std.specs.Prelude.{◌≡◌, IfOk};
ghost use Rattle.processor.specs.Flat.{IsFlatOf, IsFlatForm, instr_of};

use gr_base::Memory;
use gr_word::{Cmp, Op};
use lt_isa::{Instr, Object};
use std::alloc::Global;

/// An instruction in a flat form: each operation and each comparison has a variant, so that one jump finds what is
/// done.
#[derive(Clone, Copy)]
pub(crate) enum Flat {
    /// A halt, or a load or a store of a block.
    Access,
    Nop,
    Li { rd: u8, value: i64 },
    Add { rd: u8, ra: u8, rb: u8 },
    Sub { rd: u8, ra: u8, rb: u8 },
    Mul { rd: u8, ra: u8, rb: u8 },
    Div { rd: u8, ra: u8, rb: u8 },
    Rem { rd: u8, ra: u8, rb: u8 },
    Remu { rd: u8, ra: u8, rb: u8 },
    And { rd: u8, ra: u8, rb: u8 },
    Or { rd: u8, ra: u8, rb: u8 },
    Xor { rd: u8, ra: u8, rb: u8 },
    Shl { rd: u8, ra: u8, rb: u8 },
    Shr { rd: u8, ra: u8, rb: u8 },
    Idb { rd: u8, slot: u8 },
    Ldw { rd: u8, slot: u8, off: u8 },
    Stw { rs: u8, slot: u8, off: u8 },
    Jmp { offset: i32 },
    Eq { ra: u8, rb: u8, offset: i32 },
    Ne { ra: u8, rb: u8, offset: i32 },
    Lt { ra: u8, rb: u8, offset: i32 },
    Le { ra: u8, rb: u8, offset: i32 },
    Gt { ra: u8, rb: u8, offset: i32 },
    Ge { ra: u8, rb: u8, offset: i32 },
}

/// The code of an object in its flat form.
pub(crate) fn flat_code(alloc: Global, object: &Object) -> Result<Vec<Flat>, Memory>
    ensures { IfOk result (λ flats. IsFlatOf flats.items object.now.code) }
{
    let code = object.code();
    let mut flats = Vec::with_capacity(alloc, code.len())?;
    for instruction in code {
        flats.push(flat_of(*instruction))?;
    }
    Ok(flats)
}

// The flat form of an instruction.
fn flat_of(instruction: Instr) -> Flat
    ensures { IsFlatForm result instruction }
{
    match instruction {
        Instr::Nop => Flat::Nop,
        Instr::Halt => Flat::Access,
        Instr::Li { rd, value } => Flat::Li { rd, value },
        Instr::Alu { op, rd, ra, rb } => flat_operation(op, rd, ra, rb),
        Instr::Ldb { .. } => Flat::Access,
        Instr::Stb { .. } => Flat::Access,
        Instr::Idb { rd, slot } => Flat::Idb { rd, slot },
        Instr::Ldw { rd, slot, off } => Flat::Ldw { rd, slot, off },
        Instr::Stw { rs, slot, off } => Flat::Stw { rs, slot, off },
        Instr::Jmp { offset } => Flat::Jmp { offset },
        Instr::Br {
            cmp,
            ra,
            rb,
            offset,
        } => flat_branch(cmp, ra, rb, offset),
    }
}

fn flat_operation(op: Op, rd: u8, ra: u8, rb: u8) -> Flat
    ensures { instr_of result ≡ Instr.Alu op rd ra rb }
{
    match op {
        Op::Add => Flat::Add { rd, ra, rb },
        Op::Sub => Flat::Sub { rd, ra, rb },
        Op::Mul => Flat::Mul { rd, ra, rb },
        Op::Div => Flat::Div { rd, ra, rb },
        Op::Rem => Flat::Rem { rd, ra, rb },
        Op::Remu => Flat::Remu { rd, ra, rb },
        Op::And => Flat::And { rd, ra, rb },
        Op::Or => Flat::Or { rd, ra, rb },
        Op::Xor => Flat::Xor { rd, ra, rb },
        Op::Shl => Flat::Shl { rd, ra, rb },
        Op::Shr => Flat::Shr { rd, ra, rb },
    }
}

fn flat_branch(cmp: Cmp, ra: u8, rb: u8, offset: i32) -> Flat
    ensures { instr_of result ≡ Instr.Br cmp ra rb offset }
{
    match cmp {
        Cmp::Eq => Flat::Eq { ra, rb, offset },
        Cmp::Ne => Flat::Ne { ra, rb, offset },
        Cmp::Lt => Flat::Lt { ra, rb, offset },
        Cmp::Le => Flat::Le { ra, rb, offset },
        Cmp::Gt => Flat::Gt { ra, rb, offset },
        Cmp::Ge => Flat::Ge { ra, rb, offset },
    }
}
