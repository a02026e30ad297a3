ghost use Rattle.std.specs.Prelude.{◌≡◌, ◌<◌, pos, length};
ghost use Rattle.lt_isa.specs.InstructionTable.{cmp_word, comparison_code, format_of, instruction_of, kind_named, kind_of, limits_of, mnemonic_of, most_operand, operand_numbers, op_word, opcode_of, operands_of, operation_code, small_operands, with_offset};
ghost use Rattle.lt_isa.specs.Step.{target_of};

use crate::instructions::Instr;
use crate::objects::Object;
use gr_word::{Cmp, Op};

/// All operations, in the order of their opcodes.
pub const OPERATIONS: [Op; 11] = [
    Op::Add,
    Op::Sub,
    Op::Mul,
    Op::Div,
    Op::Rem,
    Op::Remu,
    Op::And,
    Op::Or,
    Op::Xor,
    Op::Shl,
    Op::Shr,
];

/// All comparisons, in the order of their opcodes.
pub const COMPARISONS: [Cmp; 6] = [Cmp::Eq, Cmp::Ne, Cmp::Lt, Cmp::Le, Cmp::Gt, Cmp::Ge];

/// An instruction without its operands: an opcode names one kind.
#[derive(Clone, Copy, Debug, PartialEq, Eq)]
pub enum Kind {
    Nop,
    Halt,
    Li,
    Ldb,
    Stb,
    Idb,
    Ldw,
    Stw,
    Jmp,
    Alu(Op),
    Br(Cmp),
}

/// What an operand field of an instruction holds.
#[derive(Clone, Copy, Debug, PartialEq, Eq)]
pub enum Operand {
    /// Nothing: the field is 0.
    Unused,
    /// The number of a register, 0 to 31.
    Register,
    /// The number of a slot of the scratchpad, 0 to 7.
    Slot,
    /// The number of a bank of the object.
    Bank,
}

/// What each operand field of a kind of instruction holds.
#[derive(Clone, Copy, Debug, PartialEq, Eq)]
pub struct Format {
    pub a: Operand,
    pub b: Operand,
    pub c: Operand,
    /// Whether the instruction has an offset to a target.
    pub offset: bool,
    /// Whether the instruction has a constant.
    pub constant: bool,
}

/// The greatest value of each operand field of a kind of instruction, as an unsigned number; 0 if the field isn't used.
#[derive(Clone, Copy, Debug, PartialEq, Eq)]
pub struct Limits {
    pub a: u8,
    pub b: u8,
    pub c: u8,
    pub offset: u32,
    pub constant: u64,
}

/// The operands of an instruction, field by field; a field that it doesn't use is 0.
#[derive(Clone, Copy, Debug, PartialEq, Eq)]
pub struct Operands {
    pub a: u8,
    pub b: u8,
    pub c: u8,
    pub offset: i32,
    pub constant: i64,
}

/// The kind of instruction that an opcode names, or `None` if it names none.
#[tactic(auto, unfolding(crate::specs::InstructionTable::kind_named))]
pub fn kind_named(opcode: u8) -> Option<Kind>
    ensures { result ≡ kind_named opcode }
{
    match opcode {
        0 => Some(Kind::Nop),
        1 => Some(Kind::Halt),
        2 => Some(Kind::Li),
        3 => Some(Kind::Ldb),
        4 => Some(Kind::Stb),
        5 => Some(Kind::Idb),
        6 => Some(Kind::Ldw),
        7 => Some(Kind::Stw),
        8 => Some(Kind::Jmp),
        16 => Some(Kind::Alu(Op::Add)),
        17 => Some(Kind::Alu(Op::Sub)),
        18 => Some(Kind::Alu(Op::Mul)),
        19 => Some(Kind::Alu(Op::Div)),
        20 => Some(Kind::Alu(Op::Rem)),
        21 => Some(Kind::Alu(Op::Remu)),
        22 => Some(Kind::Alu(Op::And)),
        23 => Some(Kind::Alu(Op::Or)),
        24 => Some(Kind::Alu(Op::Xor)),
        25 => Some(Kind::Alu(Op::Shl)),
        26 => Some(Kind::Alu(Op::Shr)),
        32 => Some(Kind::Br(Cmp::Eq)),
        33 => Some(Kind::Br(Cmp::Ne)),
        34 => Some(Kind::Br(Cmp::Lt)),
        35 => Some(Kind::Br(Cmp::Le)),
        36 => Some(Kind::Br(Cmp::Gt)),
        37 => Some(Kind::Br(Cmp::Ge)),
        _ => None,
    }
}

fn operation_code(op: Op) -> u8
    ensures { result ≡ operation_code op }
{
    match op {
        Op::Add => 16,
        Op::Sub => 17,
        Op::Mul => 18,
        Op::Div => 19,
        Op::Rem => 20,
        Op::Remu => 21,
        Op::And => 22,
        Op::Or => 23,
        Op::Xor => 24,
        Op::Shl => 25,
        Op::Shr => 26,
    }
}

fn comparison_code(cmp: Cmp) -> u8
    ensures { result ≡ comparison_code cmp }
{
    match cmp {
        Cmp::Eq => 32,
        Cmp::Ne => 33,
        Cmp::Lt => 34,
        Cmp::Le => 35,
        Cmp::Gt => 36,
        Cmp::Ge => 37,
    }
}

/// The opcode of a kind of instruction.
pub fn opcode_of(kind: Kind) -> u8
    ensures { result ≡ opcode_of kind }
{
    match kind {
        Kind::Nop => 0,
        Kind::Halt => 1,
        Kind::Li => 2,
        Kind::Ldb => 3,
        Kind::Stb => 4,
        Kind::Idb => 5,
        Kind::Ldw => 6,
        Kind::Stw => 7,
        Kind::Jmp => 8,
        Kind::Alu(op) => operation_code(op),
        Kind::Br(cmp) => comparison_code(cmp),
    }
}

/// The word of an operation in assembly text.
pub fn op_word(op: Op) -> &'static [u8]
    ensures { result.now ≡ op_word op }
{
    match op {
        Op::Add => b"add",
        Op::Sub => b"sub",
        Op::Mul => b"mul",
        Op::Div => b"div",
        Op::Rem => b"rem",
        Op::Remu => b"remu",
        Op::And => b"and",
        Op::Or => b"or",
        Op::Xor => b"xor",
        Op::Shl => b"shl",
        Op::Shr => b"shr",
    }
}

/// The word of a comparison in assembly text.
pub fn cmp_word(cmp: Cmp) -> &'static [u8]
    ensures { result.now ≡ cmp_word cmp }
{
    match cmp {
        Cmp::Eq => b"eq",
        Cmp::Ne => b"ne",
        Cmp::Lt => b"lt",
        Cmp::Le => b"le",
        Cmp::Gt => b"gt",
        Cmp::Ge => b"ge",
    }
}

/// The first word of a kind of instruction in assembly text.
pub fn mnemonic_of(kind: Kind) -> &'static [u8]
    ensures { result.now ≡ mnemonic_of kind }
{
    match kind {
        Kind::Nop => b"nop",
        Kind::Halt => b"halt",
        Kind::Li => b"li",
        Kind::Ldb => b"ldb",
        Kind::Stb => b"stb",
        Kind::Idb => b"idb",
        Kind::Ldw => b"ldw",
        Kind::Stw => b"stw",
        Kind::Jmp => b"jmp",
        Kind::Alu(op) => op_word(op),
        Kind::Br(_) => b"br",
    }
}

fn small_operands(a: Operand, b: Operand, c: Operand) -> Format
    ensures { result ≡ small_operands a b c }
{
    Format {
        a,
        b,
        c,
        offset: false,
        constant: false,
    }
}

/// What the operand fields of a kind of instruction hold.
pub fn format_of(kind: Kind) -> Format
    ensures { result ≡ format_of kind }
{
    match kind {
        Kind::Nop | Kind::Halt => {
            small_operands(Operand::Unused, Operand::Unused, Operand::Unused)
        }
        Kind::Li => Format {
            constant: true,
            ..small_operands(Operand::Register, Operand::Unused, Operand::Unused)
        },
        Kind::Ldb => small_operands(Operand::Slot, Operand::Bank, Operand::Register),
        Kind::Stb => small_operands(Operand::Slot, Operand::Unused, Operand::Unused),
        Kind::Idb => small_operands(Operand::Register, Operand::Slot, Operand::Unused),
        Kind::Ldw | Kind::Stw => {
            small_operands(Operand::Register, Operand::Slot, Operand::Register)
        }
        Kind::Jmp => Format {
            offset: true,
            ..small_operands(Operand::Unused, Operand::Unused, Operand::Unused)
        },
        Kind::Alu(_) => small_operands(Operand::Register, Operand::Register, Operand::Register),
        Kind::Br(_) => Format {
            offset: true,
            ..small_operands(Operand::Register, Operand::Register, Operand::Unused)
        },
    }
}

fn most_operand(banks: u8, operand: Operand) -> u8
    ensures { result ≡ most_operand banks operand }
{
    match operand {
        Operand::Unused => 0,
        Operand::Register => 31,
        Operand::Slot => 7,
        Operand::Bank => banks.saturating_sub(1),
    }
}

/// The greatest value of each operand field of a kind of instruction, in an object with `banks` banks.
pub fn limits_of(banks: u8, kind: Kind) -> Limits
    ensures { result ≡ limits_of banks kind }
{
    let format = format_of(kind);
    Limits {
        a: most_operand(banks, format.a),
        b: most_operand(banks, format.b),
        c: most_operand(banks, format.c),
        offset: if format.offset { u32::MAX } else { 0 },
        constant: if format.constant { u64::MAX } else { 0 },
    }
}

/// The kind of an instruction.
pub fn kind_of(instruction: Instr) -> Kind
    ensures { result ≡ kind_of instruction }
{
    match instruction {
        Instr::Nop => Kind::Nop,
        Instr::Halt => Kind::Halt,
        Instr::Li { .. } => Kind::Li,
        Instr::Alu { op, .. } => Kind::Alu(op),
        Instr::Ldb { .. } => Kind::Ldb,
        Instr::Stb { .. } => Kind::Stb,
        Instr::Idb { .. } => Kind::Idb,
        Instr::Ldw { .. } => Kind::Ldw,
        Instr::Stw { .. } => Kind::Stw,
        Instr::Jmp { .. } => Kind::Jmp,
        Instr::Br { cmp, .. } => Kind::Br(cmp),
    }
}

fn numbers(a: u8, b: u8, c: u8) -> Operands
    ensures { result ≡ operand_numbers a b c }
{
    Operands {
        a,
        b,
        c,
        offset: 0,
        constant: 0,
    }
}

/// The operands of an instruction; those that it doesn't use are 0.
pub fn operands_of(instruction: Instr) -> Operands
    ensures { result ≡ operands_of instruction }
{
    match instruction {
        Instr::Nop | Instr::Halt => numbers(0, 0, 0),
        Instr::Li { rd, value } => Operands {
            constant: value,
            ..numbers(rd, 0, 0)
        },
        Instr::Ldb { slot, bank, reg } => numbers(slot, bank, reg),
        Instr::Stb { slot } => numbers(slot, 0, 0),
        Instr::Idb { rd, slot } => numbers(rd, slot, 0),
        Instr::Ldw { rd, slot, off } => numbers(rd, slot, off),
        Instr::Stw { rs, slot, off } => numbers(rs, slot, off),
        Instr::Jmp { offset } => Operands {
            offset,
            ..numbers(0, 0, 0)
        },
        Instr::Alu { rd, ra, rb, .. } => numbers(rd, ra, rb),
        Instr::Br { ra, rb, offset, .. } => Operands {
            offset,
            ..numbers(ra, rb, 0)
        },
    }
}

/// The instruction of a kind with these operands; operands that the kind doesn't use are ignored.
pub fn instruction_of(kind: Kind, operands: Operands) -> Instr
    ensures { result ≡ instruction_of kind operands }
{
    match kind {
        Kind::Nop => Instr::Nop,
        Kind::Halt => Instr::Halt,
        Kind::Li => Instr::Li {
            rd: operands.a,
            value: operands.constant,
        },
        Kind::Ldb => Instr::Ldb {
            slot: operands.a,
            bank: operands.b,
            reg: operands.c,
        },
        Kind::Stb => Instr::Stb { slot: operands.a },
        Kind::Idb => Instr::Idb {
            rd: operands.a,
            slot: operands.b,
        },
        Kind::Ldw => Instr::Ldw {
            rd: operands.a,
            slot: operands.b,
            off: operands.c,
        },
        Kind::Stw => Instr::Stw {
            rs: operands.a,
            slot: operands.b,
            off: operands.c,
        },
        Kind::Jmp => Instr::Jmp {
            offset: operands.offset,
        },
        Kind::Alu(op) => Instr::Alu {
            op,
            rd: operands.a,
            ra: operands.b,
            rb: operands.c,
        },
        Kind::Br(cmp) => Instr::Br {
            cmp,
            ra: operands.a,
            rb: operands.b,
            offset: operands.offset,
        },
    }
}

/// The same instruction with another offset. An instruction without an offset stays as it is.
pub fn with_offset(instruction: Instr, offset: i32) -> Instr
    ensures { result ≡ with_offset offset instruction }
{
    let operands = Operands {
        offset,
        ..operands_of(instruction)
    };
    instruction_of(kind_of(instruction), operands)
}

/// The place to which an offset leads from a place of an object's code. Every place outside the code is a fault, so a
/// target before the code is reported as the place after its end.
pub fn target_of(object: &Object, place: usize, offset: i32) -> usize
    requires { place < length object.now.code }
    ensures { result ≡ target_of object.now place offset }
{
    let size = object.code().len();
    if offset >= 0 {
        return place + offset as usize;
    }
    let back = offset.unsigned_abs() as usize;
    if back <= place { place - back } else { size }
}
