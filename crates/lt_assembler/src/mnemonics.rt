ghost use Rattle.std.specs.Prelude.{◌≡◌, bytes_eq};
ghost use Rattle.lt_assembler.specs.Faults.{form};
ghost use Rattle.lt_assembler.specs.Operands.{op_named, cmp_named, label_named, shape_named, mnemonic_word, mnemonic_named, named, mnemonics};

use crate::faults::Fault;
use crate::putting::{label_word, shape_word};
use gr_word::{Cmp, Label, Op, Shape};
use lt_isa::instruction_table::{COMPARISONS, Kind, OPERATIONS, cmp_word, mnemonic_of, op_word};

/// The instructions, by their first word.
#[derive(Clone, Copy)]
pub enum Mnemonic {
    Nop,
    Halt,
    Li,
    Ldb,
    Stb,
    Idb,
    Ldw,
    Stw,
    Jmp,
    Br,
    Alu(Op),
}

const MNEMONICS: [Mnemonic; 10] = [
    Mnemonic::Nop,
    Mnemonic::Halt,
    Mnemonic::Li,
    Mnemonic::Ldb,
    Mnemonic::Stb,
    Mnemonic::Idb,
    Mnemonic::Ldw,
    Mnemonic::Stw,
    Mnemonic::Jmp,
    Mnemonic::Br,
];

/// Whether two words are equal.
pub fn same(a: &[u8], b: &[u8]) -> bool
    ensures { result ≡ bytes_eq a.now b.now }
{
    a == b
}

/// The operation that a word names.
#[tactic(auto, unfolding(crate::specs::Operands::op_named))]
pub fn op_named(word: &[u8]) -> Option<Op>
    ensures { result ≡ op_named word.now }
{
    OPERATIONS
        .iter()
        .copied()
        .find(|op| same(op_word(*op), word))
}

/// The comparison that a word names.
#[tactic(auto, unfolding(crate::specs::Operands::cmp_named))]
pub fn cmp_named(word: &[u8]) -> Option<Cmp>
    ensures { result ≡ cmp_named word.now }
{
    COMPARISONS
        .iter()
        .copied()
        .find(|cmp| same(cmp_word(*cmp), word))
}

/// The label that a word names, or the error of its line.
#[tactic(auto, unfolding(crate::specs::Operands::label_named))]
pub fn label_named(word: &[u8]) -> Result<Label, Fault>
    ensures { result ≡ form (label_named word.now) }
{
    if same(label_word(Label::Public), word) {
        return Ok(Label::Public);
    }
    if same(label_word(Label::Secret), word) {
        return Ok(Label::Secret);
    }
    Err(Fault::WrongForm)
}

/// The shape that a word names, or the error of its line.
#[tactic(auto, unfolding(crate::specs::Operands::shape_named))]
pub fn shape_named(word: &[u8]) -> Result<Shape, Fault>
    ensures { result ≡ form (shape_named word.now) }
{
    if same(shape_word(Shape::Scalar), word) {
        return Ok(Shape::Scalar);
    }
    if same(shape_word(Shape::Array), word) {
        return Ok(Shape::Array);
    }
    Err(Fault::WrongForm)
}

fn mnemonic_word(mnemonic: Mnemonic) -> &'static [u8]
    ensures { result.now ≡ mnemonic_word mnemonic }
{
    match mnemonic {
        Mnemonic::Nop => mnemonic_of(Kind::Nop),
        Mnemonic::Halt => mnemonic_of(Kind::Halt),
        Mnemonic::Li => mnemonic_of(Kind::Li),
        Mnemonic::Ldb => mnemonic_of(Kind::Ldb),
        Mnemonic::Stb => mnemonic_of(Kind::Stb),
        Mnemonic::Idb => mnemonic_of(Kind::Idb),
        Mnemonic::Ldw => mnemonic_of(Kind::Ldw),
        Mnemonic::Stw => mnemonic_of(Kind::Stw),
        Mnemonic::Jmp => mnemonic_of(Kind::Jmp),
        Mnemonic::Br => mnemonic_of(Kind::Br(Cmp::Eq)),
        Mnemonic::Alu(op) => op_word(op),
    }
}

/// The instruction with this first word, if it isn't an operation.
fn plain_mnemonic(word: &[u8]) -> Option<Mnemonic>
    ensures { result ≡ named mnemonic_word mnemonics word.now }
{
    MNEMONICS
        .iter()
        .copied()
        .find(|mnemonic| same(mnemonic_word(*mnemonic), word))
}

/// The instruction with this first word, found by comparing the word with each.
#[tactic(auto, unfolding(crate::specs::Operands::mnemonic_named))]
fn mnemonic_among_all(word: &[u8]) -> Option<Mnemonic>
    ensures { result ≡ mnemonic_named word.now }
{
    plain_mnemonic(word).or(op_named(word).map(Mnemonic::Alu))
}

/// The operation on bits with this word. Only a word that begins no instruction is compared with each.
#[tactic(auto, unfolding(crate::specs::Operands::mnemonic_named, crate::specs::Operands::op_named))]
fn bit_operation_named(word: &[u8]) -> Option<Mnemonic>
    ensures { result ≡ mnemonic_named word.now }
{
    match word {
        [b'o', b'r'] => Some(Mnemonic::Alu(Op::Or)),
        [b'a', b'n', b'd'] => Some(Mnemonic::Alu(Op::And)),
        [b'x', b'o', b'r'] => Some(Mnemonic::Alu(Op::Xor)),
        [b's', b'h', b'l'] => Some(Mnemonic::Alu(Op::Shl)),
        [b's', b'h', b'r'] => Some(Mnemonic::Alu(Op::Shr)),
        _ => mnemonic_among_all(word),
    }
}

/// The operation with this word.
#[tactic(auto, unfolding(crate::specs::Operands::mnemonic_named, crate::specs::Operands::op_named))]
fn operation_named(word: &[u8]) -> Option<Mnemonic>
    ensures { result ≡ mnemonic_named word.now }
{
    match word {
        [b'a', b'd', b'd'] => Some(Mnemonic::Alu(Op::Add)),
        [b's', b'u', b'b'] => Some(Mnemonic::Alu(Op::Sub)),
        [b'm', b'u', b'l'] => Some(Mnemonic::Alu(Op::Mul)),
        [b'd', b'i', b'v'] => Some(Mnemonic::Alu(Op::Div)),
        [b'r', b'e', b'm'] => Some(Mnemonic::Alu(Op::Rem)),
        [b'r', b'e', b'm', b'u'] => Some(Mnemonic::Alu(Op::Remu)),
        _ => bit_operation_named(word),
    }
}

/// The instruction with this first word, of those that use the scratchpad or are operations.
#[tactic(auto, unfolding(crate::specs::Operands::mnemonic_named))]
fn scratchpad_named(word: &[u8]) -> Option<Mnemonic>
    ensures { result ≡ mnemonic_named word.now }
{
    match word {
        [b'l', b'd', b'b'] => Some(Mnemonic::Ldb),
        [b'l', b'd', b'w'] => Some(Mnemonic::Ldw),
        [b's', b't', b'b'] => Some(Mnemonic::Stb),
        [b's', b't', b'w'] => Some(Mnemonic::Stw),
        [b'i', b'd', b'b'] => Some(Mnemonic::Idb),
        _ => operation_named(word),
    }
}

/// The instruction with this first word.
#[tactic(auto, unfolding(crate::specs::Operands::mnemonic_named))]
pub fn mnemonic_named(word: &[u8]) -> Option<Mnemonic>
    ensures { result ≡ mnemonic_named word.now }
{
    match word {
        [b'l', b'i'] => Some(Mnemonic::Li),
        [b'b', b'r'] => Some(Mnemonic::Br),
        [b'n', b'o', b'p'] => Some(Mnemonic::Nop),
        [b'j', b'm', b'p'] => Some(Mnemonic::Jmp),
        [b'h', b'a', b'l', b't'] => Some(Mnemonic::Halt),
        _ => scratchpad_named(word),
    }
}
