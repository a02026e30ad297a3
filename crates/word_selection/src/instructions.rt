ghost use Rattle.std.specs.Prelude.{◌≡◌, ◌+◌, ◌<◌};
ghost use Rattle.strength_reduction.specs.Prelude.{numbered};
ghost use Rattle.word_selection.specs.SlotSteps.{Combine, Compute, Constant, Read, Write, instruction_of};

use gr_word::Op;
use lt_isa::Instr;

/// Register `i` of the steps, whose register 0 is `base`.
pub(crate) fn numbered(base: u8, i: u8) -> u8
    requires { base + i < 32 }
    ensures { result ≡ numbered base i }
{
    base + i
}

/// A register becomes a constant.
pub(crate) fn constant(base: u8, to: u8, value: i64) -> Instr
    requires { base + to < 32 }
    ensures { result ≡ instruction_of base (Constant to value) }
{
    Instr::Li {
        rd: numbered(base, to),
        value,
    }
}

/// A register becomes the result of an operation on two registers.
pub(crate) fn compute(base: u8, op: Op, to: u8, left: u8, right: u8) -> Instr
    requires to { base + to < 32 }
    requires left { base + left < 32 }
    requires right { base + right < 32 }
    ensures { result ≡ instruction_of base (Compute op to left right) }
{
    Instr::Alu {
        op,
        rd: numbered(base, to),
        ra: numbered(base, left),
        rb: numbered(base, right),
    }
}

/// A register becomes the result of an operation on a register and another register of the machine.
pub(crate) fn combine(base: u8, op: Op, to: u8, left: u8, outside: u8) -> Instr
    requires to { base + to < 32 }
    requires left { base + left < 32 }
    ensures { result ≡ instruction_of base (Combine op to left outside) }
{
    Instr::Alu {
        op,
        rd: numbered(base, to),
        ra: numbered(base, left),
        rb: outside,
    }
}

/// A register becomes a word of a slot.
pub(crate) fn read(base: u8, to: u8, slot: u8, at: u8) -> Instr
    requires to { base + to < 32 }
    requires at { base + at < 32 }
    ensures { result ≡ instruction_of base (Read to slot at) }
{
    Instr::Ldw {
        rd: numbered(base, to),
        slot,
        off: numbered(base, at),
    }
}

/// A word of a slot becomes that of a register.
pub(crate) fn write(base: u8, from: u8, slot: u8, at: u8) -> Instr
    requires from { base + from < 32 }
    requires at { base + at < 32 }
    ensures { result ≡ instruction_of base (Write from slot at) }
{
    Instr::Stw {
        rs: numbered(base, from),
        slot,
        off: numbered(base, at),
    }
}
