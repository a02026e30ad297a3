use gr_word::{Cmp, Op};

/// An instruction. Registers are numbered 0 to 31, slots of the scratchpad 0 to 7. Bank 0 is plain memory, bank 1
/// encrypted memory, and banks from 2 on are oblivious. A target is the instruction's own place plus its offset.
#[derive(Clone, Copy, Debug, PartialEq, Eq)]
pub enum Instr {
    /// Does nothing.
    Nop,
    /// Stops the machine.
    Halt,
    /// Register `rd` becomes `value`.
    Li {
        rd: u8,
        value: i64,
    },
    /// Register `rd` becomes the result of the operation on `ra` and `rb`.
    Alu {
        op: Op,
        rd: u8,
        ra: u8,
        rb: u8,
    },
    /// Loads a block of `bank` into a slot. Register `reg` holds the block's number, taken modulo the bank's number of
    /// blocks.
    Ldb {
        slot: u8,
        bank: u8,
        reg: u8,
    },
    /// Stores a slot's words in the block to which the slot is bound.
    Stb {
        slot: u8,
    },
    /// Register `rd` becomes the number of the block to which the slot is bound.
    Idb {
        rd: u8,
        slot: u8,
    },
    /// Register `rd` becomes the slot's word whose number is in register `off`, modulo the words of a block.
    Ldw {
        rd: u8,
        slot: u8,
        off: u8,
    },
    /// The slot's word whose number is in register `off`, modulo the words of a block, becomes the word of register
    /// `rs`.
    Stw {
        rs: u8,
        slot: u8,
        off: u8,
    },
    /// Jumps to the target.
    Jmp {
        offset: i32,
    },
    /// Jumps to the target if the comparison of `ra` and `rb` is true.
    Br {
        cmp: Cmp,
        ra: u8,
        rb: u8,
        offset: i32,
    },
}
