ghost use Rattle.std.specs.Prelude.{◌≡◌, ◌≤◌, map, option_map, IfOk};
ghost use Rattle.lt_isa.specs.Prelude.{most_instructions};
ghost use Rattle.lt_assembler.specs.Faults.{Reads, number_or};
ghost use Rattle.lt_assembler.specs.Numbers.{number_within};
ghost use Rattle.lt_assembler.specs.Instructions.{li_read, operation_read, alu_read, load_read, ldb_read, stb_read, idb_read, access_at_read, access_read, ldw_read, stw_read, bare_read, arrow_read, aim_read, offset_to, jump_read, jmp_read, branch_to_read, branch_read, br_read, untargeted_read, operands_read, instruction_read, is_instruction};

use crate::faults::Fault;
use crate::mnemonics::{Mnemonic, cmp_named, mnemonic_named, same};
use crate::numbers::{
    backward_of, begins_with, begins_with_digit, but_first, constant_of, forward_of, number_in,
};
use crate::operands::{bank_named, register_of, slot_of};
use gr_word::{Cmp, Op, name_fits};
use lt_isa::Instr;

/// The greatest place that a target may have.
const LAST_PLACE: u64 = 2_147_483_647;

/// A target: an offset, or a label.
#[derive(Clone, Copy)]
pub struct Aim<'a> {
    /// The offset; 0 if the target is a label, whose place isn't known yet.
    pub offset: i32,
    /// The label.
    pub label: Option<&'a [u8]>,
}

/// An instruction, and the label that is its target, if it has one.
#[derive(Clone, Copy)]
pub struct Coded<'a> {
    pub instr: Instr,
    pub label: Option<&'a [u8]>,
}

#[tactic(auto, unfolding(crate::specs::Instructions::li_read))]
fn li(words: &[&[u8]]) -> Result<Instr, Fault>
    ensures { result ≡ li_read (map (λ w. w.now) words.now) }
{
    match words {
        [rd, value] => {
            let rd = register_of(rd)?;
            let value = constant_of(value)?;
            Ok(Instr::Li { rd, value })
        }
        _ => Err(Fault::WrongForm),
    }
}

/// An operation on the registers that three words name.
fn operation(op: Op, rd: &[u8], ra: &[u8], rb: &[u8]) -> Result<Instr, Fault>
    ensures { result ≡ operation_read op rd.now ra.now rb.now }
{
    let rd = register_of(rd)?;
    let ra = register_of(ra)?;
    let rb = register_of(rb)?;
    Ok(Instr::Alu { op, rd, ra, rb })
}

/// The three registers of an operation.
#[tactic(auto, unfolding(crate::specs::Instructions::alu_read))]
fn alu(op: Op, words: &[&[u8]]) -> Result<Instr, Fault>
    ensures { result ≡ alu_read op (map (λ w. w.now) words.now) }
{
    match words {
        [rd, ra, rb] => operation(op, rd, ra, rb),
        _ => Err(Fault::WrongForm),
    }
}

/// A load of a block into the slot that the first word names.
fn load(banks: usize, slot: &[u8], bank: &[u8], reg: &[u8]) -> Result<Instr, Fault>
    ensures { result ≡ load_read banks slot.now bank.now reg.now }
{
    let bank = bank_named(bank)?;
    let reg = register_of(reg)?;
    let slot = slot_of(slot)?;
    if bank as usize >= banks {
        return Err(Fault::Number);
    }
    Ok(Instr::Ldb { slot, bank, reg })
}

/// A load of a block: a slot, one of `banks` banks, and a register.
#[tactic(auto, unfolding(crate::specs::Instructions::ldb_read))]
fn ldb(banks: usize, words: &[&[u8]]) -> Result<Instr, Fault>
    ensures { result ≡ ldb_read banks (map (λ w. w.now) words.now) }
{
    match words {
        [slot, bank, reg] => load(banks, slot, bank, reg),
        _ => Err(Fault::WrongForm),
    }
}

#[tactic(auto, unfolding(crate::specs::Instructions::stb_read))]
fn stb(words: &[&[u8]]) -> Result<Instr, Fault>
    ensures { result ≡ stb_read (map (λ w. w.now) words.now) }
{
    match words {
        [slot] => {
            let slot = slot_of(slot)?;
            Ok(Instr::Stb { slot })
        }
        _ => Err(Fault::WrongForm),
    }
}

#[tactic(auto, unfolding(crate::specs::Instructions::idb_read))]
fn idb(words: &[&[u8]]) -> Result<Instr, Fault>
    ensures { result ≡ idb_read (map (λ w. w.now) words.now) }
{
    match words {
        [rd, slot] => {
            let rd = register_of(rd)?;
            let slot = slot_of(slot)?;
            Ok(Instr::Idb { rd, slot })
        }
        _ => Err(Fault::WrongForm),
    }
}

/// The registers and the slot that three words name.
fn access_at(reg: &[u8], slot: &[u8], off: &[u8]) -> Result<(u8, u8, u8), Fault>
    ensures { result ≡ access_at_read reg.now slot.now off.now }
{
    let reg = register_of(reg)?;
    let off = register_of(off)?;
    let slot = slot_of(slot)?;
    Ok((reg, slot, off))
}

/// A register, a slot and a register.
#[tactic(auto, unfolding(crate::specs::Instructions::access_read))]
fn access(words: &[&[u8]]) -> Result<(u8, u8, u8), Fault>
    ensures { result ≡ access_read (map (λ w. w.now) words.now) }
{
    match words {
        [reg, slot, off] => access_at(reg, slot, off),
        _ => Err(Fault::WrongForm),
    }
}

fn ldw(words: &[&[u8]]) -> Result<Instr, Fault>
    ensures { result ≡ ldw_read (map (λ w. w.now) words.now) }
{
    let (rd, slot, off) = access(words)?;
    Ok(Instr::Ldw { rd, slot, off })
}

fn stw(words: &[&[u8]]) -> Result<Instr, Fault>
    ensures { result ≡ stw_read (map (λ w. w.now) words.now) }
{
    let (rs, slot, off) = access(words)?;
    Ok(Instr::Stw { rs, slot, off })
}

/// An instruction of one word.
fn bare(instr: Instr, words: &[&[u8]]) -> Result<Instr, Fault>
    ensures { result ≡ bare_read instr (map (λ w. w.now) words.now) }
{
    match words {
        [] => Ok(instr),
        [_, ..] => Err(Fault::WrongForm),
    }
}

/// Tests that a word is an arrow.
fn arrow(word: &[u8]) -> Result<(), Fault>
    ensures { result ≡ arrow_read word.now }
{
    if same(word, b"->") {
        Ok(())
    } else {
        Err(Fault::WrongForm)
    }
}

/// The offset to a target that is given as a place.
fn place_aim(place: u32, word: &[u8]) -> Result<i32, Fault>
    requires { place ≤ most_instructions }
    ensures { result
        ≡ number_or (option_map (λ target. offset_to target place) (number_within 0 2147483647 word.now)) }
{
    let target = number_in(0, LAST_PLACE, word)?;
    Ok(target as i32 - place as i32)
}

/// The target of an instruction at a place of the code.
#[tactic(auto, unfolding(crate::specs::Instructions::aim_read))]
fn target(place: u32, word: &[u8]) -> Result<Aim<'_>, Fault>
    requires { place ≤ most_instructions }
    ensures { Reads (λ a. record { offset = a.offset; label = option_map (λ w. w.now) a.label }) result
        (aim_read place word.now) }
{
    if begins_with(b'+', word) {
        let offset = forward_of(but_first(word))?;
        return Ok(Aim {
            offset,
            label: None,
        });
    }
    if begins_with(b'-', word) {
        let offset = backward_of(but_first(word))?;
        return Ok(Aim {
            offset,
            label: None,
        });
    }
    if begins_with_digit(word) {
        let offset = place_aim(place, word)?;
        return Ok(Aim {
            offset,
            label: None,
        });
    }
    if name_fits(word) {
        return Ok(Aim {
            offset: 0,
            label: Some(word),
        });
    }
    Err(Fault::WrongForm)
}

/// A jump to the target that follows an arrow.
fn jump<'a>(place: u32, sign: &[u8], word: &'a [u8]) -> Result<Coded<'a>, Fault>
    requires { place ≤ most_instructions }
    ensures { Reads (λ a. record { instr = a.instr; label = option_map (λ w. w.now) a.label }) result
        (jump_read place sign.now word.now) }
{
    arrow(sign)?;
    let Aim { offset, label } = target(place, word)?;
    Ok(Coded {
        instr: Instr::Jmp { offset },
        label,
    })
}

#[tactic(auto, unfolding(crate::specs::Instructions::jmp_read))]
fn jmp<'a>(place: u32, words: &[&'a [u8]]) -> Result<Coded<'a>, Fault>
    requires { place ≤ most_instructions }
    ensures { Reads (λ a. record { instr = a.instr; label = option_map (λ w. w.now) a.label }) result
        (jmp_read place (map (λ w. w.now) words.now)) }
{
    match words {
        [sign, word] => jump(place, sign, word),
        _ => Err(Fault::WrongForm),
    }
}

/// A branch to the target that follows an arrow.
fn branch_to<'a>(
    place: u32,
    cmp: Cmp,
    ra: u8,
    rb: u8,
    sign: &[u8],
    word: &'a [u8],
) -> Result<Coded<'a>, Fault>
    requires { place ≤ most_instructions }
    ensures { Reads (λ a. record { instr = a.instr; label = option_map (λ w. w.now) a.label }) result
        (branch_to_read place cmp ra rb sign.now word.now) }
{
    arrow(sign)?;
    let Aim { offset, label } = target(place, word)?;
    Ok(Coded {
        instr: Instr::Br {
            cmp,
            ra,
            rb,
            offset,
        },
        label,
    })
}

/// A branch that compares the registers that two words name.
fn branch<'a>(
    place: u32,
    cmp: &[u8],
    ra: &[u8],
    rb: &[u8],
    sign: &[u8],
    word: &'a [u8],
) -> Result<Coded<'a>, Fault>
    requires { place ≤ most_instructions }
    ensures { Reads (λ a. record { instr = a.instr; label = option_map (λ w. w.now) a.label }) result
        (branch_read place cmp.now ra.now rb.now sign.now word.now) }
{
    let cmp = cmp_named(cmp).ok_or(Fault::WrongForm)?;
    let ra = register_of(ra)?;
    let rb = register_of(rb)?;
    branch_to(place, cmp, ra, rb, sign, word)
}

#[tactic(auto, unfolding(crate::specs::Instructions::br_read))]
fn br<'a>(place: u32, words: &[&'a [u8]]) -> Result<Coded<'a>, Fault>
    requires { place ≤ most_instructions }
    ensures { Reads (λ a. record { instr = a.instr; label = option_map (λ w. w.now) a.label }) result
        (br_read place (map (λ w. w.now) words.now)) }
{
    match words {
        [cmp, ra, rb, sign, word] => branch(place, cmp, ra, rb, sign, word),
        _ => Err(Fault::WrongForm),
    }
}

/// An instruction that has no target, from the words after its first.
fn untargeted(banks: usize, mnemonic: Mnemonic, words: &[&[u8]]) -> Result<Instr, Fault>
    ensures { result ≡ untargeted_read banks mnemonic (map (λ w. w.now) words.now) }
{
    match mnemonic {
        Mnemonic::Nop => bare(Instr::Nop, words),
        Mnemonic::Halt => bare(Instr::Halt, words),
        Mnemonic::Li => li(words),
        Mnemonic::Ldb => ldb(banks, words),
        Mnemonic::Stb => stb(words),
        Mnemonic::Idb => idb(words),
        Mnemonic::Ldw => ldw(words),
        Mnemonic::Stw => stw(words),
        Mnemonic::Alu(op) => alu(op, words),
        Mnemonic::Jmp | Mnemonic::Br => Err(Fault::WrongForm),
    }
}

/// An instruction, from the words after its first.
fn operands<'a>(
    banks: usize,
    place: u32,
    mnemonic: Mnemonic,
    words: &[&'a [u8]],
) -> Result<Coded<'a>, Fault>
    requires { place ≤ most_instructions }
    ensures { Reads (λ a. record { instr = a.instr; label = option_map (λ w. w.now) a.label }) result
        (operands_read banks place mnemonic (map (λ w. w.now) words.now)) }
{
    match mnemonic {
        Mnemonic::Jmp => jmp(place, words),
        Mnemonic::Br => br(place, words),
        _ => {
            let instr = untargeted(banks, mnemonic, words)?;
            Ok(Coded { instr, label: None })
        }
    }
}

/// The instruction of a line at a place of the code, in an object with `banks` banks.
#[tactic(auto, unfolding(crate::specs::Instructions::instruction_read))]
pub fn instruction<'a>(banks: usize, place: u32, words: &[&'a [u8]]) -> Result<Coded<'a>, Fault>
    requires { place ≤ most_instructions }
    ensures { Reads (λ a. record { instr = a.instr; label = option_map (λ w. w.now) a.label }) result
        (instruction_read banks place (map (λ w. w.now) words.now)) }
{
    match words {
        [] => Err(Fault::WrongForm),
        [word, rest @ ..] => {
            let mnemonic = mnemonic_named(word).ok_or(Fault::WrongForm)?;
            operands(banks, place, mnemonic, rest)
        }
    }
}

/// Whether a line has the form of an instruction, with any numbers.
#[tactic(auto, unfolding(crate::specs::Instructions::is_instruction))]
pub fn is_instruction(words: &[&[u8]]) -> bool
    ensures { result ≡ is_instruction (map (λ w. w.now) words.now) }
{
    match instruction(2, 0, words) {
        Ok(_) => true,
        Err(Fault::WrongForm) => false,
        Err(Fault::Number) => true,
        Err(Fault::RepeatedName) => true,
        Err(Fault::Limit) => true,
        Err(Fault::Memory) => true,
    }
}
