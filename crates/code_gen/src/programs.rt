ghost use Rattle.std.specs.Prelude.{◌≡◌, ◌≤◌, ◌<◌, ℕ, IfOk, OnOk, length};
ghost use Rattle.gr_word.specs.declared.variables.Label.TheVariants.{Public};
ghost use Rattle.src_tree.specs.Prelude.{context_of, LowBlock, block_weight, max_weight, block_of_all, TypedBlock};
ghost use Rattle.held_registers.specs.declared.registers.Held.TheVariants.{Scalar};
ghost use Rattle.held_registers.specs.Prelude.{secret_zero};
ghost use Rattle.block_cache_gen.specs.Prelude.{each_held, IsFastFrame, fast_setting, Appended, no_notes, BlockHasWords};
ghost use Rattle.code_gen.specs.Emitted.{padding_of};
ghost use Rattle.code_gen.specs.Programs.{access, beginning, each_slot, ending, program_code, program_notes, register_code, slot_code};

use crate::known::known_at_start;
use crate::statements::put_block;
use block_cache_gen::{CodeBuf, Emitter, FastFrame};
use gr_base::Memory;
use gr_word::Op;
use held_registers::Held;
use lt_isa::Instr;
use scratch_alloc::Pin;
use src_tree::Stmt;
use std::alloc::Global;

/// Where code is that slots and registers need: before the statements of a program, or after them.
#[derive(Clone, Copy)]
enum Phase {
    Beginning,
    Ending,
}

// The load of a block to a slot, or its store, if the slot has one.
fn put_slot(out: &mut CodeBuf, phase: Phase, slot: u8, block: Option<Pin>) -> Result<(), Memory>
    ensures { OnOk result (Appended out.old out.new (slot_code phase slot block) no_notes) }
{
    match block {
        None => out.put(&[]),
        Some(pin) => match phase {
            Phase::Beginning => {
                let number = Instr::Li {
                    rd: 0,
                    value: i64::from(pin.block),
                };
                let load = Instr::Ldb {
                    slot,
                    bank: pin.bank,
                    reg: 0,
                };
                out.put(&[number, load])
            }
            Phase::Ending => out.put(&[Instr::Stb { slot }]),
        },
    }
}

// Loads or stores the blocks of the slots from 0 on.
fn put_slots(out: &mut CodeBuf, phase: Phase, blocks: &[Option<Pin>]) -> Result<(), Memory>
    requires { length blocks.now ≤ 8 }
    ensures { OnOk result (Appended out.old out.new (each_slot (slot_code phase) 0 blocks.now) no_notes) }
{
    for (slot, block) in blocks.iter().enumerate() {
        put_slot(out, phase, slot as u8, *block)?;
    }
    Ok(())
}

// Loads a register from the word of a slot that register 0 names, or stores it there.
fn access(phase: Phase, register: u8, slot: u8) -> Instr
    ensures { result ≡ access phase register slot }
{
    match phase {
        Phase::Beginning => Instr::Ldw {
            rd: register,
            slot,
            off: 0,
        },
        Phase::Ending => Instr::Stw {
            rs: register,
            slot,
            off: 0,
        },
    }
}

// What a register begins with, or the store of the scalar that it holds.
fn put_register(
    out: &mut CodeBuf,
    f: &FastFrame<'_>,
    phase: Phase,
    register: u8,
    held: Held,
) -> Result<(), Memory>
    requires frame { IsFastFrame f.now }
    requires scalar { (n : ℕ) → held ≡ Scalar n → n < length f.now.program.now.decls.items }
    ensures { OnOk result (Appended out.old out.new (register_code phase (fast_setting f.now) register held) no_notes) }
{
    match held {
        Held::SecretZero => match phase {
            Phase::Beginning => out.put(&[
                Instr::Ldw {
                    rd: register,
                    slot: 1,
                    off: 0,
                },
                Instr::Alu {
                    op: Op::Sub,
                    rd: register,
                    ra: register,
                    rb: register,
                },
            ]),
            Phase::Ending => out.put(&[]),
        },
        Held::Number(value) => match phase {
            Phase::Beginning => out.put(&[Instr::Li {
                rd: register,
                value,
            }]),
            Phase::Ending => out.put(&[]),
        },
        Held::Scalar(number) => {
            let number_of_word = i64::from(f.places.of_var[number as usize].word);
            let slot = f.slots.of_var[number as usize];
            out.put(&[
                Instr::Li {
                    rd: 0,
                    value: number_of_word,
                },
                access(phase, register, slot),
            ])
        }
    }
}

// What the registers begin with that hold something for the whole run, or the stores of the scalars among it.
fn put_registers(out: &mut CodeBuf, f: &FastFrame<'_>, phase: Phase) -> Result<(), Memory>
    requires frame { IsFastFrame f.now }
    ensures { OnOk result (Appended out.old out.new
        (each_held (register_code phase (fast_setting f.now)) secret_zero f.now.held.now) no_notes) }
{
    for (place, held) in f.held.iter().enumerate() {
        put_register(out, f, phase, place as u8 + 19, *held)?;
    }
    Ok(())
}

// The loads of the slots and the registers that the rest of a program relies on.
fn put_beginning(
    emitter: &Emitter<'_, '_, '_>,
    f: &FastFrame<'_>,
    out: &mut CodeBuf,
) -> Result<(), Memory>
    requires frame { IsFastFrame f.now }
    requires same { emitter.now ≡ fast_setting f.now }
    ensures { OnOk result (Appended out.old out.new (beginning emitter.now) no_notes) }
{
    put_slots(out, Phase::Beginning, &emitter.first_blocks())?;
    put_registers(out, f, Phase::Beginning)
}

// The stores of the scalars that registers hold and of the blocks that slots hold for the whole run, and the end.
fn put_ending(
    emitter: &Emitter<'_, '_, '_>,
    f: &FastFrame<'_>,
    out: &mut CodeBuf,
) -> Result<(), Memory>
    requires frame { IsFastFrame f.now }
    requires same { emitter.now ≡ fast_setting f.now }
    ensures { OnOk result (Appended out.old out.new (ending emitter.now) no_notes) }
{
    put_registers(out, f, Phase::Ending)?;
    put_slots(out, Phase::Ending, &emitter.pins())?;
    out.put(&[Instr::Halt])
}

/// The code of a whole program, and its notes: the loads that the rest relies on, the statements, and the stores of the
/// scalars that registers hold and of the blocks that slots hold for the whole run. The only error is running out of
/// memory.
pub(crate) fn program_code<'a>(
    alloc: Global,
    emitter: &Emitter<'a, '_, '_>,
    f: &FastFrame<'_>,
    body: &'a [Stmt],
) -> Result<CodeBuf, Memory>
    requires frame { IsFastFrame f.now }
    requires same { emitter.now ≡ fast_setting f.now }
    requires typed { TypedBlock (context_of emitter.now.decls) Public (block_of_all body.now) }
    requires low { LowBlock (block_of_all body.now) }
    requires light { block_weight (context_of emitter.now.decls) Public (block_of_all body.now) ≤ max_weight }
    ensures code { IfOk result
        (λ out. out.code.items ≡ program_code emitter.now padding_of (block_of_all body.now)) }
    ensures words { OnOk result (BlockHasWords (block_of_all body.now)) }
    ensures notes { IfOk result
        (λ out. out.notes.items ≡ program_notes emitter.now padding_of (block_of_all body.now)) }
{
    let mut out = CodeBuf::new(alloc);
    put_beginning(emitter, f, &mut out)?;
    let known = known_at_start(alloc, emitter)?;
    put_block(&emitter.at(known.as_slice()), &mut out, body)?;
    put_ending(emitter, f, &mut out)?;
    Ok(out)
}
