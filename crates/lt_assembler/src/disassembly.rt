ghost use Rattle.std.specs.Prelude.{◌≡◌, ◌≤◌, length, [], ◌∷◌, ◌++◌, map, flat_map, codes, decimal, OnOk, IfOk};
ghost use Rattle.lt_isa.specs.Prelude.{IsInRange};
ghost use Rattle.lt_assembler.specs.Canonical.{cycles_words, window_words, object_words, words_for_bank, words_for_symbol, note_words, instruction_words, starts_at, code_words, line, canonical};
ghost use Rattle.lt_assembler.specs.Words.{label_word, shape_word, register_word, claim_word};

use crate::putting::{
    label_word, put, put_bank_word, put_claim, put_constant, put_hex, put_number, put_numbers,
    put_register, put_target, put_word, shape_word,
};
use gr_word::{Cmp, Memory, Op};
use lt_isa::instruction_table::{cmp_word, op_word};
use lt_isa::{BankSpec, Instr, Note, Object, Profile, Symbol};
use std::alloc::Global;

/// Adds the words of the block size and of the cycles of instructions, each after a space.
fn put_cycles(out: &mut Vec<u8>, p: &Profile) -> Result<(), Memory>
    ensures { OnOk result (out.new.items ≡ out.old.items ++ flat_map (λ word. 32 ∷ word) (cycles_words p.now)) }
{
    let cycles = [
        u32::from(p.block_log),
        u32::from(p.alu),
        u32::from(p.mul),
        u32::from(p.word),
        u32::from(p.taken),
    ];
    put_numbers(out, &cycles)
}

/// Adds the words of the window, each after a space.
fn put_window(out: &mut Vec<u8>, p: &Profile) -> Result<(), Memory>
    ensures { OnOk result (out.new.items ≡ out.old.items ++ flat_map (λ word. 32 ∷ word) (window_words p.now)) }
{
    put_numbers(out, &[p.period, p.opens, p.closes])
}

/// Adds the version and the words of the first line, each but the first after a space.
fn put_version(out: &mut Vec<u8>, p: &Profile) -> Result<(), Memory>
    ensures { OnOk result (out.new.items ++ 10 ∷ [] ≡ out.old.items ++ line (object_words p.now)) }
{
    if p.has_unit_period() {
        put(out, b".object 1")?;
        return put_cycles(out, p);
    }
    put(out, b".object 2")?;
    put_cycles(out, p)?;
    put_window(out, p)
}

fn put_profile(out: &mut Vec<u8>, p: &Profile) -> Result<(), Memory>
    ensures { OnOk result (out.new.items ≡ out.old.items ++ line (object_words p.now)) }
{
    put_version(out, p)?;
    put(out, b"\n")
}

fn put_bank(out: &mut Vec<u8>, b: BankSpec) -> Result<(), Memory>
    ensures { OnOk result (out.new.items ≡ out.old.items ++ line (words_for_bank b)) }
{
    put(out, b".bank")?;
    put_numbers(out, &[b.blocks, b.latency])?;
    put(out, b"\n")
}

/// Adds the first words of a symbol's line.
fn put_variable(out: &mut Vec<u8>, s: &Symbol) -> Result<(), Memory>
    ensures { OnOk result (out.new.items ≡ out.old.items
        ++ (codes ".symbol " ++ (s.now.name ++ 32 ∷ (label_word s.now.label ++ 32 ∷ shape_word s.now.shape)))) }
{
    put(out, b".symbol")?;
    put_word(out, s.name.bytes())?;
    put_word(out, label_word(s.label))?;
    put_word(out, shape_word(s.shape))
}

/// Adds the other words of a symbol's line, and the line feed.
fn put_place(out: &mut Vec<u8>, s: &Symbol) -> Result<(), Memory>
    ensures { OnOk result (out.new.items ≡ out.old.items ++ 32 ∷ (decimal s.now.bank ++ 32
        ∷ (decimal s.now.block ++ 32 ∷ (decimal s.now.word ++ 32 ∷ (decimal s.now.length ++ 10 ∷ []))))) }
{
    put_numbers(
        out,
        &[u32::from(s.bank), s.block, u32::from(s.word), s.length],
    )?;
    put(out, b"\n")
}

fn put_symbol(out: &mut Vec<u8>, s: &Symbol) -> Result<(), Memory>
    ensures { OnOk result (out.new.items ≡ out.old.items ++ line (words_for_symbol s.now)) }
{
    put_variable(out, s)?;
    put_place(out, s)
}

fn put_claims(out: &mut Vec<u8>, claims: &[u8]) -> Result<(), Memory>
    ensures { OnOk result (out.new.items ≡ out.old.items ++ flat_map (λ claim. 32 ∷ claim_word claim) claims.now) }
{
    for claim in claims {
        put_claim(out, *claim)?;
    }
    Ok(())
}

fn put_note(out: &mut Vec<u8>, n: Note) -> Result<(), Memory>
    ensures { OnOk result (out.new.items ≡ out.old.items ++ line (note_words n)) }
{
    put(out, b".note ")?;
    put_hex(out, 8, n.secrets)?;
    put_claims(out, &n.slots)?;
    put(out, b"\n")
}

/// Adds two registers, each after a space.
fn put_registers(out: &mut Vec<u8>, first: u8, second: u8) -> Result<(), Memory>
    ensures { OnOk result
        (out.new.items ≡ out.old.items ++ 32 ∷ register_word first ++ 32 ∷ register_word second) }
{
    put_register(out, first)?;
    put_register(out, second)
}

/// Adds a constant for a register without its line feed.
fn put_li(out: &mut Vec<u8>, rd: u8, value: i64) -> Result<(), Memory>
    ensures { OnOk result
        (out.new.items ++ 10 ∷ [] ≡ out.old.items ++ line (instruction_words (Instr.Li rd value))) }
{
    put(out, b"li")?;
    put_register(out, rd)?;
    put_constant(out, value)
}

/// Adds an operation without its line feed.
fn put_operation(out: &mut Vec<u8>, op: Op, rd: u8, ra: u8, rb: u8) -> Result<(), Memory>
    ensures { OnOk result
        (out.new.items ++ 10 ∷ [] ≡ out.old.items ++ line (instruction_words (Instr.Alu op rd ra rb))) }
{
    put(out, op_word(op))?;
    put_register(out, rd)?;
    put_registers(out, ra, rb)
}

/// Adds a branch without its line feed.
fn put_branch(out: &mut Vec<u8>, cmp: Cmp, ra: u8, rb: u8, offset: i32) -> Result<(), Memory>
    ensures { OnOk result
        (out.new.items ++ 10 ∷ [] ≡ out.old.items ++ line (instruction_words (Instr.Br cmp ra rb offset))) }
{
    put(out, b"br")?;
    put_word(out, cmp_word(cmp))?;
    put_registers(out, ra, rb)?;
    put_target(out, offset)
}

/// Adds an instruction on words of the scratchpad without its line feed.
fn put_access(out: &mut Vec<u8>, word: &[u8], register: u8, slot: u8, off: u8) -> Result<(), Memory>
    ensures { OnOk result (out.new.items
        ≡ out.old.items ++ word.now ++ 32 ∷ register_word register ++ 32 ∷ decimal slot ++ 32 ∷ register_word off) }
{
    put(out, word)?;
    put_register(out, register)?;
    put_number(out, u32::from(slot))?;
    put_register(out, off)
}

/// Adds a load of a block without its line feed.
fn put_load(out: &mut Vec<u8>, slot: u8, bank: u8, reg: u8) -> Result<(), Memory>
    ensures { OnOk result
        (out.new.items ++ 10 ∷ [] ≡ out.old.items ++ line (instruction_words (Instr.Ldb slot bank reg))) }
{
    put(out, b"ldb")?;
    put_number(out, u32::from(slot))?;
    put_bank_word(out, bank)?;
    put_register(out, reg)
}

/// Adds a store of a slot's block without its line feed.
fn put_stb(out: &mut Vec<u8>, slot: u8) -> Result<(), Memory>
    ensures { OnOk result
        (out.new.items ++ 10 ∷ [] ≡ out.old.items ++ line (instruction_words (Instr.Stb slot))) }
{
    put(out, b"stb")?;
    put_number(out, u32::from(slot))
}

/// Adds the query of a slot's block without its line feed.
fn put_idb(out: &mut Vec<u8>, rd: u8, slot: u8) -> Result<(), Memory>
    ensures { OnOk result
        (out.new.items ++ 10 ∷ [] ≡ out.old.items ++ line (instruction_words (Instr.Idb rd slot))) }
{
    put(out, b"idb")?;
    put_register(out, rd)?;
    put_number(out, u32::from(slot))
}

/// Adds a jump without its line feed.
fn put_jmp(out: &mut Vec<u8>, offset: i32) -> Result<(), Memory>
    ensures { OnOk result
        (out.new.items ++ 10 ∷ [] ≡ out.old.items ++ line (instruction_words (Instr.Jmp offset))) }
{
    put(out, b"jmp")?;
    put_target(out, offset)
}

/// Adds an instruction without its line feed.
fn put_words(out: &mut Vec<u8>, i: &Instr) -> Result<(), Memory>
    ensures { OnOk result (out.new.items ++ 10 ∷ [] ≡ out.old.items ++ line (instruction_words i.now)) }
{
    match *i {
        Instr::Nop => put(out, b"nop"),
        Instr::Halt => put(out, b"halt"),
        Instr::Li { rd, value } => put_li(out, rd, value),
        Instr::Alu { op, rd, ra, rb } => put_operation(out, op, rd, ra, rb),
        Instr::Ldb { slot, bank, reg } => put_load(out, slot, bank, reg),
        Instr::Stb { slot } => put_stb(out, slot),
        Instr::Idb { rd, slot } => put_idb(out, rd, slot),
        Instr::Ldw { rd, slot, off } => put_access(out, b"ldw", rd, slot, off),
        Instr::Stw { rs, slot, off } => put_access(out, b"stw", rs, slot, off),
        Instr::Jmp { offset } => put_jmp(out, offset),
        Instr::Br {
            cmp,
            ra,
            rb,
            offset,
        } => put_branch(out, cmp, ra, rb, offset),
    }
}

fn put_instruction(out: &mut Vec<u8>, i: &Instr) -> Result<(), Memory>
    ensures { OnOk result (out.new.items ≡ out.old.items ++ line (instruction_words i.now)) }
{
    put_words(out, i)?;
    put(out, b"\n")
}

fn put_banks(out: &mut Vec<u8>, banks: &[BankSpec]) -> Result<(), Memory>
    ensures { OnOk result (out.new.items ≡ out.old.items ++ flat_map line (map words_for_bank banks.now)) }
{
    for bank in banks {
        put_bank(out, *bank)?;
    }
    Ok(())
}

fn put_symbols(out: &mut Vec<u8>, symbols: &[Symbol]) -> Result<(), Memory>
    ensures { OnOk result (out.new.items ≡ out.old.items ++ flat_map line (map words_for_symbol symbols.now)) }
{
    for symbol in symbols {
        put_symbol(out, symbol)?;
    }
    Ok(())
}

/// Whether the first of these notes is at a place.
fn is_noted(notes: &[Note], place: usize) -> bool
    ensures { result ≡ starts_at notes.now place }
{
    match notes {
        [] => false,
        [note, ..] => note.pc as usize == place,
    }
}

/// Adds the instructions, each after the note at its place.
fn put_code(out: &mut Vec<u8>, notes: &[Note], code: &[Instr]) -> Result<(), Memory>
    ensures { OnOk result (out.new.items ≡ out.old.items ++ flat_map line (code_words notes.now 0 code.now)) }
{
    let mut notes = notes;
    for (place, instruction) in code.iter().enumerate() {
        if is_noted(notes, place) {
            put_note(out, notes[0])?;
            notes = &notes[1..];
        }
        put_instruction(out, instruction)?;
    }
    Ok(())
}

#[tactic(auto, unfolding(crate::specs::Canonical::canonical))]
fn put_object(out: &mut Vec<u8>, o: &Object) -> Result<(), Memory>
    ensures written { OnOk result (out.new.items ≡ out.old.items ++ canonical o.now) }
    ensures in_range { IsInRange o.now }
{
    put_profile(out, o.profile())?;
    put_banks(out, o.banks())?;
    put_symbols(out, o.symbols())?;
    put_code(out, o.notes(), o.code())
}

/// The canonical text of an object, which [`assemble`](crate::assemble) reads as the same object: its lines in order,
/// words separated by one space, each note directly before its instruction, targets as offsets with a sign, and no
/// empty lines, comments or labels. It is no longer than the texts that `assemble` accepts. The only error is that
/// memory runs out.
pub fn disassemble(alloc: Global, object: &Object) -> Result<Vec<u8>, Memory>
    ensures text { IfOk result (λ text. text.items ≡ canonical object.now) }
    ensures within_limit { IfOk result (λ text. length text.items ≤ 67108864) }
    ensures in_range { IsInRange object.now }
{
    let mut out = Vec::new(alloc);
    put_object(&mut out, object)?;
    Ok(out)
}
