ghost use Rattle.std.specs.Prelude.{◌≡◌, ◌≢◌, ◌↔◌, ◌≤◌, ◌<◌, ◌+◌, ◌-◌, ◌^◌, All, IsTrue, [], length};
ghost use Rattle.gr_base.specs.Prelude.{EachAfter, Within};
ghost use Rattle.lt_isa.specs.Object.{Parts};
ghost use Rattle.lt_isa.specs.Limits.{fewest_banks, most_banks, most_symbols, most_symbol_words, most_notes, most_instructions, most_period};
ghost use Rattle.lt_isa.specs.Ranges.{BankFits, InstrFits, IsInRange, NoteFits, ProfileFits, SymbolFits, is_slot_claim, next_place, total_length};

use crate::instructions::Instr;
use crate::limits::{
    FEWEST_BANKS, LEAST_BLOCK_LOG, MOST_BANKS, MOST_BLOCK_LOG, MOST_CYCLES, MOST_INSTRUCTIONS,
    MOST_LATENCY, MOST_NOTES, MOST_PERIOD, MOST_SYMBOL_WORDS, MOST_SYMBOLS, MOST_TAKEN,
    most_blocks,
};
use crate::profiles::{BankSpec, Profile};
use crate::symbol_places::lies_behind;
use crate::symbols::{Note, Symbol};

/// A note's claim about a slot that may be bound to any bank, or to none.
pub const ANY_BANK: u8 = 255;

/// Whether each field of a profile is in its range.
pub fn profile_fits(profile: &Profile) -> bool
    ensures { IsTrue result ↔ ProfileFits profile.now }
{
    (LEAST_BLOCK_LOG..=MOST_BLOCK_LOG).contains(&profile.block_log)
        && (1..=MOST_CYCLES).contains(&profile.alu)
        && (1..=MOST_CYCLES).contains(&profile.mul)
        && (1..=MOST_CYCLES).contains(&profile.word)
        && (1..=MOST_TAKEN).contains(&profile.taken)
        && window_fits(profile)
}

/// Whether the window opens and closes within its period.
fn window_fits(profile: &Profile) -> bool
    ensures { IsTrue result
        ↔ ((Within 1 most_period profile.now.period)
        × (profile.now.opens < profile.now.period)
        × (Within (profile.now.opens + 1) profile.now.period profile.now.closes)) }
{
    (1..=MOST_PERIOD).contains(&profile.period)
        && profile.opens < profile.period
        && profile.opens < profile.closes
        && profile.closes <= profile.period
}

/// Whether a bank fits as the next one after the banks `before`.
pub fn bank_fits(before: &[BankSpec], bank: &BankSpec) -> bool
    ensures { IsTrue result ↔ BankFits before.now bank.now }
{
    (1..=most_blocks(before.len())).contains(&bank.blocks)
        && (1..=MOST_LATENCY).contains(&bank.latency)
}

/// Whether each bank fits as the next one after those before it.
pub fn banks_fit(banks: &[BankSpec]) -> bool
    ensures { IsTrue result ↔ EachAfter BankFits [] banks.now }
{
    for i in 0..banks.len() {
        if !bank_fits(&banks[..i], &banks[i]) {
            return false;
        }
    }
    true
}

/// Whether none of these symbols has the name.
pub fn is_new_name(before: &[Symbol], name: &[u8]) -> bool
    ensures { IsTrue result ↔ All (λ t. t.name ≢ name.now) before.now }
{
    before.iter().all(|symbol| symbol.name.bytes() != name)
}

/// Whether a symbol fits as the next one after the symbols `before`, which have `total` words altogether.
fn symbol_fits(
    block_words: u32,
    banks: &[BankSpec],
    before: &[Symbol],
    total: u32,
    symbol: &Symbol,
) -> bool
    requires block_size { block_words ≤ 512 }
    requires words_before { total ≡ total_length before.now }
    requires few_words { total ≤ most_symbol_words }
    ensures { IsTrue result ↔ SymbolFits block_words banks.now before.now symbol.now }
{
    is_new_name(before, symbol.name.bytes())
        && lies_behind(block_words, banks, before, symbol)
        && symbol.length <= MOST_SYMBOL_WORDS - total
}

/// Whether each symbol fits as the next one after those before it, if a block has `block_words` words.
fn symbols_fit(block_words: u32, banks: &[BankSpec], symbols: &[Symbol]) -> bool
    requires { block_words ≤ 512 }
    ensures { IsTrue result ↔ EachAfter (SymbolFits block_words banks.now) [] symbols.now }
{
    let mut total = 0;
    for i in 0..symbols.len() {
        let symbol = &symbols[i];
        if !symbol_fits(block_words, banks, &symbols[..i], total, symbol) {
            return false;
        }
        total += symbol.length;
    }
    true
}

/// Whether a note's claim about a slot is a bank's number or [`ANY_BANK`].
pub fn is_slot_claim(banks: usize, claim: u8) -> bool
    ensures { result ≡ is_slot_claim banks claim }
{
    (claim as usize) < banks || claim == ANY_BANK
}

/// The first place after those of some notes.
#[tactic(auto, using(gr_base::proofs::AtLast::at_last_read))]
pub fn next_place(before: &[Note]) -> u64
    ensures { result ≡ next_place before.now }
{
    match before {
        [] => 0,
        [.., last] => u64::from(last.pc) + 1,
    }
}

fn claims_fit(banks: usize, claims: &[u8]) -> bool
    ensures { IsTrue result ↔ All (λ claim. IsTrue (is_slot_claim banks claim)) claims.now }
{
    claims.iter().all(|claim| is_slot_claim(banks, *claim))
}

/// Whether a note fits as the next one after the notes `before`, in an object with `banks` banks.
fn note_fits(banks: usize, before: &[Note], note: Note) -> bool
    ensures { IsTrue result ↔ NoteFits banks before.now note }
{
    next_place(before) <= u64::from(note.pc) && claims_fit(banks, &note.slots)
}

/// Whether each note fits as the next one after those before it, in an object with `banks` banks.
fn notes_fit(banks: usize, notes: &[Note]) -> bool
    ensures { IsTrue result ↔ EachAfter (NoteFits banks) [] notes.now }
{
    for i in 0..notes.len() {
        if !note_fits(banks, &notes[..i], notes[i]) {
            return false;
        }
    }
    true
}

/// Whether a number is the number of a register.
pub fn is_register(number: u8) -> bool
    ensures { IsTrue result ↔ number < 32 }
{
    number < 32
}

/// Whether a number is the number of a slot.
pub fn is_slot(number: u8) -> bool
    ensures { IsTrue result ↔ number < 8 }
{
    number < 8
}

/// Whether an instruction's operands are in range, in an object with `banks` banks.
pub fn instruction_fits(banks: usize, instruction: Instr) -> bool
    ensures { IsTrue result ↔ InstrFits banks instruction }
{
    match instruction {
        Instr::Nop | Instr::Halt | Instr::Jmp { .. } => true,
        Instr::Li { rd, .. } => is_register(rd),
        Instr::Alu { rd, ra, rb, .. } => is_register(rd) && is_register(ra) && is_register(rb),
        Instr::Ldb { slot, bank, reg } => is_slot(slot)
            && (bank as usize) < banks
            && is_register(reg),
        Instr::Stb { slot } => is_slot(slot),
        Instr::Idb { rd, slot } => is_register(rd) && is_slot(slot),
        Instr::Ldw { rd, slot, off } => is_register(rd) && is_slot(slot) && is_register(off),
        Instr::Stw { rs, slot, off } => is_register(rs) && is_slot(slot) && is_register(off),
        Instr::Br { ra, rb, .. } => is_register(ra) && is_register(rb),
    }
}

fn code_fits(banks: usize, code: &[Instr]) -> bool
    ensures { IsTrue result ↔ All (InstrFits banks) code.now }
{
    code.iter()
        .all(|instruction| instruction_fits(banks, *instruction))
}

/// Whether the five parts of an object are in range.
pub fn parts_fit(
    profile: &Profile,
    banks: &[BankSpec],
    symbols: &[Symbol],
    notes: &[Note],
    code: &[Instr],
) -> bool
    ensures { IsTrue result
        ↔ IsInRange (record {
          profile = profile.now;
          banks = banks.now;
          symbols = symbols.now;
          notes = notes.now;
          code = code.now;
        }) }
{
    counts_fit(banks, symbols, notes, code)
        && profile_fits(profile)
        && banks_fit(banks)
        && symbols_fit(profile.block_words(), banks, symbols)
        && notes_fit(banks.len(), notes)
        && next_place(notes) <= code.len() as u64
        && code_fits(banks.len(), code)
}

/// Whether an object may have these numbers of banks, symbols, notes and instructions.
fn counts_fit(banks: &[BankSpec], symbols: &[Symbol], notes: &[Note], code: &[Instr]) -> bool
    ensures { IsTrue result
        ↔ ((Within fewest_banks most_banks (length banks.now))
        × (length symbols.now ≤ most_symbols)
        × (length notes.now ≤ most_notes)
        × (Within 1 most_instructions (length code.now))) }
{
    (FEWEST_BANKS..=MOST_BANKS).contains(&banks.len())
        && symbols.len() <= MOST_SYMBOLS
        && notes.len() <= MOST_NOTES
        && (1..=MOST_INSTRUCTIONS).contains(&code.len())
}
