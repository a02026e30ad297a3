//! Where each variable of a program is stored, and why.

ghost use Rattle.std.specs.Prelude.{◌≡◌, IfOk, length};
ghost use Rattle.lt_isa.specs.Prelude.{ProfileFits};

use crate::source_texts::{Access, SourceText, push_ascii};
use bank_alloc::banks;
use call_steps::targets::Target;
use compiled_objects::fast_plan;
use flow_types::Typed;
use gr_base::Memory;
use gr_word::{Name, Shape};
use lt_isa::{BankKind, Object, Symbol, bank_kind};
use run_tools::sources::{ReadSource, SourceWords};
use run_tools::variables::{label_text, number_of};
use scratch_alloc::{Pin, PinnedPlan, scalar_pins, slots};
use src_tree::Decl;
use std::alloc::Global;

/// The most variables that are named as sharing a slot.
const MOST_NAMED: u32 = 4;

// What decides where the variables of an object are stored.
#[derive(Clone, Copy)]
struct Reasons<'a> {
    object: &'a Object,
    source: &'a SourceText,
    accesses: &'a [Option<Access>],
    decls: &'a [Decl],
    slots: &'a PinnedPlan,
}

/// A line for each variable of an object that was made of a source, in the order of banks and places.
pub fn layout_lines(
    alloc: Global,
    source: ReadSource,
    object: &Object,
    asked: SourceWords<'_>,
) -> Result<Vec<String>, Memory>
    requires { ProfileFits asked.target.profile }
    ensures { IfOk result (λ lines. length lines.items ≡ length object.now.symbols) }
{
    let ReadSource { text, program } = source;
    let slots = slots_of(alloc, &program, &asked.target)?;
    let source = SourceText::of(alloc, text, program.program(), asked.procs)?;
    let decls = program.program().decls.as_slice();
    let accesses = source.secret_accesses(alloc, decls)?;
    let reasons = Reasons {
        object,
        source: &source,
        accesses: &accesses,
        decls,
        slots: &slots,
    };
    lines_of(alloc, reasons, object.symbols())
}

// The lines of some variables.
fn lines_of(alloc: Global, reasons: Reasons<'_>, symbols: &[Symbol]) -> Result<Vec<String>, Memory>
    ensures { IfOk result (λ lines. length lines.items ≡ length symbols.now) }
{
    let mut lines = Vec::with_capacity(alloc, symbols.len())?;
    for symbol in symbols {
        lines.push(reasons.line_of(alloc, symbol)?)?;
    }
    Ok(lines)
}

/// How the code of a program uses the slots of the scratchpad.
pub(crate) fn slots_of(
    alloc: Global,
    program: &Typed,
    target: &Target,
) -> Result<PinnedPlan, Memory>
    requires { ProfileFits target.now.profile }
{
    let block_log = target.profile.block_log;
    if target.fast {
        return match fast_plan(alloc, program.program(), block_log) {
            Ok(plan) => Ok(plan.slots),
            Err(_) => Err(Memory),
        };
    }
    match banks(alloc, program.program(), block_log) {
        Ok(places) => Ok(PinnedPlan {
            plan: slots(alloc, &places)?,
            pins: scalar_pins(),
        }),
        Err(_) => Err(Memory),
    }
}

/// Whether a slot holds one block for the whole run.
pub(crate) fn is_pinned(slots: &PinnedPlan, slot: u8) -> bool {
    match slots.pins.get(usize::from(slot)) {
        Some(pin) => pin.is_some(),
        None => false,
    }
}

// Whether a block has words of a variable, where a block has 2^block_log words.
fn has_words_of(pin: Pin, symbol: &Symbol, block_log: u8) -> bool {
    if pin.bank != symbol.bank || pin.block < symbol.block {
        return false;
    }
    let size = 1u64.wrapping_shl(u32::from(block_log));
    let first = u64::from(pin.block - symbol.block).saturating_mul(size);
    first < u64::from(symbol.word) + u64::from(symbol.length)
}

impl Reasons<'_> {
    // The line of a variable.
    fn line_of(&self, alloc: Global, symbol: &Symbol) -> Result<String, Memory> {
        let mut text = String::new(alloc);
        push_place(alloc, &mut text, symbol, self.name_of(symbol))?;
        self.push_reason(alloc, &mut text, symbol)?;
        text.push_str("\n")?;
        Ok(text)
    }

    // The name of a variable as the text has it.
    fn name_of<'a>(&'a self, symbol: &'a Symbol) -> &'a Name {
        match number_of(self.decls, symbol.name.bytes()) {
            Some(number) => self.source.name_of(number, &symbol.name),
            None => &symbol.name,
        }
    }

    // Adds why a variable is in its bank.
    fn push_reason(&self, alloc: Global, text: &mut String, symbol: &Symbol) -> Result<(), Memory> {
        match bank_kind(symbol.bank) {
            BankKind::Oblivious => self.push_oram(alloc, text, symbol),
            BankKind::Plain | BankKind::Encrypted => self.push_slot(alloc, text, symbol),
        }
    }

    // Adds the secret index that makes an array oblivious, and what an access costs.
    fn push_oram(&self, alloc: Global, text: &mut String, symbol: &Symbol) -> Result<(), Memory> {
        text.push_str("; oblivious")?;
        if let Some(access) = self.access_to(symbol) {
            self.push_secret(alloc, text, access)?;
        }
        if let Some(bank) = self.object.banks().get(usize::from(symbol.bank)) {
            let cycles = bank.latency;
            text.push_str(format!(in alloc; "; an access takes {cycles} cycles")?.as_str())?;
        }
        Ok(())
    }

    // Adds an access with a secret index, and where it is in the text.
    fn push_secret(&self, alloc: Global, text: &mut String, access: Access) -> Result<(), Memory> {
        text.push_str(": the index of ")?;
        self.source.push_access(text, access)?;
        let spot = self.source.spot_of(access);
        let (line, column) = (spot.line, spot.column);
        text.push_str(format!(in alloc; " at {line}:{column}")?.as_str())?;
        text.push_str(if self.source.expanded {
            " of the program without calls is secret"
        } else {
            " is secret"
        })?;
        Ok(())
    }

    // The first access with a secret index to a variable of an object.
    fn access_to(&self, symbol: &Symbol) -> Option<Access> {
        let number = number_of(self.decls, symbol.name.bytes())?;
        *self.accesses.get(number)?
    }

    // Adds the slot of a variable of plain or encrypted memory.
    fn push_slot(&self, alloc: Global, text: &mut String, symbol: &Symbol) -> Result<(), Memory> {
        let Some(number) = number_of(self.decls, symbol.name.bytes()) else {
            return Ok(());
        };
        let Some(slot) = self.slots.plan.of_var.as_slice().get(number) else {
            return Ok(());
        };
        let slot = *slot;
        if is_pinned(self.slots, slot) {
            return self.push_pinned(alloc, text, symbol);
        }
        text.push_str(format!(in alloc; "; cached: slot {slot}")?.as_str())?;
        self.push_sharers(alloc, text, number, slot)
    }

    // Adds the slots that hold a variable for the whole run: one for each block that has words of it.
    fn push_pinned(&self, alloc: Global, text: &mut String, symbol: &Symbol) -> Result<(), Memory> {
        let slots = self.pinned_slots(alloc, symbol)?;
        text.push_str(if slots.len() > 1 {
            "; resident: slots "
        } else {
            "; resident: slot "
        })?;
        for (at, slot) in slots.iter().enumerate() {
            let comma = if at == 0 { "" } else { ", " };
            text.push_str(format!(in alloc; "{comma}{slot}")?.as_str())?;
        }
        Ok(())
    }

    // The slots that hold blocks with words of a variable for the whole run.
    fn pinned_slots(&self, alloc: Global, symbol: &Symbol) -> Result<Vec<usize>, Memory> {
        let block_log = self.object.profile().block_log;
        let mut found = Vec::new(alloc);
        for (slot, pin) in self.slots.pins.iter().enumerate() {
            if let Some(pin) = *pin {
                if has_words_of(pin, symbol, block_log) {
                    found.push(slot)?;
                }
            }
        }
        Ok(found)
    }

    // Adds the other variables of a slot.
    fn push_sharers(
        &self,
        alloc: Global,
        text: &mut String,
        number: usize,
        slot: u8,
    ) -> Result<(), Memory> {
        let mut sharers: u32 = 0;
        let slots = self.slots.plan.of_var.as_slice();
        for (other, (decl, own)) in self.decls.iter().zip(slots).enumerate() {
            if other != number && *own == slot {
                if sharers < MOST_NAMED {
                    let comma = if sharers == 0 { ", shared with " } else { ", " };
                    self.push_sharer(text, comma, other, decl)?;
                }
                sharers = sharers.saturating_add(1);
            }
        }
        if sharers > MOST_NAMED {
            let more = sharers - MOST_NAMED;
            text.push_str(format!(in alloc; " and {more} more")?.as_str())?;
        }
        Ok(())
    }

    // Adds a text, and then the name of a variable, by its number.
    fn push_sharer(
        &self,
        text: &mut String,
        before: &str,
        number: usize,
        decl: &Decl,
    ) -> Result<(), Memory> {
        text.push_str(before)?;
        push_ascii(text, self.source.name_of(number, &decl.name).bytes())
    }
}

// Adds the name of a variable, and where it is stored.
fn push_place(
    alloc: Global,
    text: &mut String,
    symbol: &Symbol,
    name: &Name,
) -> Result<(), Memory> {
    push_declared(alloc, text, symbol, name)?;
    push_memory(alloc, text, symbol.bank)?;
    let Symbol {
        block,
        word,
        length,
        ..
    } = symbol;
    let unit = if *length == 1 { "word" } else { "words" };
    text.push_str(format!(in alloc; ", block {block}, word {word}, {length} {unit}")?.as_str())?;
    Ok(())
}

// Adds the label and the name of a variable, and the length of an array.
fn push_declared(
    alloc: Global,
    text: &mut String,
    symbol: &Symbol,
    name: &Name,
) -> Result<(), Memory> {
    text.push_str(label_text(symbol.label))?;
    text.push_str(" ")?;
    push_ascii(text, name.bytes())?;
    if let Shape::Array = symbol.shape {
        let length = symbol.length;
        text.push_str(format!(in alloc; "[{length}]")?.as_str())?;
    }
    Ok(())
}

// Adds the name of a memory.
fn push_memory(alloc: Global, text: &mut String, bank: u8) -> Result<(), Memory> {
    match bank_kind(bank) {
        BankKind::Plain => text.push_str(": plain memory")?,
        BankKind::Encrypted => text.push_str(": encrypted memory")?,
        BankKind::Oblivious => {
            text.push_str(format!(in alloc; ": oblivious bank {bank}")?.as_str())?;
        }
    }
    Ok(())
}
