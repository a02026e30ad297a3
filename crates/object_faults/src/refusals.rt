//! Why an object is rejected, or gets no notes.

ghost use Rattle.std.specs.Prelude.{◌<◌, ◌≤◌, ◌-◌, length};

use crate::arms::put_difference;
use crate::objects::object_in;
use crate::reasons::of_reason;
use fault_texts::Words;
use gr_base::Memory;
use gr_word::Label;
use lt_assembler::disassemble;
use lt_checker::{CheckError, Reason, check};
use lt_isa::{Instr, Object};
use note_infer::{InferError, infer};
use region_walk::{Crossing, RegionValues, cross};
use std::alloc::Global;
use trace_patterns::{Known, known_behind};

/// What is known at a place, and the branch of the region that contains the place, if there is one.
#[derive(Drop)]
struct Standing {
    known: Known,
    branch: Option<usize>,
}

/// An object that is refused, by the name of its file, and its text line by line.
#[derive(Clone, Copy)]
pub(crate) struct Refused<'a> {
    pub name: &'a str,
    pub object: &'a Object,
    pub listing: &'a [u8],
}

/// Explains why a file's object is rejected.
pub fn explain_refusal(alloc: Global, name: &str, bytes: &[u8], out: &mut Words) {
    let Some(object) = object_in(alloc, bytes) else {
        return;
    };
    if let Some(fault) = check(alloc, object).err() {
        explain_check(alloc, name, &fault, out);
    }
}

fn explain_check(alloc: Global, name: &str, fault: &CheckError, out: &mut Words) {
    match fault {
        CheckError::Refused { pc, reason, object } => match disassemble(alloc, object) {
            Ok(listing) => {
                let listing = listing.as_slice();
                let refused = Refused {
                    name,
                    object,
                    listing,
                };
                refused.put_refusal(alloc, *pc as usize, *reason, out)
            }
            Err(_) => out.starve(),
        },
        CheckError::Memory { .. } => out.starve(),
    }
}

/// Explains why an object gets no notes.
pub fn explain_inference(alloc: Global, name: &str, bytes: &[u8], out: &mut Words) {
    if let Some(object) = object_in(alloc, bytes) {
        match disassemble(alloc, &object) {
            Ok(listing) => {
                let refused = Refused {
                    name,
                    object: &object,
                    listing: listing.as_slice(),
                };
                refused.explain_notes(alloc, out)
            }
            Err(_) => out.starve(),
        }
    }
}

// A place of the code.
fn place_in(object: &Object, place: usize) -> usize
    ensures { result ≤ length object.now.code - 1 }
{
    place.min(object.code().len().saturating_sub(1))
}

impl Refused<'_> {
    fn explain_notes(&self, alloc: Global, out: &mut Words) {
        if let Some(fault) = infer(alloc, self.object).err() {
            self.put_lack(fault, out);
        }
    }

    // Why an object has no least notes.
    fn put_lack(&self, fault: InferError, out: &mut Words) {
        match fault {
            InferError::Memory => out.starve(),
            InferError::Dead(place) => {
                self.put_head(place as usize, out);
                out.line(
                    "This instruction can't be reached.\nRemove the dead code, or jump or branch to it.",
                )
            }
            InferError::TooMany(count) => {
                out.name(self.name);
                out.fill(
                    ": the object needs {} notes, and at most 262144 are allowed\n",
                    &[u64::from(count)],
                )
            }
            InferError::Refused { pc, reason } => self.put_rejected(pc as usize, reason, out),
        }
    }

    // Why the check rejects the object with the least notes.
    fn put_rejected(&self, place: usize, reason: Reason, out: &mut Words) {
        if reason == Reason::SecretSymbolInRam {
            self.put_symbol(out);
        } else {
            self.put_head(place, out);
            out.line("With the least notes that `infer` finds, the check rejects the object here.");
        }
        out.line(of_reason(reason))
    }

    // The name of the file, the place, and the instruction there as `dis` writes it.
    fn put_head(&self, place: usize, out: &mut Words) {
        let place = place_in(self.object, place);
        out.name(self.name);
        out.fill(":place {}: ", &[place as u64]);
        self.put_instruction(place, out);
        out.say("\n");
    }

    /// Adds the instruction of a place.
    pub(crate) fn put_instruction(&self, place: usize, out: &mut Words) {
        let mut left = place;
        for line in self.listing.split(|byte| *byte == b'\n') {
            if line.starts_with(b".") {
                continue;
            }
            if left == 0 {
                return out.quote(line);
            }
            left -= 1;
        }
    }

    fn put_refusal(&self, alloc: Global, place: usize, reason: Reason, out: &mut Words) {
        if reason == Reason::SecretSymbolInRam {
            self.put_symbol(out);
        } else {
            self.put_head(place, out);
            let Ok(standing) = standing_at(alloc, self.object, place) else {
                return out.starve();
            };
            put_detail(self.object, place, reason, &standing, out);
            if reason == Reason::UnequalArms {
                put_difference(self, place, &standing.known, out);
            }
        }
        out.line(of_reason(reason))
    }

    // The symbol of a secret in plain memory.
    fn put_symbol(&self, out: &mut Words) {
        out.name(self.name);
        out.say(": .symbol ");
        for symbol in self.object.symbols() {
            if symbol.bank == 0 && symbol.label == Label::Secret {
                out.quote(symbol.name.bytes());
                break;
            }
        }
        out.say("\n");
    }
}

/// Whether a register may hold a secret.
pub(crate) fn is_secret(known: &Known, register: u8) -> bool {
    register < 32 && known.is_secret(register)
}

/// The bank that a slot is bound to, if it is known.
pub(crate) fn bank_of(known: &Known, slot: u8) -> Option<u8> {
    if slot < 8 { known.bank(slot) } else { None }
}

// What the note at a place claims.
fn claimed_at(object: &Object, place: usize) -> Option<Known> {
    let place = u32::try_from(place).ok()?;
    let notes = object.notes();
    let next = notes.partition_point(|note| note.pc < place);
    let note = notes.get(next)?;
    if note.pc == place {
        Some(Known::of_note(note))
    } else {
        None
    }
}

// The next place that the check visits, and what is known there. A region is entered only if it is refused.
enum Led {
    Reaches(usize, Known),
    Blocked,
}

fn led_from(
    alloc: Global,
    object: &Object,
    shared: &mut RegionValues,
    known: &Known,
    place: usize,
) -> Result<Led, Memory>
    requires { place < length object.now.code }
{
    let instr = object.code()[place];
    let Some(offset) = opening(known, instr) else {
        let behind = known_behind(known, instr, object.banks().len());
        return Ok(Led::Reaches(place.saturating_add(1), behind));
    };
    match cross(alloc, object, shared, known, place as u32, offset) {
        Crossing::Crosses { join, known } => Ok(Led::Reaches(join as usize, known)),
        Crossing::Blocked { .. } => Ok(Led::Blocked),
        Crossing::Memory => Err(Memory),
    }
}

// The offset of a branch on a secret, which opens a region.
fn opening(known: &Known, instr: Instr) -> Option<i32> {
    match instr {
        Instr::Br { ra, rb, offset, .. } if is_secret(known, ra) || is_secret(known, rb) => {
            Some(offset)
        }
        _ => None,
    }
}

// What is known at a place of the code that the check reaches, before the note there.
fn standing_at(alloc: Global, object: &Object, place: usize) -> Result<Standing, Memory> {
    let mut shared = RegionValues::new();
    standing_behind(alloc, object, &mut shared, place)
}

// The same, where values are shared from one region to the next.
fn standing_behind(
    alloc: Global,
    object: &Object,
    shared: &mut RegionValues,
    place: usize,
) -> Result<Standing, Memory> {
    let mut known = Known::start();
    let mut next = 0usize;
    for at in 0..object.code().len() {
        if at < next {
            continue;
        }
        if at == place {
            break;
        }
        if let Some(claimed) = claimed_at(object, at) {
            known = claimed;
        }
        match led_from(alloc, object, shared, &known, at)? {
            Led::Reaches(behind, after) => {
                next = behind;
                known = after;
            }
            Led::Blocked => return Ok(Standing {
                known,
                branch: Some(at),
            }),
        }
    }
    Ok(Standing {
        known,
        branch: None,
    })
}

// What the instruction does that is refused, by what is known there.
fn put_detail(object: &Object, place: usize, reason: Reason, standing: &Standing, out: &mut Words) {
    if let Some(branch) = standing.branch {
        out.fill(
            "It is in an arm of the branch on a secret at place {}.\n",
            &[branch as u64],
        );
    }
    let claimed = claimed_at(object, place);
    if reason == Reason::NoteTooLow {
        return put_misfit(object, place, &standing.known, claimed, out);
    }
    let Some(instr) = object.code().get(place) else {
        return;
    };
    let known = claimed.as_ref().unwrap_or(&standing.known);
    match *instr {
        Instr::Ldb { reg, .. } => put_secret(known, reg, out),
        Instr::Stw { rs, slot, off } => {
            put_slot(known, slot, out);
            put_secret(known, rs, out);
            if off != rs {
                put_secret(known, off, out);
            }
        }
        Instr::Stb { slot } => put_slot(known, slot, out),
        Instr::Idb { slot, .. } => put_slot(known, slot, out),
        Instr::Ldw { slot, .. } => put_slot(known, slot, out),
        _ => put_target(object, place, *instr, reason, out),
    }
}

fn put_secret(known: &Known, register: u8, out: &mut Words) {
    if is_secret(known, register) {
        out.fill("r{} may hold a secret here.\n", &[u64::from(register)]);
    }
}

fn put_slot(known: &Known, slot: u8, out: &mut Words) {
    if bank_of(known, slot) == Some(0) {
        out.fill("Slot {} is bound to plain memory.\n", &[u64::from(slot)]);
    }
}

// The place that an instruction leads to, which may be outside the code.
fn target_of(place: usize, instr: Instr) -> i64 {
    let offset = match instr {
        Instr::Jmp { offset } => offset,
        Instr::Br { offset, .. } => offset,
        _ => 0,
    };
    i64::try_from(place)
        .unwrap_or(0)
        .saturating_add(i64::from(offset))
}

fn put_target(object: &Object, place: usize, instr: Instr, reason: Reason, out: &mut Words) {
    let tells = matches!(
        reason,
        Reason::JumpOutside | Reason::NoNote | Reason::SecretLoop
    );
    if !tells || !matches!(instr, Instr::Jmp { .. } | Instr::Br { .. }) {
        return;
    }
    let target = target_of(place, instr);
    out.say(if target < 0 {
        "Its target is place -"
    } else {
        "Its target is place "
    });
    out.fill(
        "{}; the code has {} instructions, beginning with place 0.\n",
        &[target.unsigned_abs(), object.code().len() as u64],
    );
}

// The registers and slots that don't fit the note: the one at the place itself, or at the target of its jump.
fn put_misfit(
    object: &Object,
    place: usize,
    known: &Known,
    claimed: Option<Known>,
    out: &mut Words,
) {
    if let Some(claim) = &claimed {
        if !known.fits(claim) {
            return put_misfits(place, known, claim, out);
        }
    }
    let Some(instr) = object.code().get(place) else {
        return;
    };
    let target = usize::try_from(target_of(place, *instr)).unwrap_or(0);
    if let Some(claim) = claimed_at(object, target) {
        put_misfits(target, claimed.as_ref().unwrap_or(known), &claim, out);
    }
}

fn put_misfits(place: usize, known: &Known, claim: &Known, out: &mut Words) {
    out.fill("It reaches the note at place {}.\n", &[place as u64]);
    for register in 0..32u8 {
        if is_secret(known, register) && !is_secret(claim, register) {
            out.fill(
                "r{} may hold a secret, but the note says that it doesn't.\n",
                &[u64::from(register)],
            );
        }
    }
    for slot in 0..8u8 {
        put_slot_misfit(slot, bank_of(known, slot), bank_of(claim, slot), out);
    }
}

// A slot whose bank doesn't fit what the note claims.
fn put_slot_misfit(slot: u8, bound: Option<u8>, claimed: Option<u8>, out: &mut Words) {
    let Some(claimed) = claimed else {
        return;
    };
    let numbers = [u64::from(claimed), u64::from(slot)];
    match bound {
        None => out.fill(
            "The note claims bank {} for slot {}, whose bank isn't known here.\n",
            &numbers,
        ),
        Some(bound) if bound != claimed => out.fill(
            "The note claims bank {} for slot {}, which is bound to bank {} here.\n",
            &[numbers[0], numbers[1], u64::from(bound)],
        ),
        Some(_) => {}
    }
}
