ghost use Rattle.std.specs.Prelude.{◌≡◌, ◌≤◌, ◌<◌, [], length, map, option_map, slice_index_or};
ghost use Rattle.std.specs.List.{list_any};
ghost use Rattle.lt_isa.specs.Prelude.{most_banks};
ghost use Rattle.lt_assembler.specs.Operands.{claim_of, claims_of};
ghost use Rattle.lt_assembler.specs.Faults.{Becomes};
ghost use Rattle.lt_assembler.specs.Lines.{lines};
ghost use Rattle.lt_assembler.specs.LineParts.{first_line, behind_line};
ghost use Rattle.lt_assembler.specs.Reading.{note_read, add_note, note_line, label_name, label_line, add_code, code_line, is_instruction_line, instruction_follows};
ghost use Rattle.lt_assembler.specs.Seen.{draft_of};

use crate::draft::{CodePlace, Draft, Use};
use crate::faults::Fault;
use crate::instructions::{Coded, instruction, is_instruction};
use crate::labels::add_label;
use crate::lines::{MOST_WORDS, behind_line, split_line};
use crate::operands::{claim_of, mask_of};
use crate::stages::{is_noted, takes_code};
use gr_word::name_fits;
use lt_isa::Note;
use lt_isa::limits::{MOST_INSTRUCTIONS, MOST_NOTES};

/// The number of slots of the scratchpad.
const SLOTS: usize = 8;

/// The place of the next instruction.
fn next_place(draft: &Draft) -> CodePlace
    ensures { result.number ≡ length (draft_of draft.now).code }
{
    CodePlace {
        number: draft.code.len() as u32,
    }
}

/// The claim about a slot in one word of a note.
fn claim_at(banks: usize, words: &[&[u8]], i: usize) -> Option<u8>
    requires few { banks ≤ most_banks }
    requires inside { i < length words.now }
    ensures { result ≡ claim_of banks (slice_index_or (map (λ w. w.now) words.now) i []) }
{
    claim_of(banks, words[i])
}

/// The claims about all slots, in eight words.
fn claims_of(banks: usize, words: &[&[u8]]) -> Option<[u8; SLOTS]>
    requires few { banks ≤ most_banks }
    requires all { length words.now ≡ 8 }
    ensures { result ≡ claims_of banks (map (λ w. w.now) words.now) }
{
    let mut claims = [0; SLOTS];
    for i in 0..SLOTS {
        claims[i] = claim_at(banks, words, i)?;
    }
    Some(claims)
}

/// A note at a place, from the words after the first.
#[tactic(auto, unfolding(crate::specs::Reading::note_read))]
fn note_of(banks: usize, place: u32, words: &[&[u8]]) -> Result<Note, Fault>
    requires { banks ≤ most_banks }
    ensures { result ≡ note_read banks place (map (λ w. w.now) words.now) }
{
    match words {
        [] => Err(Fault::WrongForm),
        [mask, claims @ ..] => {
            if claims.len() != SLOTS {
                return Err(Fault::WrongForm);
            }
            let secrets = mask_of(mask).ok_or(Fault::WrongForm)?;
            let slots = claims_of(banks, claims).ok_or(Fault::Number)?;
            Ok(Note {
                pc: place,
                secrets,
                slots,
            })
        }
    }
}

/// Whether the first line of a text has the form of an instruction, and the text after the line. `list` has room for
/// the line's words.
fn is_instruction_line<'a>(text: &'a [u8], list: &mut [&'a [u8]; MOST_WORDS]) -> (bool, &'a [u8])
    ensures form { result.0 ≡ is_instruction_line (first_line text.now) }
    ensures behind { result.1.now ≡ behind_line text.now }
{
    match split_line(text, list) {
        None => (false, behind_line(text)),
        Some((count, behind)) => {
            let (words, _) = list.split_at(count);
            (is_instruction(words), behind)
        }
    }
}

/// Whether some line of a text has the form of an instruction.
fn instruction_follows(text: &[u8]) -> bool
    ensures { result ≡ instruction_follows (lines text.now) }
{
    let mut list: [&[u8]; MOST_WORDS] = [b""; MOST_WORDS];
    let mut rest = text;
    while !rest.is_empty() {
        let (found, behind) = is_instruction_line(rest, &mut list);
        if found {
            return true;
        }
        rest = behind;
    }
    false
}

/// Adds a note, if there is room for it.
fn add_note(draft: &mut Draft, note: Note) -> Result<(), Fault>
    ensures { Becomes result (draft_of draft.new) (add_note note (draft_of draft.old)) }
{
    if draft.notes.len() >= MOST_NOTES {
        return Err(Fault::Limit);
    }
    draft.notes.push(note)?;
    Ok(())
}

/// Reads a note's line; `behind` is the text after it.
#[tactic(auto, unfolding(crate::specs::Reading::note_line))]
pub fn note_line(draft: &mut Draft, words: &[&[u8]], behind: &[u8]) -> Result<(), Fault>
    ensures { Becomes result (draft_of draft.new)
        (note_line (instruction_follows (lines behind.now)) (map (λ w. w.now) words.now) (draft_of draft.old)) }
{
    if !takes_code(draft) || is_noted(draft) || !instruction_follows(behind) {
        return Err(Fault::WrongForm);
    }
    let note = note_of(draft.banks.len(), next_place(draft).number, words)?;
    add_note(draft, note)
}

/// The name before the `:` at the end of a word.
#[tactic(auto, unfolding(crate::specs::Reading::label_name))]
pub fn label_name(word: &[u8]) -> Option<&[u8]>
    ensures { option_map (λ w. w.now) result ≡ label_name word.now }
{
    match word {
        [name @ .., last] if *last == b':' => Some(name),
        _ => None,
    }
}

/// Reads a label's line.
#[tactic(auto, unfolding(crate::specs::Reading::label_line))]
pub fn label_line<'a>(
    draft: &mut Draft<'a>,
    name: &'a [u8],
    words: &[&'a [u8]],
) -> Result<(), Fault>
    ensures { Becomes result (draft_of draft.new)
        (label_line name.now (map (λ w. w.now) words.now) (draft_of draft.old)) }
{
    if !takes_code(draft) || !name_fits(name) || !words.is_empty() {
        return Err(Fault::WrongForm);
    }
    let place = next_place(draft);
    if !add_label(&mut draft.labels, name, place)? {
        return Err(Fault::RepeatedName);
    }
    Ok(())
}

/// Adds the instruction of line `line`, if there is room for it, and the use of the label that is its target.
fn add_code<'a>(draft: &mut Draft<'a>, line: u32, coded: Coded<'a>) -> Result<(), Fault>
    ensures { Becomes result (draft_of draft.new) (add_code line
        (record { instr = coded.entry.instr; label = option_map (λ w. w.now) coded.entry.label })
        (draft_of draft.old)) }
{
    if draft.code.len() >= MOST_INSTRUCTIONS {
        return Err(Fault::Limit);
    }
    if let Some(name) = coded.label {
        let place = next_place(draft);
        draft.uses.push(Use { name, place, line })?;
    }
    draft.code.push(coded.instr)?;
    Ok(())
}

/// Reads the line of an instruction, which has number `line`.
#[tactic(auto, unfolding(crate::specs::Reading::code_line))]
pub fn code_line<'a>(draft: &mut Draft<'a>, line: u32, words: &[&'a [u8]]) -> Result<(), Fault>
    ensures { Becomes result (draft_of draft.new) (code_line line (map (λ w. w.now) words.now) (draft_of draft.old)) }
{
    if !takes_code(draft) {
        return Err(Fault::WrongForm);
    }
    let coded = instruction(draft.banks.len(), next_place(draft).number, words)?;
    add_code(draft, line, coded)
}
