ghost use Rattle.std.specs.Prelude.{◌≡◌, ◌∷◌, if◌then◌else◌, map, codes, bytes_eq, IfOk};
ghost use Rattle.lt_assembler.specs.Faults.{Becomes};
ghost use Rattle.lt_assembler.specs.Lines.{lines};
ghost use Rattle.lt_assembler.specs.LineParts.{first_line, behind_line};
ghost use Rattle.lt_assembler.specs.Reading.{label_name, label_or_code, note_line, by_first_word, line_read, instruction_follows};
ghost use Rattle.lt_assembler.specs.Seen.{draft_of};

use crate::code_lines::{code_line, label_line, label_name, note_line};
use crate::draft::Draft;
use crate::faults::Fault;
use crate::head_lines::{bank_line, object_line};
use crate::lines::{MOST_WORDS, split_line};
use crate::mnemonics::same;
use crate::symbol_lines::symbol_line;
use std::alloc::Global;

/// Reads a label's line, or an instruction.
fn label_or_code<'a>(
    draft: &mut Draft<'a>,
    line: u32,
    first: &'a [u8],
    behind: &[&'a [u8]],
    words: &[&'a [u8]],
) -> Result<(), Fault>
    requires { map (λ w. w.now) words.now ≡ first.now ∷ map (λ w. w.now) behind.now }
    ensures { Becomes result (draft_of draft.new)
        (label_or_code line (label_name first.now) first.now (map (λ w. w.now) behind.now) (draft_of draft.old)) }
{
    match label_name(first) {
        Some(name) => label_line(draft, name, behind),
        None => code_line(draft, line, words),
    }
}

/// Reads the line of a note, a label or an instruction; `rest` is the text after it.
fn note_or_code<'a>(
    draft: &mut Draft<'a>,
    line: u32,
    first: &'a [u8],
    behind: &[&'a [u8]],
    words: &[&'a [u8]],
    rest: &[u8],
) -> Result<(), Fault>
    requires { map (λ w. w.now) words.now ≡ first.now ∷ map (λ w. w.now) behind.now }
    ensures { Becomes result (draft_of draft.new) (if bytes_eq first.now (codes ".note")
        then note_line (instruction_follows (lines rest.now)) (map (λ w. w.now) behind.now) (draft_of draft.old)
        else label_or_code line (label_name first.now) first.now (map (λ w. w.now) behind.now) (draft_of draft.old)) }
{
    if same(first, b".note") {
        note_line(draft, behind, rest)
    } else {
        label_or_code(draft, line, first, behind, words)
    }
}

/// Reads line number `line` by its words; `rest` is the text after it.
#[tactic(auto, unfolding(crate::specs::Reading::by_first_word))]
fn read_words<'a>(
    alloc: Global,
    draft: &mut Draft<'a>,
    line: u32,
    words: &[&'a [u8]],
    rest: &[u8],
) -> Result<(), Fault>
    ensures { Becomes result (draft_of draft.new)
        (by_first_word line (instruction_follows (lines rest.now)) (map (λ w. w.now) words.now) (draft_of draft.old)) }
{
    let [first, behind @ ..] = words else {
        return Ok(());
    };
    if same(first, b".object") {
        object_line(draft, behind)
    } else if same(first, b".bank") {
        bank_line(draft, behind)
    } else if same(first, b".symbol") {
        symbol_line(alloc, draft, behind)
    } else {
        note_or_code(draft, line, first, behind, words, rest)
    }
}

/// Reads line number `number`, the first of `text`, and returns the text after it. `list` has room for the line's
/// words. After an error the draft is of no use.
pub fn read_line<'a>(
    alloc: Global,
    draft: &mut Draft<'a>,
    number: u32,
    text: &'a [u8],
    list: &mut [&'a [u8]; MOST_WORDS],
) -> Result<&'a [u8], Fault>
    ensures read { Becomes result (draft_of draft.new)
        (line_read number (instruction_follows (lines (behind_line text.now))) (first_line text.now)
        (draft_of draft.old)) }
    ensures behind { IfOk result (λ x. x.now ≡ behind_line text.now) }
{
    match split_line(text, list) {
        None => Err(Fault::WrongForm),
        Some((count, behind)) => {
            let (words, _) = list.split_at(count);
            match read_words(alloc, draft, number, words, behind) {
                Ok(()) => Ok(behind),
                Err(fault) => Err(fault),
            }
        }
    }
}
