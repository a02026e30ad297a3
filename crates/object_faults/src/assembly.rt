//! Why an assembly text isn't an object.

use crate::line_forms::{
    FORMS, LineWord, Misfit, form_of, misfit_of, put_kind, word_after, word_from,
};
use crate::line_orders::{misplaced, out_of_range};
use fault_texts::{Nearest, Source, Words, length_up_to, line_of, line_start, piece, spot_at};
use gr_base::Memory;
use lt_assembler::{AsmError, assemble};
use std::alloc::Global;

/// The most bytes of an assembly text.
const TEXT_BYTES: usize = 67_108_864;

/// Which lines there are.
const LINES: &str =
    "A line is `.object`, `.bank`, `.symbol`, `.note`, a label such as `next:`, or an instruction: nop halt li ldb stb \
    idb ldw stw jmp br add sub mul div rem remu and or xor shl shr.";

/// What a text has at least.
const PARTS: &str =
    "It needs a first line `.object`, at least two banks, at least one instruction, and an instruction after each \
    note.";

/// A line of an assembly text, and the byte at which it begins.
#[derive(Clone, Copy)]
struct Line<'a> {
    source: Source<'a>,
    start: usize,
    line: &'a [u8],
}

/// Explains why an assembly text isn't an object.
pub fn explain_assembly(alloc: Global, name: &str, text: &[u8], out: &mut Words) {
    if text.len() > TEXT_BYTES {
        return;
    }
    let Some(fault) = assemble(alloc, text).err() else {
        return;
    };
    let source = Source { name, text };
    match fault {
        AsmError::Memory => out.starve(),
        AsmError::BadLine(number) => line_at(source, number).put_form(alloc, false, out),
        AsmError::BadNumber(number) => line_at(source, number).put_form(alloc, true, out),
        AsmError::UnknownName(number) => line_at(source, number).put_undefined(out),
        AsmError::TwiceNamed(number) => line_at(source, number).put_twice(out),
        AsmError::OverLimit(number) => line_at(source, number).put(
            0,
            "this line exceeds a limit",
            "A text has at most 10 banks, 1,024 symbols of 4,194,304 words in all, 262,144 notes and 1,048,576 \
            instructions.",
            out,
        ),
    }
}

// The line of a number, from 1.
fn line_at(source: Source<'_>, number: u32) -> Line<'_> {
    let start = line_start(source.text, number as usize);
    Line {
        source,
        start,
        line: line_of(source.text, spot_at(source.text, start)),
    }
}

impl Line<'_> {
    // What is wrong at the first word from a byte of the line on, and how to fix it.
    fn put(&self, from: usize, what: &str, hint: &str, out: &mut Words) {
        let at = word_from(self.line, from).at;
        self.source
            .put(self.start.saturating_add(at), what, hint, out)
    }

    // A word of the line between two texts, and how to fix it.
    fn put_word(&self, word: LineWord<'_>, texts: (&str, &str), hint: &str, out: &mut Words) {
        let (before, after) = texts;
        let spot = spot_at(self.source.text, self.start.saturating_add(word.at));
        out.put_place(self.source.name, spot);
        out.say(before);
        out.quote_word(word.bytes);
        out.say(after);
        out.put_line(self.source.text, spot);
        out.line(hint);
    }

    // A line that has no form, or a number that isn't allowed.
    fn put_form(&self, alloc: Global, is_number: bool, out: &mut Words) {
        if let Some(ahead) = self
            .line
            .iter()
            .position(|byte| *byte == b'\r' || *byte > 126)
        {
            let (what, hint) = of_foreign(piece(self.line, ahead, 3));
            let at = self.start.saturating_add(ahead);
            return self.source.put(at, what, hint, out);
        }
        if self.start >= self.source.text.len() {
            return self.put(0, "the text ends too early", PARTS, out);
        }
        let Some(form) = form_of(self.line) else {
            return self.put_unknown(alloc, out);
        };
        if let Some(misfit) = misfit_of(self.line, form) {
            return self.put_misfit(misfit, form.sentence, out);
        }
        let front = piece(self.source.text, 0, self.start);
        let found = if is_number {
            out_of_range(front, self.line)
        } else {
            misplaced(front, self.line)
        };
        self.put(
            found.at,
            found.what,
            found.hint.unwrap_or(form.sentence),
            out,
        )
    }

    // An operand that its form doesn't allow.
    fn put_misfit(&self, misfit: Misfit<'_>, form: &str, out: &mut Words) {
        let Misfit { word, kind } = misfit;
        let Some(kind) = kind else {
            return self.put_word(word, ("unexpected ", " after the last operand"), form, out);
        };
        let spot = spot_at(self.source.text, self.start.saturating_add(word.at));
        out.put_place(self.source.name, spot);
        out.say("expected ");
        put_kind(kind, out);
        if word.bytes.is_empty() {
            out.say(" at the end of the line");
        } else {
            out.say(", not ");
            out.quote_word(word.bytes);
        }
        out.put_line(self.source.text, spot);
        if word.bytes.ends_with(b",") {
            out.line("Operands are separated by spaces, without commas.");
        }
        out.line(form);
    }

    // A line whose first word begins none.
    fn put_unknown(&self, alloc: Global, out: &mut Words) {
        let word = word_from(self.line, 0);
        let next = word_after(self.line, word);
        match word.bytes {
            [b'#', ..] | [b'/', b'/', ..] => self.put_word(
                word,
                ("unexpected ", ""),
                "A comment begins with `;`.",
                out,
            ),
            [.., b':'] if !next.bytes.is_empty() => self.put_word(
                next,
                ("unexpected ", " after a label"),
                "A label is on a line of its own: put the instruction on the next line.",
                out,
            ),
            [.., b':'] => self.put_word(
                word,
                ("", " isn't a label"),
                "A label is a name and a colon. A name has at most 32 letters, digits and `_`, and no digit first.",
                out,
            ),
            [b'.', ..] => self.put_word(word, ("unknown directive ", ""), LINES, out),
            _ => self.put_word(word, ("unknown instruction ", ""), LINES, out),
        }
        match nearest_word(alloc, word.bytes) {
            Ok(Some(known)) => out.suggest(known),
            Ok(None) => {}
            Err(_) => out.starve(),
        }
    }

    // A label that no line defines: the last word of the line.
    fn put_undefined(&self, out: &mut Words) {
        let mut label = word_from(self.line, 0);
        for _ in self.line {
            let next = word_after(self.line, label);
            if next.bytes.is_empty() {
                break;
            }
            label = next;
        }
        self.put_word(
            label,
            ("undefined label ", ""),
            "Define it by a line with the label and a colon, before the instruction that it names.",
            out,
        );
    }

    // A symbol or a label with the name of an earlier one.
    fn put_twice(&self, out: &mut Words) {
        let first = word_from(self.line, 0);
        let hint = "Give one of them another name.";
        if first.bytes == b".symbol".as_slice() {
            let name = word_after(self.line, first);
            return self.put_word(name, ("the symbol ", " is defined twice"), hint, out);
        }
        let name = LineWord {
            at: first.at,
            bytes: piece(first.bytes, 0, first.bytes.len().saturating_sub(1)),
        };
        self.put_word(name, ("the label ", " is defined twice"), hint, out)
    }
}

// What the bytes are that no text has, and how to fix it.
fn of_foreign(bytes: &[u8]) -> (&'static str, &'static str) {
    match bytes {
        [b'\r', ..] => (
            "the line has a carriage return",
            "Lines end with a line feed only: remove the carriage returns, with `tr -d '\\r'`.",
        ),
        [239, 187, 191] => (
            "the line has a byte order mark",
            "An assembly text is ASCII: remove the first three bytes of the file, with `tail -c +4`.",
        ),
        _ => (
            "the line has a byte that isn't ASCII",
            "An assembly text is ASCII, in comments too.",
        ),
    }
}

// The known first word of a line that is nearest to a word, if one is near.
fn nearest_word(alloc: Global, word: &[u8]) -> Result<Option<&'static [u8]>, Memory> {
    let mut nearest = Nearest::to(alloc, word)?;
    for form in FORMS {
        nearest.compare_each(alloc, form.words)?;
    }
    Ok(nearest.found())
}
