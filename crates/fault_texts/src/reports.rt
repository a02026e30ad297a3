//! Faults and warnings as lines of JSON, for scripts and editors.

ghost use Rattle.std.specs.Prelude.{IfOk, All};
ghost use Rattle.fault_texts.specs.Plain.{IsPlain};

use crate::texts::piece;
use crate::words::{Marked, Words};
use gr_base::Memory;
use std::alloc::Global;

/// How a text begins that is about no file.
const PROGRAM: &[u8] = b"ghostrider: ";

impl Words {
    /// The text as lines of JSON. Each line is an object with the members `status`, `file`, `line`, `column`, `reason` and
    /// `hint`; a member that isn't known is `null`. If the status is 0, each warning has a line; otherwise the fault has
    /// one, even if the text is empty. `reason` is the text's first line, and `hint` the rest, without lines of files.
    ///
    /// Fails if memory ran out since the text was begun.
    pub fn report(&self, alloc: Global, status: u8) -> Result<Vec<u8>, Memory>
        ensures plain { IfOk result (λ text. All IsPlain text.items) }
    {
        let text = self.finish(alloc)?;
        let text = text.as_slice();
        let mut out = Words::new(alloc);
        if status == 0 {
            self.put_warnings(text, &mut out);
        } else {
            out.fill("{\"status\":{}", &[u64::from(status)]);
            self.put_fault(text, &mut out);
        }
        out.finish(alloc)
    }

    fn put_warnings(&self, text: &[u8], out: &mut Words) {
        for (number, place) in self.places().iter().enumerate() {
            let end = match self.places().get(number.saturating_add(1)) {
                Some(next) => next.start,
                None => text.len(),
            };
            out.say("{\"status\":0");
            self.put_spot(*place, out);
            self.put_reason(text, place.reason, end, out);
        }
    }

    fn put_fault(&self, text: &[u8], out: &mut Words) {
        let mut from = 0usize;
        match self.places().first() {
            Some(place) => {
                self.put_spot(*place, out);
                if place.start == 0 {
                    from = place.reason;
                }
            }
            None => {
                out.say(",\"file\":null,\"line\":null,\"column\":null");
                if piece(text, 0, PROGRAM.len()) == PROGRAM {
                    from = PROGRAM.len();
                }
            }
        }
        self.put_reason(text, from, text.len(), out);
    }

    // The file, the line and the column of a place.
    fn put_spot(&self, place: Marked, out: &mut Words) {
        out.say(",\"file\":\"");
        if let Ok(name) = std::str::from_utf8(self.name_of(place)) {
            out.put_escaped(name);
        }
        out.fill("\",\"line\":{},\"column\":{}", &[place.line, place.column]);
    }

    // The reason, which is one line of the text, and the hint, which is the rest up to an end. The object ends after them.
    fn put_reason(&self, text: &[u8], from: usize, end: usize, out: &mut Words) {
        let (before, _) = text.split_at(end.min(text.len()));
        let from = from.min(before.len());
        let (_, rest) = before.split_at(from);
        let length = rest.iter().take_while(|byte| **byte != b'\n').count();
        let behind = from.saturating_add(length).saturating_add(1);
        out.say(",\"reason\":");
        self.put_string(before, from, behind, out);
        out.say(",\"hint\":");
        self.put_string(before, behind, before.len(), out);
        out.line("}");
    }

    // The bytes of a text from one to another as a string, without lines of files and without the newline at the end, and
    // `null` if there are none.
    fn put_string(&self, text: &[u8], from: usize, to: usize, out: &mut Words) {
        let start = out.count();
        let mut newlines = 0usize;
        for (at, byte) in text.iter().enumerate() {
            if at < from || to <= at || self.is_excerpt(at) {
                continue;
            }
            if *byte == b'\n' {
                newlines = newlines.saturating_add(1);
                continue;
            }
            if out.count() == start {
                out.say("\"");
            } else {
                for _ in 0..newlines {
                    out.say("\\n");
                }
            }
            newlines = 0;
            out.put_char(char::from(*byte));
        }
        out.say(if out.count() == start { "null" } else { "\"" });
    }

    /// Adds a text within a string of JSON.
    pub fn put_escaped(&mut self, text: &str) {
        for c in text.chars() {
            self.put_char(c);
        }
    }

    // Adds a character within a string of JSON.
    fn put_char(&mut self, c: char) {
        match c {
            '"' => self.say("\\\""),
            '\\' => self.say("\\\\"),
            ' '..='~' => self.push(&[c as u8]),
            '\0'..='\u{ffff}' => self.escape("\\u", u32::from(c), 4, ""),
            _ => {
                let above = u32::from(c).saturating_sub(0x10000);
                self.escape("\\u", 0xd800 | above >> 10 & 0x3ff, 4, "");
                self.escape("\\u", 0xdc00 | above & 0x3ff, 4, "");
            }
        }
    }
}
