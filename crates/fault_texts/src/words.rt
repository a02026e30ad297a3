ghost use Rattle.std.specs.Prelude.{◌≡◌, ◌<◌, [], ◌∷◌, ◌++◌, map, true, None, Some, IfOk, All};
ghost use Rattle.std.specs.Char.{digit_char};
ghost use Rattle.std.specs.Option.{option_map};
ghost use Rattle.gr_base.specs.Prelude.{Adds};
ghost use Rattle.fault_texts.specs.EscapedNames.{escaped_char, escaped_name, hex_digits};
ghost use Rattle.fault_texts.specs.Plain.{IsPlain, shown_byte};

use crate::texts::piece;
use gr_base::Memory;
use itoa::Buffer;
use std::alloc::Global;
use std::marker::Model;

/// A text for people that is built piece by piece. If memory runs out, [`Words::finish`] fails. Contracts see the text
/// so far, and `None` once memory ran out.
#[derive(Drop)]
pub struct Words {
    text: Vec<u8>,
    /// The names of the places, one after another.
    names: Vec<u8>,
    places: Vec<Marked>,
    excerpts: Vec<Excerpt>,
    lacks_memory: bool,
}

impl Model for Words {
    ghost use Rattle.std.specs.Prelude.{ℕ, List, Option, None, Some, if◌then◌else◌};

    ghost Value = { Option (List ℕ) };

    ghost view = { λ words. if words.lacks_memory then None else Some words.text.items };
}

/// A place that a text names: where the text about it starts, where its reason starts, and the number of bytes of `names`
/// up to the file's name and up to the end of that name.
#[derive(Clone, Copy)]
pub(crate) struct Marked {
    pub start: usize,
    pub reason: usize,
    pub name_start: usize,
    pub name_end: usize,
    pub line: u64,
    pub column: u64,
}

/// The part of a text that shows a line of a file.
#[derive(Clone, Copy)]
struct Excerpt {
    start: usize,
    end: usize,
}

// What is shown of a byte.
fn shown(byte: u8) -> u8
    ensures value { result ≡ shown_byte byte }
    ensures plain { IsPlain result }
{
    match byte {
        b'\n' => b'\n',
        b'\t' => b' ',
        32..=126 => byte,
        _ => b'?',
    }
}

// The hexadecimal digit of a number below 16.
fn hex_digit(number: u32) -> u8
    requires { number < 16 }
    ensures { result ≡ digit_char number }
{
    if number < 10 {
        b'0' + number as u8
    } else {
        b'a' - 10 + number as u8
    }
}

impl Words {
    /// An empty text.
    pub fn new(alloc: Global) -> Words
        ensures { result ≡ Some [] }
    {
        Words {
            text: Vec::new(alloc),
            names: Vec::new(alloc),
            places: Vec::new(alloc),
            excerpts: Vec::new(alloc),
            lacks_memory: false,
        }
    }

    /// The number of bytes so far.
    pub fn count(&self) -> usize {
        self.text.len()
    }

    /// The places that the text names, in order.
    pub(crate) fn places(&self) -> &[Marked] {
        self.places.as_slice()
    }

    /// The bytes of the name of a place's file.
    pub(crate) fn name_of(&self, place: Marked) -> &[u8] {
        let length = place.name_end.saturating_sub(place.name_start);
        piece(self.names.as_slice(), place.name_start, length)
    }

    /// Marks a place whose text starts at a byte. The reason comes next.
    pub(crate) fn mark(&mut self, name: &str, start: usize, line: u64, column: u64)
        ensures { Adds self.old self.new [] }
    {
        let name_start = self.names.len();
        if self.names.extend_from_slice(name.as_bytes()).is_err() {
            self.lacks_memory = true;
        }
        let place = Marked {
            start,
            reason: self.text.len(),
            name_start,
            name_end: self.names.len(),
            line,
            column,
        };
        if self.places.push(place).is_err() {
            self.lacks_memory = true;
        }
    }

    /// Marks the text from a byte on as a line of a file.
    pub(crate) fn mark_excerpt(&mut self, start: usize)
        ensures { Adds self.old self.new [] }
    {
        let end = self.text.len();
        if self.excerpts.push(Excerpt { start, end }).is_err() {
            self.lacks_memory = true;
        }
    }

    /// Whether a byte of the text shows a line of a file.
    pub(crate) fn is_excerpt(&self, at: usize) -> bool {
        for excerpt in &self.excerpts {
            if excerpt.start <= at && at < excerpt.end {
                return true;
            }
        }
        false
    }

    /// Whether nothing was written so far.
    pub fn is_empty(&self) -> bool
        ensures { result ≡ true → self.now ≡ Some [] }
    {
        self.text.is_empty() && !self.lacks_memory
    }

    /// Marks that memory ran out.
    pub fn starve(&mut self)
        ensures { self.new ≡ None }
    {
        self.lacks_memory = true;
    }

    /// Marks that memory ran out, if it did in a step.
    pub fn starve_on(&mut self, put: Result<(), Memory>) {
        if put.is_err() {
            self.starve();
        }
    }

    /// Adds a text as it is. A text that was given from outside is added by [`Words::name`].
    pub fn say(&mut self, text: &str)
        ensures { Adds self.old self.new text.now }
    {
        self.push(text.as_bytes());
    }

    /// Adds bytes as they are.
    pub(crate) fn push(&mut self, bytes: &[u8])
        ensures { Adds self.old self.new bytes.now }
    {
        if self.text.extend_from_slice(bytes).is_err() {
            self.lacks_memory = true;
        }
    }

    /// Adds a sentence, and ends the line.
    pub fn line(&mut self, text: &str)
        ensures { Adds self.old self.new (text.now ++ 10 ∷ []) }
    {
        self.say(text);
        self.say("\n");
    }

    /// Adds a text with the numbers, in order, each in the place of a `{}`.
    pub fn fill(&mut self, text: &str, numbers: &[u64]) {
        for (number, piece) in text.split("{}").enumerate() {
            if number > 0
                && let Some(value) = numbers.get(number - 1)
            {
                let mut digits = Buffer::new();
                self.say(digits.format(*value));
            }
            self.say(piece);
        }
    }

    /// Adds a number and a noun, which is in the plural unless the number is 1: `1 cycle`, `2 cycles`.
    pub fn counted(&mut self, number: u64, noun: &str) {
        self.fill("{} ", &[number]);
        self.say(noun);
        if number != 1 {
            self.say("s");
        }
    }

    /// Adds bytes of a file within a line. A character that isn't printable ASCII is escaped, as in a name, so that the
    /// reader sees which one it is; so is a byte that belongs to no character. A backslash and a tab are added as they
    /// are.
    pub fn quote(&mut self, bytes: &[u8]) {
        for chunk in bytes.utf8_chunks() {
            for c in chunk.valid().chars() {
                self.quote_char(c);
            }
            for byte in chunk.invalid() {
                self.escape("\\x", u32::from(*byte), 2, "");
            }
        }
    }

    // Adds a character of a file.
    fn quote_char(&mut self, c: char) {
        match c {
            '\\' | '\t' => self.push(&[c as u8]),
            _ => self.push_escaped(c),
        }
    }

    /// Asks whether a known word was meant.
    pub fn suggest(&mut self, known: &[u8]) {
        self.say("Did you mean `");
        self.quote(known);
        self.line("`?");
    }

    /// Adds a name that was given from outside. Each character that isn't printable ASCII is escaped, as `\x1b` or
    /// `\u{202e}`, so that two names never look alike.
    #[tactic(auto, using(crate::proofs::Escaped::nothing_added, crate::proofs::Escaped::character_added))]
    pub fn name(&mut self, name: &str)
        ensures { Adds self.old self.new (escaped_name name.now) }
    {
        for c in name.chars() {
            self.push_escaped(c);
        }
    }

    // Adds a character of a name.
    fn push_escaped(&mut self, c: char)
        ensures { Adds self.old self.new (escaped_char c) }
    {
        let code = c as u32;
        if code == 92 {
            self.say("\\\\");
        } else if 32 <= code && code <= 126 {
            self.push(&[code as u8]);
        } else if code <= 127 {
            self.escape("\\x", code, 2, "");
        } else {
            self.escape("\\u{", code, 1, "}");
        }
    }

    /// Adds a number in hexadecimal, with at least `digits` digits, between two texts.
    pub fn escape(&mut self, before: &str, number: u32, digits: u32, after: &str)
        ensures { Adds self.old self.new (before.now ++ hex_digits 8 digits number ++ after.now) }
    {
        self.say(before);
        self.push_digits(8, digits, number);
        self.say(after);
    }

    // Adds a number in hexadecimal, with at least `least` digits and at most `most`.
    fn push_digits(&mut self, most: u32, least: u32, number: u32)
        ensures { Adds self.old self.new (hex_digits most least number) }
    {
        if most == 0 {
            return;
        }
        if least == 0 && number == 0 {
            return;
        }
        self.push_digits(most - 1, least.saturating_sub(1), number / 16);
        self.push(&[hex_digit(number % 16)]);
    }

    /// The text, in which nothing acts on a terminal. A byte that isn't printable ASCII is shown as a question mark.
    ///
    /// Fails if memory ran out since the text was begun.
    pub fn finish(&self, alloc: Global) -> Result<Vec<u8>, Memory>
        ensures shown { IfOk result (λ text. option_map (map shown_byte) self.now ≡ Some text.items) }
        ensures plain { IfOk result (λ text. All IsPlain text.items) }
    {
        if self.lacks_memory {
            return Err(Memory);
        }
        let mut text = Vec::new(alloc);
        for byte in &self.text {
            text.push(shown(*byte))?;
        }
        Ok(text)
    }
}
