//! Places in a text, and how they are shown.

ghost use Rattle.std.specs.Prelude.{◌≡◌, ◌≤◌, ◌-◌, [], length, take, drop};
ghost use Rattle.gr_base.specs.Prelude.{Adds};

use crate::words::Words;

/// The most bytes of a line that are shown before the place.
const SHOWN_BEFORE: usize = 60;

/// The most bytes that are shown from the place on.
const SHOWN_BEHIND: usize = 40;

/// The most bytes of a word of a file that are quoted.
const QUOTED: usize = 40;

/// A file by its name and its text.
#[derive(Clone, Copy)]
pub struct Source<'a> {
    pub name: &'a str,
    pub text: &'a [u8],
}

/// A place in a text: its byte, the number of its line, from 1, and where that line begins and ends.
#[derive(Clone, Copy)]
pub struct Spot {
    pub at: usize,
    pub line: usize,
    pub start: usize,
    pub end: usize,
}

/// The place of a byte. A byte past the text has the place of the text's end.
pub fn spot_at(text: &[u8], at: usize) -> Spot
    ensures begins { result.start ≤ result.at }
    ensures ends { result.at ≤ result.end }
    ensures within { result.end ≤ length text.now }
{
    let at = at.min(text.len());
    let (front, back) = text.split_at(at);
    let mut line = 1usize;
    let mut start = 0usize;
    for (place, byte) in front.iter().enumerate() {
        if *byte == b'\n' {
            line = line.saturating_add(1);
            start = place.saturating_add(1);
        }
    }
    Spot {
        at,
        line,
        start: start.min(at),
        end: at.saturating_add(length_up_to(back, b"\n")).min(text.len()),
    }
}

/// The number of bytes before the first that is one of some marks.
pub fn length_up_to(text: &[u8], marks: &[u8]) -> usize
    ensures { result ≤ length text.now }
{
    for (at, byte) in text.iter().enumerate() {
        if marks.contains(byte) {
            return at;
        }
    }
    text.len()
}

/// The byte at which a line begins, by its number from 1, and the text's end if there is no such line.
pub fn line_start(text: &[u8], number: usize) -> usize
    ensures { result ≤ length text.now }
{
    let mut left = number.saturating_sub(1);
    for (at, byte) in text.iter().enumerate() {
        if left == 0 {
            return at;
        }
        if *byte == b'\n' {
            left -= 1;
        }
    }
    text.len()
}

/// The `len` bytes of a text from `start` on, or fewer if the text ends before.
#[tactic(auto, using(std::proofs::lemmas::List::take_min, std::proofs::lemmas::List::drop_min))]
pub fn piece(text: &[u8], start: usize, len: usize) -> &[u8]
    ensures { result.now ≡ take len (drop start text.now) }
{
    let (_, rest) = text.split_at(start.min(text.len()));
    rest.split_at(len.min(rest.len())).0
}

/// Whether a word is one of some, with a space between them.
pub fn is_word_of(words: &str, word: &[u8]) -> bool {
    for own in words.split(" ") {
        if own.as_bytes() == word {
            return true;
        }
    }
    false
}

/// The line of a place, without its end.
pub fn line_of(text: &[u8], spot: Spot) -> &[u8]
    ensures { result.now ≡ take (spot.end - spot.start) (drop spot.start text.now) }
{
    piece(text, spot.start, spot.end.saturating_sub(spot.start))
}

// The column of a place, from 1.
fn column_of(spot: Spot) -> u64 {
    spot.at.saturating_sub(spot.start).saturating_add(1) as u64
}

// The byte at which a character begins, at a byte or after it, so that no character is cut in two. The bytes before
// `end` that continue a character are passed over, of which a character has at most three.
fn character_from(text: &[u8], at: usize, end: usize) -> usize {
    let rest = piece(text, at, end.saturating_sub(at).min(3));
    let continued = rest
        .iter()
        .take_while(|byte| matches!(**byte, 0x80..=0xbf))
        .count();
    at.saturating_add(continued)
}

// A line without the carriage return at its end.
fn without_return(line: &[u8]) -> &[u8] {
    match line {
        [rest @ .., b'\r'] => rest,
        _ => line,
    }
}

impl Words {
    /// Adds a word of a file in quotation marks, and cuts a long one.
    pub fn quote_word(&mut self, word: &[u8]) {
        self.say("`");
        self.quote(piece(word, 0, QUOTED));
        self.say(if word.len() > QUOTED { "..`" } else { "`" });
    }

    /// Adds the file's name, the line and the column of a place, both from 1.
    pub fn put_place(&mut self, name: &str, spot: Spot) {
        self.put_place_before(name, spot, "");
    }

    /// Adds the place of a warning.
    pub fn put_warning(&mut self, name: &str, spot: Spot) {
        self.put_place_before(name, spot, "warning: ");
    }

    fn put_place_before(&mut self, name: &str, spot: Spot, what: &str) {
        let start = self.count();
        self.name(name);
        self.say(":");
        self.put_numbers(spot);
        self.say(": ");
        self.say(what);
        self.mark_spot(name, start, spot);
    }

    /// Marks a place whose text starts at a byte. The reason comes next.
    pub fn mark_spot(&mut self, name: &str, start: usize, spot: Spot)
        ensures { Adds self.old self.new [] }
    {
        self.mark(name, start, spot.line as u64, column_of(spot));
    }

    /// Adds the line and the column of a place, both from 1.
    pub fn put_numbers(&mut self, spot: Spot) {
        self.fill("{}:{}", &[spot.line as u64, column_of(spot)]);
    }

    /// Adds the line of a place, cut to the part around it, and a caret below the place.
    pub fn put_line(&mut self, text: &[u8], spot: Spot) {
        let before = spot.at.saturating_sub(spot.start).min(SHOWN_BEFORE);
        let start = character_from(text, spot.at.saturating_sub(before), spot.at);
        let behind = spot.end.saturating_sub(spot.at).min(SHOWN_BEHIND);
        let end = character_from(text, spot.at.saturating_add(behind), spot.end);
        self.say("\n");
        let first = self.count();
        self.say("    ");
        let margin = self.count();
        self.quote(piece(text, start, spot.at.saturating_sub(start)));
        let width = self.count().saturating_sub(margin);
        self.quote(without_return(piece(text, spot.at, end.saturating_sub(spot.at))));
        self.say("\n    ");
        for _ in 0..width {
            self.say(" ");
        }
        self.say("^\n");
        self.mark_excerpt(first);
    }
}

impl Source<'_> {
    /// Adds the place of a byte, what is wrong there, and its line.
    pub fn point(&self, at: usize, what: &str, out: &mut Words) {
        let spot = spot_at(self.text, at);
        out.put_place(self.name, spot);
        out.say(what);
        out.put_line(self.text, spot);
    }

    /// Adds the place of a byte, what is wrong there, its line, and how to fix it.
    pub fn put(&self, at: usize, what: &str, hint: &str, out: &mut Words) {
        self.point(at, what, out);
        out.line(hint);
    }
}
