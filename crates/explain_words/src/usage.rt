//! The words of a call, by the verb's line in the table of verbs: its required words, `..` if they may be repeated, and
//! its options in square brackets.

use fault_texts::Words;
use gr_base::Memory;
use std::alloc::Global;

/// The most digits of a number.
const MOST_DIGITS: usize = 20;

/// The name of the file `-` in an explanation.
const STREAM_NAME: &str = "standard input";

/// What a verb's line says of a word that begins as an option.
#[derive(Clone, Copy)]
enum Taken<'a> {
    Unknown,
    Alone,
    With(&'a str),
}

// What the verb's line says of an option.
fn taken_by<'a>(usage: &'a str, name: &str) -> Taken<'a> {
    let mut is_named = false;
    for word in usage.split(" ") {
        if is_named {
            return Taken::With(word.strip_suffix("]").unwrap_or(word));
        }
        let bare = word.strip_prefix("[").unwrap_or("");
        if bare.strip_suffix("]") == Some(name) {
            return Taken::Alone;
        }
        is_named = bare == name;
    }
    Taken::Unknown
}

// A word as an option: its name, and the value after `=`, if it has one. `-` is a file's name.
fn option_in(word: &str) -> Option<(&str, Option<&str>)> {
    if !word.starts_with("-") || word == "-" {
        return None;
    }
    match word.split_once("=") {
        Some((name, value)) => Some((name, Some(value))),
        None => Some((word, None)),
    }
}

/// The words of a call, sorted.
#[derive(Drop)]
pub(crate) struct Sorted<'a> {
    /// The positional words, after the verb.
    pub placed: Vec<&'a str>,
    /// Options, each with its value, if it has one.
    pub options: Vec<(&'a str, Option<&'a str>)>,
}

impl<'a> Sorted<'a> {
    /// Sorts the words after the verb by the verb's line.
    pub(crate) fn of(alloc: Global, usage: &str, words: &[&'a str]) -> Result<Sorted<'a>, Memory> {
        let mut sorted = Sorted {
            placed: Vec::new(alloc),
            options: Vec::new(alloc),
        };
        sorted.sort(usage, words)?;
        Ok(sorted)
    }

    fn sort(&mut self, usage: &str, words: &[&'a str]) -> Result<(), Memory> {
        let mut waits: Option<&'a str> = None;
        let mut all_placed = false;
        for word in words.iter().skip(1) {
            if let Some(name) = waits {
                self.options.push((name, Some(*word)))?;
                waits = None;
                continue;
            }
            if *word == "--" && !all_placed {
                all_placed = true;
                continue;
            }
            match if all_placed { None } else { option_in(word) } {
                None => self.placed.push(*word)?,
                Some((name, Some(value))) => self.options.push((name, Some(value)))?,
                Some((name, None)) => match taken_by(usage, name) {
                    Taken::With(_) => waits = Some(name),
                    _ => self.options.push((name, None))?,
                },
            }
        }
        if let Some(name) = waits {
            self.options.push((name, None))?;
        }
        Ok(())
    }

    /// Whether an option is given.
    pub(crate) fn has(&self, name: &str) -> bool {
        is_given(self.options.as_slice(), name)
    }

    /// The value of an option.
    pub(crate) fn value(&self, name: &str) -> Option<&'a str> {
        for (option, value) in &self.options {
            if *option == name {
                return *value;
            }
        }
        None
    }
}

/// Explains a usage error in the words of a call, the verb first. `usage` is empty if there is no such verb.
pub(crate) fn explain_usage(usage: &str, words: &[&str], sorted: &Sorted<'_>, out: &mut Words) {
    let Some(verb) = words.first() else {
        return out.line("ghostrider: no verb is given; `ghostrider help` lists the verbs");
    };
    out.say("ghostrider: ");
    if usage.is_empty() {
        out.name(*verb);
        return out.line(" is not a verb; `ghostrider help` lists the verbs");
    }
    out.name(*verb);
    out.say(": ");
    if !put_option(usage, sorted, out) {
        put_places(usage, sorted, out);
    }
    out.say("usage: ghostrider ");
    out.line(usage)
}

// Whether an option is one of some.
fn is_given(options: &[(&str, Option<&str>)], name: &str) -> bool {
    for (option, _) in options {
        if *option == name {
            return true;
        }
    }
    false
}

// A word of the call, and what is wrong with it.
fn put_word(word: &str, what: &str, out: &mut Words) {
    out.name(word);
    out.line(what);
}

// Says what is wrong with an option, and whether something is.
fn put_option(usage: &str, sorted: &Sorted<'_>, out: &mut Words) -> bool {
    for (number, option) in sorted.options.iter().enumerate() {
        let (name, value) = *option;
        let earlier = sorted.options.get(..number).unwrap_or(&[]);
        if is_given(earlier, name) {
            put_word(name, " is given twice", out);
            return true;
        }
        match (taken_by(usage, name), value) {
            (Taken::Unknown, _) => {
                out.say("unknown option ");
                put_word(name, "", out);
                return true;
            }
            (Taken::Alone, Some(_)) => {
                put_word(name, " takes no value", out);
                return true;
            }
            (Taken::Alone, None) => {}
            (Taken::With(kind), value) => if !is_value(kind, value.unwrap_or("")) {
                put_wanted(name, kind, value, out);
                return true;
            },
        }
    }
    false
}

// The numbers that a word of the verb's line allows.
fn range_of(kind: &str) -> Option<(u64, u64)> {
    match kind {
        "N" => Some((1, 4_294_967_295)),
        "S" => Some((0, 18_446_744_073_709_551_615)),
        "W" => Some((3, 9)),
        "ITEMS" => Some((1, 65_536)),
        _ => None,
    }
}

// A number of decimal digits only: a sign, which may precede a number elsewhere, isn't allowed, nor are more digits than
// the greatest number has.
fn number_in(text: &str) -> Option<u64> {
    if text.starts_with("+") || text.len() > MOST_DIGITS {
        return None;
    }
    text.parse::<u64>().ok()
}

// Three numbers with a colon between: the period, and where the window opens and closes.
fn window_in(text: &str) -> Option<(u64, u64, u64)> {
    let mut numbers = text.split(":");
    let period = number_in(numbers.next()?)?;
    let opens = number_in(numbers.next()?)?;
    let closes = number_in(numbers.next()?)?;
    match numbers.next() {
        Some(_) => None,
        None => Some((period, opens, closes)),
    }
}

fn is_window(text: &str) -> bool {
    match window_in(text) {
        Some((period, opens, closes)) => {
            2 <= period && period <= 1_000_000 && opens < closes && closes <= period
        }
        None => false,
    }
}

// Whether a value is one that a word of the verb's line allows.
fn is_value(kind: &str, value: &str) -> bool {
    let Some((least, most)) = range_of(kind) else {
        return kind != "P:O:C" || is_window(value);
    };
    match number_in(value) {
        Some(number) => least <= number && number <= most,
        None => false,
    }
}

// Says what a value should be.
fn put_wanted(name: &str, kind: &str, value: Option<&str>, out: &mut Words) {
    out.name(name);
    match range_of(kind) {
        Some((least, most)) => out.fill(" takes a number from {} to {}", &[least, most]),
        None => out.say(
            " takes three numbers P:O:C: P is from 2 to 1000000, O is less than C, and C is at most P",
        ),
    }
    let Some(value) = value else {
        return out.line(", but its value is missing");
    };
    out.say(", not `");
    put_word(if value == STREAM_NAME { "-" } else { value }, "`", out);
}

// Says which word is missing, or one too many, or no number of items.
fn put_places(usage: &str, sorted: &Sorted<'_>, out: &mut Words) {
    let mut given = sorted.placed.iter();
    for place in usage.split(" ").skip(1) {
        if place == ".." {
            return out.line("this verb takes one to eight objects, each followed by its inputs");
        }
        if place.starts_with("[") {
            break;
        }
        let Some(word) = given.next() else {
            out.say("missing argument ");
            return put_word(place, "", out);
        };
        if !is_value(place, *word) {
            return put_wanted(place, place, Some(*word), out);
        }
    }
    match given.next() {
        Some(word) => {
            out.say("unexpected argument ");
            put_word(*word, "", out);
        }
        None => out.line("an argument isn't valid"),
    }
}
