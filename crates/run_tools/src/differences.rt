use crate::comparing::Comparison;
use crate::recorder::{OwnedEvent, Recorded};
use crate::variables::{label_text, push_two_words, words_of};
use gr_base::Memory;
use gr_word::{Inputs, Label};
use lt_isa::symbol_places::first_word;
use lt_isa::{Object, Symbol};
use processor::End;
use std::alloc::Global;

/// The number of plain memory's bank.
const PLAIN: u8 = 0;

/// The most words of a block that are printed if more differ.
const MOST_WORDS: u32 = 8;

/// Adds a line for each public variable for which two inputs have different words, with the first of these.
pub(crate) fn push_disagreements(
    alloc: Global,
    text: &mut String,
    object: &Object,
    first: &Inputs,
    second: &Inputs,
) -> Result<(), Memory> {
    for (i, symbol) in object.symbols().iter().enumerate() {
        if symbol.label == Label::Public {
            push_disagreement(alloc, text, symbol, words_of(first, i), words_of(second, i))?;
        }
    }
    Ok(())
}

// Adds a line if the words of a public variable differ.
fn push_disagreement(
    alloc: Global,
    text: &mut String,
    symbol: &Symbol,
    first: &[i64],
    second: &[i64],
) -> Result<(), Memory> {
    for (index, (one, other)) in first.iter().zip(second).enumerate() {
        if *one != *other {
            text.push_str("inputs disagree on public ")?;
            push_two_words(alloc, text, symbol, index as u64, (*one, *other))?;
            text.push_str("\n")?;
            return Ok(());
        }
    }
    Ok(())
}

/// Adds the lines of a comparison of two runs up to this cycle.
pub(crate) fn push_comparison(
    alloc: Global,
    text: &mut String,
    object: &Object,
    comparison: &Comparison,
    cycles: u32,
) -> Result<(), Memory> {
    match comparison {
        Comparison::Equal { events, end } => push_equal(alloc, text, *events, *end),
        Comparison::Differ {
            events,
            first,
            second,
        } => {
            let number = u64::from(*events) + 1;
            text.push_str(format!(in alloc; "differ at event {number}\n")?.as_str())?;
            push_event(alloc, text, "<", first, cycles)?;
            push_event(alloc, text, ">", second, cycles)?;
            push_words(alloc, text, object, first, second)
        }
    }
}

fn push_equal(alloc: Global, text: &mut String, events: u32, end: End) -> Result<(), Memory> {
    let ends = match end {
        End::Halted(_) => "end halted",
        End::Spent => "end spent in both runs",
    };
    text.push_str(format!(in alloc; "equal {events} events, {ends}\n")?.as_str())?;
    Ok(())
}

// Adds the line of an event without its words, or says that there is none below the cycle.
fn push_event(
    alloc: Global,
    text: &mut String,
    mark: &str,
    event: &Option<Recorded>,
    cycles: u32,
) -> Result<(), Memory> {
    match event {
        Some(recorded) => push_head(alloc, text, mark, recorded),
        None => {
            text.push_str(format!(in alloc; "{mark} no event below cycle {cycles}\n")?.as_str())?;
            Ok(())
        }
    }
}

fn push_head(
    alloc: Global,
    text: &mut String,
    mark: &str,
    recorded: &Recorded,
) -> Result<(), Memory> {
    let stamp = recorded.stamp;
    let line = match &recorded.event {
        OwnedEvent::RamRead(block, _) => format!(in alloc; "{mark} {stamp} D r {block}\n"),
        OwnedEvent::RamWrite(block, _) => format!(in alloc; "{mark} {stamp} D w {block}\n"),
        OwnedEvent::EncRead(block) => format!(in alloc; "{mark} {stamp} E r {block}\n"),
        OwnedEvent::EncWrite(block) => format!(in alloc; "{mark} {stamp} E w {block}\n"),
        OwnedEvent::Oram(bank) => format!(in alloc; "{mark} {stamp} O{bank}\n"),
        OwnedEvent::Halt => format!(in alloc; "{mark} {stamp} H\n"),
    };
    text.push_str(line?.as_str())?;
    Ok(())
}

// Adds the words that differ, if both events show one block of plain memory.
fn push_words(
    alloc: Global,
    text: &mut String,
    object: &Object,
    first: &Option<Recorded>,
    second: &Option<Recorded>,
) -> Result<(), Memory> {
    let (Some(one), Some(other)) = (shown_block(first), shown_block(second)) else {
        return Ok(());
    };
    if one.number != other.number {
        return Ok(());
    }
    push_block(alloc, text, object, one, other)
}

/// A block of plain memory that an event shows.
#[derive(Clone, Copy)]
struct Block<'a> {
    number: u32,
    words: &'a [i64],
}

fn shown_block(event: &Option<Recorded>) -> Option<Block<'_>> {
    match event {
        Some(recorded) => block_in(&recorded.event),
        None => None,
    }
}

fn block_in(event: &OwnedEvent) -> Option<Block<'_>> {
    match event {
        OwnedEvent::RamRead(number, words) | OwnedEvent::RamWrite(number, words) => Some(Block {
            number: *number,
            words,
        }),
        _ => None,
    }
}

// Adds a line for each word of a block that differs, and how many more do.
fn push_block(
    alloc: Global,
    text: &mut String,
    object: &Object,
    one: Block<'_>,
    other: Block<'_>,
) -> Result<(), Memory> {
    let width = u64::from(object.profile().block_words());
    let first = u64::from(one.number).saturating_mul(width);
    let mut differing: u32 = 0;
    for (at, (a, b)) in one.words.iter().zip(other.words).enumerate() {
        if *a != *b {
            if differing < MOST_WORDS {
                let number = first.saturating_add(at as u64);
                push_word(alloc, text, object, number, (*a, *b))?;
            }
            differing = differing.saturating_add(1);
        }
    }
    if differing > MOST_WORDS {
        let more = differing - MOST_WORDS;
        text.push_str(format!(in alloc; "and {more} more words of the block\n")?.as_str())?;
    }
    Ok(())
}

// Adds the line of a word of plain memory, by its number, that differs.
fn push_word(
    alloc: Global,
    text: &mut String,
    object: &Object,
    number: u64,
    words: (i64, i64),
) -> Result<(), Memory> {
    match variable_at(object, number) {
        Some(place) => {
            push_two_words(alloc, text, place.symbol, place.index, words)?;
            let label = label_text(place.symbol.label);
            text.push_str(format!(in alloc; ", {label}\n")?.as_str())?;
        }
        None => {
            let (one, other) = words;
            let line = format!(in alloc; "word {number}, of no variable: {one} and {other}\n")?;
            text.push_str(line.as_str())?;
        }
    }
    Ok(())
}

/// A word of a variable.
#[derive(Clone, Copy)]
struct VariableWord<'a> {
    symbol: &'a Symbol,
    index: u64,
}

// The variable of a word of plain memory, by the word's number.
fn variable_at(object: &Object, number: u64) -> Option<VariableWord<'_>> {
    let width = object.profile().block_words();
    for symbol in object.symbols() {
        if symbol.bank == PLAIN {
            if let Some(index) = number.checked_sub(first_word(width, symbol)) {
                if index < u64::from(symbol.length) {
                    return Some(VariableWord { symbol, index });
                }
            }
        }
    }
    None
}
