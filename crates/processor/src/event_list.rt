ghost use Rattle.std.specs.Prelude.{◌≡◌, ◌+◌, ◌<◌, ◌≤◌, [], ◌∷◌, ◌++◌, IfOk, length, slice_index_or, false, vec_len, vec_capacity};
ghost use Rattle.lt_isa.specs.Prelude.{observed_of, Halted, seen_at};
ghost use Rattle.processor.specs.EventLists.{event_of, entry_words};
ghost use Rattle.processor.specs.ListWatching.{event_words, passes_room, told_more};

use gr_base::Memory;
use lt_isa::Event;
use std::alloc::Global;
use std::marker::Model;

/// An event without its words.
#[derive(Clone, Copy, Debug)]
pub enum EventKind {
    RamRead(u32),
    RamWrite(u32),
    EncRead(u32),
    EncWrite(u32),
    Oram(u8),
    Halt,
}

impl EventKind {
    fn of_event(event: &Event) -> EventKind
        ensures { event_of result (event_words (observed_of event.now)) ≡ observed_of event.now }
    {
        match event {
            Event::RamRead(block, _) => EventKind::RamRead(*block),
            Event::RamWrite(block, _) => EventKind::RamWrite(*block),
            Event::EncRead(block) => EventKind::EncRead(*block),
            Event::EncWrite(block) => EventKind::EncWrite(*block),
            Event::Oram(bank) => EventKind::Oram(*bank),
            Event::Halt => EventKind::Halt,
        }
    }

    // The event of this kind that shows these words.
    fn with_words<'a>(&self, words: &'a [i64]) -> Event<'a>
        ensures { observed_of result ≡ event_of self.now words.now }
    {
        match self {
            EventKind::RamRead(block) => Event::RamRead(*block, words),
            EventKind::RamWrite(block) => Event::RamWrite(*block, words),
            EventKind::EncRead(block) => Event::EncRead(*block),
            EventKind::EncWrite(block) => Event::EncWrite(*block),
            EventKind::Oram(bank) => Event::Oram(*bank),
            EventKind::Halt => Event::Halt,
        }
    }
}

// The words that an event shows.
fn words_shown<'a>(event: &Event<'a>) -> &'a [i64]
    ensures { result.now ≡ event_words (observed_of event.now) }
{
    match event {
        Event::RamRead(_, words) => words,
        Event::RamWrite(_, words) => words,
        Event::EncRead(_) => &[],
        Event::EncWrite(_) => &[],
        Event::Oram(_) => &[],
        Event::Halt => &[],
    }
}

/// An event, its stamp, and where its words are among the words of all events.
#[derive(Clone, Copy, Debug)]
pub struct EventEntry {
    pub stamp: u32,
    pub kind: EventKind,
    pub start: usize,
    pub len: usize,
}

// The event of an entry, where these are the words of all events.
fn event_in<'a>(words: &'a [i64], entry: &EventEntry) -> Event<'a>
    requires { entry.now.start + entry.now.len ≤ length words.now }
    ensures { observed_of result ≡ event_of entry.now.kind (entry_words words.now entry.now) }
{
    entry
        .kind
        .with_words(&words[entry.start..entry.start + entry.len])
}

/// Events with their stamps, in rooms that are made before. Seen as the list of them, and the two rooms.
#[derive(Debug, Drop)]
pub struct EventList {
    entries: Vec<EventEntry>,
    words: Vec<i64>,
    event_room: usize,
    word_room: usize,
}

impl Model for EventList {
    ghost use Rattle.std.specs.Prelude.{◌≡◌, ◌≤◌, length, vec_capacity};
    ghost use Rattle.processor.specs.ListWatching.{Told, word_count};

    ghost Value = { Told };

    ghost use Rattle.processor.specs.EventLists.{AreWithin, events_of};

    ghost view = { λ s. record {
      events = events_of s.words.items s.entries.items;
      event_room = s.event_room;
      word_room = s.word_room;
    } };

    ghost invariant = { λ s. record {
      within : AreWithin s.words.items s.entries.items;
      counted : length s.words.items ≡ word_count (events_of s.words.items s.entries.items);
      entries_fit : length s.entries.items ≤ s.event_room;
      words_fit : length s.words.items ≤ s.word_room;
      entries_reserved : s.event_room ≤ vec_capacity s.entries;
      words_reserved : s.word_room ≤ vec_capacity s.words;
    } };
}

impl EventList {
    /// No event yet. The rooms for this many events and words are reserved here.
    pub fn new(alloc: Global, event_room: usize, word_room: usize) -> Result<EventList, Memory>
        ensures { IfOk result (λ list. list ≡ record { events = []; event_room = event_room; word_room = word_room }) }
    {
        let entries = Vec::with_capacity(alloc, event_room)?;
        let words = Vec::with_capacity(alloc, word_room)?;
        Ok(EventList {
            entries,
            words,
            event_room,
            word_room,
        })
    }

    /// How many events there are.
    pub fn len(&self) -> usize
        ensures { result ≡ length self.now.events }
    {
        self.entries.len()
    }

    /// The most events that there is room for.
    pub fn event_room(&self) -> usize
        ensures { result ≡ self.now.event_room }
    {
        self.event_room
    }

    /// The stamp of event number `i`.
    pub fn stamp(&self, i: usize) -> u32
        requires { i < length self.now.events }
        ensures { result ≡ (slice_index_or self.now.events i (seen_at 0 Halted)).stamp }
    {
        self.entries[i].stamp
    }

    /// Event number `i`.
    pub fn event(&self, i: usize) -> Event<'_>
        requires { i < length self.now.events }
        ensures { observed_of result ≡ (slice_index_or self.now.events i (seen_at 0 Halted)).event }
    {
        event_in(self.words.as_slice(), &self.entries[i])
    }

    /// Whether one more event would pass a room.
    pub fn is_full_for(&self, event: &Event) -> bool
        ensures { result ≡ passes_room (observed_of event.now) self.now }
    {
        let words = words_shown(event).len();
        self.entries.len() >= self.event_room || words > self.word_room - self.words.len()
    }

    /// Adds an event for which there is room.
    pub fn push(&mut self, stamp: u32, event: &Event)
        requires { passes_room (observed_of event.now) self.old ≡ false }
        ensures { self.new ≡ told_more stamp (observed_of event.now) self.old }
    {
        let words = words_shown(event);
        let entry = EventEntry {
            stamp,
            kind: EventKind::of_event(event),
            start: self.words.len(),
            len: words.len(),
        };
        extend_within(&mut self.words, words);
        push_within(&mut self.entries, entry);
    }
}

/// Adds words at the end of a vector that has room for them. It takes no memory.
fn extend_within(words: &mut Vec<i64>, more: &[i64])
    requires { vec_len words.old + length more.now ≤ vec_capacity words.old }
    ensures items { words.new.items ≡ words.old.items ++ more.now }
    ensures capacity { vec_capacity words.old ≤ vec_capacity words.new }
{
    match words.extend_from_slice(more) {
        Ok(()) => (),
        Err(_) => unreachable!(),
    }
}

/// Adds an item at the end of a vector that has room for it. It takes no memory.
pub fn push_within<T: Drop>(items: &mut Vec<T>, item: T)
    requires { vec_len items.old < vec_capacity items.old }
    ensures items { items.new.items ≡ items.old.items ++ item ∷ [] }
    ensures capacity { vec_capacity items.old ≤ vec_capacity items.new }
{
    match items.push(item) {
        Ok(()) => (),
        Err(_) => unreachable!(),
    }
}
