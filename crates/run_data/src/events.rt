ghost use Rattle.std.specs.Prelude.{◌≡◌, ◌≤◌, ◌+◌, ◌-◌, ◌*◌, ◌^◌, [], ◌∷◌, ◌++◌, length, drop, codes, decimal, OnOk, OnErr};
ghost use Rattle.gr_base.specs.Prelude.{Rose, Adds, AddsLess};
ghost use Rattle.lt_isa.specs.Prelude.{observed_of};
ghost use Rattle.run_data.specs.Putting.{PutsText};
ghost use Rattle.run_data.specs.TraceText.{event_line, words_text};

use arrayvec::ArrayVec;
use gr_outside::{Sink, SinkFailed};
use itoa::{Buffer, write_digits};
use lt_isa::Event;

/// The most bytes of a line's head.
const HEAD_BYTES: usize = 32;

/// The most bytes of a word and the space before it.
const WORD_BYTES: usize = 21;

/// How many words are written at once.
const WORDS_AT_ONCE: usize = 64;

/// Room for a head, the words that are written at once, and a line feed.
const PIECE_BYTES: usize = 1408;

/// A piece of a line.
type Piece = ArrayVec<u8, PIECE_BYTES>;

/// Room for a line that has no words.
pub(crate) const SHORT_BYTES: usize = 96;

/// A line that has no words.
pub(crate) type ShortLine = ArrayVec<u8, SHORT_BYTES>;

/// Puts the line of an event with its stamp, and takes no memory for it. A sink that fails has gained nothing of the
/// line, or a part from its front that isn't the whole, and has counted the fault.
pub fn put_event<O: Sink>(out: &mut O, stamp: u32, event: &Event) -> Result<(), SinkFailed>
    ensures added { OnOk result
        (Adds (O.seen out.old).held (O.seen out.new).held (event_line stamp (observed_of event.now))) }
    ensures calm { OnOk result ((O.seen out.new).faults ≡ (O.seen out.old).faults) }
    ensures cut { OnErr result
        (AddsLess (O.seen out.old).held (O.seen out.new).held (event_line stamp (observed_of event.now))) }
    ensures failed { OnErr result (Rose (O.seen out.old).faults (O.seen out.new).faults) }
    ensures count { (O.seen out.old).faults ≤ (O.seen out.new).faults }
    ensures count_stays { (O.seen out.old).faults ≡ 2 ^ 64 - 1 → (O.seen out.new).faults ≡ 2 ^ 64 - 1 }
{
    put_line_of(out, stamp, event)
}

/// Puts the line of an event with its stamp.
fn put_line_of<O: Sink>(out: &mut O, stamp: u32, event: &Event) -> Result<(), SinkFailed>
    ensures { PutsText (O.seen out.old).held (O.seen out.new).held (O.seen out.old).faults (O.seen out.new).faults
        (event_line stamp (observed_of event.now)) result }
{
    match event {
        Event::RamRead(block, words) => put_parts(out, stamp, b" D r ", *block, words),
        Event::RamWrite(block, words) => put_parts(out, stamp, b" D w ", *block, words),
        Event::EncRead(block) => put_short(out, stamp, b" E r ", *block),
        Event::EncWrite(block) => put_short(out, stamp, b" E w ", *block),
        Event::Oram(bank) => put_short(out, stamp, b" O", u32::from(*bank)),
        Event::Halt => put_halt(out, stamp),
    }
}

fn put_halt<O: Sink>(out: &mut O, stamp: u32) -> Result<(), SinkFailed>
    ensures { PutsText (O.seen out.old).held (O.seen out.new).held (O.seen out.old).faults (O.seen out.new).faults
        (decimal stamp ++ codes " H\n") result }
{
    let mut line = ShortLine::new();
    push_number(&mut line, stamp);
    push_bytes(&mut line, b" H\n");
    put_piece(out, line.as_slice())
}

/// Puts a line of a stamp, a kind of event and a number. It is made from its end on, so that each number is written
/// where it stays.
fn put_short<O: Sink>(out: &mut O, stamp: u32, kind: &[u8], number: u32) -> Result<(), SinkFailed>
    requires { length kind.now ≤ 5 }
    ensures { PutsText (O.seen out.old).held (O.seen out.new).held (O.seen out.old).faults (O.seen out.new).faults
        (decimal stamp ++ kind.now ++ decimal number ++ codes "\n") result }
{
    let mut line = [0; HEAD_BYTES];
    line[HEAD_BYTES - 1] = b'\n';
    let start = number_before(&mut line, HEAD_BYTES - 1, number);
    let start = bytes_before(&mut line, start, kind);
    let start = number_before(&mut line, start, stamp);
    put_piece(out, &line[start..])
}

/// Writes a number before an end, and returns where it starts.
#[tactic(auto, using(crate::proofs::Numerals::short_number))]
#[inline]
fn number_before(line: &mut [u8], end: usize, number: u32) -> usize
    requires room { 10 ≤ end }
    requires within { end ≤ length line.old }
    ensures start { result + length (decimal number) ≡ end }
    ensures most { end ≤ result + 10 }
    ensures written { drop result line.new ≡ decimal number ++ drop end line.old }
{
    write_digits(u64::from(number), line, end)
}

/// Writes bytes before an end, and returns where they start.
#[inline]
fn bytes_before(line: &mut [u8], end: usize, bytes: &[u8]) -> usize
    requires room { length bytes.now ≤ end }
    requires within { end ≤ length line.old }
    ensures start { result + length bytes.now ≡ end }
    ensures written { drop result line.new ≡ bytes.now ++ drop end line.old }
{
    let start = end - bytes.len();
    line[start..end].copy_from_slice(bytes);
    start
}

/// Puts a piece of a line.
pub(crate) fn put_piece<O: Sink>(out: &mut O, piece: &[u8]) -> Result<(), SinkFailed>
    ensures { PutsText (O.seen out.old).held (O.seen out.new).held (O.seen out.old).faults (O.seen out.new).faults
        piece.now result }
{
    out.put(piece)
}

/// Puts a line of a stamp, a kind of event, a number and words.
fn put_parts<O: Sink>(
    out: &mut O,
    stamp: u32,
    kind: &[u8],
    number: u32,
    words: &[i64],
) -> Result<(), SinkFailed>
    requires { length kind.now ≤ 5 }
    ensures { PutsText (O.seen out.old).held (O.seen out.new).held (O.seen out.old).faults (O.seen out.new).faults
        (decimal stamp ++ kind.now ++ decimal number ++ words_text words.now ++ codes "\n") result }
{
    let mut line = Piece::new();
    push_number(&mut line, stamp);
    push_bytes(&mut line, kind);
    push_number(&mut line, number);
    put_line(out, &mut line, words)
}

/// Puts a line whose head is given, some words at once.
fn put_line<O: Sink>(out: &mut O, line: &mut Piece, words: &[i64]) -> Result<(), SinkFailed>
    requires { length line.old.items ≤ HEAD_BYTES }
    ensures { PutsText (O.seen out.old).held (O.seen out.new).held (O.seen out.old).faults (O.seen out.new).faults
        (line.old.items ++ words_text words.now ++ codes "\n") result }
{
    let mut rest = words;
    while rest.len() > WORDS_AT_ONCE {
        let (now, after) = rest.split_at(WORDS_AT_ONCE);
        push_words(line, now);
        match out.put(line.as_slice()) {
            Ok(()) => {}
            Err(error) => return Err(error),
        }
        line.clear();
        rest = after;
    }
    push_words(line, rest);
    push_bytes(line, b"\n");
    out.put(line.as_slice())
}

fn push_words(line: &mut Piece, words: &[i64])
    requires { length line.old.items + WORD_BYTES * length words.now ≤ HEAD_BYTES + WORD_BYTES * WORDS_AT_ONCE }
    ensures items { line.new.items ≡ line.old.items ++ words_text words.now }
    ensures most { length line.new.items ≤ length line.old.items + WORD_BYTES * length words.now }
    ensures least { length line.old.items + length words.now ≤ length line.new.items }
{
    for word in words {
        let mut buffer = Buffer::new();
        push_bytes(line, b" ");
        push_bytes(line, buffer.format(*word).as_bytes());
    }
}

/// Adds a number at the end of a piece that has room for it.
pub(crate) fn push_number<const ROOM: usize>(line: &mut ArrayVec<u8, ROOM>, number: u32)
    requires { length line.old.items + 10 ≤ ROOM }
    ensures items { line.new.items ≡ line.old.items ++ decimal number }
    ensures most { length line.new.items ≤ length line.old.items + 10 }
{
    let mut buffer = Buffer::new();
    push_bytes(line, buffer.format(number).as_bytes());
}

/// Adds bytes at the end of a piece that has room for them.
pub(crate) fn push_bytes<const ROOM: usize>(line: &mut ArrayVec<u8, ROOM>, bytes: &[u8])
    requires { length line.old.items + length bytes.now ≤ ROOM }
    ensures { line.new.items ≡ line.old.items ++ bytes.now }
{
    match line.try_extend_from_slice(bytes) {
        Ok(()) => {}
        Err(_) => unreachable!(),
    }
}
