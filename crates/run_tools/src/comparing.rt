ghost use Rattle.std.specs.Prelude.{◌≡◌, ◌↔◌, ◌≤◌, ◌<◌, IfOk, IsTrue, Some, None};
ghost use Rattle.lt_isa.specs.Prelude.{trace_from};
ghost use Rattle.run_tools.specs.Comparing.{Compares};
ghost use Rattle.run_tools.specs.EventParts.{HaveEqualParts};
ghost use Rattle.run_tools.specs.Judging.{Judges};
ghost use Rattle.run_tools.specs.Recorded.{stamped_of};
ghost use Rattle.run_tools.specs.SoFar.{end_after};

use crate::recorder::{OwnedEvent, Recorded};
use crate::trace_reader::TraceReader;
use gr_base::Memory;
use processor::{Bank, End, Machine};
use std::alloc::Global;

/// What the traces of two runs are to each other.
#[derive(Drop)]
pub enum Comparison {
    /// They are equal: how many events they have, and how both runs ended.
    Equal {
        events: u32,
        end: End,
    },
    /// They have that many events in common. The next event of each is another, or one has no further event.
    Differ {
        events: u32,
        first: Option<Recorded>,
        second: Option<Recorded>,
    },
}

/// Runs two machines side by side, and compares the events that start below this cycle until two differ. Paths of
/// oblivious banks aren't compared: they are random. The memory needed doesn't grow with the traces.
pub fn compare<B: Bank + Drop>(
    alloc: Global,
    first: &mut Machine<'_, B>,
    second: &mut Machine<'_, B>,
    cycles: u32,
) -> Result<Comparison, Memory>
    requires first_live { IsTrue first.old.live }
    requires second_live { IsTrue second.old.live }
    ensures { IfOk result (λ comparison. Compares
        (trace_from first.old.object first.old.state cycles)
        (trace_from second.old.object second.old.state cycles)
        comparison) }
{
    let mut first_trace = TraceReader::new(alloc, cycles);
    let mut second_trace = TraceReader::new(alloc, cycles);
    let mut events: u32 = 0;
    let mut end = End::Spent;
    let _ = (first.live(), second.live());
    'comparing: loop {
        let one = first_trace.next(alloc, first)?;
        let other = second_trace.next(alloc, second)?;
        match judged(one, other) {
            Judgement::Over => return Ok(Comparison::Equal { events, end }),
            Judgement::Same(event) => {
                end = end_after(end, &event);
                events += 1;
                drop(event);
            }
            Judgement::Other(first, second) => {
                return Ok(Comparison::Differ {
                    events,
                    first,
                    second,
                });
            }
        }
    }
}

/// What the next events of two traces are to each other.
#[derive(Drop)]
pub(crate) enum Judgement {
    /// Neither trace has an event left.
    Over,
    /// Both are this event.
    Same(Recorded),
    /// They differ, or one trace has none.
    Other(Option<Recorded>, Option<Recorded>),
}

fn judged(first: Option<Recorded>, second: Option<Recorded>) -> Judgement
    ensures { Judges first second result }
{
    match (first, second) {
        (None, None) => Judgement::Over,
        (Some(one), Some(other)) => judged_events(one, other),
        (Some(one), None) => Judgement::Other(Some(one), None),
        (None, Some(other)) => Judgement::Other(None, Some(other)),
    }
}

fn judged_events(one: Recorded, other: Recorded) -> Judgement
    ensures { Judges (Some one) (Some other) result }
{
    if is_same(&one, &other) {
        return Judgement::Same(one);
    }
    Judgement::Other(Some(one), Some(other))
}

#[tactic(auto, using(crate::proofs::EqualParts::same_of_alike, crate::proofs::EqualParts::alike_of_same))]
fn is_same(one: &Recorded, other: &Recorded) -> bool
    ensures { IsTrue result ↔ (stamped_of one.now ≡ stamped_of other.now) }
{
    have_equal_parts(one, other)
}

// Whether stamps, kinds, numbers and words are equal.
fn have_equal_parts(one: &Recorded, other: &Recorded) -> bool
    ensures { IsTrue result ↔ HaveEqualParts one.now other.now }
{
    let first = one.event.parts();
    let second = other.event.parts();
    one.stamp == other.stamp
        && first.kind == second.kind
        && first.number == second.number
        && are_equal(first.words, second.words)
}

fn are_equal(first: &[i64], second: &[i64]) -> bool
    ensures { IsTrue result ↔ (first.now ≡ second.now) }
{
    first == second
}

// How a run ends that has shown this event, if it ended so before.
fn end_after(end: End, event: &Recorded) -> End
    ensures { result ≡ end_after end event.now }
{
    match &event.event {
        OwnedEvent::Halt => End::Halted(event.stamp),
        OwnedEvent::RamRead(_, _) | OwnedEvent::RamWrite(_, _) => end,
        OwnedEvent::EncRead(_) | OwnedEvent::EncWrite(_) | OwnedEvent::Oram(_) => end,
    }
}
