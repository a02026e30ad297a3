ghost use Rattle.std.specs.Prelude.{◌≤◌};
ghost use Rattle.lt_isa.specs.Prelude.{FitsObject};

use crate::fixtures::{LOAD, accepted_of, inputs_of, object_of};
use gr_word::Inputs;
use lt_assembler::written_again;
use lt_checker::Accepted;
use processor::{End, ListWatch, WatchFailed, load_start, start_image};
use std::alloc::Global;
use std::test::Fail;

const STORE: &str = "\
.object 1 3 1 70 2 3
.bank 4 634
.bank 4 662
.symbol total secret scalar 1 0 1 1
.symbol pair secret array 1 0 7 2
li r1 9
li r2 1
ldb 0 E r0
stw r1 0 r2
stb 0
halt
";

type Ended = Result<End, WatchFailed>;

/// How a run ends with a watcher whose second call fails, and how many events it received.
fn watched(alloc: Global, accepted: &Accepted, inputs: &Inputs) -> Result<(Ended, usize), Fail>
    requires { FitsObject accepted.now inputs.now }
{
    let mut watch = ListWatch::new(alloc, [1].to_vec(alloc)?, 2, 8)?;
    let mut machine = load_start(alloc, accepted, inputs)?;
    let end = machine.run(1000, &mut watch);
    Ok((end, watch.len()))
}

#[test]
fn a_failing_watcher_ends_the_run(rt: HostRuntime) -> Result<(), Fail> {
    let alloc = rt.alloc();
    let accepted = accepted_of(alloc, LOAD)?;
    let inputs = inputs_of(alloc, &accepted, "{}")?;
    assert_eq!(rt; watched(alloc, &accepted, &inputs)?, (Err(WatchFailed), 1));
    Ok(())
}

/// Whether encrypted memory begins with these words at the start.
fn begins_with(
    alloc: Global,
    accepted: &Accepted,
    inputs: &Inputs,
    words: &[i64],
) -> Result<bool, Fail>
    requires { FitsObject accepted.now inputs.now }
{
    if accepted.object().banks().len() < 2 {
        return Err(Fail::from("no encrypted memory"));
    }
    Ok(start_image(alloc, accepted, inputs, 1)?.starts_with(words))
}

#[test]
fn variables_stand_at_their_places(rt: HostRuntime) -> Result<(), Fail> {
    let alloc = rt.alloc();
    let accepted = accepted_of(alloc, STORE)?;
    let inputs = inputs_of(alloc, &accepted, r#"{"total": 5, "pair": [-3, 4]}"#)?;
    let placed = [0, 5, 0, 0, 0, 0, 0, -3, 4];
    assert!(rt; begins_with(alloc, &accepted, &inputs, &placed)?);
    Ok(())
}

/// Runs the object for this many cycles, and then to its halt; returns the number of events up to then and in all.
fn cut_at(
    alloc: Global,
    accepted: &Accepted,
    inputs: &Inputs,
    cycles: u32,
) -> Result<(usize, usize), Fail>
    requires fits { FitsObject accepted.now inputs.now }
    requires some_cycle { 1 ≤ cycles }
{
    let mut watch = ListWatch::new(alloc, Vec::new(alloc), 2, 8)?;
    let mut machine = load_start(alloc, accepted, inputs)?;
    let Ok(End::Spent) = machine.run(cycles, &mut watch) else {
        return Err(Fail::from("not spent"));
    };
    let told = watch.len();
    let Ok(End::Halted(635)) = machine.run(636, &mut watch) else {
        return Err(Fail::from("not halted"));
    };
    if machine.live() || machine.cycle() != 636 {
        return Err(Fail::from("still live"));
    }
    Ok((told, watch.len()))
}

#[test]
fn a_run_that_is_cut_anywhere_goes_on_where_it_stopped(rt: HostRuntime) -> Result<(), Fail> {
    let alloc = rt.alloc();
    let accepted = accepted_of(alloc, LOAD)?;
    let inputs = inputs_of(alloc, &accepted, "{}")?;
    for cycles in 1..636 {
        let told = if cycles < 2 { 0 } else { 1 };
        assert_eq!(rt; cut_at(alloc, &accepted, &inputs, cycles)?, (told, 2));
    }
    Ok(())
}

#[test]
fn an_object_is_written_and_read_again(rt: HostRuntime) -> Result<(), Fail> {
    let alloc = rt.alloc();
    let object = object_of(alloc, LOAD)?;
    let again = written_again(alloc, &object)?;
    assert!(rt; again.code() == object.code());
    Ok(())
}
