//! Which of the files that the words of a call name are `-`.

ghost use Rattle.std.specs.Prelude.{◌≡◌, IfOk, Some, is_some};
ghost use Rattle.std.specs.Option.{option_map};
ghost use Rattle.clap.specs.Words.{found_of, rows_of};
ghost use Rattle.command_words.specs.Prelude.{assemble_asks, asked_of, asks_of, bus_asks, bus_named, check_asks, compile_asks, disassemble_asks, evaluate_asks, infer_asks, pairs_of, run_asks, sample_asks, texts, trace_asks};
ghost use Rattle.ghost_front.specs.Dashes.{dashes, dashes_among, dashes_in, or_no_dashes};

use crate::streams::is_dash;
use clap::ArgMatches;
use command_words::options::{
    block_log_given, flag_given, items_given, number_given, seed_given, value, values,
};
use command_words::verbs::{Verb, matches_of, verb_named};
use command_words::windows::window_given;
use gr_base::Memory;
use std::alloc::Global;

/// How many of the files that a call reads are `-`, and whether the file that it writes is.
#[derive(Clone, Copy)]
pub(crate) struct Dashes {
    pub read: usize,
    pub written: bool,
}

/// The most names that `bus` takes.
const MOST_NAMES: usize = 16;

/// Which files of the call of these words are `-`, the verb first. None if the words are no call of a verb of
/// `ghost_cli`.
pub(crate) fn dashes_in(alloc: Global, words: &[&str]) -> Result<Dashes, Memory>
    ensures { IfOk result (λ found. found ≡ dashes_in (texts words.now)) }
{
    if words.len() == 0 {
        return Ok(NO_DASHES);
    }
    after_name(alloc, words[0], words)
}

// Which files of the call of the verb of this name are `-`.
fn after_name(alloc: Global, name: &str, words: &[&str]) -> Result<Dashes, Memory>
    ensures { IfOk result (λ found. found ≡ or_no_dashes (asked_of dashes name.now (texts words.now))) }
{
    let Some(verb) = verb_named(name) else {
        return Ok(NO_DASHES);
    };
    let Some(matches) = matches_of(alloc, verb, words)? else {
        return Ok(NO_DASHES);
    };
    Ok(or_none(of_verb(verb, &matches)))
}

const NO_DASHES: Dashes = Dashes {
    read: 0,
    written: false,
};

fn or_none(found: Option<Dashes>) -> Dashes
    ensures { result ≡ or_no_dashes found }
{
    match found {
        Some(found) => found,
        None => NO_DASHES,
    }
}

fn of_verb(verb: Verb, matches: &ArgMatches<'_>) -> Option<Dashes>
    ensures { result ≡ asks_of dashes verb (rows_of (found_of matches.now)) }
{
    match verb {
        Verb::Check => of_check(matches),
        Verb::Trace => of_trace(matches),
        Verb::Run => of_run(matches),
        Verb::Assemble => of_assemble(matches),
        Verb::Disassemble => of_disassemble(matches),
        Verb::Evaluate => of_evaluate(matches),
        Verb::Compile => of_compile(matches),
        Verb::Sample => of_sample(matches),
        Verb::Bus => of_bus(matches),
        Verb::Infer => of_infer(matches),
    }
}

fn of_check(matches: &ArgMatches<'_>) -> Option<Dashes>
    ensures { result ≡ check_asks dashes.check (rows_of (found_of matches.now)) }
{
    let object = value(matches, "OBJ")?;
    Some(Dashes {
        read: among(&[object]),
        written: false,
    })
}

fn of_trace(matches: &ArgMatches<'_>) -> Option<Dashes>
    ensures { result ≡ trace_asks dashes.trace (rows_of (found_of matches.now)) }
{
    let object = value(matches, "OBJ")?;
    let input = value(matches, "INPUT")?;
    number_given(value(matches, "cycles"))?;
    seed_given(value(matches, "seed"))?;
    Some(Dashes {
        read: among(&[object, input]),
        written: false,
    })
}

fn of_run(matches: &ArgMatches<'_>) -> Option<Dashes>
    ensures { result ≡ run_asks dashes.run (rows_of (found_of matches.now)) }
{
    let object = value(matches, "OBJ")?;
    let input = value(matches, "INPUT")?;
    let output = value(matches, "OUT")?;
    number_given(value(matches, "cycles"))?;
    seed_given(value(matches, "seed"))?;
    Some(Dashes {
        read: among(&[object, input]),
        written: is_dash(output),
    })
}

fn of_assemble(matches: &ArgMatches<'_>) -> Option<Dashes>
    ensures { result ≡ assemble_asks dashes.assemble (rows_of (found_of matches.now)) }
{
    let text = value(matches, "TEXT")?;
    let output = value(matches, "OUT")?;
    Some(Dashes {
        read: among(&[text]),
        written: is_dash(output),
    })
}

fn of_disassemble(matches: &ArgMatches<'_>) -> Option<Dashes>
    ensures { result ≡ disassemble_asks dashes.disassemble (rows_of (found_of matches.now)) }
{
    let object = value(matches, "OBJ")?;
    let output = value(matches, "OUT")?;
    Some(Dashes {
        read: among(&[object]),
        written: is_dash(output),
    })
}

fn of_evaluate(matches: &ArgMatches<'_>) -> Option<Dashes>
    ensures { result ≡ evaluate_asks dashes.evaluate (rows_of (found_of matches.now)) }
{
    let source = value(matches, "SRC")?;
    let input = value(matches, "INPUT")?;
    let output = value(matches, "OUT")?;
    number_given(value(matches, "turns"))?;
    Some(Dashes {
        read: among(&[source, input]),
        written: is_dash(output),
    })
}

fn of_compile(matches: &ArgMatches<'_>) -> Option<Dashes>
    ensures { result ≡ compile_asks dashes.compile (rows_of (found_of matches.now)) }
{
    let source = value(matches, "SRC")?;
    let output = value(matches, "OUT")?;
    block_log_given(value(matches, "block-log"))?;
    window_given(value(matches, "window"))?;
    Some(Dashes {
        read: among(&[source]),
        written: is_dash(output),
    })
}

fn of_sample(matches: &ArgMatches<'_>) -> Option<Dashes>
    ensures { result ≡ sample_asks dashes.sample (rows_of (found_of matches.now)) }
{
    items_given(value(matches, "N")?)?;
    let output = value(matches, "OUT")?;
    seed_given(value(matches, "seed"))?;
    Some(Dashes {
        read: 0,
        written: is_dash(output),
    })
}

fn of_bus(matches: &ArgMatches<'_>) -> Option<Dashes>
    ensures { result ≡ bus_asks dashes.bus (rows_of (found_of matches.now)) }
{
    let names = values(matches, "NAMES")?;
    of_names(names, value(matches, "cycles"), value(matches, "seed"))
}

fn of_names(names: &[&str], cycles: Option<&str>, seed: Option<&str>) -> Option<Dashes>
    ensures { result ≡ bus_named dashes.bus (Some (texts names.now)) (option_map (λ text. text.now) cycles.entry)
        (option_map (λ text. text.now) seed.entry) }
{
    if !are_pairs(names) {
        return None;
    }
    number_given(cycles)?;
    seed_given(seed)?;
    Some(Dashes {
        read: among(names),
        written: false,
    })
}

fn of_infer(matches: &ArgMatches<'_>) -> Option<Dashes>
    ensures { result ≡ infer_asks dashes.infer (rows_of (found_of matches.now)) }
{
    let object = value(matches, "OBJ")?;
    let output = value(matches, "OUT")?;
    Some(Dashes {
        read: among(&[object]),
        written: is_dash(output),
    })
}

// Whether the names of `bus` are one to eight pairs.
fn are_pairs(names: &[&str]) -> bool
    ensures { result ≡ is_some (pairs_of (texts names.now)) }
{
    if names.len() > MOST_NAMES {
        return false;
    }
    names.len() % 2 == 0
}

// How many of the names are `-`.
fn among(names: &[&str]) -> usize
    ensures { result ≡ dashes_among (texts names.now) }
{
    let mut count = 0usize;
    for name in names {
        if is_dash(name) {
            count += 1;
        }
    }
    count
}
