ghost use Rattle.std.specs.Prelude.{◌≡◌, IfOk, bytes_eq, false};
ghost use Rattle.clap.specs.Words.{app_of, rule_of};
ghost use Rattle.command_words.specs.Options.{IsFound, texts};
ghost use Rattle.command_words.specs.VerbRows.{command_of, rule_for, with_all};
ghost use Rattle.command_words.specs.Verbs.{row_of, verb_named};

use crate::options::matches_in;
use clap::{Arg, ArgAction, ArgMatches, Command};
use gr_base::Memory;
use std::alloc::Global;

/// The verbs of the program.
#[derive(Clone, Copy)]
pub enum Verb {
    Check,
    Trace,
    Run,
    Assemble,
    Disassemble,
    Evaluate,
    Compile,
    Sample,
    Bus,
    Infer,
}

/// All verbs.
const VERBS: [Verb; 10] = [
    Verb::Check,
    Verb::Trace,
    Verb::Run,
    Verb::Assemble,
    Verb::Disassemble,
    Verb::Evaluate,
    Verb::Compile,
    Verb::Sample,
    Verb::Bus,
    Verb::Infer,
];

/// The kind of an argument.
#[derive(Clone, Copy)]
pub enum Argument {
    /// A word that is required at its position.
    Word,
    /// 2 to 16 adjacent words under one name.
    Words,
    /// An option with a value.
    Valued,
    /// An option without a value.
    Flag,
}

/// The words that a verb takes: its name, its positional words and their names, its options with a value, and those
/// without one.
#[derive(Clone, Copy)]
pub struct VerbWords<'a> {
    pub name: &'a str,
    pub place: Argument,
    pub places: &'a [&'a str],
    pub options: &'a [&'a str],
    pub flags: &'a [&'a str],
}

/// The words of a verb whose positional words are of the kind [`Argument::Word`].
fn words<'a>(
    name: &'a str,
    places: &'a [&'a str],
    options: &'a [&'a str],
    flags: &'a [&'a str],
) -> VerbWords<'a>
    ensures name { result.name.now ≡ name.now }
    ensures place { result.place ≡ Argument.Word }
    ensures places { texts result.places.now ≡ texts places.now }
    ensures options { texts result.options.now ≡ texts options.now }
    ensures flags { texts result.flags.now ≡ texts flags.now }
{
    VerbWords {
        name,
        place: Argument::Word,
        places,
        options,
        flags,
    }
}

/// The words that each verb takes: the table that a new verb is added to.
fn words_of<'a>(verb: Verb) -> VerbWords<'a>
    ensures name { result.name.now ≡ (row_of verb).name }
    ensures place { result.place ≡ (row_of verb).place }
    ensures places { texts result.places.now ≡ (row_of verb).places }
    ensures options { texts result.options.now ≡ (row_of verb).options }
    ensures flags { texts result.flags.now ≡ (row_of verb).flags }
{
    match verb {
        Verb::Check => words("check", &["OBJ"], &[], &[]),
        Verb::Trace => words(
            "trace",
            &["OBJ", "INPUT"],
            &["cycles", "seed"],
            &["paths", "recursive"],
        ),
        Verb::Run => words(
            "run",
            &["OBJ", "INPUT", "OUT"],
            &["cycles", "seed"],
            &["recursive"],
        ),
        Verb::Assemble => words("asm", &["TEXT", "OUT"], &[], &[]),
        Verb::Disassemble => words("dis", &["OBJ", "OUT"], &[], &[]),
        Verb::Evaluate => words("eval", &["SRC", "INPUT", "OUT"], &["turns"], &["procs"]),
        Verb::Compile => words(
            "compile",
            &["SRC", "OUT"],
            &["block-log", "window"],
            &["procs", "fast"],
        ),
        Verb::Sample => words("sample", &["N", "OUT"], &["seed"], &["fast"]),
        Verb::Bus => VerbWords {
            place: Argument::Words,
            ..words("bus", &["NAMES"], &["cycles", "seed"], &[])
        },
        Verb::Infer => words("infer", &["OBJ", "OUT"], &[], &[]),
    }
}

fn is_named(verb: Verb, name: &str) -> bool
    ensures { result ≡ bytes_eq (row_of verb).name name.now }
{
    words_of(verb).name == name
}

/// The verb of a name.
#[tactic(auto, unfolding(crate::specs::Verbs::verb_named))]
pub fn verb_named(name: &str) -> Option<Verb>
    ensures { result ≡ verb_named name.now }
{
    VERBS.iter().copied().find(|verb| is_named(*verb, name))
}

/// What a verb finds in the words, the verb first, or none where it refuses them. A call for help is refused too.
pub fn matches_of<'a>(
    alloc: Global,
    verb: Verb,
    words: &'a [&'a str],
) -> Result<Option<ArgMatches<'a>>, Memory>
    ensures { IfOk result (IsFound (command_of (row_of verb)) (texts words.now)) }
{
    matches_in(command(alloc, verb)?, words)
}

/// The command of a verb's words.
fn command<'a>(alloc: Global, verb: Verb) -> Result<Command<'a>, Memory>
    ensures { IfOk result (λ c. app_of c ≡ command_of (row_of verb)) }
{
    let words = words_of(verb);
    let empty = Command::new(alloc, words.name);
    let placed = with_all(alloc, empty, words.place, words.places)?;
    let optional = with_all(alloc, placed, Argument::Valued, words.options)?;
    with_all(alloc, optional, Argument::Flag, words.flags)
}

/// A command with these arguments more.
pub fn with_all<'a>(
    alloc: Global,
    command: Command<'a>,
    kind: Argument,
    names: &[&'a str],
) -> Result<Command<'a>, Memory>
    ensures { IfOk result (λ c. app_of c ≡ with_all (app_of command.entry) kind (texts names.now)) }
{
    let mut more = command;
    'adding: for name in names {
        match more.arg(new_argument(alloc, kind, name)) {
            Ok(one_more) => more = one_more,
            Err(_) => return Err(Memory),
        }
    }
    Ok(more)
}

fn new_argument<'a>(alloc: Global, kind: Argument, name: &'a str) -> Arg<'a>
    ensures rule { rule_of result ≡ rule_for kind name.now }
    ensures local { result.global ≡ false }
{
    match kind {
        Argument::Word => Arg::new(alloc, name).required(true),
        Argument::Words => Arg::new(alloc, name).required(true).num_args(2..=16),
        Argument::Valued => Arg::new(alloc, name).long(name),
        Argument::Flag => Arg::new(alloc, name).long(name).action(ArgAction::SetTrue),
    }
}
