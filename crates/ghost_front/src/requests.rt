//! What the words of a call ask the front itself.

ghost use Rattle.std.specs.Prelude.{◌≡◌, ◌∷◌, codes, is_some};
ghost use Rattle.command_words.specs.Prelude.{texts};
ghost use Rattle.ghost_front.specs.Manners.{first_is, manner_in, manner_of};
ghost use Rattle.ghost_front.specs.Requests.{asked, asks_front, asks_help, is_about, is_help_option, is_manner};

use crate::verb_table::{VerbHelp, other_help, verb_help};

/// A request that the front handles itself.
#[derive(Clone, Copy)]
pub(crate) enum Request<'a> {
    /// To list all verbs.
    Help,
    /// To print what one verb does.
    HelpOn(VerbHelp),
    /// To print what a word does that may stand in the place of a verb or before it.
    HelpOnOther(VerbHelp),
    /// To print help on a word that is neither.
    HelpOnNothing(&'a str),
    /// To print the version, and what the program was made of.
    Version,
    /// To print the path of the program.
    Which,
    /// To print that a word is one too many.
    TooMany(&'a str),
}

/// How faults and warnings are printed to standard error.
#[derive(Clone, Copy)]
pub(crate) enum Manner {
    /// They aren't printed.
    Quiet,
    /// In words, for people.
    Words,
    /// As lines of JSON, for scripts and editors.
    Json,
}

/// How faults and warnings are printed if the words of a call are these, and if the program `explains` at all. If both
/// `--quiet` and `--json` precede the verb, that is a usage error, which is printed.
pub(crate) fn manner_in(explains: bool, words: &[&str]) -> Manner
    ensures { result ≡ manner_in explains (texts words.now) }
{
    if !explains {
        return Manner::Quiet;
    }
    if words.len() == 0 {
        return Manner::Words;
    }
    manner_of(words[0], &words[1..])
}

// The manner of a first word and the words that follow it.
fn manner_of(first: &str, rest: &[&str]) -> Manner
    ensures { result ≡ manner_of first.now (texts rest.now) }
{
    if first == "--json" {
        return Manner::Json;
    }
    if first != "--quiet" {
        return Manner::Words;
    }
    if asks_json(rest) {
        return Manner::Json;
    }
    if is_first(rest, "--quiet") {
        return Manner::Words;
    }
    Manner::Quiet
}

/// Whether the words of a call ask for lines of JSON.
pub(crate) fn asks_json(words: &[&str]) -> bool
    ensures { result ≡ first_is (codes "--json") (texts words.now) }
{
    is_first(words, "--json")
}

/// Whether each case of `test` that fails is printed as a line of JSON too.
pub(crate) fn lists_cases(manner: Manner) -> bool {
    match manner {
        Manner::Json => true,
        _ => false,
    }
}

// Whether the first word is this one.
fn is_first(words: &[&str], wanted: &str) -> bool
    ensures { result ≡ first_is wanted.now (texts words.now) }
{
    if words.len() == 0 {
        return false;
    }
    words[0] == wanted
}

/// Whether a word determines how faults and warnings are printed.
pub(crate) fn is_manner(word: &str) -> bool
    ensures { result ≡ is_manner word.now }
{
    word == "--quiet" || word == "--json"
}

/// The words of a call, without `--quiet` or `--json` before them.
pub(crate) fn asked_words<'a, 'b>(words: &'b [&'a str]) -> &'b [&'a str]
    ensures { texts result.now ≡ asked (texts words.now) }
{
    if words.len() == 0 {
        return words;
    }
    if is_manner(words[0]) {
        return &words[1..];
    }
    words
}

/// The request, if the words have one: `help`, `--version`, `--which` and their short forms, or `--help` or `-h` anywhere
/// before `--`.
pub(crate) fn request_in<'a>(words: &[&'a str]) -> Option<Request<'a>>
    ensures { is_some result ≡ asks_front (texts words.now) }
{
    if words.len() == 0 {
        return None;
    }
    request_of(words[0], &words[1..])
}

// The request of a first word and the words that follow.
fn request_of<'a>(first: &'a str, rest: &[&'a str]) -> Option<Request<'a>>
    ensures { is_some result ≡ asks_front (first.now ∷ texts rest.now) }
{
    if is_about(first) {
        return Some(request_about(first, rest));
    }
    if asks_help(rest) {
        return Some(help_on_word(first));
    }
    None
}

// Whether `--help` or `-h` is among the words before `--`.
fn asks_help(words: &[&str]) -> bool
    ensures { result ≡ asks_help (texts words.now) }
{
    for word in words {
        if *word == "--" {
            return false;
        }
        if is_help_option(word) {
            return true;
        }
    }
    false
}

fn is_help_option(word: &str) -> bool
    ensures { result ≡ is_help_option word.now }
{
    word == "--help" || word == "-h"
}

fn is_version(word: &str) -> bool {
    word == "version" || word == "--version" || word == "-V"
}

fn is_about(word: &str) -> bool
    ensures { result ≡ is_about word.now }
{
    word == "help"
        || is_help_option(word)
        || word == "version"
        || word == "--version"
        || word == "-V"
        || word == "--which"
}

// The request of a word about the program, and of the words that follow it.
fn request_about<'a>(word: &'a str, rest: &[&'a str]) -> Request<'a> {
    if word == "help" {
        return help_on(rest);
    }
    if asks_help(rest) {
        return help_on_word(word);
    }
    let request = if is_help_option(word) {
        Request::Help
    } else if is_version(word) {
        Request::Version
    } else {
        Request::Which
    };
    alone(rest, request)
}

// The request of the words that follow `help`.
fn help_on<'a>(words: &[&'a str]) -> Request<'a> {
    if words.len() == 0 {
        return Request::Help;
    }
    alone(&words[1..], help_on_word(words[0]))
}

fn help_on_word<'a>(word: &'a str) -> Request<'a> {
    if let Some(verb) = verb_help(word) {
        return Request::HelpOn(verb);
    }
    match other_help(word) {
        Some(row) => Request::HelpOnOther(row),
        None => Request::HelpOnNothing(word),
    }
}

// A request that no more words may follow.
fn alone<'a>(rest: &[&'a str], request: Request<'a>) -> Request<'a> {
    if rest.len() == 0 {
        request
    } else {
        Request::TooMany(rest[0])
    }
}
