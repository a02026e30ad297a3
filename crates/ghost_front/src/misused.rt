//! Explains usage errors for which the table of all verbs is needed.

use crate::verb_table::{VERBS, VerbHelp, name_of, takes, verb_help};
use fault_texts::Words;

/// Writes what is wrong with the words of a call if they begin with no verb, or if an option belongs to other verbs only.
/// Writes nothing otherwise.
pub(crate) fn explain_misused(words: &[&str], begins: &str, out: &mut Words) {
    let Some(word) = words.first() else {
        out.say(begins);
        out.line("no verb is given");
        return put_verbs(out);
    };
    let Some(verb) = verb_help(word) else {
        out.say(begins);
        return put_no_verb(word, out);
    };
    if let Some(option) = option_of_others(verb, words) {
        out.say(begins);
        put_option_of_others(verb, option, out);
    }
}

/// Writes that a word isn't a verb, and which words are.
pub(crate) fn put_no_verb(word: &str, out: &mut Words) {
    out.name(word);
    out.line(" is not a verb");
    put_verbs(out)
}

fn put_verbs(out: &mut Words) {
    out.say("The verbs are ");
    put_names(None, out);
    out.line(". `ghostrider help` explains them.");
}

// Writes the names of all verbs, or of those that take an option.
fn put_names(option: Option<&str>, out: &mut Words) {
    let count = VERBS.iter().filter(|verb| is_named(**verb, option)).count();
    let mut number = 0usize;
    for verb in VERBS {
        if is_named(verb, option) {
            number = number.saturating_add(1);
            out.say(name_of(verb));
            out.say(if number == count {
                ""
            } else if number.saturating_add(1) == count {
                " and "
            } else {
                ", "
            });
        }
    }
}

fn is_named(verb: VerbHelp, option: Option<&str>) -> bool {
    match option {
        Some(name) => takes(verb, name),
        None => true,
    }
}

// The first option before `--` that this verb doesn't take, but another one does.
fn option_of_others<'a>(verb: VerbHelp, words: &[&'a str]) -> Option<&'a str> {
    for word in words.iter().skip(1) {
        if *word == "--" {
            return None;
        }
        let name = match word.split_once('=') {
            Some((name, _)) => name,
            None => *word,
        };
        if name.starts_with("--") && !takes(verb, name) && is_option(name) {
            return Some(name);
        }
    }
    None
}

fn is_option(name: &str) -> bool {
    VERBS.iter().any(|verb| takes(*verb, name))
}

fn put_option_of_others(verb: VerbHelp, option: &str, out: &mut Words) {
    out.say(name_of(verb));
    out.say(": ");
    out.name(option);
    out.line(" is not an option of this verb");
    out.say("It is an option of ");
    put_names(Some(option), out);
    out.line(".");
    out.say("usage: ghostrider ");
    out.line(verb.usage)
}
