//! The first habit of a table that explains an unexpected token.

use crate::wanted::Wanted;
use fault_texts::is_word_of;
use source_tokens::Tokens;

/// A habit of another language, by the tokens around an unexpected one: the first of its statement, the one before it,
/// itself, and the one after it, each one of some words, or any if there is no word; the tokens expected there, or any;
/// and how to write here what was meant.
pub(crate) type Habit = [&'static str; 6];

fn is_among(words: &str, token: &[u8]) -> bool {
    words.is_empty() || is_word_of(words, token)
}

fn fits(habit: &Habit, tokens: Tokens<'_>, at: usize, wanted: &Wanted) -> bool {
    let [begins, before, here, after, wants, _] = *habit;
    is_among(begins, tokens.word(tokens.first_of(at)))
        && is_among(before, tokens.before(at))
        && is_among(here, tokens.word(at))
        && is_among(after, tokens.word(at.saturating_add(1)))
        && (wants.is_empty() || wanted.has_each(wants))
}

/// The sentence of the first habit that fits.
pub(crate) fn sentence_of(
    habits: &'static [Habit],
    tokens: Tokens<'_>,
    at: usize,
    wanted: &Wanted,
) -> Option<&'static str> {
    for habit in habits {
        if fits(habit, tokens, at, wanted) {
            return Some(habit[5]);
        }
    }
    None
}
