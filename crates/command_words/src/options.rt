ghost use Rattle.std.specs.Prelude.{◌≡◌, ◌↔◌, ◌≤◌, IfOk, IfSome, IsTrue, List, ℕ, true};
ghost use Rattle.clap.specs.Words.{all_of, app_of, first_of, found_of, is_simple, is_simple_and_free, kind_of, rows_of};
ghost use Rattle.gr_base.specs.Prelude.{Within};
ghost use Rattle.command_words.specs.Options.{IsFound, block_log_given, flag_given, items_given, number_given, option_within, seed_given, texts};
ghost use Rattle.std.specs.Option.{option_map};

use clap::error::ErrorKind;
use clap::{ArgMatches, Command, Error};
use gr_base::Memory;
use gr_base::numerals::are_digits;
use std::alloc::Global;

/// The cycles of a run, and the turns of an evaluation, for which no option says a number.
pub const USUAL_NUMBER: u32 = 1_000_000_000;

/// The logarithm of a block's words for which no option says a number.
pub const USUAL_BLOCK_LOG: u8 = 9;

/// The most items of a sample.
const MOST_ITEMS: u64 = 65_536;

/// The most digits that a number has.
const MOST_DIGITS: usize = 20;

/// Whether a flag is given.
pub fn flag_given(option: Option<&str>) -> bool
    ensures { result ≡ flag_given (option_map (λ text. text.now) option.entry) }
{
    match option {
        Some(text) => text == "true",
        None => false,
    }
}

/// What a command finds in the words, the verb first, or none where it refuses them. A call for help is refused too.
pub fn matches_in<'a>(
    command: Command<'a>,
    words: &'a [&'a str],
) -> Result<Option<ArgMatches<'a>>, Memory>
    requires simple { is_simple (app_of command) ≡ true }
    requires free { is_simple_and_free (app_of command) ≡ true }
    ensures { IfOk result (IsFound (app_of command.entry) (texts words.now)) }
{
    match command.try_get_matches_from(words) {
        Ok(matches) => Ok(Some(matches)),
        Err(error) => {
            if wants_memory(&error) {
                return Err(Memory);
            }
            Ok(None)
        }
    }
}

/// The value that was found for a word or an option.
pub fn value<'a>(matches: &ArgMatches<'a>, name: &str) -> Option<&'a str>
    ensures { option_map (λ text. text.now) result ≡ first_of name.now (rows_of (found_of matches.now)) }
{
    matches.get_str(name)
}

/// The values that were found for adjacent words under one name.
pub fn values<'m, 'a>(matches: &'m ArgMatches<'a>, name: &str) -> Option<&'m [&'a str]>
    ensures { option_map (λ list. texts list.now) result ≡ all_of name.now (rows_of (found_of matches.now)) }
{
    matches.get_strs(name)
}

fn wants_memory(error: &Error) -> bool
    ensures { IsTrue result ↔ (kind_of error.now ≡ ErrorKind.OutOfMemory) }
{
    error.kind() == ErrorKind::OutOfMemory
}

/// The number of cycles, or of iterations, that the option gives: 1,000,000,000 without the option, and `None` if its
/// text isn't a number from 1 to 4,294,967,295.
pub fn number_given(option: Option<&str>) -> Option<u32>
    ensures value { result ≡ number_given (option_map (λ text. text.now) option.entry) }
    ensures least { IfSome result (λ n. 1 ≤ n) }
{
    match option {
        Some(text) => match number_within(text, 1, u64::from(u32::MAX)) {
            Some(count) => Some(count as u32),
            None => None,
        },
        None => Some(USUAL_NUMBER),
    }
}

/// The logarithm of a block's words that the option gives: 9 without the option, and `None` if its text isn't a number
/// from 3 to 9.
pub fn block_log_given(option: Option<&str>) -> Option<u8>
    ensures value { result ≡ block_log_given (option_map (λ text. text.now) option.entry) }
    ensures within { IfSome result (λ w. Within 3 9 w) }
{
    match option {
        Some(text) => match number_within(text, 3, 9) {
            Some(number) => Some(number as u8),
            None => None,
        },
        None => Some(USUAL_BLOCK_LOG),
    }
}

/// The seed of random words that the option gives: 0 without the option, and `None` if its text isn't a number below
/// 2^64.
pub fn seed_given(option: Option<&str>) -> Option<u64>
    ensures { result ≡ seed_given (option_map (λ text. text.now) option.entry) }
{
    match option {
        Some(text) => number_within(text, 0, u64::MAX),
        None => Some(0),
    }
}

/// The number of items that a word gives, and `None` if it isn't a number from 1 to 65,536.
pub fn items_given(text: &str) -> Option<u32>
    ensures value { result ≡ items_given text.now }
    ensures within { IfSome result (λ n. Within 1 65536 n) }
{
    match number_within(text, 1, MOST_ITEMS) {
        Some(number) => Some(number as u32),
        None => None,
    }
}

/// The number from `least` to `most` that a text writes.
pub(crate) fn number_within(text: &str, least: u64, most: u64) -> Option<u64>
    ensures value { result ≡ option_within least most text.now }
    ensures within { IfSome result (λ n. Within least most n) }
{
    if text.len() > MOST_DIGITS || !are_digits(text.as_bytes()) {
        return None;
    }
    match text.parse::<u64>() {
        Ok(number) => {
            if number < least || number > most {
                return None;
            }
            Some(number)
        }
        Err(_) => None,
    }
}
