//! The members of a JSON object, read in one pass over its text. Only what a variable may take is kept of a value, and
//! only the members with the least names: among more names than variables, one names no variable.

ghost use Rattle.std.specs.Prelude.{◌≡◌, ◌<◌, ◌≤◌, length, take, Some, None, Err, IfOk, OnOk, option_map, string_cmp};
ghost use Rattle.std.specs.BTreeMap.{btree_map_len, insert_entry};
ghost use Rattle.std.specs.List.{list_all};
ghost use Rattle.json.specs.Json.{value, items, members};
ghost use Rattle.serde_json.specs.Data.{Data, Items, Members, no_members};
ghost use Rattle.serde_json.specs.Find.{as_object};
ghost use Rattle.serde_json.specs.Read.{of_json, of_items, of_members, converted, read};
ghost use Rattle.run_data.specs.InputsOf.{json_of, list_of, is_word, words_listed};
ghost use Rattle.run_data.specs.Given.{given_of, given_view, least_given, entries_view};

use crate::json_numbers::number_given;
use crate::passing::{pass_items, pass_members, pass_value};
use json::{Invalid, Reader, Scratch, Token};
use std::alloc::{AllocError, AllocFailed, Global};
use std::collections::BTreeMap;

/// How deep the lists and objects of a text may nest.
const MAX_DEPTH: usize = 127;

/// The words of a list: 0 for an item that isn't a word.
#[derive(Drop)]
pub(crate) struct Listed {
    pub words: Vec<i64>,
    pub are_words: bool,
}

/// What a value gives a variable.
#[derive(Drop)]
pub(crate) enum Given {
    /// A number, and the word that it is, if it is one.
    Number(Option<i64>),
    /// A list.
    Items(Listed),
    /// A value that fits no variable.
    Other,
}

/// What the members of an object give, by name.
pub(crate) type GivenMembers = BTreeMap<String, Given>;

/// Why a value isn't read.
#[derive(Clone, Copy, Drop)]
pub(crate) enum Unread {
    Invalid,
    Memory,
}

impl From<Invalid> for Unread {
    ghost use Rattle.std.specs.Prelude.{◌≡◌};
    ghost use Rattle.run_data.specs.declared.members.Unread.TheVariants.{Invalid as invalid};

    ghost from_gives = { λ _ e. e ≡ invalid };

    fn from(_invalid: Invalid) -> Unread {
        Unread::Invalid
    }
}

impl From<AllocError> for Unread {
    ghost use Rattle.std.specs.Prelude.{◌≡◌};
    ghost use Rattle.run_data.specs.declared.members.Unread.TheVariants.{Memory};

    ghost from_gives = { λ _ e. e ≡ Memory };

    fn from(_error: AllocError) -> Unread {
        Unread::Memory
    }
}

impl<T: Drop> From<AllocFailed<T>> for Unread {
    ghost use Rattle.std.specs.Prelude.{◌≡◌};
    ghost use Rattle.run_data.specs.declared.members.Unread.TheVariants.{Memory};

    ghost from_gives = { λ _ e. e ≡ Memory };

    fn from(_error: AllocFailed<T>) -> Unread {
        Unread::Memory
    }
}

/// What the members of the object give that a text is, at most `most` of them: those whose names are least. `None` if
/// the text is another value.
pub(crate) fn read_text(
    alloc: Global,
    text: &[u8],
    most: usize,
) -> Result<Option<GivenMembers>, Unread>
    ensures given { IfOk result (λ found. (d : Data) × (json_of text.now ≡ Some d)
        × (option_map (least_given most) (as_object d) ≡ option_map (λ m. entries_view m.entries) found)) }
    ensures none { result ≡ Err Unread.Invalid → json_of text.now ≡ None }
{
    match str::from_utf8(text) {
        Ok(text) => read_whole(alloc, text, most),
        Err(_) => Err(Unread::Invalid),
    }
}

fn read_whole(alloc: Global, text: &str, most: usize) -> Result<Option<GivenMembers>, Unread>
    ensures given { IfOk result (λ found. (d : Data) × (read text.now ≡ Some d)
        × (option_map (least_given most) (as_object d) ≡ option_map (λ m. entries_view m.entries) found)) }
    ensures none { result ≡ Err Unread.Invalid → read text.now ≡ None }
{
    let mut scratch = Scratch::new(alloc);
    let mut reader = Reader::new(text, &mut scratch)?;
    let found = read_object(alloc, &mut reader, most)?;
    match reader.next() {
        Some(_) => Err(Unread::Invalid),
        None => Ok(found),
    }
}

/// What the first `most` members of the next value of a reader give, by name; `None` if it isn't an object.
fn read_object(
    alloc: Global,
    reader: &mut Reader<'_>,
    most: usize,
) -> Result<Option<GivenMembers>, Unread>
    ensures given { IfOk result (λ found. (d : Data)
        × (converted of_json (value MAX_DEPTH reader.old) ≡ Some (d, reader.new))
        × (option_map (least_given most) (as_object d) ≡ option_map (λ m. entries_view m.entries) found)) }
    ensures none { result ≡ Err Unread.Invalid → converted of_json (value MAX_DEPTH reader.old) ≡ None }
{
    let token = reader.next().ok_or(Unread::Invalid)?;
    match token {
        Token::String(_) | Token::Bool(_) | Token::Null => Ok(None),
        Token::Number(text) => match number_given(text) {
            Some(_) => Ok(None),
            None => Err(Unread::Invalid),
        },
        Token::EndObject | Token::EndArray | Token::Key(_) | Token::Bad => Err(Unread::Invalid),
        Token::BeginArray => {
            pass_items(reader, MAX_DEPTH - 1)?;
            Ok(None)
        }
        Token::BeginObject => Ok(Some(read_members(alloc, reader, MAX_DEPTH - 1, most)?)),
    }
}

/// What the first `most` members of an object give, by name: of a repeated name the last.
fn read_members(
    alloc: Global,
    reader: &mut Reader<'_>,
    depth: usize,
    most: usize,
) -> Result<GivenMembers, Unread>
    ensures given { IfOk result (λ m. (ms : Members)
        × (converted (λ js. of_members js no_members) (members (value depth) (length reader.old) reader.old)
        ≡ Some (ms, reader.new)) × (least_given most ms ≡ entries_view m.entries)) }
    ensures none { result ≡ Err Unread.Invalid
        → converted (λ js. of_members js no_members) (members (value depth) (length reader.old) reader.old)
        ≡ None }
{
    let mut found = GivenMembers::new(alloc);
    'members: while let Some(name) = reader.next_key()? {
        let key = String::from_str(alloc, name)?;
        let given = read_given(alloc, reader, depth)?;
        keep(&mut found, most, key, given)?;
    }
    Ok(found)
}

/// Inserts a member, and drops the one with the greatest name if there are more than `most`.
fn keep(
    found: &mut GivenMembers,
    most: usize,
    key: String,
    given: Given,
) -> Result<(), AllocFailed<(String, Given)>>
    requires few { btree_map_len found.old ≤ most }
    ensures kept { OnOk result
        (found.new.entries ≡ take most (insert_entry string_cmp found.old.entries key given)) }
{
    drop(found.insert(key, given)?);
    if found.len() > most {
        drop(found.pop_last());
    }
    Ok(())
}

/// What the next value of a reader gives.
fn read_given(alloc: Global, reader: &mut Reader<'_>, depth: usize) -> Result<Given, Unread>
    ensures given { IfOk result (λ g. (d : Data)
        × (converted of_json (value depth reader.old) ≡ Some (d, reader.new)) × (given_of d ≡ given_view g)) }
    ensures shorter { OnOk result (length reader.new < length reader.old) }
    ensures none { result ≡ Err Unread.Invalid → converted of_json (value depth reader.old) ≡ None }
{
    let token = reader.next().ok_or(Unread::Invalid)?;
    match token {
        Token::String(_) | Token::Bool(_) | Token::Null => Ok(Given::Other),
        Token::Number(text) => match number_given(text) {
            Some(word) => Ok(Given::Number(word)),
            None => Err(Unread::Invalid),
        },
        Token::EndObject | Token::EndArray | Token::Key(_) | Token::Bad => Err(Unread::Invalid),
        Token::BeginArray => {
            if depth == 0 {
                return Err(Unread::Invalid);
            }
            Ok(Given::Items(read_items(alloc, reader, depth - 1)?))
        }
        Token::BeginObject => {
            if depth == 0 {
                return Err(Unread::Invalid);
            }
            pass_members(reader, depth - 1)?;
            Ok(Given::Other)
        }
    }
}

/// The words of a list.
fn read_items(alloc: Global, reader: &mut Reader<'_>, depth: usize) -> Result<Listed, Unread>
    ensures listed { IfOk result (λ l. (js : Items)
        × (converted of_items (items (value depth) (length reader.old) reader.old) ≡ Some (js, reader.new))
        × (words_listed (list_of js) ≡ l.words.items) × (list_all is_word (list_of js) ≡ l.are_words)) }
    ensures shorter { OnOk result (length reader.new < length reader.old) }
    ensures none { result ≡ Err Unread.Invalid
        → converted of_items (items (value depth) (length reader.old) reader.old) ≡ None }
{
    let mut words = Vec::new(alloc);
    let mut are_words = true;
    'items: while !reader.take_end_array() {
        let word = pass_value(reader, depth)?;
        are_words &= word.is_some();
        words.push(word.unwrap_or(0))?;
    }
    Ok(Listed { words, are_words })
}
