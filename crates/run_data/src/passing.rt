ghost use Rattle.std.specs.Prelude.{◌≡◌, ◌<◌, length, Some, None, IfOk, OnOk, OnErr};
ghost use Rattle.json.specs.Json.{value, items, members};
ghost use Rattle.serde_json.specs.Data.{Data, Items, Members, no_members};
ghost use Rattle.serde_json.specs.Read.{of_json, of_items, of_members, converted};
ghost use Rattle.run_data.specs.InputsOf.{word_of};

use crate::json_numbers::number_given;
use json::{Invalid, Reader, Token};

/// Checks the next value of a reader, in which lists and objects nest `depth` deep at most, and gives the word that it
/// is, if it is one.
#[cycle(pass)]
pub(crate) fn pass_value(reader: &mut Reader<'_>, depth: usize) -> Result<Option<i64>, Invalid>
    ensures passed { IfOk result (λ word. (d : Data)
        × (converted of_json (value depth reader.old) ≡ Some (d, reader.new)) × (word ≡ word_of d)) }
    ensures shorter { OnOk result (length reader.new < length reader.old) }
    ensures invalid { OnErr result (converted of_json (value depth reader.old) ≡ None) }
{
    let token = reader.next().ok_or(Invalid)?;
    match token {
        Token::String(_) | Token::Bool(_) | Token::Null => Ok(None),
        Token::Number(text) => match number_given(text) {
            Some(word) => Ok(word),
            None => Err(Invalid),
        },
        Token::EndObject | Token::EndArray | Token::Key(_) | Token::Bad => Err(Invalid),
        Token::BeginArray => {
            if depth == 0 {
                return Err(Invalid);
            }
            pass_items(reader, depth - 1)?;
            Ok(None)
        }
        Token::BeginObject => {
            if depth == 0 {
                return Err(Invalid);
            }
            pass_members(reader, depth - 1)?;
            Ok(None)
        }
    }
}

/// Checks the items of a list, and its end.
#[cycle(pass)]
pub(crate) fn pass_items(reader: &mut Reader<'_>, depth: usize) -> Result<(), Invalid>
    ensures passed { OnOk result ((js : Items)
        × (converted of_items (items (value depth) (length reader.old) reader.old) ≡ Some (js, reader.new))) }
    ensures shorter { OnOk result (length reader.new < length reader.old) }
    ensures invalid { OnErr result
        (converted of_items (items (value depth) (length reader.old) reader.old) ≡ None) }
{
    'items: while !reader.take_end_array() {
        pass_value(reader, depth)?;
    }
    Ok(())
}

/// Checks the members of an object, and its end.
#[cycle(pass)]
pub(crate) fn pass_members(reader: &mut Reader<'_>, depth: usize) -> Result<(), Invalid>
    ensures passed { OnOk result ((ms : Members)
        × (converted (λ js. of_members js no_members) (members (value depth) (length reader.old) reader.old)
        ≡ Some (ms, reader.new))) }
    ensures shorter { OnOk result (length reader.new < length reader.old) }
    ensures invalid { OnErr result
        (converted (λ js. of_members js no_members) (members (value depth) (length reader.old) reader.old) ≡ None) }
{
    'members: while let Some(_) = reader.next_key()? {
        pass_value(reader, depth)?;
    }
    Ok(())
}
