ghost use Rattle.std.specs.Prelude.{◌≡◌, [], ◌∷◌, ◌++◌, IsTrue, IfOk, OnOk};
ghost use Rattle.json.specs.Print.{quoted};
ghost use Rattle.serde_json.specs.Data.{array, no_members, object};
ghost use Rattle.serde_json.specs.Written.{compact_text};
ghost use Rattle.gr_word.specs.Prelude.{FitsWants, is_name};
ghost use Rattle.run_data.specs.OutputText.{word_value, word_items, shown, members_with, output_of};
ghost use Rattle.run_data.specs.OutputMembers.{members_seen, HaveNames};

use gr_word::{Inputs, Memory, Shape, Want};
use itoa::Buffer;
use std::alloc::Global;
use std::collections::BTreeMap;

/// Variables in byte order of their names, each with its shape and its words.
type Members<'a> = BTreeMap<&'a [u8], (Shape, &'a [i64])>;

/// The JSON of variables' words: an object without white space, its names in byte order, a number for a scalar and a
/// list of numbers for an array. Beside the text, it allocates memory only for the variables and not for their words.
pub fn output_text(alloc: Global, wants: &[Want], values: &Inputs) -> Result<Vec<u8>, Memory>
    requires { FitsWants wants.now values.now }
    ensures { IfOk result (λ text. text.items ≡ output_of wants.now values.now) }
{
    let members = ordered_members(alloc, wants, values)?;
    let mut text = Vec::new(alloc);
    add_object(&mut text, &members)?;
    Ok(text)
}

fn ordered_members<'a>(
    alloc: Global,
    wants: &'a [Want],
    values: &'a Inputs,
) -> Result<Members<'a>, Memory>
    requires { FitsWants wants.now values.now }
    ensures seen { IfOk result (λ m. members_seen m.entries ≡ members_with no_members wants.now values.now) }
    ensures names { IfOk result (λ m. HaveNames m.entries) }
{
    let mut members = BTreeMap::new(alloc);
    for (i, want) in wants.iter().enumerate() {
        match members.insert(want.name.bytes(), (want.shape, values.words(i))) {
            Ok(_) => {}
            Err(_) => return Err(Memory),
        }
    }
    Ok(members)
}

fn add_object(text: &mut Vec<u8>, members: &Members<'_>) -> Result<(), Memory>
    requires { HaveNames members.now.entries }
    ensures { OnOk result
        (text.new.items ≡ text.old.items ++ compact_text (object (members_seen members.now.entries))) }
{
    let mut is_first = true;
    text.push(b'{')?;
    for (name, (shape, words)) in members {
        if !is_first {
            text.push(b',')?;
        }
        is_first = false;
        add_name(text, name)?;
        add_value(text, *shape, words)?;
    }
    text.push(b'}')?;
    Ok(())
}

/// Adds a name in quotes and a colon. A name has no byte that JSON escapes.
fn add_name(text: &mut Vec<u8>, name: &[u8]) -> Result<(), Memory>
    requires { IsTrue (is_name name.now) }
    ensures { OnOk result (text.new.items ≡ text.old.items ++ (quoted name.now ++ 58 ∷ [])) }
{
    text.push(b'"')?;
    text.extend_from_slice(name)?;
    text.extend_from_slice(b"\":")?;
    Ok(())
}

fn add_value(text: &mut Vec<u8>, shape: Shape, words: &[i64]) -> Result<(), Memory>
    ensures { OnOk result (text.new.items ≡ text.old.items ++ compact_text (shown shape words.now)) }
{
    match shape {
        Shape::Scalar => add_word(text, words.first().copied().unwrap_or(0)),
        Shape::Array => add_list(text, words),
    }
}

fn add_word(text: &mut Vec<u8>, word: i64) -> Result<(), Memory>
    ensures { OnOk result (text.new.items ≡ text.old.items ++ compact_text (word_value word)) }
{
    let mut buffer = Buffer::new();
    text.extend_from_slice(buffer.format(word).as_bytes())?;
    Ok(())
}

fn add_list(text: &mut Vec<u8>, words: &[i64]) -> Result<(), Memory>
    ensures { OnOk result (text.new.items ≡ text.old.items ++ compact_text (array (word_items words.now))) }
{
    text.push(b'[')?;
    for (i, word) in words.iter().enumerate() {
        if i > 0 {
            text.push(b',')?;
        }
        add_word(text, *word)?;
    }
    text.push(b']')?;
    Ok(())
}
