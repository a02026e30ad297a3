ghost use Rattle.std.specs.Prelude.{◌≡◌, ◌≢◌, ◌≤◌, [], ◌∷◌, ◌++◌, All, IfOk, IfErr, OnOk, None, Some, Ok, Err, length, map, replicate, unwrap_or, pos};
ghost use Rattle.std.specs.BTreeMap.{btree_map_len};
ghost use Rattle.std.specs.Option.{option_map_or};
ghost use Rattle.gr_word.specs.Prelude.{AreDistinct, AreVariables, AreWords, FitsWants, IsWord};
ghost use Rattle.run_data.specs.InputsOf.{json_of, inputs_of};
ghost use Rattle.run_data.specs.Given.{given_view, given_values, entries_view, given_value_fault, given_named_fault, first_given_fault, given_words};

use crate::errors::InputError;
use crate::members::{Given, GivenMembers, Unread, read_text};
use crate::texts::Name2;
use gr_word::{Inputs, Memory, Name, Shape, Want};
use std::alloc::Global;

/// The most bytes of an input file.
pub const INPUT_BYTES: usize = 67_108_864;

/// The inputs that a JSON object holds for variables, a list of words for each, in their order; a variable that the
/// object doesn't name starts as zeros. Otherwise the first fault: no JSON, no object, and then by the object's names
/// in byte order, for each the name, the shape, the length, and the words. Of a repeated name the last value counts.
pub fn read_inputs(alloc: Global, wants: &[Want], json: &[u8]) -> Result<Inputs, InputError>
    requires distinct { AreDistinct wants.now }
    requires size { length json.now ≤ INPUT_BYTES }
    ensures read { IfOk result (λ inputs. inputs_of wants.now (json_of json.now) ≡ Ok inputs) }
    // Running out of memory comes at any time and says nothing of the text.
    ensures first { IfErr result (λ e. e ≢ InputError.Memory → inputs_of wants.now (json_of json.now) ≡ Err e) }
    ensures fits { IfOk result (λ inputs. AreVariables wants.now → FitsWants wants.now inputs) }
{
    let found = match read_text(alloc, json, wants.len() + 1) {
        Ok(found) => found,
        Err(Unread::Invalid) => return Err(InputError::BadJson),
        Err(Unread::Memory) => return Err(InputError::Memory),
    };
    let Some(members) = found else {
        return Err(InputError::NotAnObject);
    };
    inputs_from(alloc, wants, &members)
}

/// The inputs that the members give, or their first fault.
fn inputs_from(alloc: Global, wants: &[Want], members: &GivenMembers) -> Result<Inputs, InputError>
    ensures given { IfOk result (λ inputs. (first_given_fault wants.now (entries_view members.now.entries) ≡ None)
        × (inputs ≡ map (given_words (entries_view members.now.entries)) wants.now) × All AreWords inputs
        × (btree_map_len members.now ≤ length wants.now)) }
    ensures first { IfErr result (λ e. e ≢ InputError.Memory
        → first_given_fault wants.now (entries_view members.now.entries) ≡ Some e) }
{
    check_members(alloc, wants, members)?;
    Ok(gather(alloc, wants, members)?)
}

/// Whether all members give words to their variables; otherwise the first fault.
fn check_members(alloc: Global, wants: &[Want], members: &GivenMembers) -> Result<(), InputError>
    ensures none { OnOk result (first_given_fault wants.now (entries_view members.now.entries) ≡ None) }
    ensures few { OnOk result (btree_map_len members.now ≤ length wants.now) }
    ensures first { IfErr result (λ e. e ≢ InputError.Memory
        → first_given_fault wants.now (entries_view members.now.entries) ≡ Some e) }
{
    for (name, given) in members {
        match check_named(alloc, wants, name.as_str(), given) {
            Ok(()) => {}
            Err(error) => return Err(error),
        }
    }
    Ok(())
}

/// Whether a named value gives a variable words.
fn check_named(alloc: Global, wants: &[Want], name: &str, given: &Given) -> Result<(), InputError>
    ensures none { OnOk result (given_named_fault wants.now name.now (given_view given.now) ≡ None) }
    ensures first { IfErr result
        (λ e. e ≢ InputError.Memory → given_named_fault wants.now name.now (given_view given.now) ≡ Some e) }
{
    for want in wants {
        if want.name.bytes() == name.as_bytes() {
            return check_value(alloc, want, name, given);
        }
    }
    Err(InputError::UnknownName(Name2::new(alloc, name)?))
}

/// Whether a value gives a variable words. The name is the variable's, as a text.
fn check_value(alloc: Global, want: &Want, name: &str, given: &Given) -> Result<(), InputError>
    requires { want.now.name ≡ name.now }
    ensures none { OnOk result (given_value_fault want.now (given_view given.now) ≡ None) }
    ensures first { IfErr result
        (λ e. e ≢ InputError.Memory → given_value_fault want.now (given_view given.now) ≡ Some e) }
{
    match want.shape {
        Shape::Scalar => check_scalar(alloc, want, name, given),
        Shape::Array => check_array(alloc, want, name, given),
    }
}

/// Whether a value gives a scalar its word.
fn check_scalar(alloc: Global, want: &Want, name: &str, given: &Given) -> Result<(), InputError>
    requires named { want.now.name ≡ name.now }
    requires scalar { want.now.shape ≡ Shape.Scalar }
    ensures none { OnOk result (given_value_fault want.now (given_view given.now) ≡ None) }
    ensures first { IfErr result
        (λ e. e ≢ InputError.Memory → given_value_fault want.now (given_view given.now) ≡ Some e) }
{
    let Given::Number(word) = given else {
        return Err(InputError::WrongShape(Name2::new(alloc, name)?));
    };
    if word.is_none() {
        return Err(InputError::NotAWord(Name2::new(alloc, name)?));
    }
    Ok(())
}

/// Whether a value gives an array its words.
fn check_array(alloc: Global, want: &Want, name: &str, given: &Given) -> Result<(), InputError>
    requires named { want.now.name ≡ name.now }
    requires array { want.now.shape ≡ Shape.Array }
    ensures none { OnOk result (given_value_fault want.now (given_view given.now) ≡ None) }
    ensures first { IfErr result
        (λ e. e ≢ InputError.Memory → given_value_fault want.now (given_view given.now) ≡ Some e) }
{
    let Given::Items(list) = given else {
        return Err(InputError::WrongShape(Name2::new(alloc, name)?));
    };
    if list.words.len() != want.length as usize {
        return Err(InputError::WrongLength(Name2::new(alloc, name)?));
    }
    if !list.are_words {
        return Err(InputError::NotAWord(Name2::new(alloc, name)?));
    }
    Ok(())
}

/// The words that the members give the variables.
fn gather(alloc: Global, wants: &[Want], members: &GivenMembers) -> Result<Inputs, Memory>
    ensures given { IfOk result (λ inputs. inputs ≡ map (given_words (entries_view members.now.entries)) wants.now) }
    ensures words { IfOk result (λ inputs. All AreWords inputs) }
{
    let mut inputs = Inputs::new(alloc);
    for want in wants {
        inputs.push(words_given(alloc, want, members)?)?;
    }
    Ok(inputs)
}

/// The words that the members give a variable.
fn words_given(alloc: Global, want: &Want, members: &GivenMembers) -> Result<Vec<i64>, Memory>
    ensures given { IfOk result (λ words. words.items ≡ given_words (entries_view members.now.entries) want.now) }
    ensures words { IfOk result (λ words. AreWords words.items) }
{
    let Some(given) = members.get(name_text(&want.name)) else {
        return zeros(alloc, want.length);
    };
    words_of(alloc, want, given)
}

/// The words that a value gives a variable, and zeros if it doesn't fit.
fn words_of(alloc: Global, want: &Want, given: &Given) -> Result<Vec<i64>, Memory>
    ensures given { IfOk result (λ words. words.items ≡ option_map_or (λ listed. listed.0)
        (given_values want.now.shape (given_view given.now)) (replicate want.now.length (pos 0))) }
    ensures words { IfOk result (λ words. AreWords words.items) }
{
    match want.shape {
        Shape::Scalar => match given {
            Given::Number(word) => one_word(alloc, *word),
            _ => zeros(alloc, want.length),
        },
        Shape::Array => match given {
            Given::Items(list) => copied(alloc, &list.words),
            _ => zeros(alloc, want.length),
        },
    }
}

fn zeros(alloc: Global, count: u32) -> Result<Vec<i64>, Memory>
    ensures zeros { IfOk result (λ words. words.items ≡ replicate count (pos 0)) }
    ensures words { IfOk result (λ words. AreWords words.items) }
{
    Ok(vec![in alloc; 0; count as usize]?)
}

/// A word, 0 if there is none.
fn one_word(alloc: Global, word: Option<i64>) -> Result<Vec<i64>, Memory>
    ensures word { IfOk result (λ words. words.items ≡ unwrap_or word (pos 0) ∷ []) }
    ensures words { IfOk result (λ words. AreWords words.items) }
{
    let mut words = Vec::new(alloc);
    words.push(word.unwrap_or(0))?;
    Ok(words)
}

fn push_word(words: &mut Vec<i64>, word: i64) -> Result<(), Memory>
    requires { AreWords words.old.items }
    ensures pushed { OnOk result (words.new.items ≡ words.old.items ++ word ∷ []) }
    ensures words { OnOk result (AreWords words.new.items) }
{
    words.push(word)?;
    Ok(())
}

fn copied(alloc: Global, words: &[i64]) -> Result<Vec<i64>, Memory>
    ensures copied { IfOk result (λ copy. copy.items ≡ words.now) }
    ensures words { IfOk result (λ copy. AreWords copy.items) }
{
    let mut copy = Vec::with_capacity(alloc, words.len())?;
    for word in words {
        push_word(&mut copy, *word)?;
    }
    Ok(copy)
}

/// The text of a name, which is ASCII.
fn name_text(name: &Name) -> &str
    ensures { result.now ≡ name.now }
{
    match str::from_utf8(name.bytes()) {
        Ok(text) => text,
        Err(_) => unreachable!(),
    }
}
