//! Why a member of a case gives or expects no words of a variable.

use crate::case_problems::{Problem, quoted, stating};
use crate::variables::push_name;
use gr_base::Memory;
use gr_word::{Shape, Want};
use procs_tree::is_hidden;
use serde_json::Value;
use std::alloc::Global;

/// The most variables that a line names.
const MOST_NAMED: u32 = 20;

/// The problem that no variable has a name of a part of a case, which is `in` or `out`.
pub(crate) fn unknown_name(alloc: Global, part: &str, name: &str, wants: &[Want]) -> Problem {
    stating(unknown_text(alloc, part, name, wants))
}

fn unknown_text(alloc: Global, part: &str, name: &str, wants: &[Want]) -> Result<String, Memory> {
    let name = quoted(alloc, name)?;
    let mut text = format!(in alloc; "{part}: no variable {name}; ")?;
    push_variables(&mut text, wants)?;
    Ok(text)
}

// Adds the names of the first variables, without those that calls add.
fn push_variables(text: &mut String, wants: &[Want]) -> Result<(), Memory> {
    let mut named: u32 = 0;
    for want in wants {
        if !is_hidden(want.name.bytes()) {
            if named == MOST_NAMED {
                text.push_str(", ..")?;
                return Ok(());
            }
            text.push_str(if named == 0 {
                "the variables are "
            } else {
                ", "
            })?;
            push_name(text, &want.name)?;
            named = named.saturating_add(1);
        }
    }
    if named == 0 {
        text.push_str("the program has no variables")?;
    }
    Ok(())
}

/// The problem that a value of a part of a case isn't what a variable needs.
pub(crate) fn misfit(alloc: Global, part: &str, want: &Want, value: &Value) -> Problem {
    stating(misfit_text(alloc, part, want, value))
}

fn misfit_text(alloc: Global, part: &str, want: &Want, value: &Value) -> Result<String, Memory> {
    let mut text = format!(in alloc; "{part}: ")?;
    push_name(&mut text, &want.name)?;
    match want.shape {
        Shape::Scalar => push_scalar(&mut text, value)?,
        Shape::Array => push_array(alloc, &mut text, want.length, value)?,
    }
    Ok(text)
}

// Adds why a value isn't an integer.
fn push_scalar(text: &mut String, value: &Value) -> Result<(), Memory> {
    if let Value::Number(_) = value {
        text.push_str(" must be a signed 64-bit integer")?;
        return Ok(());
    }
    text.push_str(" needs an integer, but this is ")?;
    text.push_str(kind_of(value))?;
    Ok(())
}

// Adds why a value isn't a list of this many integers.
fn push_array(alloc: Global, text: &mut String, length: u32, value: &Value) -> Result<(), Memory> {
    let Value::Array(values) = value else {
        let kind = kind_of(value);
        let needed = format!(in alloc; " needs a list of {length} integers, but this is {kind}")?;
        text.push_str(needed.as_str())?;
        return Ok(());
    };
    let given = values.len();
    if given != length as usize {
        let needed = format!(in alloc; " needs {length} integers, but the list has {given}")?;
        text.push_str(needed.as_str())?;
        return Ok(());
    }
    push_item(alloc, text, values)
}

// Adds which item of a list isn't an integer.
fn push_item(alloc: Global, text: &mut String, values: &[Value]) -> Result<(), Memory> {
    if let Some(index) = values.iter().position(|item| item.as_i64().is_none()) {
        text.push_str(format!(in alloc; "[{index}]")?.as_str())?;
    }
    text.push_str(" must be a signed 64-bit integer")?;
    Ok(())
}

fn kind_of(value: &Value) -> &'static str {
    match value {
        Value::Null => "null",
        Value::Bool(_) => "true or false",
        Value::Number(_) => "a number",
        Value::String(_) => "a string",
        Value::Array(_) => "a list",
        Value::Object(_) => "an object",
    }
}
