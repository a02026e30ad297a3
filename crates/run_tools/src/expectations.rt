//! Whether a run left what a case expects.

use crate::case_problems::Problem;
use crate::cases::EXPECTED;
use crate::misfits::{misfit, unknown_name};
use crate::variables::words_of;
use gr_word::{Inputs, Shape, Want};
use serde_json::{Map, Value};
use std::alloc::Global;

/// A variable, and the words that a run left in it.
#[derive(Clone, Copy)]
struct Left<'a> {
    want: &'a Want,
    words: &'a [i64],
}

/// Checks that the variables that a case names have the words that it expects. Other variables may have any.
pub(crate) fn check_expected(
    alloc: Global,
    wants: &[Want],
    left: &Inputs,
    expected: &Map<String, Value>,
) -> Result<(), Problem> {
    for (name, value) in expected {
        let name = name.as_str();
        let Some(variable) = variable_named(wants, left, name) else {
            return Err(unknown_name(alloc, EXPECTED, name, wants));
        };
        check_variable(alloc, variable, name, value)?;
    }
    Ok(())
}

fn variable_named<'a>(wants: &'a [Want], left: &'a Inputs, name: &str) -> Option<Left<'a>> {
    for (number, want) in wants.iter().enumerate() {
        if want.name.bytes() == name.as_bytes() {
            return Some(Left {
                want,
                words: words_of(left, number),
            });
        }
    }
    None
}

fn check_variable(
    alloc: Global,
    variable: Left<'_>,
    name: &str,
    value: &Value,
) -> Result<(), Problem> {
    match variable.want.shape {
        Shape::Scalar => check_scalar(alloc, variable, name, value),
        Shape::Array => check_array(alloc, variable, name, value),
    }
}

fn check_scalar(
    alloc: Global,
    variable: Left<'_>,
    name: &str,
    value: &Value,
) -> Result<(), Problem> {
    let (Some(word), Some(expected)) = (variable.words.first(), value.as_i64()) else {
        return Err(misfit(alloc, EXPECTED, variable.want, value));
    };
    if *word == expected {
        return Ok(());
    }
    Err(missed(alloc, name, "", *word, expected))
}

fn check_array(
    alloc: Global,
    variable: Left<'_>,
    name: &str,
    value: &Value,
) -> Result<(), Problem> {
    let Left { want, words } = variable;
    let Some(values) = value.as_array() else {
        return Err(misfit(alloc, EXPECTED, want, value));
    };
    if values.len() != words.len() {
        return Err(misfit(alloc, EXPECTED, want, value));
    }
    for (index, (word, item)) in words.iter().zip(values.as_slice()).enumerate() {
        let Some(expected) = item.as_i64() else {
            return Err(misfit(alloc, EXPECTED, want, value));
        };
        if *word != expected {
            return Err(missed_at(alloc, name, index, *word, expected));
        }
    }
    Ok(())
}

// That an element of an array isn't what is expected.
fn missed_at(alloc: Global, name: &str, index: usize, word: i64, expected: i64) -> Problem {
    match format!(in alloc; "[{index}]") {
        Ok(at) => missed(alloc, name, at.as_str(), word, expected),
        Err(_) => Problem::NoMemory,
    }
}

// That a word isn't what is expected. The name is a variable's, so it is short and plain.
fn missed(alloc: Global, name: &str, at: &str, word: i64, expected: i64) -> Problem {
    match format!(in alloc; "{name}{at} is {word}, expected {expected}") {
        Ok(text) => Problem::Says(text),
        Err(_) => Problem::NoMemory,
    }
}
