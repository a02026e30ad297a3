//! Cases in JSON: what a program is given, and what it is to leave.

ghost use Rattle.std.specs.Prelude.{IfOk};
ghost use Rattle.gr_word.specs.Prelude.{AreVariables, FitsWants};

use crate::case_problems::{Problem, saying, saying_of, stating};
use crate::misfits::{misfit, unknown_name};
use gr_base::Memory;
use gr_word::{Inputs, Want};
use run_data::{INPUT_BYTES, InputError, Name2, read_inputs};
use serde_json::{Map, Value};
use std::alloc::Global;

/// The member of a case with the inputs.
pub(crate) const GIVEN: &str = "in";

/// The member of a case with the outputs that are expected.
pub(crate) const EXPECTED: &str = "out";

/// The form of a case.
const FORM: &str = "{\"in\": {..}, \"out\": {..}}";

/// A case, as the members of its two objects.
#[derive(Drop)]
pub(crate) struct Case {
    // the inputs as JSON
    given: String,
    value: Value,
}

impl Case {
    /// The case of a line of text.
    pub(crate) fn of(alloc: Global, line: &str) -> Result<Case, Problem> {
        let value = value_of(alloc, line)?;
        let given = given_in(alloc, &value)?;
        Ok(Case { given, value })
    }

    /// The inputs for variables.
    pub(crate) fn inputs(&self, alloc: Global, wants: &[Want]) -> Result<Inputs, Problem>
        requires { AreVariables wants.now }
        ensures { IfOk result (λ inputs. FitsWants wants.now inputs) }
    {
        let text = self.given.as_bytes();
        if text.len() > INPUT_BYTES {
            return Err(saying(alloc, "the inputs are too long"));
        }
        match read_inputs(alloc, wants, text) {
            Ok(inputs) => Ok(inputs),
            Err(fault) => Err(self.not_given(alloc, wants, fault)),
        }
    }

    fn not_given(&self, alloc: Global, wants: &[Want], fault: InputError) -> Problem {
        match fault {
            InputError::BadJson => saying(alloc, "not JSON"),
            InputError::NotAnObject => saying(alloc, "\"in\" is not an object"),
            InputError::UnknownName(name) => unknown_name(alloc, GIVEN, name.text(), wants),
            InputError::WrongShape(name) => self.unfit(alloc, wants, &name),
            InputError::WrongLength(name) => self.unfit(alloc, wants, &name),
            InputError::NotAWord(name) => self.unfit(alloc, wants, &name),
            InputError::Memory => Problem::NoMemory,
        }
    }

    // That the input of a name isn't what its variable needs.
    fn unfit(&self, alloc: Global, wants: &[Want], name: &Name2) -> Problem {
        let name = name.text();
        if let (Some(want), Some(value)) = (want_named(wants, name), self.input(name)) {
            return misfit(alloc, GIVEN, want, value);
        }
        saying_of(alloc, "in: ", name, " doesn't fit its variable")
    }

    fn input(&self, name: &str) -> Option<&Value> {
        self.value.get(GIVEN)?.get(name)
    }

    /// The outputs that are expected, by the names of variables.
    pub(crate) fn expected(&self) -> Option<&Map<String, Value>> {
        self.value.get(EXPECTED)?.as_object()
    }
}

/// The variable of a name.
pub(crate) fn want_named<'a>(wants: &'a [Want], name: &str) -> Option<&'a Want> {
    wants
        .iter()
        .find(|want| want.name.bytes() == name.as_bytes())
}

fn value_of(alloc: Global, line: &str) -> Result<Value, Problem> {
    match Value::from_slice(alloc, line.as_bytes()) {
        Ok(value) => Ok(value),
        Err(error) => Err(if error.is_memory() {
            Problem::NoMemory
        } else {
            stating(not_json(alloc, error.column()))
        }),
    }
}

// That a line isn't JSON from this column on, as a line of a case that was broken into several.
fn not_json(alloc: Global, column: usize) -> Result<String, Memory> {
    Ok(format!(in alloc; "not JSON at column {column}; each line is one case: {FORM}")?)
}

// The text of the inputs of a case that has no other members than its two objects.
fn given_in(alloc: Global, value: &Value) -> Result<String, Problem> {
    let Some(members) = value.as_object() else {
        return Err(stating(no_case(alloc)));
    };
    for (name, member) in members {
        check_member(alloc, name.as_str(), member)?;
    }
    match members.get(GIVEN) {
        Some(given) => Ok(given.to_string(alloc)?),
        None => Err(saying(alloc, "there is no \"in\"")),
    }
}

fn no_case(alloc: Global) -> Result<String, Memory> {
    Ok(format!(in alloc; "a case is {FORM}")?)
}

fn check_member(alloc: Global, name: &str, member: &Value) -> Result<(), Problem> {
    if name != GIVEN && name != EXPECTED {
        return Err(saying_of(
            alloc,
            "unexpected ",
            name,
            "; a case has \"in\" and \"out\"",
        ));
    }
    match member.as_object() {
        Some(_) => Ok(()),
        None => Err(saying_of(alloc, "", name, " is not an object")),
    }
}
