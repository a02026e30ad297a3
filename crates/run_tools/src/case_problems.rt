ghost use Rattle.std.specs.Prelude.{◌≡◌};
ghost use Rattle.run_tools.specs.declared.case_problems.Problem.TheVariants.{NoMemory};

use call_replies::replies::JsonText;
use gr_base::Memory;
use std::alloc::Global;

/// Why a case doesn't pass.
#[derive(Drop)]
pub(crate) enum Problem {
    /// What is wrong, as the end of a sentence that begins with the line of the case.
    Says(String),
    /// Memory ran out, which says nothing about the case.
    NoMemory,
}

impl<E: Into<Memory> + Drop> From<E> for Problem {
    ghost from_gives = { λ _ e. e ≡ NoMemory };

    fn from(_error: E) -> Problem {
        Problem::NoMemory
    }
}

/// The problem of a text that was made, or that there was no memory for it.
pub(crate) fn stating(text: Result<String, Memory>) -> Problem {
    match text {
        Ok(text) => Problem::Says(text),
        Err(_) => Problem::NoMemory,
    }
}

/// The problem of this text.
pub(crate) fn saying(alloc: Global, text: &str) -> Problem {
    match String::from_str(alloc, text) {
        Ok(text) => Problem::Says(text),
        Err(_) => Problem::NoMemory,
    }
}

/// The most bytes of a name that a line quotes.
const MOST_QUOTED: usize = 64;

/// A name in quotation marks, as JSON has it. A long name isn't quoted.
pub(crate) fn quoted(alloc: Global, name: &str) -> Result<JsonText, Memory> {
    let shown = if name.len() <= MOST_QUOTED {
        name
    } else {
        "..."
    };
    Ok(JsonText::new(alloc, shown)?)
}

/// The problem of a text, a name in quotation marks, and another text.
pub(crate) fn saying_of(alloc: Global, before: &str, name: &str, after: &str) -> Problem {
    stating(quoted_between(alloc, before, name, after))
}

fn quoted_between(alloc: Global, before: &str, name: &str, after: &str) -> Result<String, Memory> {
    let name = quoted(alloc, name)?;
    Ok(format!(in alloc; "{before}{name}{after}")?)
}
