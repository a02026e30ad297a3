ghost use Rattle.std.specs.Prelude.{◌≡◌, IfSome, string_bytes};

use arrayvec::ArrayString;
use std::alloc::Global;
use std::fmt;
use std::fmt::{Display, Formatter, Write};
use std::io::Error;

/// The most bytes of a cause as the standard library prints it.
const MOST_WORDS: usize = 320;

/// What the standard library prints after the system's words: the number of the error.
const NUMBER: &str = " (os error ";

/// Why the system failed a call. `Display` prints the system's own words, such as `No space left on device`.
#[derive(Clone, Copy, Debug, Drop)]
pub struct Cause(pub Error);

impl Display for Cause {
    fn fmt<W: fmt::Write>(&self, f: &mut Formatter<W>) -> fmt::Result {
        let mut words = ArrayString::<MOST_WORDS>::new();
        write!(words, "{}", self.0)?;
        f.write_str(without_number(words.as_str()))
    }
}

fn without_number(words: &str) -> &str {
    match words.rfind(NUMBER) {
        Some(end) => &words[..end],
        None => words,
    }
}

/// A read or a write of a file that failed: the file's name, as the caller wrote it, and the cause. `Display` prints
/// both, in the form `out.obj: No space left on device`. The name is printed as it is, so escape it before you print it
/// to a terminal.
#[derive(Debug, Drop)]
pub struct Failure {
    /// The file's name. `None` if memory ran out when it was to be kept.
    pub name: Option<String>,
    /// Why the read or the write failed.
    pub cause: Cause,
}

impl Failure {
    pub(crate) fn new(alloc: Global, name: &str, error: Error) -> Failure
        ensures named { IfSome result.name (λ it. string_bytes it ≡ name.now) }
        ensures caused { result.cause.0 ≡ error }
    {
        Failure {
            name: String::from_str(alloc, name).ok(),
            cause: Cause(error),
        }
    }
}

impl Display for Failure {
    fn fmt<W: fmt::Write>(&self, f: &mut Formatter<W>) -> fmt::Result {
        match &self.name {
            Some(name) => write!(f, "{}: {}", name.as_str(), self.cause),
            None => write!(f, "{}", self.cause),
        }
    }
}
