ghost use Rattle.std.specs.Prelude.{◌≡◌, List, ℕ, codes};
ghost use Rattle.std.specs.Option.{option_map};
ghost use Rattle.command_words.specs.Prelude.{two_asks, two_named};
ghost use Rattle.call_steps.specs.Work.{Work};

use crate::verbs::Request;
use clap::ArgMatches;
use command_words::options::value;
use gr_base::Memory;
use std::alloc::Global;

/// A verb that takes two names, of the file that it reads and of the one that it writes, and has no options.
pub trait Conversion {
    /// The work on the files of these names.
    ghost converts: { List ℕ → List ℕ → Work };

    /// What the command line calls the file that is read.
    ghost source: { List ℕ };

    /// What the command line calls the file that is read.
    fn source_name() -> &'static str
        ensures { result.now ≡ source };
}

/// The name of the file that is read, and of the one that is written.
#[derive(Clone, Copy)]
pub struct TwoNames<'a> {
    pub read: &'a str,
    pub written: &'a str,
}

impl<'a, C: Conversion> Request<'a> for C {
    type Words = TwoNames<'a>;

    ghost work = { λ words. C.converts words.read.now words.written.now };

    ghost asks = { two_asks C.source (codes "OUT") C.converts };

    ghost Fits = { λ words. Unit {0} };

    fn words(_alloc: Global, matches: &ArgMatches<'a>) -> Result<Option<TwoNames<'a>>, Memory> {
        Ok(two_names(value(matches, C::source_name()), value(matches, "OUT")))
    }
}

/// Two names, where both are there.
fn two_names<'a>(read: Option<&'a str>, written: Option<&'a str>) -> Option<TwoNames<'a>>
    ensures { (work_on : List ℕ → List ℕ → Work) → option_map (λ a. work_on a.read.now a.written.now) result
        ≡ two_named work_on (option_map (λ t. t.now) read.entry) (option_map (λ t. t.now) written.entry) }
{
    Some(TwoNames {
        read: read?,
        written: written?,
    })
}
