ghost use Rattle.command_words.specs.Prelude.{check_asks};
ghost use Rattle.call_laws.specs.Prelude.{check_work};

use call_replies::replies::{Reply, Verdict};
use call_steps::putting::say;
use call_steps::reading::find_accepted;
use call_steps::verbs::{Request, Service};
use clap::ArgMatches;
use command_words::options::value;
use gr_base::Memory;
use gr_outside::{Shelf, Sink};
use std::alloc::Global;

/// The verb `check OBJ`: prints whether the object of a file is accepted.
pub struct Check;

impl<'a> Request<'a> for Check {
    type Words = &'a str;

    ghost asks = { check_asks check_work };

    ghost work = { λ object. check_work object.now };

    ghost Fits = { λ object. Unit {0} };

    fn words(_alloc: Global, matches: &ArgMatches<'a>) -> Result<Option<&'a str>, Memory> {
        Ok(value(matches, "OBJ"))
    }
}

impl<'a> Service<'a> for Check {
    fn serve<F: Shelf, O: Sink>(
        alloc: Global,
        words: &'a str,
        shelf: &mut F,
        out: &mut O,
    ) -> Result<u8, Reply<'a>> {
        find_accepted(alloc, words, shelf)?;
        Ok(say(alloc, &Reply::Comes(Verdict::Accepted), out))
    }
}
