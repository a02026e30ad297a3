//! The verbs of the program as traits: what a verb finds in the words of a command line, and how it does the work that
//! they ask for. The functions here do for every verb what doesn't depend on it.
ghost use Rattle.std.specs.Prelude.{◌≡◌, IfErr, IfOk, IfSome, List, OnErr, Option, Some};
ghost use Rattle.std.specs.Option.{option_map};
ghost use Rattle.clap.specs.Words.{Row, found_of, rows_of};
ghost use Rattle.call_replies.specs.Prelude.{said};
ghost use Rattle.call_steps.specs.CallsFollow.{HasCalls, Makes};
ghost use Rattle.call_steps.specs.Outside.{Explains, outside_at, stage};
ghost use Rattle.call_steps.specs.Progress.{LeavesToSay};
ghost use Rattle.call_steps.specs.Reached.{HasReached, HasStopped};
ghost use Rattle.call_steps.specs.Work.{Work, Writes};

use crate::writing::write_and_say;
use call_replies::replies::{Done, Reply};
use clap::ArgMatches;
use gr_base::Memory;
use gr_outside::{Shelf, Sink};
use std::alloc::Global;

/// What a verb finds in the words of a command line.
pub trait Request<'a> {
    /// What is found.
    type Words: Drop;

    /// The work on what is found.
    ghost work: { Self.Words → Work };

    /// The work that the words ask for, if they ask for any.
    ghost asks: { List Row → Option Work };

    /// What is known of the numbers among it.
    ghost Fits: { Self.Words → Type 0 };

    /// Finds the words, or returns `None` if they ask for no work.
    fn words(alloc: Global, matches: &ArgMatches<'a>) -> Result<Option<Self::Words>, Memory>
        ensures asked { IfOk result (λ words. option_map work words ≡ asks (rows_of (found_of matches.now))) }
        ensures within { IfOk result (λ words. IfSome words Fits) };
}

/// A verb that prints its own text.
pub trait Service<'a>: Request<'a> {
    /// Does the work, and returns the exit status. `Err` if nothing was printed yet: the reply to print.
    fn serve<F: Shelf, O: Sink>(
        alloc: Global,
        words: Self::Words,
        shelf: &mut F,
        out: &mut O,
    ) -> Result<u8, Reply<'a>>
        requires { Self.Fits words }
        ensures done { IfOk result (λ status. Explains
            (outside_at (stage (F.seen shelf.old) (F.log shelf.old)) (O.seen out.old))
            (outside_at (stage (F.seen shelf.new) (F.log shelf.new)) (O.seen out.new))
            status (Some (Self.work words))) }
        ensures stopped { IfErr result (λ reply. LeavesToSay (stage (F.seen shelf.old) (F.log shelf.old))
            (stage (F.seen shelf.new) (F.log shelf.new)) (Some (Self.work words)) (said reply)) }
        ensures unput { OnErr result (O.seen out.new ≡ O.seen out.old) }
        ensures calls { HasCalls (Self.work words) (F.log shelf.old) (F.log shelf.new) };
}

/// A file that a verb writes, and what is printed once it is written.
#[derive(Drop)]
pub struct NewFile<'a> {
    pub name: &'a str,
    pub bytes: Vec<u8>,
    pub done: Done,
}

/// The file that a verb makes, or the reply to print instead.
pub type Made<'a> = Result<NewFile<'a>, Reply<'a>>;

/// A verb that writes one file, as its last step.
pub trait Maker<'a>: Request<'a> {
    /// Makes the file.
    fn make<F: Shelf>(alloc: Global, words: Self::Words, shelf: &mut F) -> Made<'a>
        requires { Self.Fits words }
        ensures made { IfOk result (λ file. HasReached
            (stage (F.seen shelf.old) (F.log shelf.old)) (stage (F.seen shelf.new) (F.log shelf.new))
            (Self.work words) (Writes file.name.now file.bytes.items file.done)) }
        ensures stopped { IfErr result (λ reply. HasStopped
            (stage (F.seen shelf.old) (F.log shelf.old)) (stage (F.seen shelf.new) (F.log shelf.new))
            (Self.work words) (said reply)) };
}

impl<'a, M: Maker<'a>> Service<'a> for M {
    fn serve<F: Shelf, O: Sink>(
        alloc: Global,
        words: M::Words,
        shelf: &mut F,
        out: &mut O,
    ) -> Result<u8, Reply<'a>> {
        let file = M::make(alloc, words, shelf)?;
        write_and_say(alloc, file.name, &file.bytes, file.done, shelf, out)
    }
}

/// Does the work that the words of a verb ask for, and returns the exit status. `Err` if nothing was printed yet: the
/// reply to print.
pub fn answer<'a, S: Service<'a>, F: Shelf, O: Sink>(
    alloc: Global,
    matches: &ArgMatches<'a>,
    shelf: &mut F,
    out: &mut O,
) -> Result<u8, Reply<'a>>
    ensures done { IfOk result (λ status. Explains
        (outside_at (stage (F.seen shelf.old) (F.log shelf.old)) (O.seen out.old))
        (outside_at (stage (F.seen shelf.new) (F.log shelf.new)) (O.seen out.new))
        status (S.asks (rows_of (found_of matches.now)))) }
    ensures stopped { IfErr result (λ reply. LeavesToSay (stage (F.seen shelf.old) (F.log shelf.old))
        (stage (F.seen shelf.new) (F.log shelf.new)) (S.asks (rows_of (found_of matches.now))) (said reply)) }
    ensures unput { OnErr result (O.seen out.new ≡ O.seen out.old) }
    ensures calls { Makes (S.asks (rows_of (found_of matches.now))) (F.log shelf.old) (F.log shelf.new) }
{
    let Some(words) = S::words(alloc, matches)? else {
        return Err(Reply::Usage);
    };
    S::serve(alloc, words, shelf, out)
}
