ghost use Rattle.std.specs.Prelude.{◌≡◌, IfSome};
ghost use Rattle.lt_isa.specs.Prelude.{ProfileFits};

use clap::ArgMatches;
use command_words::verbs::VerbWords;
use gr_outside::Shelf;
use run_tools::reports::{Outcome, Report, Tool};
use run_tools::sources::{SourceWords, read_source, source_in_words};
use run_tools::words::OF_SOURCE;
use shown_programs::without_calls;
use std::alloc::Global;

/// The tool `expand SRC`: prints a program with procedures as a program without calls. Each variable that a call adds is
/// named after its procedure and its parameter or local.
///
/// Statuses: 0 the program was printed; 2, 3, 5, 8 and 11 as of `eval --procs`, with the same lines; 4 the text couldn't
/// be printed.
pub struct Expand;

impl<'a> Tool<'a> for Expand {
    type Words = SourceWords<'a>;

    ghost Fits = { λ words. ProfileFits words.target.profile };

    const ROW: VerbWords<'static> = VerbWords {
        name: "expand",
        options: &[],
        flags: &[],
        ..OF_SOURCE
    };

    fn words(matches: &ArgMatches<'a>) -> Option<SourceWords<'a>> {
        Some(SourceWords {
            procs: true,
            ..source_in_words(matches)?
        })
    }

    fn serve<S: Shelf>(alloc: Global, words: SourceWords<'a>, shelf: &mut S) -> Outcome<'a> {
        let source = read_source(alloc, words, shelf)?;
        let made = without_calls(alloc, &source.text, source.program.program())?;
        Ok(Report {
            status: 0,
            text: made.text,
        })
    }
}
