ghost use Rattle.std.specs.Prelude.{◌≡◌, IfSome};
ghost use Rattle.lt_isa.specs.Prelude.{ProfileFits};

use call_steps::given::Given;
use call_steps::reading::find_inputs;
use clap::ArgMatches;
use command_words::options::{number_given, value};
use command_words::verbs::VerbWords;
use compile_step::object_of;
use gr_outside::Shelf;
use object_tools::profiling::profile_report;
use run_tools::reports::{Outcome, Tool};
use run_tools::sources::{SourceWords, accepted_of, read_source, source_in_words};
use run_tools::words::OF_SOURCE;
use std::alloc::Global;

/// The source, the name of the file of inputs, and the number of cycles.
#[derive(Clone, Copy)]
pub struct ProfileWords<'a> {
    source: SourceWords<'a>,
    input: &'a str,
    cycles: u32,
}

/// The tool `profile SRC INPUT [--fast] [--block-log W] [--window P:O:C] [--procs] [--cycles N]`: compiles a program in
/// memory, runs it on inputs, and prints for each line of the source the cycles and the accesses of its instructions,
/// and how many of the cycles are padding: those that an arm of a branch on a secret takes only to show the same events
/// as the other arm. The cycles of all rows sum to those of the run. With `--procs` the line of a procedure has the
/// instructions of all its calls.
///
/// Statuses: 0 the run halted; 10 it didn't within its cycles; 1 the code isn't of the form that the compiler gives it, so
/// that no table is printed; 2, 3, 5, 8, 9 and 11 as of `compile` and `run`, with the same lines; 4 the text couldn't be
/// printed.
pub struct Profile;

impl<'a> Tool<'a> for Profile {
    type Words = ProfileWords<'a>;

    ghost Fits = { λ words. ProfileFits words.source.target.profile };

    const ROW: VerbWords<'static> = VerbWords {
        name: "profile",
        places: &["SRC", "INPUT"],
        options: &["block-log", "window", "cycles"],
        ..OF_SOURCE
    };

    fn words(matches: &ArgMatches<'a>) -> Option<ProfileWords<'a>> {
        Some(ProfileWords {
            source: source_in_words(matches)?,
            input: value(matches, "INPUT")?,
            cycles: number_given(value(matches, "cycles"))?,
        })
    }

    fn serve<S: Shelf>(alloc: Global, words: ProfileWords<'a>, shelf: &mut S) -> Outcome<'a> {
        let source = read_source(alloc, words.source, shelf)?;
        let object = object_of(alloc, &source.program, &words.source.target)?;
        let accepted = accepted_of(alloc, object)?;
        let inputs = find_inputs(alloc, &accepted, words.input, shelf)?;
        let given = Given { accepted, inputs };
        Ok(profile_report(alloc, source, &given, words.source, words.cycles)?)
    }
}
