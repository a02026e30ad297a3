ghost use Rattle.std.specs.Prelude.{◌≡◌, ◌≤◌, IfOk, IfSome};
ghost use Rattle.lt_isa.specs.Prelude.{ProfileFits};
ghost use Rattle.run_tools.specs.Prelude.{status_of};

use call_replies::replies::{InputFault, Reply, Verdict};
use clap::ArgMatches;
use command_words::options::{number_given, value};
use command_words::verbs::VerbWords;
use compile_step::object_of;
use gr_base::Memory;
use gr_outside::Shelf;
use run_tools::reports::{Outcome, Report, Tool};
use run_tools::sources::{SourceWords, accepted_of, read_file, read_source, source_in_words};
use run_tools::suites::{Subject, Tried, try_cases};
use run_tools::words::OF_SOURCE;
use std::alloc::Global;

/// The most bytes of a file of cases.
const CASES_BYTES: u32 = 67_108_864;

/// The source, the name of the file of cases, and the number of cycles of each run.
#[derive(Clone, Copy)]
pub struct TestWords<'a> {
    source: SourceWords<'a>,
    cases: &'a str,
    cycles: u32,
}

/// The tool `test SRC CASES [--fast] [--block-log W] [--window P:O:C] [--procs] [--cycles N]`: compiles a program in
/// memory and tries it on cases. Each line of CASES is one, a JSON object of two objects: `in` has the inputs, and `out`
/// the outputs that are expected. A case passes if its run halts and leaves these outputs, the evaluation of the program
/// leaves what the run does, and the run shows the same as that of the first case with the same public inputs. The tool
/// prints a line for each case that fails, and the numbers of both.
///
/// Statuses: 0 all cases pass; 1 a case fails; 2, 3, 5, 8 and 11 as of `compile`, with the same lines; 9 the file of
/// cases isn't UTF-8 or has no case; 4 the text couldn't be printed.
pub struct Test;

impl<'a> Tool<'a> for Test {
    type Words = TestWords<'a>;

    ghost Fits = { λ words. ProfileFits words.source.target.profile × (1 ≤ words.cycles) };

    const ROW: VerbWords<'static> = VerbWords {
        name: "test",
        places: &["SRC", "CASES"],
        options: &["block-log", "window", "cycles"],
        ..OF_SOURCE
    };

    fn words(matches: &ArgMatches<'a>) -> Option<TestWords<'a>> {
        Some(TestWords {
            source: source_in_words(matches)?,
            cases: value(matches, "CASES")?,
            cycles: number_given(value(matches, "cycles"))?,
        })
    }

    fn serve<S: Shelf>(alloc: Global, words: TestWords<'a>, shelf: &mut S) -> Outcome<'a> {
        let source = read_source(alloc, words.source, shelf)?;
        let object = object_of(alloc, &source.program, &words.source.target)?;
        let accepted = accepted_of(alloc, object)?;
        let bytes = read_file(words.cases, CASES_BYTES, shelf)?;
        let Ok(text) = str::from_utf8(&bytes) else {
            return Err(no_cases());
        };
        let subject = Subject {
            program: &source.program,
            accepted: &accepted,
            cycles: words.cycles,
        };
        let tried = try_cases(alloc, subject, text)?;
        // A file that was emptied or mistaken for another would pass otherwise.
        if tried.passed == 0 && tried.failed == 0 {
            return Err(no_cases());
        }
        Ok(report(alloc, tried)?)
    }
}

// The reply if a file has no cases.
fn no_cases<'a>() -> Reply<'a> {
    Reply::Comes(Verdict::BadInput(InputFault::Json))
}

// The lines of the cases that failed, and how many passed and failed.
fn report(alloc: Global, tried: Tried) -> Result<Report, Memory>
    ensures { IfOk result (λ report. report.status ≡ status_of tried.failed) }
{
    let status = status_of(&tried);
    let Tried {
        passed,
        failed,
        lines,
    } = tried;
    let mut text = lines;
    text.push_str(format!(in alloc; "passed {passed}, failed {failed}\n")?.as_str())?;
    Ok(Report { status, text })
}

fn status_of(tried: &Tried) -> u8
    ensures { result ≡ status_of tried.now.failed }
{
    if tried.failed == 0 { 0 } else { 1 }
}
