ghost use Rattle.std.specs.Prelude.{◌≡◌};
ghost use Rattle.std.specs.Option.{option_map};
ghost use Rattle.clap.specs.Words.{found_of, rows_of};
ghost use Rattle.command_words.specs.Prelude.{evaluate_asks};
ghost use Rattle.call_laws.specs.Prelude.{evaluate_work};

use crate::evaluation::{Left, evaluate_to_end};
use call_replies::replies::{Done, Reply, Verdict};
use call_steps::reading::find_variables;
use call_steps::sources::find_source;
use call_steps::verbs::{Made, Maker, NewFile, Request};
use clap::ArgMatches;
use command_words::options::{flag_given, number_given, value};
use gr_base::Memory;
use gr_outside::Shelf;
use std::alloc::Global;

/// The verb `eval SRC INPUT OUT [--turns n] [--procs]`: evaluates a program on inputs, and writes its final values.
pub struct Evaluate;

/// The name of the file of a program, whether it is read with procedures, the names of the files of its inputs and
/// outputs, and the most turns of its evaluation.
#[derive(Clone, Copy)]
pub struct EvaluateWords<'a> {
    source: &'a str,
    procs: bool,
    input: &'a str,
    output: &'a str,
    turns: u32,
}

impl<'a> Request<'a> for Evaluate {
    type Words = EvaluateWords<'a>;

    ghost work = { λ words.
        evaluate_work words.source.now words.input.now words.output.now words.turns words.procs };

    ghost asks = { evaluate_asks evaluate_work };

    ghost Fits = { λ words. Unit {0} };

    fn words(
        _alloc: Global,
        matches: &ArgMatches<'a>,
    ) -> Result<Option<EvaluateWords<'a>>, Memory> {
        Ok(words_in(matches))
    }
}

impl<'a> Maker<'a> for Evaluate {
    fn make<F: Shelf>(alloc: Global, words: EvaluateWords<'a>, shelf: &mut F) -> Made<'a> {
        let program = find_source(alloc, words.source, words.procs, shelf)?;
        let wants = program.wants(alloc)?;
        let inputs = find_variables(alloc, &wants, words.input, shelf)?;
        match evaluate_to_end(alloc, &program, &wants, inputs, words.turns)? {
            Left::Done(bytes) => Ok(NewFile {
                name: words.output,
                bytes,
                done: Done::Evaluated,
            }),
            Left::Spent => Err(Reply::Comes(Verdict::Spent(words.turns))),
        }
    }
}

fn words_in<'a>(matches: &ArgMatches<'a>) -> Option<EvaluateWords<'a>>
    ensures { option_map (λ a. evaluate_work a.source.now a.input.now a.output.now a.turns a.procs) result
        ≡ evaluate_asks evaluate_work (rows_of (found_of matches.now)) }
{
    Some(EvaluateWords {
        source: value(matches, "SRC")?,
        procs: flag_given(value(matches, "procs")),
        input: value(matches, "INPUT")?,
        output: value(matches, "OUT")?,
        turns: number_given(value(matches, "turns"))?,
    })
}
