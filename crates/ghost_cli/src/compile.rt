ghost use Rattle.std.specs.Prelude.{◌≡◌, IfSome};
ghost use Rattle.std.specs.Option.{option_map};
ghost use Rattle.clap.specs.Words.{found_of, rows_of};
ghost use Rattle.lt_isa.specs.Prelude.{ProfileFits};
ghost use Rattle.command_words.specs.Prelude.{compile_asks};
ghost use Rattle.call_steps.specs.Prelude.{compile_on, compile_work};

use call_replies::replies::{Done, Reply};
use call_steps::sources::find_source;
use call_steps::targets::Target;
use call_steps::verbs::{Made, Maker, NewFile, Request};
use clap::ArgMatches;
use command_words::options::{block_log_given, flag_given, value};
use command_words::windows::{window_given, windowed};
use compile_step::object_bytes;
use gr_base::Memory;
use gr_outside::Shelf;
use std::alloc::Global;

/// The verb `compile SRC OUT [--fast] [--block-log w] [--window P:O:C] [--procs]`: writes the object file of a source
/// text's program.
pub struct Compile;

/// The name of the file that is read, whether it is read with procedures, what is compiled for, and the name of the file
/// that is written.
#[derive(Clone, Copy)]
pub struct CompileWords<'a> {
    source: &'a str,
    procs: bool,
    target: Target,
    output: &'a str,
}

impl<'a> Request<'a> for Compile {
    type Words = CompileWords<'a>;

    ghost work = { λ words. compile_work words.source.now words.output.now words.target words.procs };

    ghost asks = { compile_asks compile_on };

    ghost Fits = { λ words. ProfileFits words.target.profile };

    fn words(_alloc: Global, matches: &ArgMatches<'a>) -> Result<Option<CompileWords<'a>>, Memory> {
        Ok(words_in(matches))
    }
}

impl<'a> Maker<'a> for Compile {
    fn make<F: Shelf>(alloc: Global, words: CompileWords<'a>, shelf: &mut F) -> Made<'a> {
        let program = find_source(alloc, words.source, words.procs, shelf)?;
        let bytes = object_bytes(alloc, &program, &words.target)?;
        Ok(NewFile {
            name: words.output,
            bytes,
            done: Done::Compiled,
        })
    }
}

fn words_in<'a>(matches: &ArgMatches<'a>) -> Option<CompileWords<'a>>
    ensures asked { option_map (λ a. compile_work a.source.now a.output.now a.target a.procs) result
        ≡ compile_asks compile_on (rows_of (found_of matches.now)) }
    ensures within { IfSome result (λ a. ProfileFits a.target.profile) }
{
    Some(CompileWords {
        source: value(matches, "SRC")?,
        procs: flag_given(value(matches, "procs")),
        target: Target {
            profile: windowed(
                block_log_given(value(matches, "block-log"))?,
                window_given(value(matches, "window"))?,
            ),
            fast: flag_given(value(matches, "fast")),
        },
        output: value(matches, "OUT")?,
    })
}
