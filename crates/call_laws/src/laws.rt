ghost use Rattle.call_laws.specs.BusAgrees.{BusAgrees};
ghost use Rattle.call_laws.specs.Calls.{CallsAsMeant};
ghost use Rattle.call_laws.specs.CompiledRuns.{CompiledRuns};
ghost use Rattle.call_steps.specs.Prelude.{InferredOnce, TracesAgree, TextsAgree, IsTraceText};
ghost use Rattle.call_laws.specs.CompiledTexts.{CompiledTexts};
ghost use Rattle.lt_isa.specs.Prelude.{IsInRange, IsOblivious, Parts};
ghost use Rattle.call_laws.specs.Counting.{ShownAsOften};
ghost use Rattle.call_laws.specs.HeadlineFollows.{HeadlineFollows};
ghost use Rattle.call_laws.specs.OneAnswer.{OneAnswer, OneSource, SomeAnswer, TraceAgrees};
ghost use Rattle.call_laws.specs.Promises.{PromisesFollow};
ghost use Rattle.call_laws.specs.ReadBytes.{ReadBytes};
ghost use Rattle.command_words.specs.Prelude.{WordsAsk};
ghost use Rattle.call_laws.specs.Verbs.{works};

/// Does nothing; its clauses are laws: if two runs of one oblivious object have inputs that agree on public values,
/// then at every number of cycles their traces are equal, and so are the texts that `trace` prints.
pub fn traces_agree()
    ensures traces { TracesAgree }
    ensures texts { TextsAgree }
{}

/// Does nothing; its clause is a law: without `--paths` the output of `trace` is the text of its trace, for every seed.
pub fn trace_alone()
    ensures { IsTraceText }
{}

/// Does nothing; its clause is a law: an object file that `compile` wrote runs as its program means, and shows nothing
/// of what isn't public in the program's inputs.
pub fn compiled_runs()
    ensures { CompiledRuns }
{}

/// Does nothing; its clause is a law: an object file that `compile` wrote takes and gives JSON text as its program
/// does, so that `run` writes for it what `eval` writes for its source.
pub fn compiled_texts()
    ensures { CompiledTexts }
{}

/// Does nothing; its clause is a law: the program of a text that is read with procedures does with the text's own
/// variables what its calls mean, for any starting values of the program's new variables.
pub fn calls_as_meant()
    ensures { CallsAsMeant }
{}

/// Does nothing; its clause is a law: what `infer` writes for an object is one object.
pub fn inferred_once()
    ensures { InferredOnce }
{}

/// Does nothing; its clause is a law: what `bus` prints for oblivious objects, and its status, are the same for inputs
/// that agree on public values.
pub fn bus_agrees()
    ensures { BusAgrees }
{}

/// Does nothing; its clause is a law: if the contents of files are known, the work of `check`, `run`, `asm`, `dis`,
/// `bus`, `eval`, `infer`, and of `trace` without `--paths`, has at most one answer: one status, one text and one map of
/// files. So has that of `compile`, except for the bytes of the output if it is done. Two things are left open: the
/// object that `compile` and `sample` make, and the levels that `trace --paths` shows.
pub fn one_answer()
    ensures { OneAnswer }
{}

/// Does nothing; its clause is a law: tokens are at most one file with procedures, and then no error of its parser is true
/// of them. A source text, with procedures or without, gives at most one program or has at most one first fault.
pub fn one_source()
    ensures { OneSource }
{}

/// Does nothing; its clause is a law: for files of bytes the work of each verb has an answer, with every option; that of
/// `bus` if there are at most eight pairs. Each source text, with procedures or without, is a program or has a first
/// fault.
pub fn some_answer()
    ensures { SomeAnswer }
{}

/// Does nothing; its clause is a law: two calls of `trace` without `--paths` on one accepted object, with the same
/// number of cycles, on inputs that agree on public values, print the same bytes with the same status, under any two
/// seeds.
pub fn trace_agrees()
    ensures { TraceAgrees }
{}

/// Does nothing; its clause is a law: what follows of every call, since it promises to explain how it ended.
pub fn promises_follow()
    ensures { PromisesFollow }
{}

/// Does nothing; its clause is a law: the words after each verb request a work exactly if they consist of its parts:
/// its names in their order, for `bus` adjacent and in pairs, and its options and flags in any order, each at most
/// once, with values in their ranges. An option's value follows `=` or is the next word, and after `--` all words are
/// names. No words, and words whose first isn't a verb, request none.
pub fn words_ask()
    ensures { WordsAsk works }
{}

/// Does nothing; its clause is a law: if the shelf reports its files and the sink its bytes, the headline follows from
/// what every call promises. It speaks of the words, the files, what was printed and the status only.
pub fn headline_follows()
    ensures { HeadlineFollows }
{}

/// Does nothing; its clause is a law: if the shelf's log is visible and the work is done, the headline is true of any
/// files that have the bytes that the call's reads returned, and of what its write left. Neither the contents of files
/// nor the bytes of the sink need to be visible.
pub fn read_bytes()
    ensures { ReadBytes }
{}

/// Does nothing; its clause is a law of oblivious objects. Two runs on inputs that agree show leaves of an oblivious
/// bank equally often: of all lists of random words of the length that the runs draw, as many make the one run show
/// given leaves as the other.
#[tactic(auto, using(crate::proofs::CountedLeaves::shown_as_often))]
pub fn leaves_counted()
    ensures { (o : Parts) → IsInRange o → IsOblivious o → ShownAsOften o }
{}
