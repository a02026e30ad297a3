//! The tables that `help` prints: verbs, options and exit statuses. The man page, the completions and the usage lines of
//! the page are made from what it prints.

ghost use Rattle.std.specs.Prelude.{◌≡◌, IfSome};
ghost use Rattle.ghost_front.specs.Requests.{first_word};

/// A verb, with what `help` prints of it.
#[derive(Clone, Copy)]
pub(crate) struct VerbHelp {
    /// The verb, its arguments, and its options in square brackets.
    pub usage: &'static str,
    /// What it does, in lines that are indented by four spaces.
    pub text: &'static str,
}

/// An option of verbs, with what `help` prints of it.
#[derive(Clone, Copy)]
pub(crate) struct OptionHelp {
    /// The option and its value, as in the usage of a verb.
    pub option: &'static str,
    /// What it does, in lines that are indented by eight spaces.
    pub text: &'static str,
}

/// What `help VERB` prints of an option in place of the text that is about all of its verbs.
#[derive(Clone, Copy)]
struct OwnText {
    option: &'static str,
    /// The verbs, separated by spaces.
    verbs: &'static str,
    text: &'static str,
}

/// An exit status, with what `help` prints of it.
#[derive(Clone, Copy)]
pub(crate) struct StatusHelp {
    pub status: &'static str,
    pub text: &'static str,
    /// What follows the text in the list of all statuses, if the status means something else for other callers.
    pub of: &'static str,
    /// The verbs that can return it, separated by spaces. Empty if all can.
    pub verbs: &'static str,
}

/// The verbs, in the order in which `help` lists them.
pub(crate) const VERBS: [VerbHelp; 17] = [
    VerbHelp {
        usage: "compile SRC OUT [--fast] [--block-log W] [--window P:O:C] [--procs]",
        text: "    Compiles a program and writes the object file to OUT.\n",
    },
    VerbHelp {
        usage: "check OBJ",
        text: "    Checks that what an object shows on the bus depends only on public inputs. Prints `accepted`, or\n    \
            the instruction that the check rejects.\n",
    },
    VerbHelp {
        usage: "run OBJ INPUT OUT [--cycles N] [--seed S] [--recursive]",
        text: "    Runs an accepted object on inputs and writes its outputs to OUT.\n",
    },
    VerbHelp {
        usage: "trace OBJ INPUT [--cycles N] [--seed S] [--paths] [--recursive]",
        text: "    Runs an accepted object on inputs and prints what the bus shows: a line for each event with its\n    \
            cycle, then `end halted` or `end spent`.\n",
    },
    VerbHelp {
        usage: "diff OBJ INPUT INPUT [--cycles N] [--seed S] [--paths] [--recursive]",
        text: "    Runs an accepted object on two inputs. Prints that the events of both runs are equal (status 0),\n    \
            or the first event in which they differ (status 1).\n",
    },
    VerbHelp {
        usage: "eval SRC INPUT OUT [--turns N] [--procs]",
        text: "    Evaluates a program on inputs, without compiling it, and writes the final values of its\n    \
            variables to OUT.\n",
    },
    VerbHelp {
        usage: "test SRC CASES [--fast] [--block-log W] [--window P:O:C] [--procs] [--cycles N]",
        text: "    Compiles a program and runs it on cases. Each line of CASES is a case: inputs, and the outputs\n    \
            that are expected. Prints each case that fails: the outputs of the run aren't the expected ones\n    \
            or those of `eval`, or the trace differs from the trace of a case with the same public inputs.\n",
    },
    VerbHelp {
        usage: "layout SRC [--fast] [--block-log W] [--window P:O:C] [--procs]",
        text: "    Prints the bank and the block in which the compiler stores each variable, and why: the secret\n    \
            index that makes an array oblivious, or the slot of the scratchpad.\n",
    },
    VerbHelp {
        usage: "listing SRC [--fast] [--block-log W] [--window P:O:C] [--procs]",
        text: "    Prints the assembly of a program. Each line of the source is a comment before its instructions,\n    \
            and each instruction has its place and its cycles.\n",
    },
    VerbHelp {
        usage: "profile SRC INPUT [--fast] [--block-log W] [--window P:O:C] [--procs] [--cycles N]",
        text: "    Compiles and runs a program. Prints for each of its lines the cycles, the accesses to memory,\n    \
            and how many of the cycles only pad the arms of branches on secrets.\n",
    },
    VerbHelp {
        usage: "count OBJ INPUT [--cycles N] [--seed S] [--paths] [--recursive]",
        text: "    Runs an accepted object and prints the number of events of each memory, and the cycles.\n",
    },
    VerbHelp {
        usage: "expand SRC",
        text: "    Prints a program with procedures as a program without calls.\n",
    },
    VerbHelp {
        usage: "asm TEXT OUT",
        text: "    Assembles a text and writes the object file to OUT.\n",
    },
    VerbHelp {
        usage: "dis OBJ OUT",
        text: "    Writes the assembly text of an object file to OUT.\n",
    },
    VerbHelp {
        usage: "infer OBJ OUT",
        text: "    Finds notes with which the check accepts an object, and writes the object to OUT with these\n    \
            notes instead of its own. If it finds none, it prints where and why; the check might still\n    \
            accept the object with other notes. It rejects unreachable code, even if the check accepts it.\n",
    },
    VerbHelp {
        usage: "bus OBJ INPUT .. [--cycles N] [--seed S]",
        text: "    Runs one to eight accepted objects, each on its inputs, as cores that share one bus. Prints what\n    \
            the bus shows: a line for each access with its core and cycle, then how each core ended.\n",
    },
    VerbHelp {
        usage: "sample ITEMS OUT [--fast] [--seed S]",
        text: "    Compiles and runs a histogram of ITEMS numbers, from 1 to 65536, writes its object file to OUT,\n    \
            and prints how often it accesses memory.\n",
    },
];

/// The words that may be given instead of a verb, or before it.
const OTHERS: [VerbHelp; 5] = [
    VerbHelp {
        usage: "help [VERB]",
        text: "    Prints all verbs, options and exit statuses, or those that belong to one verb.\n",
    },
    VerbHelp {
        usage: "version",
        text: "    Prints the version, and what the program was made of: its sources' checksum and the toolchain.\n",
    },
    VerbHelp {
        usage: "--which",
        text: "    Prints the path of the program.\n",
    },
    VerbHelp {
        usage: "--quiet VERB ..",
        text: "    Does the same as the verb, but prints neither explanations of errors nor warnings.\n",
    },
    VerbHelp {
        usage: "--json VERB ..",
        text: "    Does the same as the verb, but prints explanations and warnings as lines of JSON.\n",
    },
];

/// The options of the verbs.
pub(crate) const OPTIONS: [OptionHelp; 9] = [
    OptionHelp {
        option: "--fast",
        text: "        Keeps arrays in the scratchpad for the whole run if there is room. The object takes far\n        \
            fewer cycles and shows no more.\n",
    },
    OptionHelp {
        option: "--block-log W",
        text: "        Stores variables in blocks of 2^W words. W is from 3 to 9; the default is 9.\n",
    },
    OptionHelp {
        option: "--window P:O:C",
        text: "        Opens memory only from cycle O to cycle C - 1 of each period of P cycles. P is from 2 to\n        \
            1000000, O is less than C, and C is at most P. Without this option memory is always open.\n",
    },
    OptionHelp {
        option: "--procs",
        text: "        Allows procedures and calls in the program.\n",
    },
    OptionHelp {
        option: "--cycles N",
        text: "        Ends the run after N cycles, from 1 to 4294967295. The default is 1000000000.\n",
    },
    OptionHelp {
        option: "--turns N",
        text: "        Ends the evaluation after N iterations of all loops together, from 1 to 4294967295. The\n        \
            default is 1000000000.\n",
    },
    OptionHelp {
        option: "--seed S",
        text: "        The seed of the random words of oblivious banks, from 0 to 18446744073709551615. The\n        \
            default is 0.\n",
    },
    OptionHelp {
        option: "--paths",
        text: "        Also prints the path of each access to an oblivious bank, and the level of each block at\n        \
            the end. `diff` and `count` accept it, but print no paths.\n",
    },
    OptionHelp {
        option: "--recursive",
        text: "        Stores each position map in smaller oblivious banks. --paths then prints the paths of\n        \
            all their trees, and no levels.\n",
    },
];

/// The options whose text says more than concerns each of their verbs.
const OWN_TEXTS: [OwnText; 4] = [
    OwnText {
        option: "--paths",
        verbs: "trace",
        text: "        Also prints the path of each access to an oblivious bank, and the level of each block at\n        \
            the end.\n",
    },
    OwnText {
        option: "--paths",
        verbs: "diff",
        text: "        Changes nothing: paths are random, so they aren't compared.\n",
    },
    OwnText {
        option: "--paths",
        verbs: "count",
        text: "        Changes nothing: paths aren't counted.\n",
    },
    OwnText {
        option: "--recursive",
        verbs: "run diff count",
        text: "        Stores each position map in smaller oblivious banks.\n",
    },
];

/// The exit statuses.
pub(crate) const STATUSES: [StatusHelp; 20] = [
    StatusHelp {
        status: "0",
        text: "success",
        of: "",
        verbs: "",
    },
    StatusHelp {
        status: "1",
        text: "the events of both runs differ",
        of: " (diff)",
        verbs: "diff",
    },
    StatusHelp {
        status: "1",
        text: "a case fails",
        of: " (test)",
        verbs: "test",
    },
    StatusHelp {
        status: "1",
        text: "the code has an unknown form",
        of: " (listing, profile)",
        verbs: "listing profile",
    },
    StatusHelp {
        status: "2",
        text: "usage error",
        of: "",
        verbs: "",
    },
    StatusHelp {
        status: "3",
        text: "a file couldn't be read",
        of: "",
        verbs: "compile check run trace diff eval test layout listing profile count expand asm dis infer bus",
    },
    StatusHelp {
        status: "4",
        text: "output couldn't be written",
        of: "",
        verbs: "",
    },
    StatusHelp {
        status: "5",
        text: "out of memory",
        of: "",
        verbs: "",
    },
    StatusHelp {
        status: "6",
        text: "not an object file",
        of: "",
        verbs: "check run trace diff count dis infer bus",
    },
    StatusHelp {
        status: "7",
        text: "object rejected",
        of: "",
        verbs: "check run trace diff count infer bus",
    },
    StatusHelp {
        status: "8",
        text: "source rejected",
        of: "",
        verbs: "compile eval test layout listing profile expand",
    },
    StatusHelp {
        status: "9",
        text: "inputs don't fit",
        of: "",
        verbs: "run trace diff eval profile count bus",
    },
    StatusHelp {
        status: "9",
        text: "the file has no cases",
        of: " (test)",
        verbs: "test",
    },
    StatusHelp {
        status: "10",
        text: "limit of cycles reached",
        of: "",
        verbs: "run trace diff profile count bus sample",
    },
    StatusHelp {
        status: "10",
        text: "limit of iterations reached",
        of: " (eval)",
        verbs: "eval",
    },
    StatusHelp {
        status: "11",
        text: "file too long",
        of: "",
        verbs: "compile check run trace diff eval test layout listing profile count expand asm dis infer bus",
    },
    StatusHelp {
        status: "12",
        text: "not an assembly text",
        of: "",
        verbs: "asm",
    },
    StatusHelp {
        status: "13",
        text: "object can't be a core of the bus",
        of: "",
        verbs: "bus",
    },
    StatusHelp {
        status: "69",
        text: "no toolchain to build with",
        of: " (only of the script ghostrider)",
        verbs: "-",
    },
    StatusHelp {
        status: "70",
        text: "the build failed",
        of: " (only of the script ghostrider)",
        verbs: "-",
    },
];

/// What `help` prints of files to read.
pub(crate) const READS: &str = "A file to read may be `-`, standard input.\n";

/// What `help` prints of OUT.
pub(crate) const WRITES: &str =
    "If OUT is `-`, the file goes to standard output, and the verb's line to standard error.\n";

/// What `help` prints of all verbs.
pub(crate) const NOTES: &str =
    "After `--` each argument is the name of a file. Explanations of errors, and warnings, go to\n\
    standard error. Before the verb, --quiet turns them off, and --json prints each as a line of JSON.\n\
    `ghostrider help VERB` prints what belongs to one verb, `ghostrider version` the version.\n";

/// The name of a verb: the first word of its usage.
#[tactic(auto, using(crate::proofs::FirstWord::only_word))]
pub(crate) fn name_of(verb: VerbHelp) -> &'static str
    ensures { result.now ≡ first_word verb.usage.now }
{
    match verb.usage.split_once(' ') {
        Some((name, _)) => name,
        None => verb.usage,
    }
}

/// The row of the verb of this name.
pub(crate) fn verb_help(name: &str) -> Option<VerbHelp>
    ensures { IfSome result (λ verb. first_word verb.usage.now ≡ name.now) }
{
    for verb in VERBS {
        if name_of(verb) == name {
            return Some(verb);
        }
    }
    None
}

/// The row of a word that may stand in the place of a verb or before it, by any of its names.
pub(crate) fn other_help(name: &str) -> Option<VerbHelp> {
    let first = match name {
        "--help" | "-h" => "help",
        "--version" | "-V" => "version",
        _ => name,
    };
    for row in OTHERS {
        if name_of(row) == first {
            return Some(row);
        }
    }
    None
}

/// Whether a verb takes an argument or an option of this name.
pub(crate) fn takes(verb: VerbHelp, name: &str) -> bool {
    for word in verb.usage.split(" ").skip(1) {
        let opened = word.strip_prefix("[").unwrap_or(word);
        if opened.strip_suffix("]").unwrap_or(opened) == name {
            return true;
        }
    }
    false
}

/// The name of an option, without its value.
pub(crate) fn name_of_option(row: OptionHelp) -> &'static str {
    match row.option.split_once(' ') {
        Some((name, _)) => name,
        None => row.option,
    }
}

/// What an option does for a verb.
pub(crate) fn text_for(verb: VerbHelp, row: OptionHelp) -> &'static str {
    for own in OWN_TEXTS {
        if own.option == name_of_option(row) && has_word(own.verbs, name_of(verb)) {
            return own.text;
        }
    }
    row.text
}

/// Whether a verb can return a status.
pub(crate) fn returns(verb: VerbHelp, row: StatusHelp) -> bool {
    row.verbs.is_empty() || has_word(row.verbs, name_of(verb))
}

fn has_word(words: &str, wanted: &str) -> bool {
    for word in words.split(" ") {
        if word == wanted {
            return true;
        }
    }
    false
}
