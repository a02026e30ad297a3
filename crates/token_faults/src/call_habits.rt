//! The habits of C about procedures and calls, as tables.

use crate::habit_search::{Habit, sentence_of};
use crate::wanted::Wanted;
use source_tokens::Tokens;

/// Habits in a file that may have procedures.
const WITH_PROCEDURES: &[Habit] = &[
    [
        "proc public secret",
        "",
        "[",
        "",
        ")",
        "An array parameter has no label: write `int a[]`.",
    ],
    [
        "proc int",
        "[",
        "",
        "",
        "]",
        "An array parameter has no length: write `int a[]`.",
    ],
    [
        "public secret",
        "",
        "[",
        "",
        ";",
        "A local is one word: declare the array at the beginning of the file, and pass it to a parameter `int a[]`.",
    ],
    [
        "call",
        "",
        "",
        "",
        "=",
        "A call is written `f(x; y);`, without a word before it.",
    ],
    [
        "proc",
        "",
        "{",
        "",
        "(",
        "A procedure has parentheses even without parameters: `proc f() { .. }`.",
    ],
    [
        "",
        ";",
        ")",
        "",
        "",
        "A `;` is only between two parameters or arguments: remove it.",
    ],
    [
        "proc",
        "",
        "",
        "",
        "= [",
        "Procedures come after the declarations and before all statements: move this one up.",
    ],
    [
        "proc int",
        "",
        ") ;",
        "",
        "[",
        "A parameter is `secret int p`, `public int p`, or an array `int a[]`.",
    ],
];

/// Habits in a file with a procedure, where none is allowed.
const WITHOUT_OPTION: &[Habit] = &[
    [
        "proc",
        "",
        "",
        "",
        "= [",
        "Procedures need the option --procs: `proc f(secret int p; int a[]) { .. }`.",
    ],
    [
        "",
        "",
        "(",
        "",
        "= [",
        "A call needs the option --procs, and an earlier procedure of that name.",
    ],
];

/// Habits in a file without a procedure, where none is allowed.
const WITHOUT_PROCEDURES: &[Habit] = &[[
    "",
    "",
    "(",
    "",
    "= [",
    "There is no function of this name: a statement is an assignment, an `if` or a `while`.",
]];

/// The sentence for a habit about procedures and calls, which only a file with procedures may have.
pub(crate) fn said_of_procedures(
    tokens: Tokens<'_>,
    at: usize,
    wanted: &Wanted,
    has_procs: bool,
) -> Option<&'static str> {
    let habits = if has_procs {
        WITH_PROCEDURES
    } else if tokens.has_procedure() {
        WITHOUT_OPTION
    } else {
        WITHOUT_PROCEDURES
    };
    sentence_of(habits, tokens, at, wanted)
}
