//! How each limit of a program is kept.

use src_tree::Which;

/// How a limit is kept.
pub(crate) fn of_limit(limit: Which) -> &'static str {
    match limit {
        Which::Variables => "A program has at most 256 variables: put some of them into an array.",
        Which::ArrayLength => "An array has 1 to 1,048,576 words.",
        Which::TotalWords =>
            "All variables together may have at most 4,194,304 words: shorten the arrays.",
        Which::Height => {
            "An expression has at most 16 levels: assign a part of it to a variable, in an earlier statement."
        }
        Which::Weight => { "Use a loop for repeated statements." }
    }
}
