//! Sentences that the tables of habits share: how something is written in this language.

/// Words of other languages for output.
pub const PRINTING: &str = "print printf println puts putchar echo write output";

/// Where the output of a program is.
pub const OUTPUT: &str =
    "A program prints nothing: the final values of its variables are its output, which `eval` and `run` write.";

/// How to write a loop that counts.
pub const FOR: &str = "There is no `for`: write `i = 0; while (i < n) { .. i = i + 1; }`.";

/// How to write a procedure.
pub const PROCEDURE: &str =
    "A procedure is written `proc f(secret int p; int a[]) { .. }`, and needs the option --procs.";

/// How to write what a function returns.
pub const RESULT: &str =
    "A procedure returns nothing: its result goes to an array, as in `proc f(secret int p; int o[]) { o[0] = p + 1; \
    }`.";

/// How to choose between several values.
pub const SWITCH: &str =
    "There is no `switch`: write one `if` after another, `if (x == 1) { .. } if (x == 2) { .. }`.";

/// How a loop has two conditions.
pub const LOOP_AND: &str =
    "There is no `&&`: loop on one condition, and test the other inside, `while (i < 10) { if (s > 0) { .. } i = i + \
    1; }`.";

/// How a loop ends only if neither of two conditions holds.
pub const LOOP_OR: &str =
    "There is no `||`: let a variable say whether one of the conditions holds, and loop while it is 1, `while (go == \
    1) { .. }`.";

/// How to use what a call computes.
pub const NO_VALUE: &str =
    "A call has no value: call the procedure in an earlier statement, with an array that takes the result.";

/// How a comparison becomes a value.
pub const COMPARISON: &str =
    "A comparison is only allowed in a condition: write `x = 0; if (s > 2) { x = 1; }`.";

/// How to give an array its values.
pub const LISTS: &str =
    "There are no lists of values: assign each element, as in `a[0] = 1; a[1] = 2;`, or give the array in the inputs.";
