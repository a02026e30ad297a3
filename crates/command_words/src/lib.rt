//! The words of the command line: which words each verb takes, and what is found among them.
//!
//! [`verbs::verb_named`] finds the verb of a name. [`verbs::matches_of`] passes the words to `clap`, by the command
//! that is made of the verb's row, and [`options`] and [`windows`] read the values that are found.
//!
//! What the words ask for may be of any type: the crate above defines it by one function for each verb, the record
//! `Works` of `specs/Verbs`. `asked_work` is what words ask for, given these functions. Which words ask for what is
//! proved in `proofs/VerbWords`, as people write command lines (`specs/CommandLines`, `specs/WordsAsk`).
//!
//! To add a verb, add its row to `specs/VerbRows`, and what it asks for to `specs/Asks`. Then add it to the tables in
//! `specs/Verbs`, `specs/VerbLines` and `src/verbs.rt`, to `specs/WordsAsk`, and to `proofs/VerbRows`,
//! `proofs/VerbCommands` and `proofs/VerbWords`. No other verb's words change.
#![tactic(auto)]

pub mod options;
pub mod verbs;
pub mod windows;
