//! Programs of files with procedures, without their calls.
//!
//! [`inline`] replaces the calls of a file, or names the first cause for which they can't be replaced
//! (`procs_tree/specs/CallCauses`). The program that it makes does with the file's own variables what the file means,
//! for every store and any starting values of its new variables (`procs_tree/specs/Promise`).
#![tactic(auto)]

mod binding;
mod expanding;
pub mod inlining;
mod kept_names;
mod own_calls;
mod own_statements;
mod scopes;
mod stepping;

pub use inlining::{inline, inline_owned};
pub use procs_tree::{InlineError, PStmt, Param, Proc, ProcFile};
