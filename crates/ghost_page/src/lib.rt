//! The program as one C function, for a page in a browser: a static library.
//!
//! [`ghost_call`] calls the program over files in memory. Its status, its text and the file that it leaves are those
//! that `ghost_cli` promises of a call over these files, as `specs/Page.antt` states. [`ghost_explain`] explains the
//! fault of such a call, in the words of `explain_words`. [`ghost_tool`] calls `layout`, `listing` and `profile`.
#![tactic(auto)]

mod answers;
mod calls;
mod explaining;
mod given;
mod tools;

pub use answers::Answer;
pub use calls::ghost_call;
pub use explaining::ghost_explain;
pub use tools::ghost_tool;
