//! Branches on secrets: one region of two arms that show the same events.
//!
//! [`emit_secret_if`] appends the code of one branch of a program to a [`CodeBuf`](block_cache_gen::CodeBuf), for
//! public code or for an arm of another such branch. Statements of the two arms that pair are side by side; of the rest
//! each arm has its own with their effect and the other's without. With `--fast`, the arms of a branch that shows no
//! event have only their own statements, and the shorter path idles (`specs/Cycles`). The appended code computes what
//! the branch means, passes the check, and has the number of stores that `specs/Stores` states. [`put_secret_if`] is
//! the same over an [`Emitter`](block_cache_gen::Emitter), for many calls in public code.
#![tactic(auto)]

pub mod calls;
mod choices;
mod cycles;

pub use calls::emit_secret_if;
pub use choices::put_secret_if;
