//! Files with procedures: their trees, what they mean, and what is wrong with them.
//!
//! A file has declarations, procedures and statements, among them calls (`specs/Trees`); what it means is in
//! `specs/CallMeaning`. `specs/Inlined` defines its program without calls, which does with the file's own variables
//! what the file means (`specs/Promise`). [`judge`] finds the first fault of the procedures and calls
//! (`specs/CallCauses`), and the sizes of the procedures' bodies. `src_procs` makes the program.
#![tactic(auto)]

mod call_faults;
pub mod errors;
mod finding;
pub mod hidden_names;
pub mod judging;
pub mod laws;
mod own_names;
mod sizes;
pub mod trees;

pub use errors::InlineError;
pub use finding::called;
pub use hidden_names::is_hidden;
pub use judging::{JudgedProcs, judge};
pub use own_names::{Numbers, add_name, has_bytes, parameter_name};
pub use sizes::{call_size, scalars};
pub use trees::{PStmt, Param, Proc, ProcFile};
