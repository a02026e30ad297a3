//! The tools over the machine and the compiler. Four of them compile a program in memory: [`Layout`] prints where the
//! compiler stores each variable and why, [`Listing`] prints the assembly of a program with the source line of each
//! instruction, [`Profile`] prints what each line of a program costs, and [`Test`] tries a program on cases.
//!
//! What they print of an object is made in `object_tools`, where [`Expand`] is too. The runs and the cases are in
//! `run_tools`, with [`Diff`] and [`Count`]. No tool writes a file.
#![tactic(auto)]

pub mod profile_tool;
pub mod source_tools;
pub mod test_tool;

pub use object_tools::Expand;
pub use profile_tool::Profile;
pub use run_tools::{Count, Diff, Tool, print_report};
pub use source_tools::{Layout, Listing};
pub use test_tool::Test;
