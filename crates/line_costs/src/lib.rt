//! What a run costs, row by row: each instruction of an object belongs to a row, such as a line of the source.
//!
//! [`run_costs`] runs a machine, and counts the cycles and the accesses of each row. Each step of the run is counted in
//! exactly one row, so the rows' cycles sum to those of the run, and their accesses to those of its trace. [`owners_of`]
//! finds the statement of each instruction in the code of a compiled program.
#![tactic(auto)]

pub mod code_maps;
pub mod code_shapes;
pub mod costs;
mod single_steps;

pub use code_maps::{Owner, Owners, owners_of};
pub use code_shapes::CompiledCode;
pub use costs::{Costs, Part, run_costs};
