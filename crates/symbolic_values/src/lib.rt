//! Symbolic values: what a register or a slot of the scratchpad may hold, as a tree over the state at the entry of a
//! stretch of code.
//!
//! [`Values`] is a table of nodes in which each tree has one number. So trees share the nodes of their common parts,
//! and two trees are equal exactly if their numbers are. Contracts see the table as the list of its nodes. The
//! definitions in `specs/` state which tree a number represents.
#![tactic(auto)]

mod code_hash;
pub mod nodes;
pub mod values;

pub use nodes::Node;
pub use values::Values;
