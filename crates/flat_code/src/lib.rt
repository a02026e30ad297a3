//! The passes over flat trees, as code on owned trees.
//!
//! Contracts see a [`Term`] and a [`Flat`] as trees without pointers (`specs/Owned`). [`conditions`] turns conditions
//! into choices, [`values`] turns expressions that the core lacks into variables, and [`prepared`] is both passes in the
//! order of `module_lowering`: the tree of each result is the one that the passes' definitions give. `specs/Limits`
//! defines what is light enough to be written twice, and which terms become variables. Functions call themselves for the
//! parts of a tree, so the depth of their calls is the tree's.
#![tactic(auto)]

mod choices;
mod copies;
mod hoisting;
mod limits;
mod numbers;
mod preparing;
mod statements;
pub mod trees;
mod variables;

pub use choices::conditions;
pub use limits::{is_light, needs_name};
pub use numbers::number;
pub use preparing::prepared;
pub use statements::{in_sequence, plain_choice, plain_local, plain_loop};
pub use trees::{Flat, Operator, Term};
pub use variables::values;
