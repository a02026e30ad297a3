//! The walk of secret regions: the outcome of a branch on a secret, whose two arms must show the same events.
//!
//! [`cross`] computes exactly what the relations of the walk state over trees: a region is crossed, with what is known
//! at its join, or a place blocks it. [`carry`] carries what is known over a region, whether or not the check refuses
//! something in it. Trees are numbers of one table, so that trees share the nodes of their common parts.
#![tactic(auto)]

mod arms;
mod behind;
mod carries;
mod held_numbers;
mod kinds;
mod next_steps;
mod numbers;
mod region_values;
mod regions;
mod shapes;
mod singles;
mod states;
mod walks;

pub use next_steps::{NextStep, next_step_of};
pub use region_values::RegionValues;
pub use regions::{Carried, Crossing, carry, cross};
