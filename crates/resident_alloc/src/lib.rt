//! Where the variables of a program are stored that is compiled with `--fast`: which arrays stay in the scratchpad for the
//! whole run, so that an access of them shows nothing on the bus.
//!
//! [`resident_plan`] returns exactly the plan of `specs/ResidentPlan`, or what lacks room first. [`resident_laws`]: the plan
//! is sound for each program with room for its variables.
#![tactic(auto)]

mod laws;
mod owning;
mod placing;
pub mod planning;
mod serving;
mod sharing;
pub mod storages;
mod variables;
pub mod wants;

pub use laws::resident_laws;
pub use planning::{ResidentPlan, resident_plan};
pub use storages::{Planned, Storage};
pub use wants::Want;
