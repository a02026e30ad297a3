//! The target language L_T: profiles, instructions, objects, and the machine that runs them.
//!
//! Contracts see an [`Object`] as its five parts, all of them in range. The definitions in `specs/` state what a state
//! of the machine is, what one step does, what a run shows to an observer, how a run starts, and when an object is
//! oblivious.
#![tactic(auto)]

pub mod costs;
pub mod events;
pub mod instruction_table;
pub mod instructions;
mod laws;
pub mod limits;
pub mod objects;
pub mod profiles;
pub mod ranges;
pub mod symbol_places;
pub mod symbols;

pub use costs::{access_start, latency, start_of};
pub use events::Event;
pub use instructions::Instr;
pub use laws::{run_laws, window_laws};
pub use objects::{Object, OutOfRange};
pub use profiles::{BankKind, BankSpec, Latencies, Profile, bank_kind};
pub use symbols::{Note, Symbol};
