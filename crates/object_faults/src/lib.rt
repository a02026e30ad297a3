//! Faults of objects and of assembly texts: why a file isn't an object file, why the check rejects an object, why it
//! gets no notes, why it can't share a bus, and why an assembly text doesn't define an object.
//!
//! Each function finds the first fault again, by the libraries that the program is built from, and writes the place, the
//! reason, and what to write instead. No contract fixes these words; it is proved that each call ends, is safe, and names
//! places within the file or the code.
#![tactic(auto)]

mod arms;
mod assembly;
mod buses;
mod fields;
mod line_forms;
mod line_orders;
mod objects;
mod reasons;
mod refusals;

pub use assembly::explain_assembly;
pub use buses::{Core, explain_bus};
pub use objects::{explain_file, object_in};
pub use refusals::{explain_inference, explain_refusal};
