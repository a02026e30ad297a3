//! Explanations: what a fault of a file means, where it is, and how to fix it.
//!
//! A [`Call`] of the program met a fault. From the bytes of its files ([`File`]) the first fault is found again, by the
//! libraries that the program is built from, and some lines explain it: the place, the reason, the line with a caret
//! below it, and what to write instead. If no fault is found, nothing is printed. The words are tested and no contract
//! fixes them; it is proved that each call ends, is safe, names places within the file, and prints nothing that a
//! terminal acts on.
//!
//! Faults of inputs and of cases are explained here. `source_faults` and `object_faults` explain those of other files.
#![tactic(auto)]

mod calls;
mod cases;
mod duplicates;
mod inputs;
mod json_faults;
mod members;
mod usage;

pub use calls::{Call, File};
pub use cases::failed_cases;
