//! The least notes of an object.
//!
//! [`infer`] finds them, regardless of the notes that the object has, and says exactly why there are none: a place that
//! no steps lead to, too many notes, or the first refusal of the object with them. [`least_note_laws`] has the theorem
//! on them: if some notes make an object accepted and open the regions that are crossed at last, the least notes make it
//! accepted. It also states that least notes are unique, and that they exist if all places are reachable.
#![tactic(auto)]

mod brings;
mod copies;
mod crossed;
mod faults;
mod growth;
mod inference;
mod joined;
mod joiners;
mod joining;
mod kept;
mod laws;
mod looks;
mod noting;
mod origins;
mod raises;
mod search;
mod targets;

pub use faults::InferError;
pub use inference::infer;
pub use laws::least_note_laws;
