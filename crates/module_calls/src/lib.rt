//! From modules to flat trees: the passes `tails`, `calls` and `first words`.
//!
//! First, returns move to the ends of functions (`specs/Tails`), which keeps the meaning of each module ([`tails_law`]).
//! Then calls are inlined (`specs/Inlining`), so that `main` becomes one flat statement ([`inlining_law`]). Assignments in
//! front set the words that aren't zero at the start (`specs/FirstAssignments`). The whole statement does with the
//! module's variables what the module means ([`flattening_law`]), if the functions obey the rules of the language
//! (`specs/Rules`, [`rules_law`]). The crate has definitions and laws, and no code yet.
#![tactic(auto)]

mod laws;

pub use laws::{flattening_law, inlining_law, rules_law, tails_law};
