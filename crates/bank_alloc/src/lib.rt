//! The places of a program's variables in the banks of an object.
//!
//! [`banks`] gives each variable of a well-typed program its place, exactly by `specs/Places`, or returns what lacks
//! room first, by `specs/Fits`. Scalars share the first block of plain or encrypted memory, arrays have whole blocks,
//! and the secret arrays with a secret index (`specs/Indexes`) go to oblivious banks in turn. [`symbols`] gives the
//! symbols of an object with these places, in order (`specs/Layout`), and they are in range. [`place_laws`]: the places
//! are exactly those of `specs/PlaceRules`, and no two variables share a word (`specs/Apart`).
#![tactic(auto)]

pub mod allocation;
pub mod classes;
mod indexes;
mod laws;
mod names;
pub mod places;
pub mod placing;
pub mod symbol_lists;

pub use allocation::banks;
pub use classes::{Class, classes_of};
pub use laws::{place_laws, sample_laws};
pub use places::{Place, PlaceError, Places};
pub use symbol_lists::symbols;
