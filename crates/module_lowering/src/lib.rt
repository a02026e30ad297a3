//! From modules to programs of the core: all passes, in order.
//!
//! A module becomes one flat statement, whose conditions become choices and whose expressions that the core lacks become
//! variables; what remains is a block of the core (`specs/Lowering`). That only forms of the core remain is
//! [`shape_law`]. [`lowering_law`] states that the core program does with the module's variables what the module means
//! (`specs/Promise`): both run out of iterations, or both leave the same words. The crate has definitions and laws, and no
//! code yet.
#![tactic(auto)]

mod laws;

pub use laws::{lowering_law, shape_law};
