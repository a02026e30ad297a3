//! The code of expressions, guards and assignments, and how a state of the machine represents a store.
//!
//! [`emit_expr`], [`emit_guard`] and [`emit_set`] append the code of one expression, guard or assignment of a program
//! to a [`CodeBuf`], for public code or for an arm of a branch on a secret ([`Mode`]). Run anywhere in an object that
//! has the frame's layout ([`home_laws`]), the code leaves the value, the sides or the store that it means, within its
//! greatest costs, and shows the accesses of `specs/Accesses` (`runs`). The check passes it in public code (`passes`)
//! and walks it in an arm (`walked`), where it shows the same events in every state. It is short and in its ranges
//! (`extends`). These calls take a [`Frame`]. A [`FastFrame`] has what `--fast` adds to it. A [`Prepared`] is a
//! [`FastFrame`] made ready for many calls, and an [`Emitter`] has with it what is known of scalars at the place of the
//! code. [`pair_count`] is the number of first statements of two parts that show the same events ([`pair_laws`]).
#![tactic(auto)]

mod accesses;
pub mod alike;
pub mod calls;
mod elements;
mod emitter;
mod expressions;
pub mod frames;
mod indexes;
mod laws;
mod operands;
mod pins;
mod prepared;
mod statements;
mod steps;
mod variables;

pub use alike::pair_count;
pub use calls::{emit_expr, emit_guard, emit_set};
pub use emitter::{Emitter, label_of};
pub use frames::{CodeBuf, FastFrame, Frame, Mode};
pub use indexes::reducer_at;
pub use laws::{home_laws, pair_laws, twin_laws};
pub use prepared::Prepared;
pub use statements::{put_guard, put_set_element, put_set_variable};
