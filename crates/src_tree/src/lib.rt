//! The trees of the source language.
//!
//! Contracts see an [`Expr`], a [`Guard`], a [`Stmt`] and a [`Program`] as trees without pointers (`specs/Trees`).
//! [`print`] writes a program's canonical text (`specs/Printed`). `specs/Meaning` defines what a program means,
//! `specs/Typing` the rules of typing, `specs/Limits` the limits that don't depend on a machine, and `specs/FirstFault`
//! the first error of a program; a program has none exactly if it is well typed and within the limits ([`laws`]).
//! [`label_of`] is the label of an expression. [`Names`] is a map of what names are declared as; other crates fill it.
#![tactic(auto)]

pub mod faults;
pub mod heights;
pub mod labels;
pub mod laws;
pub mod names;
pub mod printing;
pub mod trees;

pub use faults::{TypeError, Which};
pub use heights::height;
pub use labels::{higher, label_of};
pub use names::{Names, kind_at, label_at, shape_of};
pub use printing::print;
pub use trees::{Decl, Expr, Guard, Program, Stmt};
