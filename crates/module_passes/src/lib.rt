//! The passes over modules, as code on owned trees.
//!
//! Contracts see an [`Expr`], a [`Stmt`] and a [`Function`] as trees without pointers (`specs/Owned`). [`tailed`] moves
//! returns to the ends of functions, and [`tails`] those of one body: the trees of the results are those that
//! `module_calls/specs/Tails` defines. [`tails`] takes the statements of a block from the last to the first, and calls
//! itself only for blocks within blocks, so the depth of its calls is that of the nested blocks.
#![tactic(auto)]

mod returns;
pub mod trees;

pub use returns::{tailed, tails};
pub use trees::{Expr, Function, Operator, Parameter, Stmt};
