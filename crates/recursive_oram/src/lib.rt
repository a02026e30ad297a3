//! Recursive Path ORAM: the leaves of a tree's blocks are the words of a smaller tree, and so on, until so few are left
//! that they are held in a plain list.
//!
//! [`RecursiveOram`] is a bank of memory over any source of random words. An access leads through each of its trees,
//! from the smallest down to that of the blocks, and allocates no memory. The list of leaves that it shows depends only
//! on the words and the accessed blocks.
#![tactic(auto)]

mod laws;
mod leading;
mod making;
mod oram;

pub use laws::level_laws;
pub use oram::RecursiveOram;
