//! Path ORAM: a tree of buckets and a stash, which hold each block with its leaf, and the write-back after each access.
//!
//! [`PathTree`] is the tree with its stash, without a position map: the caller names the leaf of the block that it
//! accesses. [`PathOram`] is a bank of memory that stores its blocks in such a tree, with any source of random words;
//! it also has a position map. [`Positions`] has only the numbers of the blocks, and where each is.
//! [`Positions::access`] shows the path of the leaf that it is given, assigns the block a new leaf, and writes the path
//! back greedily. No access to positions or to a bank takes memory.
#![tactic(auto)]

pub mod bucket;
mod first;
mod laws;
mod leaves;
mod oram;
mod paths;
mod positions;
mod runs;
mod scan;
mod settling;
mod tree;

pub use first::height_for;
pub use laws::{leaves_alike, word_laws, write_back_laws};
pub use leaves::{first_leaves, low_bits};
pub use oram::PathOram;
pub use positions::Positions;
pub use runs::{rearrange, words_read};
pub use tree::PathTree;
