//! Warnings of what a source that is accepted may not mean.
//!
//! [`warn_of_source`] writes them. No contract fixes these words; it is proved that the call ends and is safe.
#![tactic(auto)]

mod warned_tokens;
mod warnings;

pub use warnings::warn_of_source;
