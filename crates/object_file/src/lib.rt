//! Objects as bytes: the object file.
//!
//! [`decode`] returns the object that a file's bytes encode, or the file's first error and its place. [`encode`]
//! returns the one encoding of an object. `specs/Spelling.antt` defines the encoding of an object, `specs/Fields.antt`
//! which fields a file has and what is allowed in each, and `specs/FirstFaults.antt` which error comes first.
#![tactic(auto)]

mod decoding;
mod encoding;
mod errors;
mod fields;
mod header;
mod instructions;
mod laws;
mod notes;
mod symbols;

pub use decoding::decode;
pub use encoding::encode;
pub use errors::DecodeError;
pub use laws::format_laws;
