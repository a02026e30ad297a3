//! Objects as assembly text.
//!
//! [`assemble`] reads the object that a text encodes, or returns the text's first error. [`disassemble`] writes an
//! object's canonical text, which is read as the same object ([`written_again`]). What a text encodes is a relation:
//! the words of each line encode an item, and the items encode the object. So is its first error: `specs/Forms.antt`
//! defines the forms of lines, `specs/LineRules.antt` the error of a line, and `specs/FirstFaults.antt` which error
//! comes first. [`text_laws`] has the laws of the format.
#![tactic(auto)]

mod assembly;
mod code_lines;
mod disassembly;
mod draft;
mod errors;
mod faults;
mod head_lines;
mod instructions;
mod label_keys;
mod labels;
mod laws;
mod lines;
mod mnemonics;
mod numbers;
mod operands;
mod putting;
mod reading;
mod stages;
mod symbol_lines;
mod targets;

pub use assembly::assemble;
pub use disassembly::disassemble;
pub use errors::AsmError;
pub use laws::{text_laws, written_again};
