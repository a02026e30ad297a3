//! What goes into a run and what comes out of it, as text: inputs and outputs as JSON, and traces line by line.
//!
//! [`read_inputs`] gives the inputs that a JSON object holds for some variables, or the first fault of the text;
//! [`output_text`] is the JSON of variables' words, in the order of their names ([`output_laws`]). [`put_event`] writes
//! the line of one event to a sink, [`put_path`] that of the paths of one access, [`trace_text`] is the text of a whole
//! trace, and [`read_trace`] reads such a text again ([`written_again`]) or names the line that breaks it; a text has
//! one reading ([`trace_laws`]). The definitions in `specs/` state what each text is.
#![tactic(auto)]

mod errors;
mod events;
pub mod inputs;
mod json_numbers;
mod laws;
mod members;
mod numbers;
mod outputs;
mod passing;
mod paths;
mod texts;
mod trace_files;
mod trace_lines;
mod traces;

pub use errors::InputError;
pub use events::put_event;
pub use inputs::{INPUT_BYTES, read_inputs};
pub use json_numbers::number_given;
pub use laws::{output_laws, trace_laws, written_again};
pub use outputs::output_text;
pub use paths::{put_level, put_levels_head, put_path};
pub use texts::Name2;
pub use trace_files::{SeenEvent, TraceError, TraceFile, TraceLine, Words};
pub use traces::{read_trace, trace_text};
