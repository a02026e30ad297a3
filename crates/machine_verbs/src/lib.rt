//! The verbs that run the machine: `run`, `trace` and `bus`, over any shelf of files and any sink for text.
//!
//! Each is a type with the traits of `call_steps::verbs`, and does the work of its tree in `specs/`. The lines
//! of a run are printed while it runs, by the watchers [`TraceWatch`] and [`BusLines`].
#![tactic(auto)]

pub mod bus;
pub mod bus_lines;
mod bus_run;
mod levels;
pub mod run;
pub mod text_sink;
pub mod trace;
pub mod trace_watch;

pub use bus_lines::BusLines;
pub use trace_watch::TraceWatch;
