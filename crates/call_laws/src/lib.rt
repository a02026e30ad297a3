//! What a call of `ghostrider` promises, and what follows from it: the work of each verb as a tree (`specs/Verbs`), the
//! promises (`specs/Promises`), the headline (`specs/Headline`), and the laws about them ([`laws`]).
//!
//! The trees of `run`, `trace` and `bus` are in `machine_verbs`. The laws are about definitions only, so they aren't
//! proved again if the code of another verb changes. That the code does the work of the trees is in the contracts of
//! `ghost_cli`.
#![tactic(auto)]

pub mod laws;

pub use laws::{
    bus_agrees, calls_as_meant, compiled_runs, compiled_texts, headline_follows, inferred_once,
    leaves_counted, one_answer, one_source, promises_follow, some_answer, trace_agrees,
    trace_alone, traces_agree, words_ask,
};
