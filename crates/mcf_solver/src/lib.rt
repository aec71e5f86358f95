#![tactic(auto)]

//! From a DIMACS text to an answer with its certificate, by an engine; and the same from a source
//! to a sink.
//!
//! It builds on all the crates below, and on the definitions and one law of `mcf_checker`, and
//! re-exports the public names of `mcf_choice`. The command line is added by `mcf_suite`. The
//! definitions in `specs/`: `ChosenSolutions` says which of several right answers is given,
//! `Making` by which engine, `Forms` in which form, `Answering` what the answer to a text must be,
//! `Devices` and `Running` what a run from a source to a sink does.

mod device;
mod fault;
mod flow;
mod hint;
mod kind;
mod meant;
mod running;
mod set;
mod solving;
mod sparse;

pub use device::{FromReader, IntoWriter, Sink, SinkFault, Source, SourceFault};
pub use fault::RunFault;
pub use kind::Kind;
pub use mcf_choice::{BlockSize, Choice, EngineChoice, Form, PricingChoice};
pub use running::{run, send};
pub use solving::{solve_instance, solve_instance_from, solve_text};
