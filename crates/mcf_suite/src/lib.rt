#![tactic(auto)]

//! The whole program: it does what the words of a command line ask, and reports by its exit status.
//!
//! It builds on `mcf_solver`, which solves a text and carries an answer from a source to a sink,
//! and on `mcf_asking`, which reads a command line, and re-exports the public names of both. The
//! definitions in `specs/`: `Serving` says what the program does.

mod serving;
mod version;

pub use mcf_asking::{Asked, command};
pub use mcf_solver::{
    BlockSize, Choice, EngineChoice, Form, FromReader, IntoWriter, Kind, PricingChoice, RunFault,
    Sink, SinkFault, Source, SourceFault, run, solve_text,
};
pub use serving::serve;
pub use version::VERSION;
