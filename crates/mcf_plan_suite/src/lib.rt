#![tactic(auto)]

//! The whole planner's program: it does what the words of a command line ask, over a reader of
//! files and two sinks, and reports by its exit status.
//!
//! It builds on `mcf_range_text`, which plans two tables, on `mcf_pair_text`, which pairs persons
//! and things by a table, and on `mcf_plan_asking`, which reads a command line; it uses any solver
//! that `mcf_model` takes. The definitions in `specs/`: `PlanServing` says what the program does.

mod serving;
mod version;

pub use mcf_checker::FileFault;
pub use mcf_solver::{IntoWriter, Sink, SinkFault};
pub use serving::serve_plan;
pub use version::VERSION;
