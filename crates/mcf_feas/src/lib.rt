#![tactic(auto)]

//! Whether a net has a feasible flow: a state without surplus, or a set of nodes that blocks every
//! flow.
//!
//! It builds on `mcf_network`. The definitions in `specs/`: `Feasible` says what `feasible`
//! answers, `Exactness` what follows from such an answer, `Pushing` what pushes keep, and
//! `Searching` what a search keeps.

mod feas;
mod laws;
mod levels;
mod path_search;
mod preflow;
mod waiting;

pub use feas::{Feas, feasible};
pub use laws::{answers_are_exact, blocked_has_no_state};
