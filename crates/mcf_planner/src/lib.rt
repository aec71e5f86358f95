#![tactic(auto)]

//! Least plans by the engines of the suite.
//!
//! It builds on `mcf_model`, which defines models and their least plans, and on `mcf_solver`, which
//! solves the flow problem of a model. `Planner` is the solver that `mcf_model` calls, and
//! `plan_with` plans one model.

mod planner;

pub use planner::{Planner, plan_with};
