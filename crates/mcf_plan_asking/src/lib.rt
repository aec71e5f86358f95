#![tactic(auto)]

//! The meaning of the words of a planner's command line.
//!
//! It builds on `mcf_asking`, whose options with named values it uses, and on the library `clap`,
//! which reads words. The definitions in `specs/`: `PlanAsking` says what a command line asks.

mod asking;

pub use asking::{AskedEach, AskedFlow, AskedPairs, AskedPlan, plan_command};
