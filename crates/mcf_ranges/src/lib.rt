#![tactic(auto)]

//! From what to what the cost of an arc may change while a flow stays least.
//!
//! It builds on `mcf_network`, and on the priority queue of `mcf_engine`. The definition is in
//! `specs/Ranges.antt`; `Private/` has the distances on which the ranges rest, and what a search
//! for one keeps.

mod distance;
mod range;
mod ranging;
mod search;
mod shown;

pub use range::CostRange;
pub use ranging::cost_ranges;
