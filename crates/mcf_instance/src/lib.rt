#![tactic(auto)]

//! The meaning of instance texts, and of arrays.
//!
//! It builds on `mcf_text` and `mcf_flows`, whose vocabulary it re-exports. The definitions in
//! `specs/`: `Fault` and `Reading` define the meaning of a text, `Feeding` and `ReadOn` the state
//! of a reader of pieces, `Memory` where reading allocates, `Arrays` the meaning of arrays, `Laws`
//! how wider limits keep instances.

mod arrays;
mod laws;
mod reader;

pub use arrays::{ArrayFault, RawArc, RawPair, assignment_problem, flow_problem};
pub use laws::former_instances_stay;
pub use mcf_flows::{
    Arc, Code, Instance, Problem, Refusal, Side, blocked_has_no_flow, blocks,
    shown_flows_are_least, table_of,
};
pub use reader::{Reader, read};
