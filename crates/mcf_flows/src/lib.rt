#![tactic(auto)]

//! The vocabulary of flows: networks, flows, prices and node sets, and instances as they are
//! stored.
//!
//! It builds on `mcf_text`. The definitions in `specs/`: `Network`, `Flow`, `Blocking`,
//! `Assignment` and `Laws` define networks, flows, prices and node sets; `Limits` and `WellFormed`
//! what every instance satisfies; `Packed` what is stored; `Codes` what can be wrong with a text.

mod arc;
mod arc_table;
mod blocking;
mod code;
mod instances;
mod laws;
mod limits;
mod problem;
mod refusal;

pub use arc::{Arc, Link, PackedArc};
pub use arc_table::ArcTable;
pub use blocking::{blocks, table_of};
pub use code::Code;
pub use instances::Instance;
pub use laws::{blocked_has_no_flow, shown_flows_are_least};
pub use limits::{
    AMOUNT_LIMIT, ARC_LIMIT, BOUND_LIMIT, COST_LIMIT, LINE_LIMIT, NODE_LIMIT, SUPPLY_LIMIT,
    TOTAL_LIMIT,
};
pub use problem::{Problem, Side};
pub use refusal::Refusal;
