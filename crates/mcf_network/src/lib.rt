#![tactic(auto)]

//! Nets, which are networks without lower bounds, and the residual states of flows on them.
//!
//! It builds on `mcf_flows`, and treats a net as a network whose lower bounds are 0 and whose
//! capacities are the widths. The definitions in `specs/`: `Nets` says what every net satisfies,
//! `Residual` and `Stars` what leaves a node, `Stored` how a net is stored, `States` and `Walks`
//! what a push does, `NodeSets` and `Stuck` what a search reaches, `Chosen` which
//! node set is named if no flow is feasible, `TreeSolutions` which flows have
//! no cycle of free arcs, `Removal` and `Restoring` how the net of an instance is made and which
//! flows of the instance its states stand for, and `Laws` what carries over from one to the other.

mod amounts;
mod laws;
mod leaving;
mod links;
mod net;
mod node_set;
mod removal;
mod restoring;
mod rid;
mod star;
mod state;
mod supplies;
mod surplus;
mod walk;
mod widths;

pub use laws::{
    feasible_flows_are_states, greatest_prices_carry_over, net_flows_cost_no_more,
    nets_block_alike, restored_least_flows_are_least, restored_tree_solutions_are_tree_solutions,
    stuck_sets_block,
};
pub use leaving::Leaving;
pub use net::Net;
pub use node_set::NodeSet;
pub use restoring::{restore, restored_amount};
pub use rid::Rid;
pub use state::State;
pub use supplies::unbalanced;
pub use walk::{push_along, room_along};
