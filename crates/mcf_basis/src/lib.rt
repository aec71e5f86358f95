#![tactic(auto)]

//! Bases of the network simplex: a spanning tree over a root and the nodes of a net, with an
//! artificial arc for each node, amounts and prices (Ahuja, Magnanti and Orlin, Network Flows,
//! chapter 11).
//!
//! It builds on `mcf_network` and `mcf_tree`. The definitions in `specs/`: `Artificial` adds the
//! artificial arcs to a net; `Structures` has what clauses see of a basis, its paths and its
//! cycles; `Bases` says what every basis satisfies, `Starts` how a run begins, `Violations` how
//! much an arc violates optimality, `Pivots` what one pivot does, `Steps` what it returns, `Ranks`
//! how many there can be, `Laws` what follows; `Private/` how a basis is stored and what the steps
//! of a pivot do to it.

mod basis;
mod climb;
mod cycle;
mod ending;
mod exchange;
mod laws;
mod least_offer;
mod offer;
mod pivot;
mod price_table;
mod push;
mod reprice;
mod residuals;
mod starting;

pub use basis::Basis;
pub use laws::{
    bases_are_tree_solutions, last_bases_are_feasible, last_bases_are_shown, pivots_keep_bases,
    pivots_lower_the_pair, ranks_bound_pivots, ranks_count_down, ranks_fall,
};
pub use pivot::PivotStep;
