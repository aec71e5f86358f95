#![tactic(auto)]

//! The greatest prices that show a flow, or a negative cycle, and the plain engine, which cancels
//! such cycles (a baseline for the others).
//!
//! Prices (node potentials) show a flow if no residual arc with room (residual capacity) has a
//! reduced cost below 0. A search for them lowers prices along such arcs, and links each node to
//! the arc that lowered it last (the predecessor arc); links that close are a negative cycle.
//!
//! It builds on `mcf_network`, `mcf_feas` and `mcf_engine`, whose names it re-exports. The
//! definitions in `specs/`: `Recovering` says what `recover` answers, `Laws` what follows, and
//! `Private/` what the search for prices keeps.

mod cancel;
mod laws;
mod price_search;
mod queue;
mod recovered;

pub use cancel::Cancel;
pub use laws::least_states_have_no_cycle;
pub use mcf_engine::{
    Engine, Heap, Outcome, Pricer, greatest_prices_are_small, optimal_prices_are_near,
    shown_prices_are_near,
};
pub use recovered::{Recovered, recover};
