#![tactic(auto)]

//! The interface of every engine, and what engines share: the greatest prices that show a state,
//! from prices that nearly show it, and a priority queue of nodes.
//!
//! It builds on `mcf_network`. The definitions in `specs/`: `Outcomes` says what an
//! engine answers, `NegativeCycles` along which cycles a state would become cheaper, `NearPrices`
//! from which prices `Pricer::raise` begins, `SmallPrices` how far from 0 its prices lie, `Heaps`
//! what such a queue holds, `Laws` what follows, `Respecting` which prices no residual arc lowers,
//! and `Private/` what the search keeps, which entries a queue has and what a list of the arcs that
//! may lower a price has.

mod engine;
mod heap;
mod laws;
mod near_state;
mod pricer;
mod raising;
mod shortlist;

pub use engine::{Engine, Outcome};
pub use heap::Heap;
pub use laws::greatest_prices_are_small;
pub use pricer::{Pricer, optimal_prices_are_near, shown_prices_are_near};
