#![tactic(auto)]

//! Cost scaling, an engine for every net (Goldberg and Tarjan; Ahuja, Magnanti and Orlin, Network
//! Flows, section 10.3).
//!
//! It builds on `mcf_network`, `mcf_feas` and `mcf_engine`. The definitions in `specs/`:
//! `Refinements` and `Optimality` say what a refinement holds and keeps, `Phases` what its steps do
//! and what runs of them are, `Scales` how many phases a net takes, `Made` how the engine made a
//! state, `Laws` what holds of steps and phases; `CurrentArcs`, `Stars` and `Queues` what the
//! current arcs, the forward star and the queue of a refinement keep; `Leasts` the least of some
//! numbers.

mod current_arcs;
mod filling;
mod laws;
mod marks;
mod pricing;
mod queue;
mod refine;
mod scale;
mod scaling;
mod star;
mod steps;

pub use laws::{nearly_least_have_no_cycle, phases_end, prices_rise_little, runs_keep_bounds};
pub use refine::Refine;
pub use scaling::Scaling;
