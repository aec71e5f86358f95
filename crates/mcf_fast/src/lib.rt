#![tactic(auto)]

//! An engine for every net: the network simplex, watched; where a search is expected to be faster,
//! the search, with a judge.
//!
//! It builds on `mcf_fast_scaling` and `mcf_simplex`. The definitions in `specs/Made` say how a
//! state was made. `watch` has the
//! leaving rule with all its numbers.

mod fast;
mod running;
mod watch;

pub use fast::Fast;
