#![tactic(auto)]

//! A fast search for a least state of a large net, about which nothing is proved but that it is
//! safe and ends, and a proved judge of what it finds.
//!
//! It builds on `mcf_network`, `mcf_engine` and `mcf_columns`. The numbers that tune its speed
//! stand in `tuning`.

mod budget;
mod judging;
mod phase;
mod refinement;
mod search;
mod searching;
mod sorting;
mod spreading;
mod star;
mod tables;
mod tuning;

pub use judging::is_shown;
pub use searching::{find_least, is_dense};
