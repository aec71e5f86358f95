#![tactic(auto)]

//! An engine that mends the answer to a similar net.
//!
//! Nothing is proved of the mending but that it is safe and ends: a proved judge checks its result,
//! and where it gives up, the engine `Fast` answers. The definitions in `specs/Made` say how a
//! state was made.
//!
//! It builds on `mcf_fast`, and takes the judge from `mcf_fast_scaling`.

mod again;
mod heap;
mod judging;
mod mending;
mod search;
mod star;
mod tuning;

pub use again::{Again, Hint};
