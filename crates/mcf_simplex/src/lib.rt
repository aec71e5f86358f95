#![tactic(auto)]

//! The network simplex, over any lawful pricing rule.
//!
//! It builds on `mcf_basis` and `mcf_engine`. The definitions in `specs/`: `Picking`, `Blocks`,
//! `Stretches` and `Following` say which arc a rule picks, `Runs` how a state was made, and `Laws`
//! what holds of such states.

mod best;
mod block;
mod first;
mod following;
mod laws;
mod parts;
mod pricing;
mod run;
mod simplex;
mod wide;

pub use best::Best;
pub use block::Block;
pub use first::First;
pub use following::Following;
pub use laws::runs_are_tree_solutions;
pub use mcf_basis::{Basis, PivotStep};
pub use parts::{Run, RunCounts};
pub use pricing::Pricing;
pub use simplex::{Ended, Simplex};
pub use wide::Wide;
