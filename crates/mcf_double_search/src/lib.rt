#![tactic(auto)]

//! Searches for least assignments and transport plans of cost matrices of doubles.
//!
//! Nothing is proved of what they find, since proved judges check it: the searches are safe and
//! end.
//!
//! It builds on `mcf_matrix_doubles` and `mcf_matrix_search`. It cuts the entries to multiples of a
//! power of 2, has a matrix of whole costs searched, and then makes the answer exact, by the pairs
//! whose reduced cost is near 0.

mod cutting;
mod found;
mod found_plan;
mod lines;
mod near;
mod planning;
mod refining;
mod searching;
mod staging;
mod turning;
mod window;

pub use found::{DoubleAssignment, DoubleFound};
pub use found_plan::{DoubleFoundPlan, DoublePlan};
pub use mcf_matrix_search::{Cover, Cut};
pub use planning::find_plan;
pub use searching::find_assignment;
