#![tactic(auto)]

//! Least assignments and transport plans of cost matrices of doubles, by a fast search and a proved
//! judge of all that it finds. So each answer is proved right, but not that there is an answer.
//!
//! It builds on `mcf_matrix_doubles` and `mcf_double_search`.

mod assigning;
mod planning;
mod rounding;

pub use assigning::{DoubleAssigned, assign};
pub use mcf_double_search::{Cover, Cut, DoubleAssignment, DoublePlan};
pub use mcf_matrix::{Masses, Shipment};
pub use mcf_matrix_doubles::{DoubleFault, DoubleMatrix};
pub use planning::{DoublePlanned, plan};
