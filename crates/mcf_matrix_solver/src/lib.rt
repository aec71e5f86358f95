#![tactic(auto)]

//! Least assignments and transport plans of cost matrices, by a fast search and a proved judge of
//! all that it finds. So each answer is proved right, but not that there is an answer.
//!
//! It builds on `mcf_matrix` and `mcf_matrix_search`.

mod assigning;
mod planning;

pub use assigning::{Assigned, assign};
pub use mcf_matrix::{FORBIDDEN, Masses, Matrix, MatrixFault, Shipment};
pub use mcf_matrix_search::{Assignment, Cover, Cut, Plan};
pub use planning::{Planned, plan};
