#![tactic(auto)]

//! The network simplex on a cost matrix, without a copy of the matrix as a network, for transport
//! plans and matchings. Nothing is proved of what it finds: it is safe and ends.
//!
//! It builds on `mcf_columns` and `mcf_matrix_rows`.

mod basis;
mod plan;
mod transport;
mod tuning;

pub use basis::Basis;
pub use plan::Cell;
pub use transport::{improve_plan, search_matching, search_plan};
