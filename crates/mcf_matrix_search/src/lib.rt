#![tactic(auto)]

//! Fast searches for least assignments and transport plans on cost matrices, and for covers that
//! show that there is no assignment.
//!
//! A proved judge checks what each search finds, so nothing is proved here of that: the searches
//! are safe and end.
//!
//! It builds on `mcf_matrix`, `mcf_columns`, `mcf_matrix_rows`, `mcf_matrix_paths` and
//! `mcf_matrix_simplex`.

mod assigning;
mod copying;
mod covers;
mod cuts;
mod found;
mod planning;
mod ranges;
mod searching;

pub use found::{Assignment, Cover, Cut, Found, FoundPlan, Plan};
pub use searching::{find_assignment, find_basic_plan, find_plan, improve_plan};
