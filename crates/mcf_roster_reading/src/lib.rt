#![tactic(auto)]

//! A table of persons and things, as exact decimals: who may take what, at which cost, and how many
//! each may have; or all faults of its heads and cells.
//!
//! It builds on `mcf_table`, `mcf_decimal` and `mcf_names`. The definitions are in `specs/`:
//! `Columns` says which columns are read, `NearHeads` which heads are nearly theirs, `Layouts` in
//! which cells a list or a matrix has names, numbers and costs, `Sayings` what a cell says on how
//! many one may have; `Naming`, `Said`, `Pairs` and `Repeated` what cells say together, and their
//! faults; `CostMarks` which mark stands before decimals; and `Reading` what the table says.

mod cells;
mod heads;
mod kinds;
mod layouts;
mod marks;
mod matrix;
mod naming;
mod near_heads;
mod pairs;
mod reading;
mod repeated;
mod said;
mod sayings;
mod tables;

pub use heads::is_list;
pub use kinds::{Fault, FaultKind, Head, Location};
pub use pairs::PairEntry;
pub use reading::read;
pub use sayings::Saying;
pub use tables::{Faults, RosterTable};
