#![tactic(auto)]

//! A table of groups of persons, or of things, that another table names: the members of each group,
//! and how many of them anyone may have; or all faults of its heads and cells.
//!
//! It builds on `mcf_table` and `mcf_names`, and on definitions of `mcf_roster_reading`. The
//! definitions are in `specs/`: `GroupHeads` says which columns are read, `NearHeads` which heads
//! are nearly theirs, `GroupRows` which group and which member a row names, `RowFaults` what is
//! wrong with a row, `Limits` what rows say on how many members anyone has, and `GroupReading` what
//! the table says.

mod cells;
mod heads;
mod kinds;
mod limits;
mod near_heads;
mod reading;
mod row_faults;
mod rows;
mod tables;

pub use heads::head_word;
pub use kinds::{Fault, FaultKind, Head, Location};
pub use reading::read;
pub use rows::{Known, MemberEntry};
pub use tables::{Faults, GroupEntry, GroupTable};
