#![tactic(auto)]

//! The tables of places and of routes, as exact decimals: what their rows say, or all their faults.
//!
//! It builds on `mcf_table`, `mcf_decimal` and `mcf_names`. The definitions are in `specs/`:
//! `HeadTexts` and `Columns` say which columns are read, `ShownMarks` which mark stands before
//! decimals, `Cells`, `PlaceRows` and `RouteRows` what a row says and which faults it has,
//! `NearHeads` which heads are nearly those that are read, `Faults` the other faults, and `Reading`
//! what both tables say together.

mod cells;
mod columns;
mod head_faults;
mod heads;
mod kinds;
mod locations;
mod marks;
mod near_heads;
mod place_rows;
mod reading;
mod route_rows;
mod steps;
mod tables;
mod told;

pub use heads::{has_periods, head_text};
pub use kinds::{Fault, FaultKind};
pub use locations::{ColumnAt, Head, Location, Table};
pub use place_rows::{BoundsEntry, PlaceEntry};
pub use reading::{read, read_heads, read_rows};
pub use steps::StepEntry;
pub use tables::{Faults, RouteEntry, Tables};
