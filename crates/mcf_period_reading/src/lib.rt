#![tactic(auto)]

//! What tables of places and of routes say about periods: which periods there are, in which of them
//! a row holds, what places keep from one to the next, and after how many periods what is sent
//! arrives; or all faults.
//!
//! It builds on `mcf_table`, `mcf_decimal` and `mcf_names`, and on definitions of `mcf_reading`.
//! The definitions are in `specs/`: `PeriodHeads` says which columns are read, `NearHeads` which
//! aren't because their heads are only nearly those, `PlaceTimes` and
//! `RouteTimes` what a row says and which faults it has, and `PeriodReading` what both tables say
//! together.

mod cells;
mod head_faults;
mod heads;
mod kinds;
mod near_heads;
mod place_times;
mod reading;
mod route_times;
mod spots;
mod taken;

pub use head_faults::{faults_of_heads, tells_periods};
pub use heads::PeriodHead;
pub use kinds::{PeriodFault, PeriodKind};
pub use place_times::{KeepEntry, PlaceTime, periods_in};
pub use reading::{PeriodTables, read_periods};
pub use route_times::RouteTime;
pub use spots::{Spot, first_rows, row_in};
