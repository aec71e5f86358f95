#![tactic(auto)]

//! Tables in other forms than those that are read: a last row of totals that is left out, a matrix
//! of costs of routes and a sheet of wishes that become lists, columns that are filled down.
//!
//! It builds on `mcf_table`, `mcf_decimal` and `mcf_names`. The definitions are in `specs/`:
//! `Cells` names cells and columns; `Totals` says what a row of totals is, and `Sums` which numbers
//! add up; `Matrices` says which table is a matrix, and its routes; `Wishes` which one is a sheet
//! of wishes, and its pairs, and `Ranks` which heads say a rank; `Filled` which cells take the one
//! above them.

mod cells;
mod columns;
mod filled;
mod matrices;
mod ranks;
mod sheets;
mod sums;
mod totals;
mod wishes;

pub use cells::first_column;
pub use columns::{FilledColumns, Filling, filled_columns};
pub use filled::{FilledDown, filled_down};
pub use matrices::routes_of;
pub use totals::{WithoutTotal, without_total};
pub use wishes::{WishList, wishes_of};
