#![tactic(auto)]

//! Numbers of tables: cells that say a number, with a point or a comma before decimals and with or
//! without something between thousands, as exact decimals; and decimals as text.
//!
//! It builds on `mcf_text`. The definitions are in `specs/`: `Numbers` says which cells are numbers
//! and which mark a cell shows, `Signs`, `Groups` and `Exponents` the parts of a number, `Settled`
//! which mark many cells show, `Decimals` what a decimal stands for, `Written` its text.

mod cells;
mod cuts;
mod decimal;
mod exponents;
mod fault;
mod groups;
mod laws;
mod mark;
mod numbers;
mod settled;
mod signs;
mod written;

pub use decimal::Decimal;
pub use fault::NumberFault;
pub use laws::{cells_say_one_number, whole_numbers_read_alike};
pub use mark::Mark;
pub use numbers::{mark_in, number};
pub use settled::{Marks, Settled};
pub use written::put_decimal;
