#![tactic(auto)]

//! What the texts of answers share: cells, rows of faults, the rows of the tables themselves, the
//! words of what is wrong with a cell, and what is told of tables in other forms.
//!
//! It builds on `mcf_table`, which writes rows, on `mcf_reading`, which says what a cell is, and on
//! `mcf_forms`. The definitions are in `specs/`: `Lines` says what the text of rows is,
//! `AnswerRows` which rows and cells answers have, `TableRows` how an answer repeats a table,
//! `FormRows` what is told of a matrix, of wishes, of rows of totals and of columns that were
//! filled down, and `FaultWords` how faults are told.

mod answers;
mod cells;
mod faults;
mod filled;
mod table_rows;
mod texts;
mod told;
mod words;

pub use answers::{put_answer, put_number_row};
pub use cells::{
    cell_at, cell_under, decimal_cell, line_at, line_cell, next_cell, number_cell, place_of,
    put_line,
};
pub use faults::{Wrong, put_fault};
pub use filled::{put_filled, put_lacking};
pub use table_rows::{put_mark, put_table};
pub use texts::{PlanText, TextKind};
pub use told::{put_told, put_wishes};
pub use words::{field_word, name_word, number_word, too_great};
