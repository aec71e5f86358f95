#![tactic(auto)]

//! Texts as tables: the rows of a text with their lines, and their cells.
//!
//! It builds on `mcf_text`. The definitions are in `specs/`: `Rows` says what a field and a row
//! are, `Texts` which records a text says and which fault it has, `LineEnds` and `Blanks` what
//! doesn't count, `Written` how rows are a text, `HeadRows` which row has the heads, `Heads` which
//! column has a head, `NearHeads` which heads are nearly known, `Separators` and `NamedSeparators`
//! what separates fields.

mod blanks;
mod cells;
mod cuts;
mod fault;
mod fields;
mod heads;
mod laws;
mod line_ends;
mod named;
mod near;
mod reading;
mod records;
mod rows;
mod separators;
mod written;

pub use fault::{FieldFault, TextFault};
pub use heads::{CellPlace, Column};
pub use laws::{texts_are_unambiguous, written_tables_read_back};
pub use named::named_separator;
pub use near::{common_word, head_letters, head_number, is_near, is_one_edit, word_and_digits};
pub use reading::records_of;
pub use records::Records;
pub use separators::separator_of;
pub use written::put_row;
