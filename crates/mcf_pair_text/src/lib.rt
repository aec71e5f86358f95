#![tactic(auto)]

//! The answer to a table of persons and things as the text of a table, which programs write and
//! other programs read.
//!
//! It builds on `mcf_pair_tables`, which has the answer, and on `mcf_answer_rows`, which writes
//! rows. The definitions are in `specs/`: `PairPlaces` says where the parts of a table stand,
//! `PairFaultRows` how faults are told, `MemberRows` how persons and things are, `PairRows` how
//! choices and competitions are, `DoneRows` what was done to the table before, and `PairTexts` the
//! whole text. For groups, `GroupRows` says how their counts are told, `GroupFaultRows` their
//! faults, and `GroupTexts` the whole text.

mod done;
mod fault_rows;
mod group_faults;
mod group_telling;
mod groups;
mod members;
mod pages;
mod rows;
mod telling;
mod words;

pub use group_telling::group_text;
pub use mcf_answer_rows::{PlanText, TextKind};
pub use telling::pair_text;
