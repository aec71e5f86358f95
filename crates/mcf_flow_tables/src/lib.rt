#![tactic(auto)]

//! The plan for a table of places and a table of routes, from their texts: a least plan, or why
//! there is none, or all faults of the tables.
//!
//! It builds on `mcf_table`, `mcf_forms`, `mcf_reading`, `mcf_units` and `mcf_places`, and uses any
//! solver that `mcf_model` takes. The definitions are in `specs/`: `TableTexts` says which rows a
//! text is, `Prepared` which of them are read, `Lacking` which heads tables lack, and
//! `TableAnswers` what is answered.

mod answering;
mod flow_answer;
mod lacking;
mod options;
mod period_answer;
mod prepared;
mod table_texts;

pub use answering::{ProblemAnswer, SolvedProblem, TableAnswer};
pub use flow_answer::{Broken, FlowAnswer, SaidTables, plan_tables};
pub use lacking::lacking_heads;
pub use options::{Options, Texts};
pub use period_answer::{PeriodAnswer, PeriodTableFaults, SolvedPeriods};
pub use prepared::{Done, Filled};
pub use table_texts::table_of;
