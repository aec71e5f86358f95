#![tactic(auto)]

//! The answer to two tables as the text of a table, which programs write and other programs read.
//!
//! It builds on `mcf_flow_tables`, which has the answer, and on `mcf_plan_rows`, which has the
//! rows. `specs/PlanTexts` says what the whole text is.

mod telling;

pub use mcf_answer_rows::{PlanText, TextKind};
pub use telling::{answer_text, plan_text};
