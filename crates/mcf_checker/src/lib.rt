#![tactic(auto)]

//! The judge of answers: a verdict from the two texts alone.
//!
//! It builds on `mcf_text`, `mcf_instance` and `mcf_answer`, and shares no code with any solver
//! except the reading of texts. The definitions in `specs/`: `Correct` says when an answer is
//! right, `Amounts` which answer arrays stand for, `Judging` which verdict applies first, `Laws`
//! that these agree, `Printed` and `Lines` what is printed, and `Runs` what a run of the command
//! does.

mod amounts;
mod checking;
mod command;
mod laws;
mod price;
mod printing;
mod set;
mod solution;
mod sparse;
mod stated;
mod verdict;

pub use checking::{check, check_amounts, check_flow};
pub use command::{FileFault, judge};
pub use laws::correct_answers_are_accepted;
pub use price::Price;
pub use verdict::Verdict;
