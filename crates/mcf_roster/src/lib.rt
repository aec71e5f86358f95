#![tactic(auto)]

//! Rosters: persons take things, such as shifts, rooms or jobs, by pairs that may be chosen.
//!
//! It builds on `mcf_model`: each roster is a model of that crate, and `least` uses any solver that
//! it takes. The definitions are in `specs/`: `Rosters` has rosters and choices, `Models` their
//! models, `RosterLaws` the laws between both, `RosterFaults` the faults of a roster,
//! `Competitions` the reasons why it has no choice, `Amounts` the numbers that are told with them,
//! `RosterAnswers` the answers, `ToldSums` what those numbers add up to, and `Origins` where a
//! number beyond the limits comes from.

mod amounts;
mod answering;
mod faults;
mod laws;
mod making;
mod origins;
mod pairs;
mod reading;
mod rosters;
mod rows;
mod told;

pub use amounts::Amounts;
pub use answering::{LeastChoice, RosterAnswer, least};
pub use faults::{RosterFault, SIZE_LIMIT};
pub use laws::{
    competitions_add_to_more, competitions_have_no_choice, least_plans_are_least_choices,
    rosters_are_models,
};
pub use making::model_of;
pub use origins::{Origin, origin_of};
pub use pairs::{Pair, Range};
pub use reading::choice_of;
pub use rosters::Roster;
pub use rows::{plain_row, push_persons, push_things};
pub use told::Competition;
