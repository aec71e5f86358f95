#![tactic(auto)]

//! The choice for a table of persons and things, from its text: a least choice of pairs, or why
//! there is none, or all faults of the table.
//!
//! It builds on `mcf_table`, `mcf_roster_reading` and `mcf_roster`, for groups on
//! `mcf_group_reading` and `mcf_groups`, and uses any solver that
//! `mcf_model` takes. The definitions are in `specs/`: `PairRanges` says how many each may have,
//! `PairCosts` what pairs cost in whole units, `PairRosters` which roster a table is,
//! `PairForms` which rows of a table are read, `PairAnswers` what is answered, `PairGroups` which
//! groups a second table has, `GroupSets` which of them a choice keeps to, and `GroupedAnswers` and
//! `GroupAnswers` what is answered then.

mod answering;
mod costs;
mod group_answer;
mod group_options;
mod group_sets;
mod grouped;
mod grouping;
mod options;
mod pair_answer;
mod prepared;
mod ranges;
mod rosters;

pub use answering::{ChoiceAnswer, SolvedPairs, TableAnswer};
pub use group_answer::{BrokenTexts, GroupsAnswer, SaidGroups, plan_groups};
pub use group_options::{AtCrossing, GroupTexts};
pub use grouped::{
    Asked, BeyondNumber, ChosenGroups, CompetingGroups, GroupTableAnswer, GroupedChoice,
    GroupedRoster, SetsAnswer, SolvedGroups,
};
pub use options::{CostTexts, Each, Options};
pub use pair_answer::{PairAnswer, SaidTable, plan_pairs};
pub use prepared::Done;
