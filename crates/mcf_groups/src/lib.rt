#![tactic(auto)]

//! Rosters with groups: each person takes a number within a range of the things of a group, such as
//! at most one shift of a day; or a number within a range of the persons of a group takes each
//! thing, such as at least two with a skill.
//!
//! It builds on `mcf_roster` and `mcf_model`. A group splits places of the roster's model: pairs of
//! a person with things of the group leave a new place, to which one route leads, with the group's
//! range. So groups of one kind must be nested or disjoint, and an outer one comes before an inner
//! one. The definitions are in `specs/`: `Splits` and `SplitLaws` have the splitting of places, for
//! any model, `Groups` groups and choices that keep to them, `Nests` where pairs stand,
//! `GroupModels` the models, `GroupLaws` the laws between both, `GroupFaults` the faults,
//! `Crossings` which group a group crosses, `Orders` which order puts outer groups first and which
//! groups cross then, `GroupAnswers` the answers, `MarkedPlaces` what marked places are told by,
//! `BoundSums` what that adds up to, and `Counts` how many members of a group anyone has.

mod answering;
mod bounds;
mod counting;
mod crossings;
mod faults;
mod groups;
mod grown;
mod laws;
mod linking;
mod making;
mod nesting;
mod nests;
mod ordering;
mod telling;

pub use answering::{GroupAnswer, GroupCompetition, least};
pub use bounds::GroupBound;
pub use counting::{GroupCount, broken_of, counts_of};
pub use crossings::crossed_by;
pub use faults::{GroupFault, GroupFaultKind, PLACE_LIMIT};
pub use groups::{Group, Members};
pub use laws::{
    counts_are_of_choices, crossings_are_cut, groups_add_to_more, groups_are_models,
    least_plans_are_least_group_choices, orders_have_all, orders_keep_choices, splits_keep_plans,
};
pub use making::group_model;
pub use ordering::{Arrangement, Crossing, arranged, order_of};
pub use telling::{ToldGroups, competition_of};
