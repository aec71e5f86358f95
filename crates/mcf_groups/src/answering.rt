//! The least choice of a roster with groups, or the reason why it has no choice.
ghost use Rattle.std.specs.Prelude.{◌≡◌, ◌≤◌, IfOk, None, map, length};
ghost use Rattle.mcf_flows.specs.Blocking.{in_table};
ghost use Rattle.mcf_groups.specs.GroupAnswers.{HasNoGroupChoice, IsGroupAnswer, IsGroupResult};
ghost use Rattle.mcf_groups.specs.GroupFaults.{group_fault};
ghost use Rattle.mcf_groups.specs.GroupModels.{group_model};
ghost use Rattle.mcf_model.specs.Complements.{turned_if};
ghost use Rattle.mcf_model.specs.Planning.{HasNoPlan};
ghost use Rattle.mcf_roster.specs.Models.{hub_of};
ghost use Rattle.mcf_roster.specs.RosterFaults.{IsSoundRoster};

use crate::faults::GroupFault;
use crate::groups::Group;
use crate::making::group_model;
use mcf_flows::{Side, table_of};
use mcf_instance::ArrayFault;
use mcf_model::{Bottleneck, PlanModel, Planned, Solves, plan, side_told, turned_if};
use mcf_roster::{LeastChoice, Roster, choice_of};
use mcf_text::NoMemory;
use std::alloc::Global;

/// Places of the model that must send, or take, more than they can, among which the hub isn't. The
/// persons of the set, and those of them that stand in it for a group, must take more than is left
/// for them, if `side` is `Send`; if it is `Take`, the things of it must give more.
#[derive(Drop)]
pub struct GroupCompetition {
    /// For each place of the model, in order, whether it is one of them: the persons, the things,
    /// the hub, and for each group each person if it is one of things, and otherwise each thing.
    pub places: Vec<bool>,
    pub side: Side,
}

/// The answer for a roster with groups.
#[derive(Drop)]
pub enum GroupAnswer {
    /// A least choice.
    Least(LeastChoice),
    /// There is no choice, since these places compete.
    NoChoice(GroupCompetition),
    /// The first fault of the network of the model: a number beyond the limits.
    Beyond(ArrayFault),
}

// Turns all marks of a table, if they have to be.
fn turn_all(turned: bool, table: &mut [bool])
    ensures { table.new ≡ map (turned_if turned) table.old }
{
    for place in 0..table.len() {
        table[place] = turned_if(turned, table[place]);
    }
}

// Returns whether a table marks the hub.
fn marks_hub(roster: &Roster, table: &[bool]) -> bool
    ensures { result ≡ in_table table.now (hub_of roster.now) }
{
    match table.get(roster.takes().len() + roster.needs().len()) {
        Some(mark) => *mark,
        None => false,
    }
}

// Returns a bottleneck of the model without the hub.
fn told(
    alloc: Global,
    roster: &Roster,
    groups: &[Group],
    model: &PlanModel,
    found: &Bottleneck,
) -> Result<GroupCompetition, NoMemory>
    requires sound { IsSoundRoster roster.now }
    requires fine { group_fault roster.now groups.now ≡ None }
    requires model { model.now ≡ group_model roster.now groups.now }
    requires none { HasNoPlan model.now found.now }
    ensures { IfOk result (HasNoGroupChoice roster.now groups.now) }
{
    let mut places = table_of(alloc, model.place_count() as u32, &found.places)?;
    let turned = marks_hub(roster, &places);
    turn_all(turned, &mut places);
    Ok(GroupCompetition {
        places,
        side: side_told(turned, found.side),
    })
}

// Returns the answer for a roster, from its model.
fn from_model<S: Solves>(
    alloc: Global,
    solver: &mut S,
    roster: &Roster,
    groups: &[Group],
    model: &PlanModel,
) -> Result<GroupAnswer, NoMemory>
    requires sound { IsSoundRoster roster.now }
    requires fine { group_fault roster.now groups.now ≡ None }
    requires model { model.now ≡ group_model roster.now groups.now }
    ensures { IfOk result (IsGroupAnswer roster.now groups.now) }
{
    let planned = plan(alloc, solver, model)?;
    match planned {
        Planned::Plan(found) => {
            let chosen = choice_of(alloc, roster, &found.carries)?;
            Ok(GroupAnswer::Least(LeastChoice {
                chosen,
                value: found.cost,
            }))
        }
        Planned::NoPlan(found) => {
            let competition = told(alloc, roster, groups, model, &found)?;
            Ok(GroupAnswer::NoChoice(competition))
        }
        Planned::Beyond(fault) => Ok(GroupAnswer::Beyond(fault)),
    }
}

/// Returns a choice that keeps to all groups and costs the least, with what it costs; or places of
/// the model that compete, if there is no such choice; or the first fault of the network of the
/// model: a number beyond the limits. Outer groups come before inner ones; the first fault of the
/// groups is returned where they have one.
///
/// # Errors
/// `NoMemory` if an allocation is refused.
pub fn least<S: Solves>(
    alloc: Global,
    solver: &mut S,
    roster: &Roster,
    groups: &[Group],
) -> Result<Result<GroupAnswer, GroupFault>, NoMemory>
    ensures { IfOk result (IsGroupResult roster.now groups.now) }
{
    match group_model(alloc, roster, groups)? {
        Ok(model) => {
            let answer = from_model(alloc, solver, roster, groups, &model)?;
            Ok(Ok(answer))
        }
        Err(fault) => Ok(Err(fault)),
    }
}
