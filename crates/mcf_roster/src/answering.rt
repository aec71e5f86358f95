//! The least choice of a roster, or the reason why it has no choice.
ghost use Rattle.std.specs.Prelude.{◌≡◌, ◌==◌, ◌+◌, ◌≤◌, IfOk, OnErr, length};
ghost use Rattle.mcf_roster.specs.RosterAnswers.{IsRosterAnswer};
ghost use Rattle.mcf_roster.specs.RosterFaults.{IsSoundRoster};

use crate::making::model_of;
use crate::reading::choice_of;
use crate::rosters::Roster;
use crate::told::{Competition, told};
use mcf_instance::ArrayFault;
use mcf_model::{Planned, Solves, plan};
use mcf_text::NoMemory;
use std::alloc::Global;

/// A least choice of a roster: for each pair, in order, whether it is chosen; and what the chosen
/// pairs cost.
#[derive(Drop)]
pub struct LeastChoice {
    pub chosen: Vec<bool>,
    pub value: i128,
}

/// The answer for a roster.
#[derive(Drop)]
pub enum RosterAnswer {
    /// A least choice.
    Least(LeastChoice),
    /// There is no choice, since these persons and things compete.
    NoChoice(Competition),
    /// The first fault of the network of the roster's model: a number beyond the limits.
    Beyond(ArrayFault),
}

// Returns whether there are no persons and no things.
fn is_vacant(roster: &Roster) -> bool
    ensures value { result ≡ ((length roster.now.takes + length roster.now.needs) == 0) }
    ensures sound { IsSoundRoster roster.now }
{
    roster.takes().len() + roster.needs().len() == 0
}

// Returns the answer for a roster, from its model.
fn from_model<S: Solves>(
    alloc: Global,
    solver: &mut S,
    roster: &Roster,
) -> Result<RosterAnswer, NoMemory>
    requires sound { IsSoundRoster roster.now }
    ensures { IfOk result (IsRosterAnswer roster.now) }
{
    let model = model_of(alloc, roster)?;
    let planned = plan(alloc, solver, &model)?;
    match planned {
        Planned::Plan(found) => {
            let chosen = choice_of(alloc, roster, &found.carries)?;
            Ok(RosterAnswer::Least(LeastChoice {
                chosen,
                value: found.cost,
            }))
        }
        Planned::NoPlan(found) => {
            let competition = told(alloc, roster, &found)?;
            Ok(RosterAnswer::NoChoice(competition))
        }
        Planned::Beyond(fault) => Ok(RosterAnswer::Beyond(fault)),
    }
}

/// Returns a choice that costs the least, with what it costs; or persons and things that compete,
/// if the roster has no choice; or the first fault of the network of its model: a number beyond the
/// limits.
///
/// # Errors
/// `NoMemory` if an allocation is refused; a roster without persons and things needs none.
pub fn least<S: Solves>(
    alloc: Global,
    solver: &mut S,
    roster: &Roster,
) -> Result<RosterAnswer, NoMemory>
    ensures answer { IfOk result (IsRosterAnswer roster.now) }
    ensures wants { OnErr result (1 ≤ (length roster.now.takes + length roster.now.needs)) }
{
    if is_vacant(roster) {
        return Ok(RosterAnswer::Least(LeastChoice {
            chosen: Vec::new(alloc),
            value: 0,
        }));
    }
    from_model(alloc, solver, roster)
}
