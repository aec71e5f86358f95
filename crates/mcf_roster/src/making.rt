//! The model of a roster.
ghost use Rattle.std.specs.Prelude.{◌≡◌, IfOk};
ghost use Rattle.mcf_roster.specs.Models.{model_of};

use crate::rosters::Roster;
use crate::rows::{hub_of, rows_of};
use mcf_model::{PlanModel, Step};
use mcf_text::{NoMemory, copies};
use std::alloc::Global;

/// Returns the model of a roster. Its places are the persons, after them the things, and last a
/// hub; its routes are those of the pairs, then one from the hub to each person, and one from each
/// thing to the hub.
///
/// # Errors
/// `NoMemory` if an allocation is refused. The model always has a place, so it always allocates.
pub fn model_of(alloc: Global, roster: &Roster) -> Result<PlanModel, NoMemory>
    ensures { IfOk result (λ made. made ≡ model_of roster.now) }
{
    let hub = hub_of(roster.takes(), roster.needs());
    let supplies = copies(alloc, hub as usize, 0i64)?;
    let rows = rows_of(alloc, roster)?;
    let steps: Vec<Step> = Vec::new(alloc);
    match PlanModel::of(supplies, steps, rows) {
        Ok(model) => Ok(model),
        Err(_) => unreachable!(),
    }
}
