//! The planner's problem of two tables.
ghost use Rattle.std.specs.Prelude.{◌≡◌, IfOk};
ghost use Rattle.mcf_units.specs.Answers.{IsMadeOf};

use crate::great::{GreatFault, great_faults};
use crate::rows::{places_in, routes_in};
use crate::scales::{Scales, scales_of};
use crate::terms::Terms;
use crate::wholes::policy_in;
use mcf_places::{Planner, PlannerFault};
use mcf_reading::Tables;
use mcf_text::NoMemory;
use std::alloc::Global;

/// A planner's problem in whole numbers, and their units.
#[derive(Drop)]
pub struct WholeProblem {
    /// The units.
    pub scales: Scales,
    /// The problem.
    pub planner: Planner,
}

/// What is made of two tables.
#[derive(Drop)]
pub enum Made {
    /// Their problem in whole numbers.
    Problem(WholeProblem),
    /// All numbers that are too great, or that there are too many.
    TooGreat(Vec<GreatFault>),
    /// All faults of their problem.
    Improper(Vec<PlannerFault>),
}

/// Makes the planner's problem of two tables. Amounts are counted in a unit that has as many
/// decimals as the amount with most of them, and costs in such a unit of their own. The k-th place,
/// and the k-th row of routes, is that of the k-th row below the heads.
///
/// # Errors
///
/// `NoMemory` if an allocation is refused.
pub fn problem(alloc: Global, tables: &Tables, terms: Terms) -> Result<Made, NoMemory>
    ensures { IfOk result (IsMadeOf tables.now terms) }
{
    let scales = scales_of(tables, terms.penalty);
    let faults = great_faults(alloc, scales, tables, terms)?;
    if !faults.is_empty() {
        return Ok(Made::TooGreat(faults));
    }
    let places = places_in(alloc, scales, tables.places())?;
    let routes = routes_in(alloc, scales, tables)?;
    let policy = policy_in(scales, terms);
    match Planner::of(alloc, places, routes.steps, routes.rows, policy)? {
        Ok(planner) => Ok(Made::Problem(WholeProblem { scales, planner })),
        Err(faults) => Ok(Made::Improper(faults)),
    }
}
