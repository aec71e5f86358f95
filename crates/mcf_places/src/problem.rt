//! Planners' problems without faults.
ghost use Rattle.std.specs.Prelude.{◌≡◌, ◌<◌, IfOk, length, map, slice_index_or};
ghost use Rattle.mcf_model.specs.Tables.{no_route, route_of, route_with};
ghost use Rattle.mcf_model.specs.Faults.{AreListed};
ghost use Rattle.mcf_places.specs.PlannerFaults.{IsMade, IsProperPlanner};
ghost use Rattle.mcf_places.specs.Planners.{all_given, all_wanted, row_count};

use crate::faults::{PlannerFault, Totals, planner_faults, sums};
use crate::places::{Place, Policy};
use crate::ways::ways_of;
use mcf_model::{RouteParts, RouteRow, Step, own_steps};
use mcf_text::NoMemory;
use std::alloc::Global;
use std::marker::Model;

/// A planner's problem without faults: places with bounds on what passes through them, routes
/// between them, and whether supplies may stay and demands may be missing. Each route is as
/// `PlanModel` takes it, and there is a route without a limit only if no cost is below 0. A row of
/// routes is one route. But where it is used both ways, and what passes through one of its ends has
/// bounds, it is two routes, one for each way: the way there in its own place, and the way back
/// after all rows.
///
/// Places, rows and routes count from 1. Clauses see the places and the routes in order, the rows
/// that have a way back of their own, in the order of these ways back, and the policy.
#[derive(Drop)]
pub struct Planner {
    pub(crate) places: Vec<Place>,
    pub(crate) steps: Vec<Step>,
    pub(crate) rows: Vec<RouteRow>,
    pub(crate) returning: Vec<usize>,
    pub(crate) policy: Policy,
}

impl Model for Planner {
    ghost use Rattle.mcf_model.specs.Faults.{AreListed};
    ghost use Rattle.mcf_places.specs.PlannerFaults.{IsProperPlanner};
    ghost use Rattle.mcf_places.specs.Planners.{Planner as Problem};
    ghost use Rattle.mcf_places.specs.Ways.{with_tables};

    ghost Value = { Problem };

    ghost view = { λ m. with_tables m.places.items m.steps.items m.rows.items m.returning.items m.policy };

    ghost invariant = { λ m. IsProperPlanner (with_tables m.places.items m.steps.items m.rows.items m.returning.items m.policy) × AreListed m.steps.items m.rows.items };
}

// What a problem is made of.
#[derive(Clone, Copy)]
pub(crate) struct Parts<'p> {
    pub(crate) places: &'p [Place],
    pub(crate) steps: &'p [Step],
    pub(crate) rows: &'p [RouteRow],
    pub(crate) returning: &'p [usize],
    pub(crate) policy: Policy,
}

impl Planner {
    /// Makes a planner's problem from its places, the table of steps, the rows of routes, in order,
    /// and whether supplies may stay and demands may be missing.
    ///
    /// # Errors
    ///
    /// All faults, in the order of the cases of `PlannerFault`, and then of places, routes and
    /// the faults of each route; `NoMemory` if an allocation is refused.
    pub fn of(
        alloc: Global,
        places: Vec<Place>,
        steps: Vec<Step>,
        rows: Vec<RouteRow>,
        policy: Policy,
    ) -> Result<Result<Planner, Vec<PlannerFault>>, NoMemory>
        ensures exact { IfOk result (IsMade places.items steps.items rows.items policy) }
        ensures proper { IfOk result (λ made. IfOk made IsProperPlanner) }
    {
        let faults = planner_faults(alloc, &places, &steps, &rows, policy)?;
        if !faults.is_empty() {
            return Ok(Err(faults));
        }
        let ways = ways_of(alloc, &places, rows)?;
        Ok(Ok(Planner {
            places,
            steps,
            rows: ways.rows,
            returning: ways.returning,
            policy,
        }))
    }

    /// Returns the places, in order.
    pub fn places(&self) -> &[Place]
        ensures value { result.now ≡ self.now.places }
        ensures proper { IsProperPlanner self.now }
    {
        &self.places
    }

    /// Returns the number of routes: of the rows, and of those that have a way back of their own.
    pub fn route_count(&self) -> usize
        ensures value { result ≡ length self.now.routes }
        ensures proper { IsProperPlanner self.now }
    {
        self.rows.len()
    }

    /// Returns a route by its place, counted from 0.
    pub fn route(&self, place: usize) -> RouteParts<'_>
        requires place { place < length self.now.routes }
        ensures value { route_with result.row result.steps.now ≡ slice_index_or self.now.routes place no_route }
        ensures counted { result.row.step_count ≡ length result.steps.now }
        ensures proper { IsProperPlanner self.now }
    {
        let row = self.rows[place];
        RouteParts {
            row,
            steps: own_steps(&self.steps, row),
        }
    }

    /// Returns what all places give, and what they want.
    pub fn totals(&self) -> Totals
        ensures given { result.given ≡ all_given self.now.places }
        ensures wanted { result.wanted ≡ all_wanted self.now.places }
    {
        sums(&self.places)
    }

    /// Returns the number of the rows of routes.
    pub fn row_count(&self) -> usize
        ensures value { result ≡ row_count self.now }
        ensures proper { IsProperPlanner self.now }
    {
        self.route_count() - self.returning.len()
    }

    /// Returns the rows whose ways back are routes of their own, in order: the way back of the k-th
    /// of them is the k-th route after those of all rows.
    pub fn returning(&self) -> &[usize]
        ensures value { result.now ≡ self.now.returning }
        ensures proper { IsProperPlanner self.now }
    {
        &self.returning
    }

    /// Returns whether supplies may stay, and demands may be missing.
    pub fn policy(&self) -> Policy
        ensures value { result ≡ self.now.policy }
        ensures proper { IsProperPlanner self.now }
    {
        self.policy
    }

    // Returns what the problem is made of.
    pub(crate) fn parts(&self) -> Parts<'_>
        ensures places { result.places.now ≡ self.now.places }
        ensures routes { map (route_of result.steps.now) result.rows.now ≡ self.now.routes }
        ensures returning { result.returning.now ≡ self.now.returning }
        ensures policy { result.policy ≡ self.now.policy }
        ensures proper { IsProperPlanner self.now }
        ensures listed { AreListed result.steps.now result.rows.now }
    {
        Parts {
            places: &self.places,
            steps: &self.steps,
            rows: &self.rows,
            returning: &self.returning,
            policy: self.policy,
        }
    }
}
