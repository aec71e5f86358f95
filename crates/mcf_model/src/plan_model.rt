//! Models without faults.
ghost use Rattle.std.specs.Prelude.{◌≡◌, ◌<◌, ◌↔◌, IfOk, is_ok, length, map, slice_index_or, true};
ghost use Rattle.mcf_model.specs.Faults.{AreListed, made_of_tables};
ghost use Rattle.mcf_model.specs.Laws.{IsProper};
ghost use Rattle.mcf_model.specs.Tables.{model_of, no_route, route_of, route_with};

use crate::faults::{ModelFault, model_fault};
use crate::rows::{RouteRow, Step, own_steps};
use std::marker::Model;

/// A model without faults: places that send or take, and routes between them. Each route joins
/// places, its costs don't fall from step to step, no step has a capacity below 0, and there is a
/// route without a limit only if no cost is below 0.
///
/// Places and routes count from 1. Clauses see the supply of each place (above 0 if it sends, below
/// 0 if it takes), and the routes in order, each with its steps.
#[derive(Drop)]
pub struct PlanModel {
    supplies: Vec<i64>,
    steps: Vec<Step>,
    rows: Vec<RouteRow>,
}

impl Model for PlanModel {
    ghost use Rattle.mcf_model.specs.Laws.{IsProper};
    ghost use Rattle.mcf_model.specs.Model.{Model as PlannedModel};
    ghost use Rattle.mcf_model.specs.Tables.{model_of};

    ghost Value = { PlannedModel };

    ghost view = { λ m. model_of m.supplies.items m.steps.items m.rows.items };

    ghost invariant = { λ m. IsProper (model_of m.supplies.items m.steps.items m.rows.items) };
}

/// A route of a model: its row, and its steps before the last.
#[derive(Clone, Copy)]
pub struct RouteParts<'m> {
    pub row: RouteRow,
    pub steps: &'m [Step],
}

// The two tables of a model.
#[derive(Clone, Copy)]
pub(crate) struct Tables<'m> {
    pub(crate) steps: &'m [Step],
    pub(crate) rows: &'m [RouteRow],
}

impl PlanModel {
    /// Makes a model from the supply of each place (below 0 if it takes), the table of steps, and
    /// the routes, in order.
    ///
    /// # Errors
    /// The first route that has a fault, and its first fault.
    pub fn of(
        supplies: Vec<i64>,
        steps: Vec<Step>,
        rows: Vec<RouteRow>,
    ) -> Result<PlanModel, ModelFault>
        ensures exact { result ≡ made_of_tables supplies.items steps.items rows.items }
        ensures proper { (is_ok result ≡ true) ↔ (IsProper (model_of supplies.items steps.items rows.items) × AreListed steps.items rows.items) }
    {
        match model_fault(supplies.len(), &steps, &rows) {
            Some(fault) => Err(fault),
            None => Ok(PlanModel {
                supplies,
                steps,
                rows,
            }),
        }
    }

    /// Returns the supply of each place, in order. A place with a supply below 0 takes.
    pub fn supplies(&self) -> &[i64]
        ensures value { result.now ≡ self.now.supplies }
        ensures proper { IsProper self.now }
    {
        &self.supplies
    }

    /// Returns the number of places.
    pub fn place_count(&self) -> usize
        ensures value { result ≡ length self.now.supplies }
        ensures proper { IsProper self.now }
    {
        self.supplies.len()
    }

    /// Returns the number of routes.
    pub fn route_count(&self) -> usize
        ensures value { result ≡ length self.now.routes }
        ensures proper { IsProper self.now }
    {
        self.rows.len()
    }

    /// Returns a route by its place, counted from 0.
    pub fn route(&self, place: usize) -> RouteParts<'_>
        requires place { place < length self.now.routes }
        ensures value { route_with result.row result.steps.now ≡ slice_index_or self.now.routes place no_route }
        ensures proper { IsProper self.now }
    {
        let row = self.rows[place];
        RouteParts {
            row,
            steps: own_steps(&self.steps, row),
        }
    }

    // Returns the tables of steps and of routes.
    pub(crate) fn tables(&self) -> Tables<'_>
        ensures value { map (route_of result.steps.now) result.rows.now ≡ self.now.routes }
        ensures proper { IsProper self.now }
    {
        Tables {
            steps: &self.steps,
            rows: &self.rows,
        }
    }
}
