//! Faults of models.
ghost use Rattle.std.specs.Prelude.{◌≡◌, ◌≤◌, ◌++◌, IfOk, OnOk, int_lt, pos, drop, filter, length, map, not, ◌&&◌, ◌||◌};
ghost use Rattle.mcf_model.specs.Faults.{applies, earns, falls, faults_from, first_cost, is_below, is_place, is_wrong_both_ways, model_fault, route_faults, row_fault, some_earn, takes_below};
ghost use Rattle.mcf_model.specs.Tables.{own_steps, route_of};

use crate::rows::{RouteRow, Step, own_steps};
use mcf_text::NoMemory;
use std::alloc::Global;

/// A fault of a route. The tests are made in the order of the cases.
#[derive(Clone, Copy, Debug, PartialEq, Eq)]
pub enum RouteFault {
    /// The tail or the head isn't the number of a place.
    Place,
    /// The route names steps beyond the end of the table.
    Steps,
    /// The capacity of a step is below 0.
    Room,
    /// A step costs less than the one before it.
    FallingCost,
    /// The route is used both ways, and has a least amount other than 0 or a cost below 0.
    BothWays,
    /// The route has no limit, and some cost of the model is below 0.
    NoLimit,
}

/// A route of a model, counted from 1, and a fault of it.
#[derive(Clone, Copy, Debug, PartialEq, Eq)]
pub struct ModelFault {
    pub route: usize,
    pub what: RouteFault,
}

// The faults, in the order of their tests.
static ALL: [RouteFault; 6] = [
    RouteFault::Place,
    RouteFault::Steps,
    RouteFault::Room,
    RouteFault::FallingCost,
    RouteFault::BothWays,
    RouteFault::NoLimit,
];

// Returns whether a number is that of a place.
fn is_place(places: usize, place: u32) -> bool
    ensures { result ≡ is_place places place }
{
    1 <= place && place as usize <= places
}

// Returns whether the cost of a step is below 0.
fn step_earns(step: Step) -> bool
    ensures { result ≡ int_lt step.cost (pos 0) }
{
    step.cost < 0
}

// Returns whether a route has a cost below 0, in its steps or in its last step.
fn earns(own: &[Step], last_cost: i64) -> bool
    ensures { result ≡ earns own.now last_cost }
{
    for place in 0..own.len() {
        let found = step_earns(own[place]);
        if found {
            return true;
        }
    }
    last_cost < 0
}

// Returns whether there is a limit and it is below 0.
fn is_below(most: Option<i64>) -> bool
    ensures { result ≡ is_below most }
{
    match most {
        Some(most) => most < 0,
        None => false,
    }
}

// Returns whether the capacity of a step is below 0.
fn step_is_below(step: Step) -> bool
    ensures { result ≡ int_lt step.most (pos 0) }
{
    step.most < 0
}

// Returns whether the capacity of a step is below 0. The only step of a route that isn't used both
// ways may have such a capacity.
fn takes_below(own: &[Step], both: bool, last_most: Option<i64>) -> bool
    ensures { result ≡ takes_below own.now both last_most }
{
    for place in 0..own.len() {
        let found = step_is_below(own[place]);
        if found {
            return true;
        }
    }
    (both || !own.is_empty()) && is_below(last_most)
}

// Returns the cost of the step at a place, or of the last step.
fn cost_at(own: &[Step], place: usize, last_cost: i64) -> i64
    requires { place ≤ length own.now }
    ensures { result ≡ first_cost (drop place own.now) last_cost }
{
    if place < own.len() {
        own[place].cost
    } else {
        last_cost
    }
}

// Returns whether a cost is below that of a step.
fn costs_less(next: i64, step: Step) -> bool
    ensures { result ≡ int_lt next step.cost }
{
    next < step.cost
}

// Returns whether a step costs less than the one before it.
fn falls(own: &[Step], last_cost: i64) -> bool
    ensures { result ≡ falls own.now last_cost }
{
    for place in 0..own.len() {
        let next = cost_at(own, place + 1, last_cost);
        let found = costs_less(next, own[place]);
        if found {
            return true;
        }
    }
    false
}

// Returns whether a route is used both ways, and has a least amount or a cost that forbid it.
fn is_wrong_both_ways(own: &[Step], row: RouteRow) -> bool
    ensures { result ≡ is_wrong_both_ways own.now row }
{
    let earning = earns(own, row.last_cost);
    row.both && (row.least != 0 || earning)
}

// What the faults of a route depend on beside it: the number of places, the table of steps, and
// whether some cost of the model is below 0.
#[derive(Clone, Copy)]
struct Setting<'m> {
    places: usize,
    steps: &'m [Step],
    earning: bool,
}

impl Setting<'_> {
    // Returns whether a route has a fault.
    fn applies(self, row: RouteRow, what: RouteFault) -> bool
        ensures { result ≡ applies self.entry.places self.entry.steps.now self.entry.earning row what }
    {
        let own = own_steps(self.steps, row);
        match what {
            RouteFault::Place => {
                let tail_is_place = is_place(self.places, row.tail);
                let head_is_place = is_place(self.places, row.head);
                !(tail_is_place && head_is_place)
            }
            RouteFault::Steps => {
                row.first_step as usize + row.step_count as usize > self.steps.len()
            }
            RouteFault::Room => takes_below(own, row.both, row.last_most),
            RouteFault::FallingCost => falls(own, row.last_cost),
            RouteFault::BothWays => is_wrong_both_ways(own, row),
            RouteFault::NoLimit => self.earning && row.last_most.is_none(),
        }
    }

    // Returns the first fault of a route.
    fn first_of(self, row: RouteRow) -> Option<RouteFault>
        ensures { result ≡ row_fault self.entry.places self.entry.steps.now self.entry.earning row }
    {
        ALL.iter().copied().find(|what| self.applies(row, *what))
    }

    // Appends the faults of a route with this number.
    fn push_all(
        self,
        number: usize,
        row: RouteRow,
        found: &mut Vec<ModelFault>,
    ) -> Result<(), NoMemory>
        ensures { OnOk result (found.new.items ≡ found.old.items ++ map (λ what. record { route = number; what = what }) (filter (applies self.entry.places self.entry.steps.now self.entry.earning row) route_faults)) }
    {
        for place in 0..ALL.len() {
            let what = ALL[place];
            let is_there = self.applies(row, what);
            if is_there {
                found.push(ModelFault {
                    route: number,
                    what,
                })?;
            }
        }
        Ok(())
    }
}

// Returns whether a cost of a route is below 0.
fn row_earns(steps: &[Step], row: RouteRow) -> bool
    ensures { result ≡ earns (own_steps steps.now row) row.last_cost }
{
    let own = own_steps(steps, row);
    earns(own, row.last_cost)
}

/// Returns whether any cost of any route is below 0, in its steps or in its last step.
pub fn some_earn(steps: &[Step], rows: &[RouteRow]) -> bool
    ensures { result ≡ some_earn steps.now rows.now }
{
    for place in 0..rows.len() {
        let found = row_earns(steps, rows[place]);
        if found {
            return true;
        }
    }
    false
}

/// Returns all faults of routes, route by route, in a model with this number of places and this
/// table of steps. `earning` says whether some cost of the model is below 0: then each route needs
/// a limit.
///
/// # Errors
///
/// `NoMemory` if an allocation is refused.
pub fn all_faults(
    alloc: Global,
    places: usize,
    steps: &[Step],
    earning: bool,
    rows: &[RouteRow],
) -> Result<Vec<ModelFault>, NoMemory>
    ensures { IfOk result (λ found. found.items ≡ faults_from places steps.now earning 1 rows.now) }
{
    let setting = Setting {
        places,
        steps,
        earning,
    };
    let mut found = Vec::new(alloc);
    for place in 0..rows.len() {
        setting.push_all(place + 1, rows[place], &mut found)?;
    }
    Ok(found)
}

// Returns the first fault of a model of routes alone: of the first route that has one.
pub(crate) fn model_fault(places: usize, steps: &[Step], rows: &[RouteRow]) -> Option<ModelFault>
    ensures { result ≡ model_fault places steps.now rows.now }
{
    let setting = Setting {
        places,
        steps,
        earning: some_earn(steps, rows),
    };
    for place in 0..rows.len() {
        match setting.first_of(rows[place]) {
            Some(what) => {
                return Some(ModelFault {
                    route: place + 1,
                    what,
                });
            }
            None => {}
        }
    }
    None
}
