//! Routes as rows of numbers, and the table of the steps of all routes.
ghost use Rattle.std.specs.Prelude.{◌≡◌, ◌+◌, ◌<◌};
ghost use Rattle.mcf_model.specs.Tables.{own_steps};

/// A step of a route: at most `most` units, each at cost `cost`.
#[derive(Clone, Copy, Debug)]
pub struct Step {
    pub most: i64,
    pub cost: i64,
}

/// A route between two places, which count from 1. Units fill its steps in order, and then its last
/// step.
///
/// Its steps before the last are adjacent in a table that all routes of a model share.
#[derive(Clone, Copy, Debug)]
pub struct RouteRow {
    /// The place that the route leaves.
    pub tail: u32,
    /// The place that the route enters.
    pub head: u32,
    /// The place of its first step in the table, counted from 0.
    pub first_step: u32,
    /// The number of its steps before the last.
    pub step_count: u32,
    /// The least number of units that it carries.
    pub least: i64,
    /// The capacity of its last step, or `None` for no limit.
    pub last_most: Option<i64>,
    /// The cost of each unit of its last step.
    pub last_cost: i64,
    /// Whether the route is used both ways.
    pub both: bool,
}

/// Returns the steps of a route before the last, as far as the table has them.
pub fn own_steps(steps: &[Step], row: RouteRow) -> &[Step]
    ensures { result.now ≡ own_steps steps.now row }
{
    let first = steps.len().min(row.first_step as usize);
    let (_, rest) = steps.split_at(first);
    let count = rest.len().min(row.step_count as usize);
    let (own, _) = rest.split_at(count);
    own
}
