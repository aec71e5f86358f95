#![tactic(auto)]

//! Figures of a planner's least plan, in words of places and routes: what is free on each route and
//! through each place, what one more unit of room saves there, what it costs to carry one more, and
//! what a unit costs at each place.
//!
//! It builds on `mcf_figures`, which has the figures of models, and on `mcf_places`, whose least
//! plans come with the model that they were found in. The definitions are in `specs/`: `Changes`
//! has problems with one unit more, `PlannerFigures` the figures, `Told` what is told of a plan,
//! `PlannerFigureLaws` what the figures say of these problems, and `OwnFigures` that limits which
//! bounds get change no figure. No definition names a network.

mod figure_laws;
mod figures;

pub use figure_laws::{
    exact_route_savings_are_reached, exact_through_savings_are_reached,
    joined_route_dearer_is_reached, joined_through_dearer_is_reached, joined_units_cost_that,
    limits_change_no_figure, route_dearer_is_a_bound, route_savings_are_bounds,
    through_dearer_is_a_bound, through_savings_are_bounds, told_figures_are_the_planners,
    units_cost_no_less,
};
pub use figures::{PassFigures, PlaceFigures, PlanFigures, plan_figures};
pub use mcf_figures::RowFigures;
