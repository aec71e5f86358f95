#![tactic(auto)]

//! Figures of a least plan: what is free on each route, what one more unit of room saves there,
//! what it costs to carry one more unit there, and the places between which a unit costs what their
//! prices say.
//!
//! It builds on `mcf_model`, whose least plans come with prices that show them. The definitions are
//! in `specs/`: `Changes` has models with one unit more, `Figures` the figures, `Groups` the groups
//! of places, `Told` and `Rows` what is told of a route, and `FigureLaws` what the figures say of
//! these models. No definition names a network.

mod costs;
mod figure_laws;
mod figures;
mod groups;
mod loose;
mod rows;
mod units;

pub use figure_laws::{
    dearer_is_a_bound, dearer_is_the_least_rise, exact_savings_are_reached,
    joined_dearer_is_reached, joined_prices_are_reached, prices_are_bounds, savings_are_bounds,
};
pub use figures::{RouteFigures, route_figures};
pub use groups::{groups_of, is_exact};
pub use rows::{RowFigures, are_small, row_figures};
