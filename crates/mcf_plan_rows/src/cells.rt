//! Amounts, costs and figures as cells.
ghost use Rattle.std.specs.Prelude.{◌≡◌, IfOk};
ghost use Rattle.mcf_plan_rows.specs.Cells.{amount_text, cost_cell, cost_text, dearer_cell, demand_cell, exact_cell, free_cell, group_cell, passes_cell, passes_in, rate_text, row_in, saves_cell, text_if, yes_or_no};

use mcf_answer_rows::{decimal_cell, number_cell};
use mcf_plan_figures::{PassFigures, PlaceFigures, RowFigures};
use mcf_text::NoMemory;
use mcf_units::Scales;
use std::alloc::Global;

/// An amount in the units of the tables, as a cell.
///
/// # Errors
///
/// `NoMemory` if an allocation is refused.
pub fn amount_cell(alloc: Global, scales: Scales, amount: i128) -> Result<Vec<u8>, NoMemory>
    ensures { IfOk result (λ made. made.items ≡ amount_text scales amount) }
{
    decimal_cell(alloc, amount, scales.amounts)
}

// A cost in the units of the tables.
pub(crate) fn total_cell(alloc: Global, scales: Scales, cost: i128) -> Result<Vec<u8>, NoMemory>
    ensures { IfOk result (λ made. made.items ≡ cost_text scales cost) }
{
    let places = scales.amounts.saturating_add(scales.costs);
    decimal_cell(alloc, cost, places)
}

// What one unit costs or saves, in the units of the tables.
fn rate_cell(alloc: Global, scales: Scales, rate: i128) -> Result<Vec<u8>, NoMemory>
    ensures { IfOk result (λ made. made.items ≡ rate_text scales rate) }
{
    decimal_cell(alloc, rate, scales.costs)
}

/// Yes or no.
pub fn yes_or_no(given: bool) -> &'static [u8]
    ensures { result.now ≡ yes_or_no given }
{
    if given { b"yes" } else { b"no" }
}

// An amount, if there is one.
fn amount_if_some(alloc: Global, scales: Scales, amount: Option<i128>) -> Result<Vec<u8>, NoMemory>
    ensures { IfOk result (λ made. made.items ≡ text_if (amount_text scales) amount) }
{
    match amount {
        Some(amount) => amount_cell(alloc, scales, amount),
        None => Ok(Vec::new(alloc)),
    }
}

// A cost, if there is one.
fn total_if_some(alloc: Global, scales: Scales, cost: Option<i128>) -> Result<Vec<u8>, NoMemory>
    ensures { IfOk result (λ made. made.items ≡ text_if (cost_text scales) cost) }
{
    match cost {
        Some(cost) => total_cell(alloc, scales, cost),
        None => Ok(Vec::new(alloc)),
    }
}

// What one unit costs, in the units of the tables, if that is known.
fn rate_if_some(alloc: Global, scales: Scales, rate: Option<i128>) -> Result<Vec<u8>, NoMemory>
    ensures { IfOk result (λ made. made.items ≡ text_if (rate_text scales) rate) }
{
    match rate {
        Some(rate) => rate_cell(alloc, scales, rate),
        None => Ok(Vec::new(alloc)),
    }
}

// The cost of what is carried.
fn cost_cell(alloc: Global, scales: Scales, told: Option<RowFigures>) -> Result<Vec<u8>, NoMemory>
    ensures { IfOk result (λ made. made.items ≡ cost_cell scales told) }
{
    match told {
        Some(told) => total_if_some(alloc, scales, told.cost),
        None => Ok(Vec::new(alloc)),
    }
}

// How much more may be carried.
fn free_cell(alloc: Global, scales: Scales, told: Option<RowFigures>) -> Result<Vec<u8>, NoMemory>
    ensures { IfOk result (λ made. made.items ≡ free_cell scales told) }
{
    match told {
        Some(told) => amount_if_some(alloc, scales, told.free),
        None => Ok(Vec::new(alloc)),
    }
}

// What one more unit of room saves at most.
fn saves_cell(alloc: Global, scales: Scales, told: Option<RowFigures>) -> Result<Vec<u8>, NoMemory>
    ensures { IfOk result (λ made. made.items ≡ saves_cell scales told) }
{
    match told {
        Some(told) => rate_cell(alloc, scales, told.saves),
        None => Ok(Vec::new(alloc)),
    }
}

// What it costs at least to carry one more unit.
fn dearer_cell(alloc: Global, scales: Scales, told: Option<RowFigures>) -> Result<Vec<u8>, NoMemory>
    ensures { IfOk result (λ made. made.items ≡ dearer_cell scales told) }
{
    match told {
        Some(told) => rate_if_some(alloc, scales, told.dearer),
        None => Ok(Vec::new(alloc)),
    }
}

/// Whether one more unit of room saves just that: yes, no, or empty without figures.
pub fn exact_cell(told: Option<RowFigures>) -> &'static [u8]
    ensures { result.now ≡ exact_cell told }
{
    match told {
        Some(told) => yes_or_no(told.exact),
        None => b"",
    }
}

/// The cells of the figures of a route, but whether its saving is exact.
#[derive(Drop)]
pub struct RowCells {
    /// The cost of what is carried.
    pub cost: Vec<u8>,
    /// How much more may be carried.
    pub free: Vec<u8>,
    /// What one more unit of room saves at most.
    pub saves: Vec<u8>,
    /// What it costs at least to carry one more unit.
    pub dearer: Vec<u8>,
}

/// The cost of what is carried, how much more may be, what one more unit of room saves, and what it
/// costs to carry one more. A cell is empty if the figures don't say what it tells.
///
/// # Errors
///
/// `NoMemory` if an allocation is refused.
pub fn row_cells(
    alloc: Global,
    scales: Scales,
    told: Option<RowFigures>,
) -> Result<RowCells, NoMemory>
    ensures cost { IfOk result (λ made. made.cost.items ≡ cost_cell scales told) }
    ensures free { IfOk result (λ made. made.free.items ≡ free_cell scales told) }
    ensures saves { IfOk result (λ made. made.saves.items ≡ saves_cell scales told) }
    ensures dearer { IfOk result (λ made. made.dearer.items ≡ dearer_cell scales told) }
{
    let cost = cost_cell(alloc, scales, told)?;
    let free = free_cell(alloc, scales, told)?;
    let saves = saves_cell(alloc, scales, told)?;
    let dearer = dearer_cell(alloc, scales, told)?;
    Ok(RowCells {
        cost,
        free,
        saves,
        dearer,
    })
}

// What one more unit of demand costs at a place.
fn demand_cell(
    alloc: Global,
    scales: Scales,
    told: Option<PlaceFigures>,
) -> Result<Vec<u8>, NoMemory>
    ensures { IfOk result (λ made. made.items ≡ demand_cell scales told) }
{
    match told {
        Some(told) => rate_cell(alloc, scales, told.costs),
        None => Ok(Vec::new(alloc)),
    }
}

// The number of the group of a place.
fn group_cell(alloc: Global, told: Option<PlaceFigures>) -> Result<Vec<u8>, NoMemory>
    ensures { IfOk result (λ made. made.items ≡ group_cell told) }
{
    match told {
        Some(told) => number_cell(alloc, told.group),
        None => Ok(Vec::new(alloc)),
    }
}

/// What is told of what passes through a place, if anything is.
pub fn passes_in(told: Option<PlaceFigures>) -> Option<PassFigures>
    ensures { result ≡ passes_in told }
{
    match told {
        Some(told) => told.passes,
        None => None,
    }
}

/// The figures of what passes through a place.
pub fn row_in(told: Option<PassFigures>) -> Option<RowFigures>
    ensures { result ≡ row_in told }
{
    match told {
        Some(told) => Some(told.row),
        None => None,
    }
}

// How much passes through a place.
fn passes_cell(
    alloc: Global,
    scales: Scales,
    told: Option<PassFigures>,
) -> Result<Vec<u8>, NoMemory>
    ensures { IfOk result (λ made. made.items ≡ passes_cell scales told) }
{
    match told {
        Some(told) => amount_cell(alloc, scales, told.amount),
        None => Ok(Vec::new(alloc)),
    }
}

/// The cells of the figures of a place, before those of what passes through it.
#[derive(Drop)]
pub struct PlaceCells {
    /// What one more unit of demand costs.
    pub demand: Vec<u8>,
    /// The number of the group.
    pub group: Vec<u8>,
    /// How much passes.
    pub passes: Vec<u8>,
}

/// What one more unit of demand costs at a place, its group, and how much passes. A cell is empty
/// if the figures don't say what it tells.
///
/// # Errors
///
/// `NoMemory` if an allocation is refused.
pub fn place_cells(
    alloc: Global,
    scales: Scales,
    told: Option<PlaceFigures>,
) -> Result<PlaceCells, NoMemory>
    ensures demand { IfOk result (λ made. made.demand.items ≡ demand_cell scales told) }
    ensures group { IfOk result (λ made. made.group.items ≡ group_cell told) }
    ensures passes { IfOk result (λ made. made.passes.items ≡ passes_cell scales (passes_in told)) }
{
    let demand = demand_cell(alloc, scales, told)?;
    let group = group_cell(alloc, told)?;
    let passes = passes_cell(alloc, scales, passes_in(told))?;
    Ok(PlaceCells {
        demand,
        group,
        passes,
    })
}
