//! Plans as rows of a table.
ghost use Rattle.std.specs.Prelude.{◌≡◌, ◌++◌, ◌∷◌, [], ◌<◌, IfOk, OnOk, codes, decimal, drop, map, slice_get, suc};
ghost use Rattle.mcf_answer_rows.specs.AnswerRows.{cell_under, line_at};
ghost use Rattle.mcf_answer_rows.specs.Lines.{row_line, rows_text};
ghost use Rattle.mcf_plan_rows.specs.Cells.{amount_text, figure_cells, place_cells};
ghost use Rattle.mcf_plan_rows.specs.FaultRows.{tables_in};
ghost use Rattle.mcf_plan_rows.specs.PlanRows.{back_rows, balance_rows, place_rows, plan_rows, route_rows, total_rows};
ghost use Rattle.std.specs.Prelude.{length, pos, slice_index_or};
ghost use Rattle.std.specs.List.{range_with_len};

use crate::cells::{
    PlaceCells, RowCells, amount_cell, exact_cell, passes_in, place_cells, row_cells, row_in,
    total_cell,
};
use crate::fault_rows::Two;
use mcf_answer_rows::{cell_under, line_cell, put_answer, put_line, put_number_row};
use mcf_places::{LeastPlannerPlan, Planner, PlannerPlan};
use mcf_plan_figures::{PlaceFigures, RowFigures, plan_figures};
use mcf_table::Records;
use mcf_text::NoMemory;
use mcf_units::Scales;
use std::alloc::Global;

/// What a route carries, and its figures.
#[derive(Clone, Copy)]
pub struct Way {
    /// The amount.
    pub amount: i128,
    /// Its figures, if there are some.
    pub told: Option<RowFigures>,
}

// The words of a route: what it is, the names of its ends, and whether its saving is exact.
#[derive(Clone, Copy)]
struct WayWords<'t> {
    word: &'t [u8],
    tail: &'t [u8],
    head: &'t [u8],
    exact: &'t [u8],
}

// Appends the cells of a route.
fn put_way_cells(
    out: &mut Vec<u8>,
    line: &[u8],
    words: WayWords<'_>,
    carries: &[u8],
    cells: &RowCells,
) -> Result<(), NoMemory>
    ensures { OnOk result (out.new.items ≡ out.old.items
        ++ row_line (words.entry.word.now ∷ line.now ∷ words.entry.tail.now ∷ words.entry.head.now ∷ carries.now
        ∷ cells.now.cost.items ∷ cells.now.free.items ∷ cells.now.saves.items ∷ words.entry.exact.now
        ∷ cells.now.dearer.items ∷ [])) }
{
    put_line(
        out,
        &[
            words.word,
            line,
            words.tail,
            words.head,
            carries,
            &cells.cost,
            &cells.free,
            &cells.saves,
            words.exact,
            &cells.dearer,
        ],
    )
}

// Appends what the route of a row carries, and its figures.
fn put_route(
    alloc: Global,
    out: &mut Vec<u8>,
    routes: &Records,
    scales: Scales,
    way: Way,
    row: usize,
) -> Result<(), NoMemory>
    ensures { OnOk result (out.new.items ≡ out.old.items
        ++ row_line (codes "route" ∷ decimal (line_at routes.now row) ∷ cell_under (codes "from") routes.now row
        ∷ cell_under (codes "to") routes.now row ∷ amount_text scales way.amount ∷ figure_cells scales way.told)) }
{
    let line = line_cell(alloc, routes, row)?;
    let carries = amount_cell(alloc, scales, way.amount)?;
    let cells = row_cells(alloc, scales, way.told)?;
    let words = WayWords {
        word: b"route",
        tail: cell_under(routes, b"from", row),
        head: cell_under(routes, b"to", row),
        exact: exact_cell(way.told),
    };
    put_way_cells(out, &line, words, &carries, &cells)
}

// An amount of a list; 0 beyond its end.
fn amount_at(amounts: &[i128], place: usize) -> i128
    ensures { result ≡ slice_index_or amounts.now place (pos 0) }
{
    match amounts.get(place) {
        Some(amount) => *amount,
        None => 0,
    }
}

/// What routes carry, and their figures, in order.
#[derive(Clone, Copy)]
pub struct Ways<'p> {
    /// The amounts.
    pub carries: &'p [i128],
    /// The figures; none, if numbers are beyond their limit.
    pub told: &'p [RowFigures],
}

/// What the route at a place carries, counted from 0, and its figures.
pub fn way_at(ways: Ways<'_>, place: usize) -> Way
    ensures amount { result.amount ≡ slice_index_or ways.entry.carries.now place (pos 0) }
    ensures told { result.told ≡ slice_get ways.entry.told.now place }
{
    let told = match ways.told.get(place) {
        Some(told) => Some(*told),
        None => None,
    };
    Way {
        amount: amount_at(ways.carries, place),
        told,
    }
}

// Appends what the routes of all rows carry, and their figures.
fn put_routes(
    alloc: Global,
    out: &mut Vec<u8>,
    routes: &Records,
    planner: &Planner,
    scales: Scales,
    ways: Ways<'_>,
) -> Result<(), NoMemory>
    ensures { OnOk result (out.new.items ≡ out.old.items
        ++ rows_text (route_rows planner.now scales routes.now ways.entry.carries.now ways.entry.told.now)) }
{
    let count = planner.row_count();
    for place in 0..count {
        let way = way_at(ways, place);
        put_route(alloc, out, routes, scales, way, place + 1)?;
    }
    Ok(())
}

// Appends what goes back on the route of a row, and its figures.
fn put_back(
    alloc: Global,
    out: &mut Vec<u8>,
    routes: &Records,
    scales: Scales,
    way: Way,
    row: usize,
) -> Result<(), NoMemory>
    ensures { OnOk result (out.new.items ≡ out.old.items
        ++ row_line (codes "back" ∷ decimal (line_at routes.now row) ∷ cell_under (codes "to") routes.now row
        ∷ cell_under (codes "from") routes.now row ∷ amount_text scales way.amount ∷ figure_cells scales way.told)) }
{
    let line = line_cell(alloc, routes, row)?;
    let carries = amount_cell(alloc, scales, way.amount)?;
    let cells = row_cells(alloc, scales, way.told)?;
    let words = WayWords {
        word: b"back",
        tail: cell_under(routes, b"to", row),
        head: cell_under(routes, b"from", row),
        exact: exact_cell(way.told),
    };
    put_way_cells(out, &line, words, &carries, &cells)
}

// The amounts after so many.
fn after(amounts: &[i128], count: usize) -> &[i128]
    ensures { result.now ≡ drop count amounts.now }
{
    if count < amounts.len() {
        &amounts[count..]
    } else {
        &[]
    }
}

// The figures after so many.
fn told_after(told: &[RowFigures], count: usize) -> &[RowFigures]
    ensures { result.now ≡ drop count told.now }
{
    if count < told.len() {
        &told[count..]
    } else {
        &[]
    }
}

/// What routes carry after so many, and their figures.
pub fn ways_after(ways: Ways<'_>, count: usize) -> Ways<'_>
    ensures carries { result.carries.now ≡ drop count ways.entry.carries.now }
    ensures told { result.told.now ≡ drop count ways.entry.told.now }
{
    Ways {
        carries: after(ways.carries, count),
        told: told_after(ways.told, count),
    }
}

// Appends what goes back on routes, and its figures.
fn put_backs(
    alloc: Global,
    out: &mut Vec<u8>,
    routes: &Records,
    planner: &Planner,
    scales: Scales,
    ways: Ways<'_>,
) -> Result<(), NoMemory>
    ensures { OnOk result (out.new.items ≡ out.old.items
        ++ rows_text (back_rows planner.now scales routes.now ways.entry.carries.now ways.entry.told.now)) }
{
    let backs = ways_after(ways, planner.row_count());
    let returning = planner.returning();
    for place in 0..returning.len() {
        let way = way_at(backs, place);
        put_back(alloc, out, routes, scales, way, returning[place])?;
    }
    Ok(())
}

/// What stays at a place, what is missing there, and its figures.
#[derive(Clone, Copy)]
pub struct Left {
    /// What stays.
    pub stays: i128,
    /// What is missing.
    pub missing: i128,
    /// The figures, if there are some.
    pub told: Option<PlaceFigures>,
}

/// The cells of what stays at a place, and of what is missing there.
#[derive(Drop)]
pub struct LeftCells {
    /// What stays.
    pub stays: Vec<u8>,
    /// What is missing.
    pub missing: Vec<u8>,
}

/// What stays at a place, and what is missing there, as cells.
///
/// # Errors
///
/// `NoMemory` if an allocation is refused.
pub fn left_cells(alloc: Global, scales: Scales, left: Left) -> Result<LeftCells, NoMemory>
    ensures stays { IfOk result (λ made. made.stays.items ≡ amount_text scales left.stays) }
    ensures missing { IfOk result (λ made. made.missing.items ≡ amount_text scales left.missing) }
{
    let stays = amount_cell(alloc, scales, left.stays)?;
    let missing = amount_cell(alloc, scales, left.missing)?;
    Ok(LeftCells { stays, missing })
}

// The words of a place: its name, and whether its saving is exact.
#[derive(Clone, Copy)]
struct PlaceWords<'t> {
    name: &'t [u8],
    exact: &'t [u8],
}

// Appends the cells of a place.
fn put_place_cells(
    out: &mut Vec<u8>,
    line: &[u8],
    words: PlaceWords<'_>,
    left: &LeftCells,
    own: &PlaceCells,
    cells: &RowCells,
) -> Result<(), NoMemory>
    ensures { OnOk result (out.new.items ≡ out.old.items
        ++ row_line (codes "place" ∷ line.now ∷ words.entry.name.now ∷ left.now.stays.items ∷ left.now.missing.items
        ∷ own.now.demand.items ∷ own.now.group.items ∷ own.now.passes.items
        ∷ cells.now.cost.items ∷ cells.now.free.items ∷ cells.now.saves.items ∷ words.entry.exact.now
        ∷ cells.now.dearer.items ∷ [])) }
{
    put_line(
        out,
        &[
            b"place",
            line,
            words.name,
            &left.stays,
            &left.missing,
            &own.demand,
            &own.group,
            &own.passes,
            &cells.cost,
            &cells.free,
            &cells.saves,
            words.exact,
            &cells.dearer,
        ],
    )
}

// Appends what stays and what is missing at the place of a row, and its figures.
fn put_place(
    alloc: Global,
    out: &mut Vec<u8>,
    places: &Records,
    scales: Scales,
    left: Left,
    row: usize,
) -> Result<(), NoMemory>
    ensures { OnOk result (out.new.items ≡ out.old.items
        ++ row_line (codes "place" ∷ decimal (line_at places.now row) ∷ cell_under (codes "name") places.now row
        ∷ amount_text scales left.stays ∷ amount_text scales left.missing ∷ place_cells scales left.told)) }
{
    let line = line_cell(alloc, places, row)?;
    let both = left_cells(alloc, scales, left)?;
    let own = place_cells(alloc, scales, left.told)?;
    let passes = row_in(passes_in(left.told));
    let cells = row_cells(alloc, scales, passes)?;
    let words = PlaceWords {
        name: cell_under(places, b"name", row),
        exact: exact_cell(passes),
    };
    put_place_cells(out, &line, words, &both, &own, &cells)
}

// The figures of a place, if there are some.
fn told_at(told: &[PlaceFigures], place: usize) -> Option<PlaceFigures>
    ensures { result ≡ slice_get told.now place }
{
    match told.get(place) {
        Some(told) => Some(*told),
        None => None,
    }
}

/// What stays at a place of a plan, counted from 0, what is missing there, and its figures.
pub fn left_at(plan: &PlannerPlan, told: &[PlaceFigures], place: usize) -> Left
    ensures stays { result.stays ≡ slice_index_or plan.now.stays.items place (pos 0) }
    ensures missing { result.missing ≡ slice_index_or plan.now.missing.items place (pos 0) }
    ensures told { result.told ≡ slice_get told.now place }
{
    Left {
        stays: amount_at(&plan.stays, place),
        missing: amount_at(&plan.missing, place),
        told: told_at(told, place),
    }
}

// Appends what stays and what is missing at all places, and their figures.
fn put_places(
    alloc: Global,
    out: &mut Vec<u8>,
    places: &Records,
    scales: Scales,
    plan: &PlannerPlan,
    told: &[PlaceFigures],
) -> Result<(), NoMemory>
    ensures { OnOk result (out.new.items ≡ out.old.items
        ++ rows_text (place_rows scales places.now plan.now.stays.items plan.now.missing.items told.now)) }
{
    for place in 0..plan.stays.len() {
        let left = left_at(plan, told, place);
        put_place(alloc, out, places, scales, left, place + 1)?;
    }
    Ok(())
}

// Appends the kind, the cost and what is missing.
fn put_totals(
    alloc: Global,
    out: &mut Vec<u8>,
    scales: Scales,
    least: &LeastPlannerPlan,
) -> Result<(), NoMemory>
    ensures { OnOk result (out.new.items ≡ out.old.items ++ rows_text (total_rows scales least.now)) }
{
    let cost = total_cell(alloc, scales, least.cost)?;
    let missing = amount_cell(alloc, scales, least.missing)?;
    put_answer(out, b"plan")?;
    put_number_row(out, b"cost", &cost)?;
    put_number_row(out, b"missing", &missing)
}

// Appends all supplies, and all demands.
pub(crate) fn put_balance(
    alloc: Global,
    out: &mut Vec<u8>,
    planner: &Planner,
    scales: Scales,
) -> Result<(), NoMemory>
    ensures { OnOk result (out.new.items ≡ out.old.items ++ rows_text (balance_rows planner.now scales)) }
{
    let totals = planner.totals();
    let supply = amount_cell(alloc, scales, totals.given)?;
    let demand = amount_cell(alloc, scales, totals.wanted)?;
    put_number_row(out, b"supply", &supply)?;
    put_number_row(out, b"demand", &demand)
}

/// Appends the kind, the cost and what is missing in total, and all supplies and demands.
///
/// # Errors
///
/// `NoMemory` if an allocation is refused.
pub fn put_heading(
    alloc: Global,
    out: &mut Vec<u8>,
    planner: &Planner,
    scales: Scales,
    least: &LeastPlannerPlan,
) -> Result<(), NoMemory>
    ensures { OnOk result (out.new.items ≡ out.old.items ++ rows_text (total_rows scales least.now ++ balance_rows planner.now scales)) }
{
    put_totals(alloc, out, scales, least)?;
    put_balance(alloc, out, planner, scales)
}

// Appends what routes carry, and what goes back, with their figures.
fn put_ways(
    alloc: Global,
    out: &mut Vec<u8>,
    routes: &Records,
    planner: &Planner,
    scales: Scales,
    ways: Ways<'_>,
) -> Result<(), NoMemory>
    ensures { OnOk result (out.new.items ≡ out.old.items
        ++ (rows_text (route_rows planner.now scales routes.now ways.entry.carries.now ways.entry.told.now)
        ++ rows_text (back_rows planner.now scales routes.now ways.entry.carries.now ways.entry.told.now))) }
{
    put_routes(alloc, out, routes, planner, scales, ways)?;
    put_backs(alloc, out, routes, planner, scales, ways)
}

/// Appends a least plan and its figures.
///
/// # Errors
///
/// `NoMemory` if an allocation is refused.
pub fn put_plan(
    alloc: Global,
    out: &mut Vec<u8>,
    two: Two<'_>,
    planner: &Planner,
    scales: Scales,
    least: &LeastPlannerPlan,
) -> Result<(), NoMemory>
    ensures { OnOk result (out.new.items ≡ out.old.items ++ rows_text (plan_rows (tables_in two.entry) planner.now scales least.now)) }
{
    let figures = plan_figures(alloc, planner, &least.shown)?;
    let ways = Ways {
        carries: &least.plan.carries,
        told: &figures.routes,
    };
    put_heading(alloc, out, planner, scales, least)?;
    put_ways(alloc, out, two.routes, planner, scales, ways)?;
    put_places(alloc, out, two.places, scales, &least.plan, &figures.places)
}
