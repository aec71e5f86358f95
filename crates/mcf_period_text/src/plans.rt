//! Plans over periods as rows of a table.
ghost use Rattle.std.specs.Prelude.{◌≡◌, ◌++◌, ◌∷◌, ◌<◌, [], IfOk, OnOk, codes, drop, length, map, slice_get, suc};
ghost use Rattle.std.specs.List.{range_with_len};
ghost use Rattle.mcf_answer_rows.specs.Lines.{row_line, rows_text};
ghost use Rattle.mcf_plan_figures.specs.Told.{places_told, routes_told};
ghost use Rattle.mcf_plan_rows.specs.BottleneckRows.{way_word};
ghost use Rattle.mcf_plan_rows.specs.Cells.{exact_cell};
ghost use Rattle.mcf_period_text.specs.PeriodPlanRows.{departure_row, departure_rows, keep_row, keep_rows, period_plan_rows, place_row, place_rows};
ghost use Rattle.mcf_period_text.specs.TimedTables.{arrives_at, leaves_from, period_name, place_name, timed_in};

use crate::timed::{
    Timed, arrives_at, departure_origin, leaves_from, period_name, place_name, place_origin,
    store_origin, told_row,
};
use mcf_answer_rows::{line_cell, put_line};
use mcf_period_units::{DepartureOrigin, PlaceOrigin, StoreOrigin};
use mcf_places::{LeastPlannerPlan, Planner, PlannerPlan};
use mcf_plan_figures::{PlaceFigures, plan_figures};
use mcf_plan_rows::{
    Left, LeftCells, PlaceCells, RowCells, Way, Ways, amount_cell, exact_cell, left_at, left_cells,
    passes_in, place_cells, put_heading, row_cells, row_in, way_at, way_word, ways_after,
};
use mcf_text::NoMemory;
use mcf_units::Scales;
use std::alloc::Global;

// The words of a departure: what it is, the names of its ends, whether its saving is exact, and the
// names of its periods.
#[derive(Clone, Copy)]
struct DepartureWords<'t> {
    word: &'t [u8],
    tail: &'t [u8],
    head: &'t [u8],
    exact: &'t [u8],
    leaves: &'t [u8],
    arrives: &'t [u8],
}

// The words of a departure, by its origin.
fn departure_words<'t>(
    timed: Timed<'_, 't>,
    departure: DepartureOrigin,
    way: Way,
) -> DepartureWords<'t>
    ensures word { result.word.now ≡ way_word departure.back }
    ensures tail { result.tail.now ≡ leaves_from (timed_in timed.entry) departure }
    ensures head { result.head.now ≡ arrives_at (timed_in timed.entry) departure }
    ensures exact { result.exact.now ≡ exact_cell way.told }
    ensures leaves { result.leaves.now ≡ period_name (timed_in timed.entry).periods departure.period }
    ensures arrives { result.arrives.now ≡ period_name (timed_in timed.entry).periods departure.arrival }
{
    DepartureWords {
        word: way_word(departure.back),
        tail: leaves_from(timed, departure),
        head: arrives_at(timed, departure),
        exact: exact_cell(way.told),
        leaves: period_name(timed, departure.period as usize),
        arrives: period_name(timed, departure.arrival as usize),
    }
}

// Appends the cells of a departure.
fn put_departure_cells(
    out: &mut Vec<u8>,
    line: &[u8],
    words: DepartureWords<'_>,
    carries: &[u8],
    cells: &RowCells,
) -> Result<(), NoMemory>
    ensures { OnOk result (out.new.items ≡ out.old.items
        ++ row_line (words.entry.word.now ∷ line.now ∷ words.entry.tail.now ∷ words.entry.head.now ∷ carries.now
        ∷ cells.now.cost.items ∷ cells.now.free.items ∷ cells.now.saves.items ∷ words.entry.exact.now
        ∷ cells.now.dearer.items ∷ words.entry.leaves.now ∷ words.entry.arrives.now ∷ [])) }
{
    put_line(
        out,
        &[
            words.word,
            line,
            words.tail,
            words.head,
            carries,
            &cells.cost,
            &cells.free,
            &cells.saves,
            words.exact,
            &cells.dearer,
            words.leaves,
            words.arrives,
        ],
    )
}

// Appends what a departure carries, and its figures.
fn put_departure(
    alloc: Global,
    out: &mut Vec<u8>,
    timed: Timed<'_, '_>,
    scales: Scales,
    departure: DepartureOrigin,
    way: Way,
) -> Result<(), NoMemory>
    ensures { OnOk result (out.new.items ≡ out.old.items
        ++ row_line (departure_row (timed_in timed.entry) scales departure way.amount way.told)) }
{
    let line = line_cell(alloc, timed.two.routes, departure.row as usize)?;
    let carries = amount_cell(alloc, scales, way.amount)?;
    let cells = row_cells(alloc, scales, way.told)?;
    let words = departure_words(timed, departure, way);
    put_departure_cells(out, &line, words, &carries, &cells)
}

// Appends what all departures carry, and their figures, if the ways are those of stores and then
// these.
fn put_departures(
    alloc: Global,
    out: &mut Vec<u8>,
    timed: Timed<'_, '_>,
    scales: Scales,
    ways: Ways<'_>,
) -> Result<(), NoMemory>
    ensures { OnOk result (out.new.items ≡ out.old.items
        ++ rows_text (departure_rows (timed_in timed.entry) scales ways.entry.carries.now ways.entry.told.now)) }
{
    let own = ways_after(ways, timed.origins.stores.len());
    for place in 0..timed.origins.departures.len() {
        let departure = departure_origin(timed, place);
        let way = way_at(own, place);
        put_departure(alloc, out, timed, scales, departure, way)?;
    }
    Ok(())
}

// The words of a store: the name of its place, whether its saving is exact, and the names of its
// periods.
#[derive(Clone, Copy)]
struct StoreWords<'t> {
    name: &'t [u8],
    exact: &'t [u8],
    after: &'t [u8],
    next: &'t [u8],
}

// The words of a store, by its origin.
fn store_words<'t>(timed: Timed<'_, 't>, store: StoreOrigin, way: Way) -> StoreWords<'t>
    ensures name { result.name.now ≡ place_name (timed_in timed.entry) store.row }
    ensures exact { result.exact.now ≡ exact_cell way.told }
    ensures after { result.after.now ≡ period_name (timed_in timed.entry).periods store.period }
    ensures next { result.next.now ≡ period_name (timed_in timed.entry).periods (suc store.period) }
{
    StoreWords {
        name: place_name(timed, store.row as usize),
        exact: exact_cell(way.told),
        after: period_name(timed, store.period as usize),
        next: period_name(timed, store.period as usize + 1),
    }
}

// Appends the cells of a store.
fn put_store_cells(
    out: &mut Vec<u8>,
    line: &[u8],
    words: StoreWords<'_>,
    kept: &[u8],
    cells: &RowCells,
) -> Result<(), NoMemory>
    ensures { OnOk result (out.new.items ≡ out.old.items
        ++ row_line (codes "keep" ∷ line.now ∷ words.entry.name.now ∷ kept.now
        ∷ cells.now.cost.items ∷ cells.now.free.items ∷ cells.now.saves.items ∷ words.entry.exact.now
        ∷ cells.now.dearer.items ∷ words.entry.after.now ∷ words.entry.next.now ∷ [])) }
{
    put_line(
        out,
        &[
            b"keep",
            line,
            words.name,
            kept,
            &cells.cost,
            &cells.free,
            &cells.saves,
            words.exact,
            &cells.dearer,
            words.after,
            words.next,
        ],
    )
}

// Appends what a store keeps, and its figures.
fn put_store(
    alloc: Global,
    out: &mut Vec<u8>,
    timed: Timed<'_, '_>,
    scales: Scales,
    store: StoreOrigin,
    way: Way,
) -> Result<(), NoMemory>
    ensures { OnOk result (out.new.items ≡ out.old.items
        ++ row_line (keep_row (timed_in timed.entry) scales store way.amount way.told)) }
{
    let line = line_cell(alloc, timed.two.places, store.row as usize)?;
    let kept = amount_cell(alloc, scales, way.amount)?;
    let cells = row_cells(alloc, scales, way.told)?;
    let words = store_words(timed, store, way);
    put_store_cells(out, &line, words, &kept, &cells)
}

// Appends what all stores keep, and their figures.
fn put_stores(
    alloc: Global,
    out: &mut Vec<u8>,
    timed: Timed<'_, '_>,
    scales: Scales,
    ways: Ways<'_>,
) -> Result<(), NoMemory>
    ensures { OnOk result (out.new.items ≡ out.old.items
        ++ rows_text (keep_rows (timed_in timed.entry) scales ways.entry.carries.now ways.entry.told.now)) }
{
    for place in 0..timed.origins.stores.len() {
        let store = store_origin(timed, place);
        put_store(alloc, out, timed, scales, store, way_at(ways, place))?;
    }
    Ok(())
}

// The words of a place in a period: its name, whether its saving is exact, and the period.
#[derive(Clone, Copy)]
struct PlaceWords<'t> {
    name: &'t [u8],
    exact: &'t [u8],
    period: &'t [u8],
}

// Appends the cells of a place in a period.
fn put_place_cells(
    out: &mut Vec<u8>,
    line: &[u8],
    words: PlaceWords<'_>,
    left: &LeftCells,
    own: &PlaceCells,
    cells: &RowCells,
) -> Result<(), NoMemory>
    ensures { OnOk result (out.new.items ≡ out.old.items
        ++ row_line (codes "place" ∷ line.now ∷ words.entry.name.now ∷ left.now.stays.items ∷ left.now.missing.items
        ∷ own.now.demand.items ∷ own.now.group.items ∷ own.now.passes.items
        ∷ cells.now.cost.items ∷ cells.now.free.items ∷ cells.now.saves.items ∷ words.entry.exact.now
        ∷ cells.now.dearer.items ∷ words.entry.period.now ∷ [])) }
{
    put_line(
        out,
        &[
            b"place",
            line,
            words.name,
            &left.stays,
            &left.missing,
            &own.demand,
            &own.group,
            &own.passes,
            &cells.cost,
            &cells.free,
            &cells.saves,
            words.exact,
            &cells.dearer,
            words.period,
        ],
    )
}

// Appends what stays and what is missing at a place in a period, and its figures.
fn put_place(
    alloc: Global,
    out: &mut Vec<u8>,
    timed: Timed<'_, '_>,
    scales: Scales,
    origin: PlaceOrigin,
    left: Left,
) -> Result<(), NoMemory>
    ensures { OnOk result (out.new.items ≡ out.old.items
        ++ row_line (place_row (timed_in timed.entry) scales origin left.stays left.missing left.told)) }
{
    let row = told_row(origin);
    let line = line_cell(alloc, timed.two.places, row)?;
    let both = left_cells(alloc, scales, left)?;
    let own = place_cells(alloc, scales, left.told)?;
    let passes = row_in(passes_in(left.told));
    let cells = row_cells(alloc, scales, passes)?;
    let words = PlaceWords {
        name: place_name(timed, row),
        exact: exact_cell(passes),
        period: period_name(timed, origin.period as usize),
    };
    put_place_cells(out, &line, words, &both, &own, &cells)
}

// Appends what stays and what is missing at all places in all periods, and their figures.
fn put_places(
    alloc: Global,
    out: &mut Vec<u8>,
    timed: Timed<'_, '_>,
    scales: Scales,
    plan: &PlannerPlan,
    told: &[PlaceFigures],
) -> Result<(), NoMemory>
    ensures { OnOk result (out.new.items ≡ out.old.items
        ++ rows_text (place_rows (timed_in timed.entry) scales plan.now.stays.items plan.now.missing.items told.now)) }
{
    for place in 0..timed.origins.places.len() {
        let origin = place_origin(timed, place);
        let left = left_at(plan, told, place);
        put_place(alloc, out, timed, scales, origin, left)?;
    }
    Ok(())
}

// Appends what departures carry and what stores keep, with their figures.
fn put_ways(
    alloc: Global,
    out: &mut Vec<u8>,
    timed: Timed<'_, '_>,
    scales: Scales,
    ways: Ways<'_>,
) -> Result<(), NoMemory>
    ensures { OnOk result (out.new.items ≡ out.old.items
        ++ (rows_text (departure_rows (timed_in timed.entry) scales ways.entry.carries.now ways.entry.told.now)
        ++ rows_text (keep_rows (timed_in timed.entry) scales ways.entry.carries.now ways.entry.told.now))) }
{
    put_departures(alloc, out, timed, scales, ways)?;
    put_stores(alloc, out, timed, scales, ways)
}

/// Appends a least plan over periods and its figures: it is the least plan of the problem without
/// periods, whose routes are the stores and then the departures.
///
/// # Errors
///
/// `NoMemory` if an allocation is refused.
pub fn put_period_plan(
    alloc: Global,
    out: &mut Vec<u8>,
    timed: Timed<'_, '_>,
    planner: &Planner,
    scales: Scales,
    least: &LeastPlannerPlan,
) -> Result<(), NoMemory>
    ensures { OnOk result (out.new.items ≡ out.old.items
        ++ rows_text (period_plan_rows (timed_in timed.entry) planner.now scales least.now)) }
{
    let figures = plan_figures(alloc, planner, &least.shown)?;
    let ways = Ways {
        carries: &least.plan.carries,
        told: &figures.routes,
    };
    put_heading(alloc, out, planner, scales, least)?;
    put_ways(alloc, out, timed, scales, ways)?;
    put_places(alloc, out, timed, scales, &least.plan, &figures.places)
}
