//! The routes of rows that are used both ways.
ghost use Rattle.std.specs.Prelude.{◌≡◌, ◌++◌, IfOk, OnOk, filter, map};
ghost use Rattle.mcf_places.specs.PlannerLaws.{has_bounds};
ghost use Rattle.mcf_places.specs.Ways.{is_bounded, numbers_of, row_back, row_returns, row_there, way_rows};

use crate::places::Place;
use mcf_model::RouteRow;
use mcf_text::NoMemory;
use std::alloc::Global;

// Routes, and the rows of those that are ways back, which are the last.
#[derive(Drop)]
pub(crate) struct Ways {
    pub(crate) rows: Vec<RouteRow>,
    pub(crate) returning: Vec<usize>,
}

// Returns whether what passes through the place with a number has bounds.
fn has_bounds(places: &[Place], place: u32) -> bool
    ensures { result ≡ has_bounds places.now place }
{
    let at = (place as usize).saturating_sub(1);
    if at < places.len() {
        places[at].through.is_some()
    } else {
        false
    }
}

// Returns whether what passes through one of the ends of a row has bounds.
fn is_bounded(places: &[Place], row: RouteRow) -> bool
    ensures { result ≡ is_bounded places.now row.tail row.head }
{
    let at_tail = has_bounds(places, row.tail);
    let at_head = has_bounds(places, row.head);
    at_tail || at_head
}

// Returns whether a row is used both ways, and what passes through one of its ends has bounds.
fn row_returns(places: &[Place], row: RouteRow) -> bool
    ensures { result ≡ row_returns places.now row }
{
    let bounded = is_bounded(places, row);
    row.both && bounded
}

// Returns the row of the way there.
fn row_there(places: &[Place], row: RouteRow) -> RouteRow
    ensures { result ≡ row_there places.now row }
{
    let bounded = is_bounded(places, row);
    RouteRow {
        both: row.both && !bounded,
        ..row
    }
}

// Returns the row of the way back.
fn row_back(row: RouteRow) -> RouteRow
    ensures { result ≡ row_back row }
{
    RouteRow {
        tail: row.head,
        head: row.tail,
        both: false,
        ..row
    }
}

// Appends the ways back that are routes of their own.
fn push_backs(
    backs: &mut Vec<RouteRow>,
    places: &[Place],
    rows: &[RouteRow],
) -> Result<(), NoMemory>
    ensures { OnOk result (backs.new.items ≡ backs.old.items ++ map row_back (filter (row_returns places.now) rows.now)) }
{
    for route in 0..rows.len() {
        let test = row_returns(places, rows[route]);
        if test {
            backs.push(row_back(rows[route]))?;
        }
    }
    Ok(())
}

// Appends the numbers of the rows whose ways back are routes of their own.
fn push_returning(
    returning: &mut Vec<usize>,
    places: &[Place],
    rows: &[RouteRow],
) -> Result<(), NoMemory>
    ensures { OnOk result (returning.new.items ≡ returning.old.items ++ numbers_of (row_returns places.now) 1 rows.now) }
{
    for route in 0..rows.len() {
        let test = row_returns(places, rows[route]);
        if test {
            returning.push(route + 1)?;
        }
    }
    Ok(())
}

// Makes each row its way there.
fn go_there(places: &[Place], rows: &mut [RouteRow])
    ensures { rows.new ≡ map (row_there places.now) rows.old }
{
    for route in 0..rows.len() {
        rows[route] = row_there(places, rows[route]);
    }
}

// Returns the routes of rows.
pub(crate) fn ways_of(
    alloc: Global,
    places: &[Place],
    rows: Vec<RouteRow>,
) -> Result<Ways, NoMemory>
    ensures rows { IfOk result (λ made. made.rows.items ≡ way_rows places.now rows.items) }
    ensures returning { IfOk result (λ made. made.returning.items ≡ numbers_of (row_returns places.now) 1 rows.items) }
{
    let mut backs = Vec::new(alloc);
    let mut returning = Vec::new(alloc);
    push_backs(&mut backs, places, &rows)?;
    push_returning(&mut returning, places, &rows)?;
    let mut ways = rows;
    go_there(places, &mut ways);
    ways.extend_from_slice(&backs)?;
    Ok(Ways {
        rows: ways,
        returning,
    })
}
