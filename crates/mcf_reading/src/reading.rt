//! Reading the two tables.
ghost use Rattle.std.specs.Prelude.{◌≡◌, ◌∷◌, [], IfOk};
ghost use Rattle.mcf_reading.specs.Reading.{read_heads, read_rows, read_tables};

use crate::columns::{all_step_columns, place_columns, route_columns};
use crate::head_faults::head_faults;
use crate::kinds::Fault;
use crate::locations::Table;
use crate::marks::settled_mark;
use crate::place_rows::{place_names, read_places};
use crate::route_rows::{RouteFormat, read_routes};
use crate::tables::{Faults, Tables};
use crate::told::push_beyond;
use mcf_decimal::Mark;
use mcf_names::Names;
use mcf_table::Records;
use mcf_text::NoMemory;
use std::alloc::Global;

/// Reads the table of places and the table of routes. The first row of each has its heads; a
/// column's place doesn't matter. The mark before decimals is the one that is named, or else the
/// one that cells show.
///
/// # Errors
///
/// The faults of the heads, if there are some; or else the fault of a second mark, if none is named
/// and cells show both; or else all faults of cells: first those beyond the last heads, then those
/// of the rows of places, and then those of the rows of routes. `NoMemory` if an allocation is
/// refused.
pub fn read(
    alloc: Global,
    places: &Records,
    routes: &Records,
    mark: Option<Mark>,
) -> Result<Result<Tables, Faults>, NoMemory>
    ensures { IfOk result (λ read. read ≡ read_tables mark places.now routes.now) }
{
    match read_heads(alloc, places, routes, mark)? {
        Ok(mark) => read_rows(alloc, places, routes, mark),
        Err(faults) => Ok(Err(faults)),
    }
}

/// The mark before decimals: the one that is named, or else the one that cells show, those of
/// columns about periods among them; `None` if they show none. The first row of each table has its
/// heads.
///
/// # Errors
///
/// The faults of the heads, if there are some; or else the fault of a second mark, if none is named
/// and cells show both. `NoMemory` if an allocation is refused.
pub fn read_heads(
    alloc: Global,
    places: &Records,
    routes: &Records,
    mark: Option<Mark>,
) -> Result<Result<Option<Mark>, Faults>, NoMemory>
    ensures { IfOk result (λ read. read ≡ read_heads mark places.now routes.now) }
{
    let found = head_faults(alloc, places, routes)?;
    if !found.is_empty() {
        return Ok(Err(Faults::of(found)));
    }
    match settled_mark(alloc, places, routes, mark)? {
        Ok(mark) => Ok(Ok(mark)),
        Err(fault) => Ok(Err(only(alloc, fault)?)),
    }
}

// One fault.
fn only(alloc: Global, fault: Fault) -> Result<Faults, NoMemory>
    ensures { IfOk result (λ faults. faults ≡ fault ∷ []) }
{
    let mut found = Vec::new(alloc);
    found.push(fault)?;
    Ok(Faults::of(found))
}

/// Reads the rows of both tables under a mark before decimals, or under none.
///
/// # Errors
///
/// All faults of cells: first those beyond the last heads, then those of the rows of places, and
/// then those of the rows of routes. `NoMemory` if an allocation is refused.
pub fn read_rows(
    alloc: Global,
    places: &Records,
    routes: &Records,
    mark: Option<Mark>,
) -> Result<Result<Tables, Faults>, NoMemory>
    ensures { IfOk result (λ read. read ≡ read_rows mark places.now routes.now) }
{
    let columns = place_columns(alloc, places)?;
    let names = Names::of(alloc, place_names(alloc, columns, places)?)?;
    let steps = all_step_columns(alloc, routes)?;
    let format = RouteFormat {
        mark,
        columns: route_columns(alloc, routes)?,
        steps: &steps,
    };
    let mut faults = Vec::new(alloc);
    push_beyond(alloc, Table::Places, places, &mut faults)?;
    push_beyond(alloc, Table::Routes, routes, &mut faults)?;
    let entries = read_places(alloc, mark, columns, &names, places, &mut faults)?;
    let routes = read_routes(alloc, format, &names, routes, &mut faults)?;
    if faults.is_empty() {
        Ok(Ok(Tables::of(mark, entries, routes)))
    } else {
        Ok(Err(Faults::of(faults)))
    }
}
