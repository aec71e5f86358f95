//! The rows of two tables as they are read.
ghost use Rattle.std.specs.Prelude.{◌≡◌, IfOk};
ghost use Rattle.mcf_text.specs.Lines.{lines_of};
ghost use Rattle.mcf_flow_tables.specs.Prepared.{AreFilled, as_list, done_to, listed_count, prepared_places, prepared_routes};

use mcf_forms::{Filling, filled_columns, routes_of, without_total};
use mcf_table::Records;
use mcf_text::NoMemory;
use std::alloc::Global;

/// What was done to the rows of two tables before they were read.
#[derive(Clone, Copy, Debug, PartialEq, Eq)]
pub struct Done {
    /// How many routes the list has that a matrix of costs became; `None` if the table of routes is
    /// a list.
    pub list: Option<usize>,
    /// The line of the row of totals that was left out of the places, if there was one.
    pub place_total: Option<usize>,
    /// The line of the row of totals that was left out of the routes, if there was one.
    pub route_total: Option<usize>,
}

/// The columns of two tables that were filled down, in the order of the heads that name them.
#[derive(Drop)]
pub struct Filled {
    /// Those of the table of places.
    pub places: Vec<Filling>,
    /// Those of the table of routes.
    pub routes: Vec<Filling>,
}

// The rows of two tables as they are read, and what was done to them.
#[derive(Drop)]
pub(crate) struct ReadRows {
    pub(crate) places: Records,
    pub(crate) routes: Records,
    pub(crate) done: Done,
    pub(crate) filled: Filled,
}

// Routes as a list.
#[derive(Drop)]
struct Listed {
    rows: Records,
    // How many routes the list has, if the routes were a matrix.
    count: Option<usize>,
}

// The routes, as a list if they are a matrix.
fn as_list(alloc: Global, places: &Records, routes: Records) -> Result<Listed, NoMemory>
    ensures rows { IfOk result (λ made. made.rows ≡ as_list places.now routes) }
    ensures count { IfOk result (λ made. made.count ≡ listed_count places.now routes) }
{
    match routes_of(alloc, places, &routes)? {
        Some(rows) => {
            let count = rows.len().saturating_sub(1);
            Ok(Listed {
                rows,
                count: Some(count),
            })
        }
        None => Ok(Listed {
            rows: routes,
            count: None,
        }),
    }
}

// The rows of two tables as they are read: a matrix of costs becomes a list, each table loses a
// last row of totals, and columns are filled down.
pub(crate) fn prepared(
    alloc: Global,
    places: Records,
    routes: Records,
    fill_down: &[u8],
) -> Result<ReadRows, NoMemory>
    ensures places { IfOk result (λ made. made.places ≡ prepared_places (lines_of fill_down.now) places) }
    ensures routes { IfOk result (λ made. made.routes ≡ prepared_routes (lines_of fill_down.now) places routes) }
    ensures done { IfOk result (λ made. made.done ≡ done_to places routes) }
    ensures filled { IfOk result (λ made. AreFilled (lines_of fill_down.now) places routes made.filled) }
{
    let list = as_list(alloc, &places, routes)?;
    let places = without_total(alloc, places)?;
    let routes = without_total(alloc, list.rows)?;
    let filled_places = filled_columns(alloc, places.rows, fill_down)?;
    let filled_routes = filled_columns(alloc, routes.rows, fill_down)?;
    Ok(ReadRows {
        places: filled_places.rows,
        routes: filled_routes.rows,
        done: Done {
            list: list.count,
            place_total: places.line,
            route_total: routes.line,
        },
        filled: Filled {
            places: filled_places.columns,
            routes: filled_routes.columns,
        },
    })
}
