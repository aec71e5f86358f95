//! Texts of two tables.
use mcf_decimal::Mark;
use mcf_reading::{Faults, Tables, read};
use mcf_table::records_of;
use mcf_text::NoMemory;
use std::alloc::Global;

// What two texts say, whose cells a semicolon separates; `None` if one is no table.
pub(crate) fn said(
    alloc: Global,
    places: &[u8],
    routes: &[u8],
    mark: Option<Mark>,
) -> Result<Option<Result<Tables, Faults>>, NoMemory> {
    let Ok(places) = records_of(alloc, places, b';')? else {
        return Ok(None);
    };
    let Ok(routes) = records_of(alloc, routes, b';')? else {
        return Ok(None);
    };
    Ok(Some(read(alloc, &places, &routes, mark)?))
}
