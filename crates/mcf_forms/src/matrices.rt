//! A matrix of the costs of routes as a list.
ghost use Rattle.std.specs.Prelude.{◌≡◌, ◌-◌, ◌<◌, ◌∷◌, ◌++◌, [], IfOk, OnOk, length};
ghost use Rattle.std.specs.List.{list_any};
ghost use Rattle.mcf_table.specs.Heads.{heads};
ghost use Rattle.mcf_forms.specs.Matrices.{further, heads_row, is_listed, is_matrix, is_named, is_route, listed, named_count, route_in, routes_of, row_routes};

use crate::cells::{cells_in, head_line, is_filled, is_nothing, is_same, is_word};
use mcf_names::Names;
use mcf_table::Records;
use mcf_text::NoMemory;
use std::alloc::Global;

// Whether the column has the head of a list.
#[tactic(auto, unfolding(crate::specs::Matrices::is_listed))]
fn is_listed(routes: &Records, place: usize) -> bool
    ensures { result ≡ is_listed routes.now place }
{
    is_word(
        &[b"from", b"to", b"supply", b"least", b"most", b"cost"],
        routes.head(place),
    )
}

// Whether the head of the column is one of these names.
#[tactic(auto, unfolding(crate::specs::Matrices::is_named))]
fn is_named(names: &Names<'_>, routes: &Records, place: usize) -> bool
    ensures { result ≡ is_named names.now routes.now place }
{
    let head = routes.head(place);
    is_filled(head) && names.number_of(head).is_some()
}

// How many columns stand after the first.
fn further_count(routes: &Records) -> usize
    ensures { result ≡ length (heads routes.now) - 1 }
{
    routes.head_count().saturating_sub(1)
}

// Whether a column after the first has the head of a list.
fn any_listed(routes: &Records) -> bool
    ensures { result ≡ list_any (is_listed routes.now) (further routes.now) }
{
    (1..routes.head_count()).any(|place| is_listed(routes, place))
}

// How many columns after the first have one of these names as their head.
#[tactic(auto, unfolding(crate::specs::Matrices::named_count))]
fn named_count(names: &Names<'_>, routes: &Records) -> usize
    ensures { result ≡ named_count names.now routes.now }
{
    (1..routes.head_count())
        .filter(|place| is_named(names, routes, *place))
        .count()
}

// Whether the routes are a matrix of places with these names.
#[tactic(auto, unfolding(crate::specs::Matrices::is_matrix))]
fn is_matrix(names: &Names<'_>, routes: &Records) -> bool
    ensures { result ≡ is_matrix names.now routes.now }
{
    let count = routes.head_count();
    if count < 3 || any_listed(routes) {
        return false;
    }
    let named = named_count(names, routes);
    (count - 1).saturating_sub(named) <= named
}

// Whether the row has a route in this column.
#[tactic(auto, unfolding(crate::specs::Matrices::is_route))]
fn is_route(routes: &Records, row: usize, place: usize) -> bool
    requires { row < length routes.now }
    ensures { result ≡ is_route routes.now row place }
{
    let cell = routes.cell(row, place);
    !is_nothing(cell) && !is_same(routes.cell(row, 0), routes.head(place))
}

// Appends the heads of the list.
fn push_heads(made: &mut Records, routes: &Records) -> Result<(), NoMemory>
    ensures { OnOk result (made.new ≡ made.old ++ heads_row routes.now ∷ []) }
{
    made.push_row(head_line(routes), &[b"from", b"to", b"most", b"cost"])
}

// Appends the route of a row in this column, if it has one.
fn push_route(
    made: &mut Records,
    routes: &Records,
    row: usize,
    place: usize,
) -> Result<(), NoMemory>
    requires { row < length routes.now }
    ensures { OnOk result (made.new ≡ made.old ++ route_in routes.now row place) }
{
    if !is_route(routes, row, place) {
        return Ok(());
    }
    let cost = routes.cell(row, place);
    let cells = [routes.cell(row, 0), routes.head(place), &[], cost];
    made.push_row(routes.line(row), &cells)
}

// Appends the routes of a row.
fn push_routes(made: &mut Records, routes: &Records, row: usize) -> Result<(), NoMemory>
    requires { row < length routes.now }
    ensures { OnOk result (made.new ≡ made.old ++ row_routes routes.now row) }
{
    for place in 0..further_count(routes) {
        push_route(made, routes, row, place + 1)?;
    }
    Ok(())
}

// The matrix as a list.
fn listed(alloc: Global, routes: &Records) -> Result<Records, NoMemory>
    ensures { IfOk result (λ made. made ≡ listed routes.now) }
{
    let mut made = Records::new(alloc);
    push_heads(&mut made, routes)?;
    for row in 0..routes.len().saturating_sub(1) {
        push_routes(&mut made, routes, row + 1)?;
    }
    Ok(made)
}

/// The routes as a list, if they are a matrix of costs: two columns or more after the first, none
/// of them with the head from, to, supply, least, most or cost, and half of them or more with the
/// name of a place as their head. The list has the columns from, to, most and cost, and a route
/// without a limit for each cell: from the place on its left to the one above it. No cell is a
/// route that is empty, x or a dash, or stands below the place on its left. A route has the line of
/// its row in the matrix. It takes time n log m, for n cells and m places.
///
/// # Errors
///
/// `NoMemory` if an allocation is refused.
pub fn routes_of(
    alloc: Global,
    places: &Records,
    routes: &Records,
) -> Result<Option<Records>, NoMemory>
    ensures { IfOk result (λ made. made ≡ routes_of places.now routes.now) }
{
    let column = places.column_of(b"name").only_place();
    let names = Names::of(alloc, cells_in(alloc, places, column)?)?;
    if is_matrix(&names, routes) {
        let list = listed(alloc, routes)?;
        Ok(Some(list))
    } else {
        Ok(None)
    }
}
