//! Assignments: the choice of a search, and the assignment or cover that its matching gives.

use crate::copying::copy_costs;
use crate::covers::find_cover;
use crate::found::{Assignment, Cover, Found};
use crate::ranges::{far_cost, has_forbidden};
use mcf_columns::{NOWHERE, at, put};
use mcf_matrix_paths::search_by_paths;
use mcf_matrix_rows::{Pairing, View};
use mcf_matrix_simplex::search_matching;
use mcf_text::{NoMemory, copies};
use std::alloc::Global;

/// Searches a view, which may have forbidden pairs, for an assignment or a cover.
pub(crate) fn find(alloc: Global, view: View<'_>) -> Result<Option<Found>, NoMemory> {
    let is_turned = view.rows > view.columns;
    let has_forbidden = has_forbidden(view);
    if !is_turned && !has_forbidden {
        return find_complete(alloc, view);
    }
    let far = if has_forbidden {
        far_cost(view)
    } else {
        i64::MAX
    };
    let costs = copy_costs(alloc, view, far, is_turned)?;
    let (rows, columns) = if is_turned {
        (view.columns, view.rows)
    } else {
        (view.rows, view.columns)
    };
    let copy = View {
        costs: &costs,
        rows,
        columns,
        stride: columns as usize,
        zeros: &[],
    };
    let found = find_limited(alloc, copy, far)?;
    turn_found(alloc, found, is_turned)
}

// Searches a view without forbidden pairs, which has no more rows than columns.
fn find_complete(alloc: Global, view: View<'_>) -> Result<Option<Found>, NoMemory> {
    let Some(pairing) = search(alloc, view)? else {
        return Ok(None);
    };
    Ok(Some(Found::Assignment(priced(alloc, view, pairing)?)))
}

// Searches a view in which the cost `far` stands for forbidden pairs, and which has no more rows
// than columns.
fn find_limited(alloc: Global, view: View<'_>, far: i64) -> Result<Option<Found>, NoMemory> {
    let Some(pairing) = search(alloc, view)? else {
        return Ok(None);
    };
    if !reaches(view, &pairing, far) {
        return Ok(Some(Found::Assignment(priced(alloc, view, pairing)?)));
    }
    let Some(cover) = find_cover(alloc, view, far, pairing)? else {
        return Ok(None);
    };
    Ok(Some(Found::Cover(cover)))
}

// Returns whether a matched pair costs at least `far`.
fn reaches(view: View<'_>, pairing: &Pairing, far: i64) -> bool {
    'rows: for row in 0..view.rows {
        if view.cost(row, pairing.column(row)) >= far {
            return true;
        }
    }
    false
}

// Searches for a matching of all rows with prices of columns: by augmenting paths, and by the
// simplex if these exceed their budget.
fn search(alloc: Global, view: View<'_>) -> Result<Option<Pairing>, NoMemory> {
    let first = search_by_paths(alloc, view)?;
    if first.is_some() {
        return Ok(first);
    }
    search_matching(alloc, view)
}

// Returns the assignment of a matching, with prices of rows at which the reduced costs of its pairs
// are 0.
fn priced(alloc: Global, view: View<'_>, pairing: Pairing) -> Result<Assignment, NoMemory> {
    let mut row_prices = copies(alloc, view.rows as usize, 0)?;
    'rows: for row in 0..view.rows {
        let column = pairing.column(row);
        let price = view.cost(row, column).wrapping_sub(pairing.price(column));
        put(&mut row_prices, row, price);
    }
    Ok(Assignment {
        column_of: pairing.column_of,
        row_prices,
        column_prices: pairing.prices,
    })
}

// Exchanges rows and columns of what was found, if the matrix was transposed.
fn turn_found(
    alloc: Global,
    found: Option<Found>,
    is_turned: bool,
) -> Result<Option<Found>, NoMemory> {
    if !is_turned {
        return Ok(found);
    }
    match found {
        Some(Found::Assignment(assignment)) => Ok(Some(Found::Assignment(turn_assignment(
            alloc, assignment,
        )?))),
        Some(Found::Cover(Cover { rows, columns })) => Ok(Some(Found::Cover(Cover {
            rows: columns,
            columns: rows,
        }))),
        None => Ok(None),
    }
}

// Returns the assignment with rows and columns exchanged.
fn turn_assignment(alloc: Global, turned: Assignment) -> Result<Assignment, NoMemory> {
    let mut column_of = copies(alloc, turned.column_prices.len(), NOWHERE)?;
    'columns: for column in 0..turned.column_of.len().min(NOWHERE as usize) as u32 {
        let row = at(&turned.column_of, column, NOWHERE);
        put(&mut column_of, row, column);
    }
    Ok(Assignment {
        column_of,
        row_prices: turned.column_prices,
        column_prices: turned.row_prices,
    })
}
