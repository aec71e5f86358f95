//! Columns, piles, and the scans and searches over them, on worked rows.
use mcf_columns::{NOWHERE, Pile, at, copy, count_up, narrow, put, sum_up, tail};
use mcf_matrix_paths::search_by_paths;
use mcf_matrix_rows::{
    Pairing, RowOffer, UNREACHED, View, lower_prices, offer_all, row_greatest, row_least,
    two_least, write_block_leasts,
};
use mcf_matrix_simplex::{Basis, search_matching, search_plan};
use std::test::Fail;

// The least assignment costs 5: rows 0, 1, 2 take columns 1, 0, 2.
static COSTS: [i64; 9] = [4, 1, 3, 2, 0, 5, 3, 2, 2];

#[test]
fn columns_are_read_and_written(rt: HostRuntime) -> Result<(), Fail> {
    let mut column = [5i64, 7, 9];
    put(&mut column, 1, 8);
    put(&mut column, 3, 1);
    assert!(rt; at(&column, 1, 0) == 8 && at(&column, 3, 4) == 4);
    assert!(rt; tail(&column, 2).len() == 1 && tail(&column, 9).len() == 0);
    let mut other = [0i64, 0];
    copy(&column, &mut other);
    assert!(rt; other[0] == 5 && other[1] == 8);
    let mut counts = [1u32, 2, 3];
    assert!(rt; count_up(&mut counts, 1) == 2 && count_up(&mut counts, 3) == 0);
    sum_up(&mut counts);
    assert!(rt; counts[0] == 1 && counts[1] == 4 && counts[2] == 7);
    assert!(rt; narrow(7) == 7 && narrow(usize::MAX) == NOWHERE);
    Ok(())
}

#[test]
fn piles_give_back_the_last(rt: HostRuntime) -> Result<(), Fail> {
    let mut pile = Pile::start(rt.alloc(), 2)?;
    pile.add(4);
    pile.add(6);
    pile.add(8);
    assert!(rt; pile.len() == 2 && pile.get(0) == 4);
    assert!(rt; pile.pop() == Some(6) && pile.pop() == Some(4) && pile.pop().is_none());
    pile.add(5);
    pile.clear();
    assert!(rt; pile.len() == 0);
    Ok(())
}

#[test]
fn rows_are_scanned(rt: HostRuntime) -> Result<(), Fail> {
    let (row, prices) = ([4i64, 1, 3], [0i64, -4, 0]);
    let two = two_least(&row, &prices);
    assert!(rt; two.least == 3 && two.column == 2 && two.second == 4 && two.second_column == 0);
    assert!(rt; row_least(&row, &prices) == (3, 2) && row_greatest(&row, 2) == 4);
    let mut leasts = [0i64];
    assert!(rt; write_block_leasts(&[3; 16], &[1; 16], &mut leasts) == 1 && leasts[0] == 2);
    let (mut lowered, mut rows) = ([5i64, 0, 9], [0i64, 0, 0]);
    lower_prices(7, &row, &mut lowered, &mut rows);
    assert!(rt; lowered[0] == 4 && lowered[1] == 0 && lowered[2] == 3);
    assert!(rt; rows[0] == 7 && rows[1] == 0 && rows[2] == 7);
    Ok(())
}

#[test]
fn offers_lower_distances(rt: HostRuntime) -> Result<(), Fail> {
    let (mut distances, mut sources) = ([UNREACHED, 1, UNREACHED], [0i64, 0, 0]);
    let mut leasts = [0i64];
    let offer = RowOffer { row: 2, height: 1 };
    let least = offer_all(
        offer,
        &[4, 3, 6],
        &[0, 0, 0],
        &mut distances,
        &mut sources,
        &mut leasts,
    );
    assert!(rt; least == 1 && leasts[0] == 1);
    assert!(rt; distances[0] == 3 && distances[1] == 1 && distances[2] == 5);
    assert!(rt; sources[0] == 2 && sources[1] == 0 && sources[2] == 2);
    Ok(())
}

// Returns a view of the worked costs.
fn worked() -> View<'static> {
    View {
        costs: &COSTS,
        rows: 3,
        columns: 3,
        stride: 3,
        zeros: &[],
    }
}

// Returns whether a pairing is the least assignment.
fn is_least(found: Option<Pairing>) -> bool {
    match found {
        Some(pairing) => {
            pairing.column(0) == 1 && pairing.column(1) == 0 && pairing.column(2) == 2
        }
        None => false,
    }
}

#[test]
fn both_searches_find_the_least_assignment(rt: HostRuntime) -> Result<(), Fail> {
    let by_paths = search_by_paths(rt.alloc(), worked())?;
    assert!(rt; is_least(by_paths));
    let by_simplex = search_matching(rt.alloc(), worked())?;
    assert!(rt; is_least(by_simplex));
    Ok(())
}

// Returns the cost of the plan of a basis.
fn cost_of(basis: &Basis<'_>) -> i64 {
    let mut cost = 0i64;
    for node in 0..basis.nodes() {
        if let Some(cell) = basis.cell(node) {
            let unit = worked().cost(cell.row, cell.column);
            cost = cost.wrapping_add(unit.wrapping_mul(cell.amount));
        }
    }
    cost
}

#[test]
fn the_simplex_finds_the_least_plan(rt: HostRuntime) -> Result<(), Fail> {
    match search_plan(rt.alloc(), worked(), &[2, 2, 2], &[2, 2, 2])? {
        Some(basis) => assert!(rt; cost_of(&basis) == 10),
        None => assert!(rt; false),
    }
    Ok(())
}
