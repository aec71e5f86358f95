//! The cells of a list or of a matrix.
ghost use Rattle.std.specs.Prelude.{◌≡◌, IfOk, map};
ghost use Rattle.mcf_roster_reading.specs.Cells.{rows};
ghost use Rattle.mcf_roster_reading.specs.Columns.{is_list};
ghost use Rattle.mcf_roster_reading.specs.Layouts.{layout_of, list_layout, list_pair, said_at, said_cells};

use crate::cells::{at_place, column_cells, rows_of};
use crate::heads::{column_or_first, is_list, place_under};
use crate::kinds::Head;
use crate::matrix::matrix_layout;
use mcf_table::{CellPlace, Records};
use mcf_text::NoMemory;
use std::alloc::Global;
use std::marker::Model;

// A cell that says how many the person or the thing of another cell may have.
#[derive(Clone, Copy)]
pub(crate) struct SaidAt {
    pub(crate) name: CellPlace,
    pub(crate) cell: CellPlace,
}

// The cells of a pair.
#[derive(Clone, Copy)]
pub(crate) struct PairAt {
    pub(crate) who: CellPlace,
    pub(crate) what: CellPlace,
    pub(crate) cost: CellPlace,
}

// The cells that are read, each kind in its order.
#[derive(Drop)]
pub(crate) struct Layout {
    // Whether a name may stand only once, or else a pair.
    pub(crate) names_once: bool,
    // The cells that name persons.
    pub(crate) persons: Vec<CellPlace>,
    // The cells that name things.
    pub(crate) things: Vec<CellPlace>,
    // The cells that say how many things a person takes.
    pub(crate) takes: Vec<SaidAt>,
    // The cells that say how many persons a thing needs.
    pub(crate) needs: Vec<SaidAt>,
    // The cells of pairs.
    pub(crate) pairs: Vec<PairAt>,
}

impl Model for Layout {
    ghost use Rattle.mcf_roster_reading.specs.Layouts.{Layout as Cells};

    ghost Value = { Cells };

    ghost view = { λ l. record {
      names_once = l.names_once;
      persons = l.persons.items;
      things = l.things.items;
      takes = l.takes.items;
      needs = l.needs.items;
      pairs = l.pairs.items;
    } };
}

// The columns of a list.
#[derive(Clone, Copy)]
struct ListColumns {
    who: usize,
    what: usize,
    cost: usize,
}

// A cell of a row that says how many the name in another may have.
fn said_at(name: usize, place: usize, row: usize) -> SaidAt
    ensures { result ≡ said_at name place row }
{
    SaidAt {
        name: at_place(name, row),
        cell: at_place(place, row),
    }
}

// The cells of a column that say how many the names of another may have; none without that column.
pub(crate) fn said_cells(
    alloc: Global,
    name: usize,
    column: Option<usize>,
    rows: &[usize],
) -> Result<Vec<SaidAt>, NoMemory>
    ensures { IfOk result (λ made. made.items ≡ said_cells name column rows.now) }
{
    match column {
        Some(place) => column_said(alloc, name, place, rows),
        None => Ok(Vec::new(alloc)),
    }
}

// The cells of a column that say how many the names of another may have.
fn column_said(
    alloc: Global,
    name: usize,
    place: usize,
    rows: &[usize],
) -> Result<Vec<SaidAt>, NoMemory>
    ensures { IfOk result (λ made. made.items ≡ map (said_at name place) rows.now) }
{
    let mut made = Vec::new(alloc);
    for row in rows {
        made.push(said_at(name, place, *row))?;
    }
    Ok(made)
}

// The cells of a row's pair.
fn list_pair(columns: ListColumns, row: usize) -> PairAt
    ensures { result ≡ list_pair columns.who columns.what columns.cost row }
{
    PairAt {
        who: at_place(columns.who, row),
        what: at_place(columns.what, row),
        cost: at_place(columns.cost, row),
    }
}

// The cells of the pairs of a list.
fn list_pairs(alloc: Global, columns: ListColumns, rows: &[usize]) -> Result<Vec<PairAt>, NoMemory>
    ensures { IfOk result (λ made. made.items ≡ map (list_pair columns.who columns.what columns.cost) rows.now) }
{
    let mut made = Vec::new(alloc);
    for row in rows {
        made.push(list_pair(columns, *row))?;
    }
    Ok(made)
}

// The cells of a list.
fn list_layout(alloc: Global, records: &Records) -> Result<Layout, NoMemory>
    ensures { IfOk result (λ made. made ≡ list_layout records.now) }
{
    let columns = ListColumns {
        who: column_or_first(records, Head::Who),
        what: column_or_first(records, Head::What),
        cost: column_or_first(records, Head::Cost),
    };
    let takes = place_under(records, Head::Takes);
    let needs = place_under(records, Head::Needs);
    let rows = rows_of(alloc, records)?;
    Ok(Layout {
        names_once: false,
        persons: column_cells(alloc, columns.who, &rows)?,
        things: column_cells(alloc, columns.what, &rows)?,
        takes: said_cells(alloc, columns.who, takes, &rows)?,
        needs: said_cells(alloc, columns.what, needs, &rows)?,
        pairs: list_pairs(alloc, columns, &rows)?,
    })
}

// The cells of a table.
pub(crate) fn layout_of(alloc: Global, records: &Records) -> Result<Layout, NoMemory>
    ensures { IfOk result (λ made. made ≡ layout_of records.now) }
{
    if is_list(records) {
        list_layout(alloc, records)
    } else {
        matrix_layout(alloc, records)
    }
}
