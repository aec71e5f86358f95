//! The cells of a matrix.
ghost use Rattle.std.specs.Prelude.{◌≡◌, ◌-◌, ◌++◌, ◌∷◌, [], not, IfOk, OnOk, filter, length, map};
ghost use Rattle.std.specs.List.{flat_map, range_with_len};
ghost use Rattle.std.specs.Str.{str_eq_ignore_ascii_case};
ghost use Rattle.mcf_table.specs.Heads.{heads};
ghost use Rattle.mcf_roster_reading.specs.Cells.{rows};
ghost use Rattle.mcf_roster_reading.specs.Columns.{head_word};
ghost use Rattle.mcf_roster_reading.specs.Layouts.{has_filled, head_at, is_needs_row, is_thing, matrix_layout, matrix_pair, need_at, row_needs, row_pairs, thing_places};
ghost use Rattle.mcf_roster_reading.specs.declared.kinds.Head.TheVariants.{Takes};

use crate::cells::{at_place, cell_in, column_cells, is_filled, rows_of};
use crate::heads::place_under;
use crate::kinds::Head;
use crate::layouts::{Layout, PairAt, SaidAt, said_cells};
use mcf_table::{CellPlace, Records};
use mcf_text::NoMemory;
use std::alloc::Global;

// Whether the row says what things need.
fn is_needs_row(records: &Records, row: usize) -> bool
    ensures { result ≡ is_needs_row records.now row }
{
    cell_in(records, at_place(0, row)).eq_ignore_ascii_case(b"needs")
}

// The rows of persons.
fn person_rows(alloc: Global, records: &Records, rows: &[usize]) -> Result<Vec<usize>, NoMemory>
    ensures { IfOk result (λ made. made.items ≡ filter (λ row. not (is_needs_row records.now row)) rows.now) }
{
    let mut made = Vec::new(alloc);
    for row in rows {
        if !is_needs_row(records, *row) {
            made.push(*row)?;
        }
    }
    Ok(made)
}

// The rows that say what things need.
fn needs_rows(alloc: Global, records: &Records, rows: &[usize]) -> Result<Vec<usize>, NoMemory>
    ensures { IfOk result (λ made. made.items ≡ filter (is_needs_row records.now) rows.now) }
{
    let mut made = Vec::new(alloc);
    for row in rows {
        if is_needs_row(records, *row) {
            made.push(*row)?;
        }
    }
    Ok(made)
}

// Whether a cell of the column isn't empty in one of the rows.
fn has_filled(records: &Records, rows: &[usize], place: usize) -> bool
    ensures { result ≡ has_filled records.now rows.now place }
{
    rows.iter()
        .any(|row| is_filled(cell_in(records, at_place(place, *row))))
}

// Whether the cell is the head of the column with the numbers of persons.
fn is_takes(cell: &[u8]) -> bool
    ensures { result ≡ str_eq_ignore_ascii_case cell.now (head_word Takes) }
{
    cell.eq_ignore_ascii_case(b"takes")
}

// Whether the column is that of a thing.
fn is_thing(records: &Records, below: &[usize], place: usize) -> bool
    requires { below.now ≡ rows records.now }
    ensures { result ≡ is_thing records.now place }
{
    let head = cell_in(records, at_place(place, 0));
    if is_takes(head) {
        return false;
    }
    is_filled(head) || has_filled(records, below, place)
}

// How many heads stand after the first.
fn later_heads(records: &Records) -> usize
    ensures { result ≡ length (heads records.now) - 1 }
{
    records.head_count().saturating_sub(1)
}

// Appends the column, if it is that of a thing.
fn push_thing(
    made: &mut Vec<usize>,
    records: &Records,
    below: &[usize],
    place: usize,
) -> Result<(), NoMemory>
    requires { below.now ≡ rows records.now }
    ensures { OnOk result (made.new.items ≡ made.old.items ++ filter (is_thing records.now) (place ∷ [])) }
{
    if is_thing(records, below, place) {
        made.push(place)?;
    }
    Ok(())
}

// The columns of things.
fn thing_places(alloc: Global, records: &Records, below: &[usize]) -> Result<Vec<usize>, NoMemory>
    requires { below.now ≡ rows records.now }
    ensures { IfOk result (λ made. made.items ≡ thing_places records.now) }
{
    let count = later_heads(records);
    let mut made = Vec::new(alloc);
    for place in 0..count {
        push_thing(&mut made, records, below, place + 1)?;
    }
    Ok(made)
}

// The cells of the row of the heads at some places.
fn head_cells(alloc: Global, places: &[usize]) -> Result<Vec<CellPlace>, NoMemory>
    ensures { IfOk result (λ made. made.items ≡ map head_at places.now) }
{
    let mut made = Vec::new(alloc);
    for place in places {
        made.push(at_place(*place, 0))?;
    }
    Ok(made)
}

// The cell that says how many persons the thing in the head of its column needs.
fn need_at(row: usize, place: usize) -> SaidAt
    ensures { result ≡ need_at row place }
{
    SaidAt {
        name: at_place(place, 0),
        cell: at_place(place, row),
    }
}

// Appends the cells of a row that say what things need.
fn push_row_needs(made: &mut Vec<SaidAt>, places: &[usize], row: usize) -> Result<(), NoMemory>
    ensures { OnOk result (made.new.items ≡ made.old.items ++ row_needs places.now row) }
{
    for place in places {
        made.push(need_at(row, *place))?;
    }
    Ok(())
}

// The cells of rows that say what things need.
fn needs_cells(alloc: Global, places: &[usize], rows: &[usize]) -> Result<Vec<SaidAt>, NoMemory>
    ensures { IfOk result (λ made. made.items ≡ flat_map (row_needs places.now) rows.now) }
{
    let mut made = Vec::new(alloc);
    for row in rows {
        push_row_needs(&mut made, places, *row)?;
    }
    Ok(made)
}

// The cells of the pair of a row's person and a column's thing.
fn matrix_pair(row: usize, place: usize) -> PairAt
    ensures { result ≡ matrix_pair row place }
{
    PairAt {
        who: at_place(0, row),
        what: at_place(place, 0),
        cost: at_place(place, row),
    }
}

// Appends the pairs of a row's person.
fn push_row_pairs(made: &mut Vec<PairAt>, places: &[usize], row: usize) -> Result<(), NoMemory>
    ensures { OnOk result (made.new.items ≡ made.old.items ++ row_pairs places.now row) }
{
    for place in places {
        made.push(matrix_pair(row, *place))?;
    }
    Ok(())
}

// The cells of the pairs of persons and things.
fn matrix_pairs(alloc: Global, places: &[usize], rows: &[usize]) -> Result<Vec<PairAt>, NoMemory>
    ensures { IfOk result (λ made. made.items ≡ flat_map (row_pairs places.now) rows.now) }
{
    let mut made = Vec::new(alloc);
    for row in rows {
        push_row_pairs(&mut made, places, *row)?;
    }
    Ok(made)
}

// The cells of a matrix.
pub(crate) fn matrix_layout(alloc: Global, records: &Records) -> Result<Layout, NoMemory>
    ensures { IfOk result (λ made. made ≡ matrix_layout records.now) }
{
    let takes = place_under(records, Head::Takes);
    let rows = rows_of(alloc, records)?;
    let persons = person_rows(alloc, records, &rows)?;
    let needs = needs_rows(alloc, records, &rows)?;
    let places = thing_places(alloc, records, &rows)?;
    Ok(Layout {
        names_once: true,
        persons: column_cells(alloc, 0, &persons)?,
        things: head_cells(alloc, &places)?,
        takes: said_cells(alloc, 0, takes, &persons)?,
        needs: needs_cells(alloc, &places, &needs)?,
        pairs: matrix_pairs(alloc, &places, &persons)?,
    })
}
