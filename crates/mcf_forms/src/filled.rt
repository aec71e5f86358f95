//! A column that is filled down.
ghost use Rattle.std.specs.Prelude.{◌≡◌, ◌-◌, ◌<◌, ◌==◌, [], IfOk, if◌then◌else◌, length, map, slice_index_or};
ghost use Rattle.mcf_table.specs.Heads.{cells_of, heads};
ghost use Rattle.mcf_forms.specs.Filled.{filled_down, filled_row, taken_count, takes, value_at, with_cell};

use mcf_table::Records;
use mcf_text::NoMemory;
use std::alloc::Global;

/// The rows of a table with a column that is filled down.
#[derive(Drop)]
pub struct FilledDown {
    /// The rows.
    pub rows: Records,
    /// How many cells took one from above.
    pub count: usize,
}

// What the row has in a column: its cell, or this one, which the row above has.
#[tactic(auto, unfolding(crate::specs::Filled::value_at))]
fn value_at<'t>(records: &'t Records, row: usize, place: usize, above: &'t [u8]) -> &'t [u8]
    requires inside { row < length records.now }
    requires above { above.now ≡ value_at records.now place (row - 1) }
    ensures { result.now ≡ value_at records.now place row }
{
    let cell = records.cell(row, place);
    if row == 0 || cell.is_empty() {
        above
    } else {
        cell
    }
}

// Whether the row takes this cell, which it has in a column.
#[tactic(auto, unfolding(crate::specs::Filled::takes))]
fn takes(records: &Records, row: usize, place: usize, value: &[u8]) -> bool
    requires inside { row < length records.now }
    requires value { value.now ≡ value_at records.now place row }
    ensures { result ≡ takes records.now place row }
{
    records.cell(row, place).is_empty() && !value.is_empty()
}

// The cells of a row.
pub(crate) fn cells_of<'t>(
    alloc: Global,
    records: &'t Records,
    row: usize,
) -> Result<Vec<&'t [u8]>, NoMemory>
    requires { row < length records.now }
    ensures { IfOk result (λ made. map (λ cell. cell.now) made.items ≡ cells_of records.now row) }
{
    let mut made = Vec::new(alloc);
    for place in 0..records.cell_count(row) {
        made.push(records.cell(row, place))?;
    }
    Ok(made)
}

// The cell of a row at a place, or this one at the place where it stands.
fn cell_or<'t>(
    records: &'t Records,
    row: usize,
    other: usize,
    place: usize,
    value: &'t [u8],
) -> &'t [u8]
    requires { row < length records.now }
    ensures { result.now ≡ (if other == place then value.now else slice_index_or (cells_of records.now row) other []) }
{
    if other == place {
        value
    } else {
        records.cell(row, other)
    }
}

// The cells of a row with this one at a place, after empty cells if they are fewer.
#[tactic(auto, unfolding(crate::specs::Filled::with_cell))]
fn with_cell<'t>(
    alloc: Global,
    records: &'t Records,
    row: usize,
    place: usize,
    value: &'t [u8],
) -> Result<Vec<&'t [u8]>, NoMemory>
    requires inside { row < length records.now }
    requires few { place < length (heads records.now) }
    ensures { IfOk result (λ made. map (λ cell. cell.now) made.items ≡ with_cell place value.now (cells_of records.now row)) }
{
    prove!(place < records.head_count());
    let width = records.cell_count(row).max(place + 1);
    let mut made = Vec::new(alloc);
    for other in 0..width {
        made.push(cell_or(records, row, other, place, value))?;
    }
    Ok(made)
}

// The cells of a row with the one that it takes, if it takes one.
#[tactic(auto, unfolding(crate::specs::Filled::filled_row))]
fn filled_cells<'t>(
    alloc: Global,
    records: &'t Records,
    row: usize,
    place: usize,
    value: &'t [u8],
) -> Result<Vec<&'t [u8]>, NoMemory>
    requires inside { row < length records.now }
    requires few { place < length (heads records.now) }
    requires value { value.now ≡ value_at records.now place row }
    ensures { IfOk result (λ made. map (λ cell. cell.now) made.items ≡ (filled_row records.now place row).cells) }
{
    if takes(records, row, place, value) {
        with_cell(alloc, records, row, place, value)
    } else {
        cells_of(alloc, records, row)
    }
}

/// Fills a column down: below the heads, an empty cell at this place takes the last one above it
/// that isn't empty. A row that is too short gets empty cells in between. It says how many cells
/// took one.
///
/// # Errors
///
/// `NoMemory` if an allocation is refused.
pub fn filled_down(alloc: Global, records: &Records, place: usize) -> Result<FilledDown, NoMemory>
    requires { place < length (heads records.now) }
    ensures rows { IfOk result (λ made. made.rows ≡ filled_down place records.now) }
    ensures count { IfOk result (λ made. made.count ≡ taken_count place records.now) }
{
    let mut rows = Records::new(alloc);
    let mut count = 0;
    let mut above: &[u8] = &[];
    for row in 0..records.len() {
        above = value_at(records, row, place, above);
        let cells = filled_cells(alloc, records, row, place, above)?;
        rows.push_row(records.line(row), &cells)?;
        count += usize::from(takes(records, row, place, above));
    }
    Ok(FilledDown { rows, count })
}
