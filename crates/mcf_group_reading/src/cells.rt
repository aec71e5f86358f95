//! Cells, and the rows below the heads.
ghost use Rattle.std.specs.Prelude.{◌≡◌, ◌++◌, IfOk, OnOk, map};
ghost use Rattle.mcf_table.specs.Texts.{is_filled};
ghost use Rattle.mcf_roster_reading.specs.Cells.{at_place, rows};
ghost use Rattle.mcf_group_reading.specs.Faults.{beyond_fault, beyond_faults};
ghost use Rattle.mcf_group_reading.specs.GroupRows.{cell_under};

use crate::kinds::{Fault, FaultKind, Location};
use mcf_table::{CellPlace, Records};
use mcf_text::NoMemory;
use std::alloc::Global;

// The cell of a row in a column; empty if the table doesn't have the row or the column.
pub(crate) fn cell_under(records: &Records, column: Option<usize>, row: usize) -> &[u8]
    ensures { result.now ≡ cell_under records.now column row }
{
    match column {
        Some(place) if row < records.len() => records.cell(row, place),
        _ => &[],
    }
}

// The place in a row.
pub(crate) fn at_place(place: usize, row: usize) -> CellPlace
    ensures { result ≡ at_place place row }
{
    CellPlace { row, place }
}

// Whether the cell isn't empty.
pub(crate) fn is_filled(cell: &[u8]) -> bool
    ensures { result ≡ is_filled cell.now }
{
    !cell.is_empty()
}

// The rows below the heads.
pub(crate) fn rows_of(alloc: Global, records: &Records) -> Result<Vec<usize>, NoMemory>
    ensures { IfOk result (λ made. made.items ≡ rows records.now) }
{
    let count = records.len().saturating_sub(1);
    let mut made = Vec::new(alloc);
    for place in 0..count {
        made.push(place + 1)?;
    }
    Ok(made)
}

// The fault of a cell beyond the last head.
fn beyond_fault(cell: CellPlace) -> Fault
    ensures { result ≡ beyond_fault cell }
{
    Fault {
        at: Location::Cell(cell),
        kind: FaultKind::Beyond,
    }
}

// Appends the faults of cells beyond the last head.
fn push_cells(cells: &[CellPlace], faults: &mut Vec<Fault>) -> Result<(), NoMemory>
    ensures { OnOk result (faults.new.items ≡ faults.old.items ++ map beyond_fault cells.now) }
{
    for cell in cells {
        faults.push(beyond_fault(*cell))?;
    }
    Ok(())
}

// Appends the faults of the cells beyond the last head.
pub(crate) fn push_beyond(
    alloc: Global,
    records: &Records,
    faults: &mut Vec<Fault>,
) -> Result<(), NoMemory>
    ensures { OnOk result (faults.new.items ≡ faults.old.items ++ beyond_faults records.now) }
{
    let cells = records.beyond(alloc)?;
    push_cells(&cells, faults)
}
