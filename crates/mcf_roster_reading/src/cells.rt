//! Cells, and the rows below the heads.
ghost use Rattle.std.specs.Prelude.{◌≡◌, ◌++◌, IfOk, OnOk, map};
ghost use Rattle.mcf_table.specs.Heads.{beyond};
ghost use Rattle.mcf_table.specs.Texts.{is_filled};
ghost use Rattle.mcf_roster_reading.specs.Cells.{at_place, cell_in, is_forbidden, rows};
ghost use Rattle.mcf_roster_reading.specs.Faults.{beyond_fault, beyond_faults};

use crate::kinds::{Fault, FaultKind, Location};
use mcf_table::{CellPlace, Records};
use mcf_text::NoMemory;
use std::alloc::Global;

// The cell at a place.
pub(crate) fn cell_in(records: &Records, at: CellPlace) -> &[u8]
    ensures { result.now ≡ cell_in records.now at }
{
    if at.row < records.len() {
        records.cell(at.row, at.place)
    } else {
        &[]
    }
}

// The place in a row.
pub(crate) fn at_place(place: usize, row: usize) -> CellPlace
    ensures { result ≡ at_place place row }
{
    CellPlace { row, place }
}

// Whether the cell isn't empty.
pub(crate) fn is_filled(cell: &[u8]) -> bool
    ensures { result ≡ is_filled cell.now }
{
    !cell.is_empty()
}

// Whether the cell forbids a pair.
pub(crate) fn is_forbidden(cell: &[u8]) -> bool
    ensures { result ≡ is_forbidden cell.now }
{
    !is_filled(cell)
        || cell.eq_ignore_ascii_case(b"x")
        || cell == b"-".as_slice()
        || cell == b"\xE2\x80\x93".as_slice()
        || cell == b"\xE2\x80\x94".as_slice()
}

// The rows below the heads.
pub(crate) fn rows_of(alloc: Global, records: &Records) -> Result<Vec<usize>, NoMemory>
    ensures { IfOk result (λ made. made.items ≡ rows records.now) }
{
    let count = records.len().saturating_sub(1);
    let mut made = Vec::new(alloc);
    for place in 0..count {
        made.push(place + 1)?;
    }
    Ok(made)
}

// The cells at a place in some rows.
pub(crate) fn column_cells(
    alloc: Global,
    place: usize,
    rows: &[usize],
) -> Result<Vec<CellPlace>, NoMemory>
    ensures { IfOk result (λ made. made.items ≡ map (at_place place) rows.now) }
{
    let mut made = Vec::new(alloc);
    for row in rows {
        made.push(at_place(place, *row))?;
    }
    Ok(made)
}

// The fault of a cell beyond the last head.
fn beyond_fault(cell: CellPlace) -> Fault
    ensures { result ≡ beyond_fault cell }
{
    Fault {
        at: Location::Cell(cell),
        kind: FaultKind::Beyond,
    }
}

// Appends the faults of the cells beyond the last head.
pub(crate) fn push_beyond(
    alloc: Global,
    records: &Records,
    faults: &mut Vec<Fault>,
) -> Result<(), NoMemory>
    ensures { OnOk result (faults.new.items ≡ faults.old.items ++ beyond_faults records.now) }
{
    let cells = records.beyond(alloc)?;
    push_cells(&cells, faults)
}

// Appends the faults of cells beyond the last head.
fn push_cells(cells: &[CellPlace], faults: &mut Vec<Fault>) -> Result<(), NoMemory>
    ensures { OnOk result (faults.new.items ≡ faults.old.items ++ map beyond_fault cells.now) }
{
    for cell in cells {
        faults.push(beyond_fault(*cell))?;
    }
    Ok(())
}
