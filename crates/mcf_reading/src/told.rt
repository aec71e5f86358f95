//! Faults at their places.
ghost use Rattle.std.specs.Prelude.{◌≡◌, ◌++◌, OnOk, map};
ghost use Rattle.mcf_table.specs.Heads.{beyond};
ghost use Rattle.mcf_reading.specs.Faults.{beyond_fault, beyond_faults, told, under};

use crate::kinds::{Fault, FaultKind};
use crate::locations::{ColumnAt, Head, Location, Table};
use mcf_table::{CellPlace, Records};
use mcf_text::NoMemory;
use std::alloc::Global;

// The cell of a row in the column with a head.
pub(crate) fn under(table: Table, row: usize, head: Head) -> Location
    ensures { result ≡ under table row head }
{
    Location {
        table,
        row,
        column: ColumnAt::Under(head),
    }
}

// Appends the fault of a kind at a location, if there is one.
pub(crate) fn push_told(
    faults: &mut Vec<Fault>,
    at: Location,
    kind: Option<FaultKind>,
) -> Result<(), NoMemory>
    ensures { OnOk result (faults.new.items ≡ faults.old.items ++ told at kind) }
{
    if let Some(kind) = kind {
        faults.push(Fault { at, kind })?;
    }
    Ok(())
}

// The fault of a cell beyond the last head.
fn beyond_fault(table: Table, cell: CellPlace) -> Fault
    ensures { result ≡ beyond_fault table cell }
{
    let at = Location {
        table,
        row: cell.row,
        column: ColumnAt::Placed(cell.place),
    };
    Fault {
        at,
        kind: FaultKind::Beyond,
    }
}

// Appends the faults of the cells beyond the last head.
pub(crate) fn push_beyond(
    alloc: Global,
    table: Table,
    records: &Records,
    faults: &mut Vec<Fault>,
) -> Result<(), NoMemory>
    ensures { OnOk result (faults.new.items ≡ faults.old.items ++ beyond_faults table records.now) }
{
    let cells = records.beyond(alloc)?;
    push_cells(table, &cells, faults)
}

// Appends the faults of cells beyond the last head.
fn push_cells(table: Table, cells: &[CellPlace], faults: &mut Vec<Fault>) -> Result<(), NoMemory>
    ensures { OnOk result (faults.new.items ≡ faults.old.items ++ map (beyond_fault table) cells.now) }
{
    for cell in cells {
        faults.push(beyond_fault(table, *cell))?;
    }
    Ok(())
}
