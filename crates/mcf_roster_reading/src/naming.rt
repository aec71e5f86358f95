//! The names of persons and things.
ghost use Rattle.std.specs.Prelude.{◌≡◌, ◌++◌, IfOk, OnOk, map};
ghost use Rattle.mcf_names.specs.Names.{number_of};
ghost use Rattle.mcf_roster_reading.specs.Cells.{cell_in};
ghost use Rattle.mcf_roster_reading.specs.Faults.{in_turn};
ghost use Rattle.mcf_roster_reading.specs.Naming.{all_name_faults, is_before, name_faults, names_at, nothing_faults, twice_kind};

use crate::cells::{cell_in, is_filled};
use crate::kinds::{Fault, FaultKind, Location, name_kind, push_told};
use mcf_names::Names;
use mcf_table::{CellPlace, Records};
use mcf_text::NoMemory;
use std::alloc::Global;

// The names in some cells.
pub(crate) fn names_at<'t>(
    alloc: Global,
    records: &'t Records,
    places: &[CellPlace],
) -> Result<Names<'t>, NoMemory>
    ensures { IfOk result (λ made. made ≡ names_at records.now places.now) }
{
    let mut found = Vec::new(alloc);
    for at in places {
        let name = cell_in(records, *at);
        found.push(name)?;
    }
    Names::of(alloc, found)
}

// Whether the number is below this one.
pub(crate) fn is_before(first: Option<usize>, number: usize) -> bool
    ensures { result ≡ is_before first number }
{
    match first {
        Some(first) => first < number,
        None => false,
    }
}

// Whether an earlier cell has the name, which isn't empty and may stand only once.
fn twice_kind(once: bool, names: &Names<'_>, number: usize, cell: &[u8]) -> Option<FaultKind>
    ensures { result ≡ twice_kind once names.now number cell.now }
{
    let first = names.number_of(cell);
    if once && is_filled(cell) && is_before(first, number) {
        Some(FaultKind::Twice)
    } else {
        None
    }
}

// Appends the faults of the name in a cell.
fn push_name_faults(
    once: bool,
    records: &Records,
    names: &Names<'_>,
    number: usize,
    at: CellPlace,
    faults: &mut Vec<Fault>,
) -> Result<(), NoMemory>
    ensures { OnOk result (faults.new.items ≡ faults.old.items ++ name_faults once records.now names.now number at) }
{
    let cell = cell_in(records, at);
    push_told(faults, Location::Cell(at), name_kind(cell))?;
    let twice = twice_kind(once, names, number, cell);
    push_told(faults, Location::Cell(at), twice)
}

// Appends the faults of the names in some cells.
fn push_in_turn(
    once: bool,
    records: &Records,
    names: &Names<'_>,
    places: &[CellPlace],
    faults: &mut Vec<Fault>,
) -> Result<(), NoMemory>
    ensures { OnOk result (faults.new.items ≡ faults.old.items ++ in_turn (name_faults once records.now names.now) 1 places.now) }
{
    for place in 0..places.len() {
        push_name_faults(once, records, names, place + 1, places[place], faults)?;
    }
    Ok(())
}

// Appends the faults of the names in some cells.
pub(crate) fn push_all_names(
    alloc: Global,
    once: bool,
    records: &Records,
    places: &[CellPlace],
    faults: &mut Vec<Fault>,
) -> Result<(), NoMemory>
    ensures { OnOk result (faults.new.items ≡ faults.old.items ++ all_name_faults once records.now places.now) }
{
    let names = names_at(alloc, records, places)?;
    push_in_turn(once, records, &names, places, faults)
}

// Appends that no thing or no person is named.
pub(crate) fn push_nothing(
    persons: &[CellPlace],
    things: &[CellPlace],
    faults: &mut Vec<Fault>,
) -> Result<(), NoMemory>
    ensures { OnOk result (faults.new.items ≡ faults.old.items ++ nothing_faults persons.now things.now) }
{
    let kind = if things.is_empty() {
        Some(FaultKind::NoThing)
    } else if persons.is_empty() {
        Some(FaultKind::NoPerson)
    } else {
        None
    };
    push_told(faults, Location::Heads, kind)
}
