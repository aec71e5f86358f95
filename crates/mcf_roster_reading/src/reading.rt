//! Reading a table of persons and things.
ghost use Rattle.std.specs.Prelude.{◌≡◌, ◌++◌, ◌∷◌, [], IfOk, OnOk, Ok};
ghost use Rattle.mcf_roster_reading.specs.CostMarks.{settled_mark};
ghost use Rattle.mcf_roster_reading.specs.Layouts.{layout_of};
ghost use Rattle.mcf_roster_reading.specs.Reading.{cell_faults, entries, name_faults, number_faults, read_roster, read_settled};

use crate::cells::push_beyond;
use crate::heads::head_faults;
use crate::kinds::Fault;
use crate::layouts::{Layout, layout_of};
use crate::marks::settled_mark;
use crate::naming::{names_at, push_all_names, push_nothing};
use crate::pairs::{allowed, entries_of, push_costs};
use crate::repeated::push_repeated;
use crate::said::{push_all_said, sayings};
use crate::tables::{AllSaid, Faults, RosterTable};
use mcf_decimal::Mark;
use mcf_table::Records;
use mcf_text::NoMemory;
use std::alloc::Global;

/// Reads a table of persons and things, whose first row has the heads. It is a list with a pair in
/// each row, if columns have at least two of the heads `who`, `what` and `cost`; or else a matrix,
/// with a person in each row and a thing in each column. A person's number of things stands in a
/// column `takes`; a thing's number of persons stands in a column `needs` of a list, or in a row
/// `needs` of a matrix. The mark before decimals is the one that is named, or else the one that
/// costs show.
///
/// # Errors
///
/// The faults of the heads, if there are some; or else the fault of a second mark, if none is named
/// and costs show both; or else all faults of cells: first those of names, then those of numbers.
/// `NoMemory` if an allocation is refused.
pub fn read<'t>(
    alloc: Global,
    records: &'t Records,
    mark: Option<Mark>,
) -> Result<Result<RosterTable<'t>, Faults>, NoMemory>
    ensures { IfOk result (λ read. read ≡ read_roster mark records.now) }
{
    let found = head_faults(alloc, records)?;
    if !found.is_empty() {
        return Ok(Err(Faults::of(found)));
    }
    read_cells(alloc, records, mark)
}

// Reads the cells.
fn read_cells<'t>(
    alloc: Global,
    records: &'t Records,
    mark: Option<Mark>,
) -> Result<Result<RosterTable<'t>, Faults>, NoMemory>
    ensures { IfOk result (λ read. read ≡ read_settled (settled_mark mark records.now ((layout_of records.now).pairs)) records.now (layout_of records.now)) }
{
    let layout = layout_of(alloc, records)?;
    match settled_mark(records, &layout.pairs, mark) {
        Ok(mark) => read_settled(alloc, records, &layout, mark),
        Err(fault) => Ok(Err(only(alloc, fault)?)),
    }
}

// One fault.
fn only(alloc: Global, fault: Fault) -> Result<Faults, NoMemory>
    ensures { IfOk result (λ faults. faults ≡ fault ∷ []) }
{
    let mut found = Vec::new(alloc);
    found.push(fault)?;
    Ok(Faults::of(found))
}

// Appends the faults of names.
fn push_names(
    alloc: Global,
    records: &Records,
    layout: &Layout,
    faults: &mut Vec<Fault>,
) -> Result<(), NoMemory>
    ensures { OnOk result (faults.new.items ≡ faults.old.items ++ name_faults records.now layout.now) }
{
    push_beyond(alloc, records, faults)?;
    push_all_names(alloc, layout.names_once, records, &layout.persons, faults)?;
    push_all_names(alloc, layout.names_once, records, &layout.things, faults)?;
    push_repeated(alloc, layout.names_once, records, &layout.pairs, faults)?;
    push_nothing(&layout.persons, &layout.things, faults)
}

// Appends the faults of numbers.
fn push_numbers(
    alloc: Global,
    records: &Records,
    layout: &Layout,
    mark: Option<Mark>,
    faults: &mut Vec<Fault>,
) -> Result<(), NoMemory>
    ensures { OnOk result (faults.new.items ≡ faults.old.items ++ number_faults mark records.now layout.now) }
{
    push_all_said(alloc, records, &layout.takes, faults)?;
    push_all_said(alloc, records, &layout.needs, faults)?;
    let pairs = allowed(alloc, records, &layout.pairs)?;
    push_costs(mark, records, &pairs, faults)
}

// The faults of cells.
fn cell_faults(
    alloc: Global,
    records: &Records,
    layout: &Layout,
    mark: Option<Mark>,
) -> Result<Vec<Fault>, NoMemory>
    ensures { IfOk result (λ found. found.items ≡ cell_faults mark records.now layout.now) }
{
    let mut faults = Vec::new(alloc);
    push_names(alloc, records, layout, &mut faults)?;
    push_numbers(alloc, records, layout, mark, &mut faults)?;
    Ok(faults)
}

// What the cells say.
fn table_of<'t>(
    alloc: Global,
    records: &'t Records,
    layout: &Layout,
    mark: Option<Mark>,
) -> Result<RosterTable<'t>, NoMemory>
    ensures { IfOk result (λ made. made ≡ entries mark records.now layout.now) }
{
    let persons = names_at(alloc, records, &layout.persons)?.distinct(alloc)?;
    let things = names_at(alloc, records, &layout.things)?.distinct(alloc)?;
    let takes = sayings(alloc, records, &layout.takes, &persons)?;
    let needs = sayings(alloc, records, &layout.needs, &things)?;
    let kept = allowed(alloc, records, &layout.pairs)?;
    let pairs = entries_of(alloc, mark, &persons, &things, records, &kept)?;
    let said = AllSaid { takes, needs };
    Ok(RosterTable::of(mark, persons, things, said, pairs))
}

// Reads the cells under the mark that was settled.
fn read_settled<'t>(
    alloc: Global,
    records: &'t Records,
    layout: &Layout,
    mark: Option<Mark>,
) -> Result<Result<RosterTable<'t>, Faults>, NoMemory>
    ensures { IfOk result (λ read. read ≡ read_settled (Ok mark) records.now layout.now) }
{
    let faults = cell_faults(alloc, records, layout, mark)?;
    if faults.is_empty() {
        Ok(Ok(table_of(alloc, records, layout, mark)?))
    } else {
        Ok(Err(Faults::of(faults)))
    }
}
