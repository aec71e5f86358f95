//! Reading a table of groups.
ghost use Rattle.std.specs.Prelude.{◌≡◌, ◌++◌, IfOk, OnOk, map};
ghost use Rattle.mcf_roster_reading.specs.Cells.{rows};
ghost use Rattle.mcf_group_reading.specs.GroupReading.{cell_faults, entries, group_entry, head_faults, limit_faults, nothing_faults, read_groups, read_sheet};
ghost use Rattle.mcf_group_reading.specs.GroupRows.{rosters_in, sheet_in, sheet_of};
ghost use Rattle.mcf_group_reading.specs.Bounds.{bounds_in, bounds_of};

use crate::cells::{push_beyond, rows_of};
use crate::heads::{push_column_faults, push_member_faults};
use crate::kinds::{Fault, FaultKind, Location, if_kind, push_told};
use crate::limits::{Limits, first_said, push_empty, push_numbers, said_of};
use crate::near_heads::push_near_faults;
use crate::row_faults::push_all_rows;
use crate::rows::{Known, Page, first_row, member_entries, names_in, of_things, page_of};
use crate::tables::{Faults, GroupEntry, GroupTable};
use mcf_names::Names;
use mcf_table::Records;
use mcf_text::NoMemory;
use std::alloc::Global;

// The faults of heads.
fn head_faults(alloc: Global, records: &Records) -> Result<Vec<Fault>, NoMemory>
    ensures { IfOk result (λ found. found.items ≡ head_faults records.now) }
{
    let mut faults = Vec::new(alloc);
    push_column_faults(records, &mut faults)?;
    push_member_faults(records, &mut faults)?;
    push_near_faults(alloc, records, &mut faults)?;
    Ok(faults)
}

// Appends the faults of numbers.
fn push_limits(
    alloc: Global,
    page: Page<'_>,
    rows: &[usize],
    faults: &mut Vec<Fault>,
) -> Result<(), NoMemory>
    ensures { OnOk result (faults.new.items ≡ faults.old.items
        ++ limit_faults (sheet_in page.entry) (bounds_of (sheet_in page.entry) rows.now) rows.now) }
{
    let names = names_in(alloc, page, rows)?;
    let least = said_of(alloc, page, page.columns.least, rows)?;
    let most = said_of(alloc, page, page.columns.most, rows)?;
    push_numbers(page, &least, rows, faults)?;
    push_numbers(page, &most, rows, faults)?;
    let limits = Limits {
        least: &least,
        most: &most,
    };
    push_empty(page, &names, limits, rows, faults)
}

// Appends that there is no group.
fn push_nothing(rows: &[usize], faults: &mut Vec<Fault>) -> Result<(), NoMemory>
    ensures { OnOk result (faults.new.items ≡ faults.old.items ++ nothing_faults rows.now) }
{
    let kind = if_kind(rows.is_empty(), FaultKind::NoGroup);
    push_told(faults, Location::Heads, kind)
}

// The faults of cells.
fn cell_faults(
    alloc: Global,
    known: Known<'_>,
    page: Page<'_>,
    rows: &[usize],
) -> Result<Vec<Fault>, NoMemory>
    ensures { IfOk result (λ found. found.items ≡ cell_faults (rosters_in known.entry) (sheet_in page.entry) rows.now) }
{
    let mut faults = Vec::new(alloc);
    push_beyond(alloc, page.records, &mut faults)?;
    push_all_rows(alloc, known, page, rows, &mut faults)?;
    push_limits(alloc, page, rows, &mut faults)?;
    push_nothing(rows, &mut faults)?;
    Ok(faults)
}

// What is said of a group, where these are the groups that all rows name.
fn group_entry(page: Page<'_>, names: &Names<'_>, limits: Limits<'_, '_>, name: &[u8]) -> GroupEntry
    ensures { result ≡ group_entry (sheet_in page.entry) names.now (bounds_in limits.entry) name.now }
{
    let row = first_row(names, name);
    GroupEntry {
        row,
        things: of_things(page, row),
        least: first_said(page, limits.least, name),
        most: first_said(page, limits.most, name),
    }
}

// What is said of groups.
fn group_entries(
    alloc: Global,
    page: Page<'_>,
    names: &Names<'_>,
    limits: Limits<'_, '_>,
    groups: &Names<'_>,
) -> Result<Vec<GroupEntry>, NoMemory>
    ensures { IfOk result (λ made. made.items
        ≡ map (group_entry (sheet_in page.entry) names.now (bounds_in limits.entry)) groups.now) }
{
    let mut made = Vec::new(alloc);
    for place in 0..groups.len() {
        made.push(group_entry(page, names, limits, groups.name(place + 1)))?;
    }
    Ok(made)
}

// What the rows say.
fn table_of<'t>(
    alloc: Global,
    known: Known<'_>,
    page: Page<'t>,
    rows: &[usize],
) -> Result<GroupTable<'t>, NoMemory>
    ensures { IfOk result (λ made. made ≡ entries (rosters_in known.entry) (sheet_in page.entry) rows.now) }
{
    let names = names_in(alloc, page, rows)?;
    let groups = names.distinct(alloc)?;
    let least = said_of(alloc, page, page.columns.least, rows)?;
    let most = said_of(alloc, page, page.columns.most, rows)?;
    let limits = Limits {
        least: &least,
        most: &most,
    };
    let said = group_entries(alloc, page, &names, limits, &groups)?;
    let members = member_entries(alloc, known, page, &groups, rows)?;
    Ok(GroupTable::of(groups, said, members))
}

// Reads these rows of a table.
fn read_page<'t>(
    alloc: Global,
    known: Known<'_>,
    page: Page<'t>,
    rows: &[usize],
) -> Result<Result<GroupTable<'t>, Faults>, NoMemory>
    ensures { IfOk result (λ read. read ≡ read_sheet (rosters_in known.entry) (sheet_in page.entry) rows.now) }
{
    let faults = cell_faults(alloc, known, page, rows)?;
    if faults.is_empty() {
        Ok(Ok(table_of(alloc, known, page, rows)?))
    } else {
        Ok(Err(Faults::of(faults)))
    }
}

// Reads the cells.
fn read_cells<'t>(
    alloc: Global,
    records: &'t Records,
    known: Known<'_>,
) -> Result<Result<GroupTable<'t>, Faults>, NoMemory>
    ensures { IfOk result (λ read. read ≡ read_sheet (rosters_in known.entry) (sheet_of records.now) (rows records.now)) }
{
    let rows = rows_of(alloc, records)?;
    read_page(alloc, known, page_of(records), &rows)
}

/// Reads a table of groups, whose first row has the heads. Each row names a group in the column
/// `group` and one member of it: a person in the column `who`, or a thing in the column `what`. All
/// members of a group are of one kind. The columns `least` and `most` say how many of them anyone
/// has, in any rows of the group. Members are those that are known.
///
/// # Errors
///
/// The faults of the heads, if there are some; or else all faults of cells: first those of the
/// groups and members that rows name, then those of numbers. `NoMemory` if an allocation is
/// refused.
pub fn read<'t>(
    alloc: Global,
    records: &'t Records,
    known: Known<'_>,
) -> Result<Result<GroupTable<'t>, Faults>, NoMemory>
    ensures { IfOk result (λ read. read ≡ read_groups (rosters_in known.entry) records.now) }
{
    let found = head_faults(alloc, records)?;
    if !found.is_empty() {
        return Ok(Err(Faults::of(found)));
    }
    read_cells(alloc, records, known)
}
