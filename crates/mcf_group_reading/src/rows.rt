//! Which group and which member a row names.
ghost use Rattle.std.specs.Prelude.{◌≡◌, IfOk, map};
ghost use Rattle.mcf_group_reading.specs.GroupRows.{first_row, known_names, known_number, member_column, member_entry, member_in, member_place, name_in, name_place, names_in, of_things, rosters_in, sheet_in, sheet_of, what_in, who_in};

use crate::cells::{at_place, cell_under, is_filled};
use crate::heads::{Columns, columns_of};
use mcf_names::Names;
use mcf_table::{CellPlace, Records};
use mcf_text::NoMemory;
use std::alloc::Global;

// The rows of a table, and the places of the columns that are read.
#[derive(Clone, Copy)]
pub(crate) struct Page<'t> {
    pub(crate) records: &'t Records,
    pub(crate) columns: Columns,
}

/// The names of persons and of things that another table knows.
#[derive(Clone, Copy)]
pub struct Known<'n> {
    pub persons: &'n Names<'n>,
    pub things: &'n Names<'n>,
}

/// A member of a group.
#[derive(Clone, Copy, Debug, PartialEq, Eq)]
pub struct MemberEntry {
    /// The number of the group, from 1.
    pub group: usize,
    /// The number of the person or the thing, from 1.
    pub member: usize,
}

// The table of these rows.
pub(crate) fn page_of(records: &Records) -> Page<'_>
    ensures { sheet_in result ≡ sheet_of records.now }
{
    Page {
        records,
        columns: columns_of(records),
    }
}

// The group that a row names.
pub(crate) fn name_in<'t>(page: Page<'t>, row: usize) -> &'t [u8]
    ensures { result.now ≡ name_in (sheet_in page.entry) row }
{
    cell_under(page.records, page.columns.group, row)
}

// The person that a row names.
pub(crate) fn who_in<'t>(page: Page<'t>, row: usize) -> &'t [u8]
    ensures { result.now ≡ who_in (sheet_in page.entry) row }
{
    cell_under(page.records, page.columns.who, row)
}

// The thing that a row names.
pub(crate) fn what_in<'t>(page: Page<'t>, row: usize) -> &'t [u8]
    ensures { result.now ≡ what_in (sheet_in page.entry) row }
{
    cell_under(page.records, page.columns.what, row)
}

// Whether the row is one of a group of things.
pub(crate) fn of_things(page: Page<'_>, row: usize) -> bool
    ensures { result ≡ of_things (sheet_in page.entry) row }
{
    !is_filled(who_in(page, row))
}

// The member that a row names.
pub(crate) fn member_in<'t>(page: Page<'t>, row: usize) -> &'t [u8]
    ensures { result.now ≡ member_in (sheet_in page.entry) row }
{
    if of_things(page, row) {
        what_in(page, row)
    } else {
        who_in(page, row)
    }
}

// The column in which a row's member stands.
fn member_column(page: Page<'_>, row: usize) -> Option<usize>
    ensures { result ≡ member_column (sheet_in page.entry) row }
{
    if of_things(page, row) {
        page.columns.what
    } else {
        page.columns.who
    }
}

// Where the name of a row's group stands.
pub(crate) fn name_place(page: Page<'_>, row: usize) -> CellPlace
    ensures { result ≡ name_place (sheet_in page.entry) row }
{
    at_place(page.columns.group.unwrap_or(0), row)
}

// Where a row's member stands.
pub(crate) fn member_place(page: Page<'_>, row: usize) -> CellPlace
    ensures { result ≡ member_place (sheet_in page.entry) row }
{
    at_place(member_column(page, row).unwrap_or(0), row)
}

// The names of things, or of persons.
fn known_names<'n>(known: Known<'n>, things: bool) -> &'n Names<'n>
    ensures { result.now ≡ known_names (rosters_in known.entry) things }
{
    if things { known.things } else { known.persons }
}

// The number of the member that a row names, if it is known.
pub(crate) fn known_number(known: Known<'_>, page: Page<'_>, row: usize) -> Option<usize>
    ensures { result ≡ known_number (rosters_in known.entry) (sheet_in page.entry) row }
{
    let names = known_names(known, of_things(page, row));
    names.number_of(member_in(page, row))
}

// The groups that rows name.
pub(crate) fn names_in<'t>(
    alloc: Global,
    page: Page<'t>,
    rows: &[usize],
) -> Result<Names<'t>, NoMemory>
    ensures { IfOk result (λ made. made ≡ names_in (sheet_in page.entry) rows.now) }
{
    let mut found = Vec::new(alloc);
    for row in rows {
        let name = name_in(page, *row);
        found.push(name)?;
    }
    Names::of(alloc, found)
}

// The first row that names a group, where these are the names of all rows; 0 if none does.
pub(crate) fn first_row(names: &Names<'_>, name: &[u8]) -> usize
    ensures { result ≡ first_row names.now name.now }
{
    names.number_of(name).unwrap_or(0)
}

// The number of the group and that of the member that a row names, where these are the groups.
#[tactic(auto, unfolding(crate::specs::GroupRows::member_entry))]
fn member_entry(known: Known<'_>, page: Page<'_>, groups: &Names<'_>, row: usize) -> MemberEntry
    ensures { result ≡ member_entry (rosters_in known.entry) (sheet_in page.entry) groups.now row }
{
    MemberEntry {
        group: groups.number_of(name_in(page, row)).unwrap_or(0),
        member: known_number(known, page, row).unwrap_or(0),
    }
}

// The numbers of the groups and those of the members that rows name.
pub(crate) fn member_entries(
    alloc: Global,
    known: Known<'_>,
    page: Page<'_>,
    groups: &Names<'_>,
    rows: &[usize],
) -> Result<Vec<MemberEntry>, NoMemory>
    ensures { IfOk result (λ made. made.items
        ≡ map (member_entry (rosters_in known.entry) (sheet_in page.entry) groups.now) rows.now) }
{
    let mut made = Vec::new(alloc);
    for row in rows {
        made.push(member_entry(known, page, groups, *row))?;
    }
    Ok(made)
}
