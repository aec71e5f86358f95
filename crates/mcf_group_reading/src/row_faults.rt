//! What is wrong with the group and the member that a row names.
ghost use Rattle.std.specs.Prelude.{◌≡◌, ◌++◌, IfOk, OnOk, map};
ghost use Rattle.std.specs.List.{flat_map};
ghost use Rattle.mcf_roster_reading.specs.Naming.{is_before};
ghost use Rattle.mcf_roster_reading.specs.Repeated.{pair_text};
ghost use Rattle.mcf_group_reading.specs.GroupRows.{rosters_in, sheet_in};
ghost use Rattle.mcf_group_reading.specs.RowFaults.{all_row_faults, are_same, is_mixed, is_twice, is_unknown, is_whole, listed_in, member_kind, names_one, row_faults, row_text};

use crate::cells::is_filled;
use crate::kinds::{Fault, FaultKind, Location, if_kind, name_kind, push_told};
use crate::rows::{
    Known, Page, first_row, known_number, member_in, member_place, name_in, name_place, names_in,
    of_things, what_in, who_in,
};
use mcf_names::Names;
use mcf_text::NoMemory;
use std::alloc::Global;

// The names that are known, the groups that all rows name, and the texts of all rows.
#[derive(Clone, Copy)]
pub(crate) struct Lists<'n> {
    pub(crate) known: Known<'n>,
    pub(crate) names: &'n Names<'n>,
    pub(crate) texts: &'n Names<'n>,
}

// The names of a group and of a member with a zero byte between them.
fn pair_text(alloc: Global, group: &[u8], member: &[u8]) -> Result<Vec<u8>, NoMemory>
    ensures { IfOk result (λ made. made.items ≡ pair_text group.now member.now) }
{
    let mut text = Vec::new(alloc);
    text.extend_from_slice(group)?;
    text.push(0)?;
    text.extend_from_slice(member)?;
    Ok(text)
}

// The text of a row.
fn row_text(alloc: Global, page: Page<'_>, row: usize) -> Result<Vec<u8>, NoMemory>
    ensures { IfOk result (λ made. made.items ≡ row_text (sheet_in page.entry) row) }
{
    pair_text(alloc, name_in(page, row), member_in(page, row))
}

// The texts of rows.
fn row_texts(alloc: Global, page: Page<'_>, rows: &[usize]) -> Result<Vec<Vec<u8>>, NoMemory>
    ensures { IfOk result (λ made. map (λ text. text.items) made.items ≡ map (row_text (sheet_in page.entry)) rows.now) }
{
    let mut made = Vec::new(alloc);
    for row in rows {
        let text = row_text(alloc, page, *row)?;
        made.push(text)?;
    }
    Ok(made)
}

// The texts as names.
fn names_of<'t>(alloc: Global, texts: &'t [Vec<u8>]) -> Result<Names<'t>, NoMemory>
    ensures { IfOk result (λ made. made ≡ map (λ text. text.items) texts.now) }
{
    let mut found = Vec::new(alloc);
    for text in texts {
        found.push(text.as_slice())?;
    }
    Names::of(alloc, found)
}

// Whether the number is below this one.
fn is_before(first: Option<usize>, number: usize) -> bool
    ensures { result ≡ is_before first number }
{
    match first {
        Some(first) => first < number,
        None => false,
    }
}

// What is wrong if a row names no person and no thing, or both.
fn member_kind(who: bool, what: bool) -> Option<FaultKind>
    ensures { result ≡ member_kind who what }
{
    if who {
        if_kind(what, FaultKind::Both)
    } else {
        if_kind(!what, FaultKind::Neither)
    }
}

// Whether both tests hold, or neither.
fn are_same(one: bool, other: bool) -> bool
    ensures { result ≡ are_same one other }
{
    if one { other } else { !other }
}

// Whether the row names just one member.
fn names_one(page: Page<'_>, row: usize) -> bool
    ensures { result ≡ names_one (sheet_in page.entry) row }
{
    !are_same(is_filled(who_in(page, row)), is_filled(what_in(page, row)))
}

// Whether the row names a group and just one member.
fn is_whole(page: Page<'_>, row: usize) -> bool
    ensures { result ≡ is_whole (sheet_in page.entry) row }
{
    let one = names_one(page, row);
    is_filled(name_in(page, row)) && one
}

// Whether nobody knows the member.
fn is_unknown(lists: Lists<'_>, page: Page<'_>, row: usize) -> bool
    ensures { result ≡ is_unknown (listed_in lists.entry) (sheet_in page.entry) row }
{
    let known = known_number(lists.known, page, row);
    names_one(page, row) && known.is_none()
}

// Whether the first row of the group names one of the other kind.
fn is_mixed(lists: Lists<'_>, page: Page<'_>, row: usize) -> bool
    ensures { result ≡ is_mixed (listed_in lists.entry) (sheet_in page.entry) row }
{
    let first = first_row(lists.names, name_in(page, row));
    let same = are_same(of_things(page, row), of_things(page, first));
    is_whole(page, row) && !same
}

// Whether an earlier row, where this is the text of the row, has the same one.
fn is_twice(lists: Lists<'_>, page: Page<'_>, row: usize, text: &[u8]) -> bool
    requires { text.now ≡ row_text (sheet_in page) row }
    ensures { result ≡ is_twice (listed_in lists.entry) (sheet_in page.entry) row }
{
    let before = is_before(lists.texts.number_of(text), row);
    is_whole(page, row) && before
}

// Appends the faults of a row.
#[tactic(auto, unfolding(crate::specs::RowFaults::row_faults))]
fn push_row_faults(
    alloc: Global,
    lists: Lists<'_>,
    page: Page<'_>,
    row: usize,
    faults: &mut Vec<Fault>,
) -> Result<(), NoMemory>
    ensures { OnOk result (faults.new.items ≡ faults.old.items ++ row_faults (listed_in lists.entry) (sheet_in page.entry) row) }
{
    let named = Location::Cell(name_place(page, row));
    let member = Location::Cell(member_place(page, row));
    push_told(faults, named, name_kind(name_in(page, row)))?;
    let kind = member_kind(is_filled(who_in(page, row)), is_filled(what_in(page, row)));
    push_told(faults, named, kind)?;
    let unknown = is_unknown(lists, page, row);
    push_told(faults, member, if_kind(unknown, FaultKind::Unknown))?;
    let mixed = is_mixed(lists, page, row);
    push_told(faults, member, if_kind(mixed, FaultKind::Mixed))?;
    let text = row_text(alloc, page, row)?;
    let twice = is_twice(lists, page, row, &text);
    push_told(faults, member, if_kind(twice, FaultKind::Twice))
}

// Appends the faults of rows, where these are the lists of all of them.
fn push_each(
    alloc: Global,
    lists: Lists<'_>,
    page: Page<'_>,
    rows: &[usize],
    faults: &mut Vec<Fault>,
) -> Result<(), NoMemory>
    ensures { OnOk result (faults.new.items ≡ faults.old.items
        ++ flat_map (row_faults (listed_in lists.entry) (sheet_in page.entry)) rows.now) }
{
    for row in rows {
        push_row_faults(alloc, lists, page, *row, faults)?;
    }
    Ok(())
}

// Appends the faults of all rows.
pub(crate) fn push_all_rows(
    alloc: Global,
    known: Known<'_>,
    page: Page<'_>,
    rows: &[usize],
    faults: &mut Vec<Fault>,
) -> Result<(), NoMemory>
    ensures { OnOk result (faults.new.items ≡ faults.old.items
        ++ all_row_faults (rosters_in known.entry) (sheet_in page.entry) rows.now) }
{
    let names = names_in(alloc, page, rows)?;
    let texts = row_texts(alloc, page, rows)?;
    let keys = names_of(alloc, &texts)?;
    let lists = Lists {
        known,
        names: &names,
        texts: &keys,
    };
    push_each(alloc, lists, page, rows, faults)
}
