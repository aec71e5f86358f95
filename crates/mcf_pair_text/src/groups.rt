//! Groups as rows of a table: how many of their members anyone has, and which groups cross.
ghost use Rattle.std.specs.Prelude.{◌≡◌, ◌∷◌, [], ◌++◌, IfOk, OnOk, codes, map, option_map};
ghost use Rattle.mcf_answer_rows.specs.Lines.{row_line, rows_text};
ghost use Rattle.mcf_pair_text.specs.GroupRows.{Book, book_in, bound_row, count_row, crossing_row, end_word, entry_at, group_line, group_name, kind_word, of_things, owner_name, row_of_entry, things_of_entry};

use crate::pages::{Page, numbered};
use mcf_answer_rows::{line_cell, number_cell, put_line};
use mcf_group_reading::{GroupEntry, GroupTable};
use mcf_groups::{Crossing, GroupBound, GroupCount};
use mcf_roster_reading::RosterTable;
use mcf_table::Records;
use mcf_text::NoMemory;
use std::alloc::Global;

// The rows of both tables, and what they say.
#[derive(Clone, Copy)]
pub(crate) struct Tables<'p> {
    pub(crate) page: Page<'p>,
    pub(crate) said: &'p RosterTable<'p>,
    pub(crate) records: &'p Records,
    pub(crate) groups: &'p GroupTable<'p>,
}

// What is said of the group with a number, if there is one.
fn entry_at<'p>(tables: Tables<'p>, number: usize) -> Option<&'p GroupEntry>
    ensures { option_map (λ e. e.now) result ≡ entry_at (book_in tables.entry) number }
{
    tables.groups.groups().get(number.saturating_sub(1))
}

// The row that names a group first; that of the heads if there is no such group.
fn row_of_entry(entry: Option<&GroupEntry>) -> usize
    ensures { result ≡ row_of_entry (option_map (λ e. e.now) entry.entry) }
{
    match entry {
        Some(entry) => entry.row,
        None => 0,
    }
}

// Whether the members of a group are things.
fn things_of_entry(entry: Option<&GroupEntry>) -> bool
    ensures { result ≡ things_of_entry (option_map (λ e. e.now) entry.entry) }
{
    match entry {
        Some(entry) => entry.things,
        None => false,
    }
}

// The line of the row that names a group first.
pub(crate) fn group_line(
    alloc: Global,
    tables: Tables<'_>,
    number: usize,
) -> Result<Vec<u8>, NoMemory>
    ensures { IfOk result (λ made. made.items ≡ group_line (book_in tables.entry) number) }
{
    line_cell(
        alloc,
        tables.records,
        row_of_entry(entry_at(tables, number)),
    )
}

// The name of the group with a number.
pub(crate) fn group_name<'p>(tables: Tables<'p>, number: usize) -> &'p [u8]
    ensures { result.now ≡ group_name (book_in tables.entry) number }
{
    numbered(tables.groups.names(), number)
}

// Whether the members of the group with a number are things.
fn of_things(tables: Tables<'_>, number: usize) -> bool
    ensures { result ≡ of_things (book_in tables.entry) number }
{
    things_of_entry(entry_at(tables, number))
}

// The word for those for which the members of a group are counted.
fn kind_word(things: bool) -> &'static [u8]
    ensures { result.now ≡ kind_word things }
{
    if things { b"person" } else { b"thing" }
}

// The name of one of those.
fn owner_name<'p>(tables: Tables<'p>, things: bool, owner: usize) -> &'p [u8]
    ensures { result.now ≡ owner_name (book_in tables.entry) things owner }
{
    if things {
        numbered(tables.said.persons(), owner)
    } else {
        numbered(tables.said.things(), owner)
    }
}

// One for which members of a group are counted: `person` or `thing`, and its name.
#[derive(Clone, Copy)]
struct Owner<'o> {
    kind: &'o [u8],
    name: &'o [u8],
}

// Appends a row of a group and of one for which its members are counted, with their number.
fn put_count_row(
    out: &mut Vec<u8>,
    word: &[u8],
    line: &[u8],
    name: &[u8],
    owner: Owner<'_>,
    count: &[u8],
) -> Result<(), NoMemory>
    ensures { OnOk result (out.new.items ≡ out.old.items
        ++ row_line (word.now ∷ line.now ∷ name.now ∷ owner.entry.kind.now ∷ owner.entry.name.now ∷ count.now ∷ [])) }
{
    put_line(out, &[word, line, name, owner.kind, owner.name, count])
}

// A number of a group's range, and the word for which it is.
#[derive(Clone, Copy)]
struct End<'e> {
    number: &'e [u8],
    word: &'e [u8],
}

// Appends a row of a group and of one for which its members are counted, with what counts.
fn put_bound_row(
    out: &mut Vec<u8>,
    line: &[u8],
    name: &[u8],
    owner: Owner<'_>,
    end: End<'_>,
) -> Result<(), NoMemory>
    ensures { OnOk result (out.new.items ≡ out.old.items
        ++ row_line (codes "group" ∷ line.now ∷ name.now ∷ owner.entry.kind.now ∷ owner.entry.name.now ∷ end.entry.number.now ∷ end.entry.word.now ∷ [])) }
{
    put_line(
        out,
        &[
            b"group", line, name, owner.kind, owner.name, end.number, end.word,
        ],
    )
}

// The word for which number of a range it is.
fn end_word(is_least: bool) -> &'static [u8]
    ensures { result.now ≡ end_word is_least }
{
    if is_least { b"least" } else { b"most" }
}

// Appends how many members of a group one has.
fn put_count(
    alloc: Global,
    out: &mut Vec<u8>,
    tables: Tables<'_>,
    word: &[u8],
    at: GroupCount,
) -> Result<(), NoMemory>
    ensures { OnOk result (out.new.items ≡ out.old.items ++ row_line (count_row (book_in tables.entry) word.now at)) }
{
    let line = group_line(alloc, tables, at.group)?;
    let things = of_things(tables, at.group);
    let count = number_cell(alloc, at.count)?;
    let owner = Owner {
        kind: kind_word(things),
        name: owner_name(tables, things, at.owner),
    };
    put_count_row(
        out,
        word,
        &line,
        group_name(tables, at.group),
        owner,
        &count,
    )
}

// Appends how many members of groups some have.
pub(crate) fn put_counts(
    alloc: Global,
    out: &mut Vec<u8>,
    tables: Tables<'_>,
    word: &[u8],
    counts: &[GroupCount],
) -> Result<(), NoMemory>
    ensures { OnOk result (out.new.items ≡ out.old.items ++ rows_text (map (count_row (book_in tables.entry) word.now) counts.now)) }
{
    for place in 0..counts.len() {
        put_count(alloc, out, tables, word, counts[place])?;
    }
    Ok(())
}

// Appends what counts of a group.
fn put_bound(
    alloc: Global,
    out: &mut Vec<u8>,
    tables: Tables<'_>,
    bound: GroupBound,
) -> Result<(), NoMemory>
    ensures { OnOk result (out.new.items ≡ out.old.items ++ row_line (bound_row (book_in tables.entry) bound)) }
{
    let line = group_line(alloc, tables, bound.group)?;
    let number = number_cell(alloc, bound.amount as usize)?;
    let things = of_things(tables, bound.group);
    let owner = Owner {
        kind: kind_word(things),
        name: owner_name(tables, things, bound.owner),
    };
    let end = End {
        number: &number,
        word: end_word(bound.is_least),
    };
    put_bound_row(out, &line, group_name(tables, bound.group), owner, end)
}

// Appends what counts of groups.
pub(crate) fn put_bounds(
    alloc: Global,
    out: &mut Vec<u8>,
    tables: Tables<'_>,
    bounds: &[GroupBound],
) -> Result<(), NoMemory>
    ensures { OnOk result (out.new.items ≡ out.old.items ++ rows_text (map (bound_row (book_in tables.entry)) bounds.now)) }
{
    for place in 0..bounds.len() {
        put_bound(alloc, out, tables, bounds[place])?;
    }
    Ok(())
}

// Appends a group that crosses another.
fn put_crossing(
    alloc: Global,
    out: &mut Vec<u8>,
    tables: Tables<'_>,
    crossing: Crossing,
) -> Result<(), NoMemory>
    ensures { OnOk result (out.new.items ≡ out.old.items ++ row_line (crossing_row (book_in tables.entry) crossing)) }
{
    let line = group_line(alloc, tables, crossing.group)?;
    let name = group_name(tables, crossing.group);
    let other = group_name(tables, crossing.crossed);
    put_line(out, &[b"crossing", &line, name, other])
}

// Appends the groups that cross others.
pub(crate) fn put_crossings(
    alloc: Global,
    out: &mut Vec<u8>,
    tables: Tables<'_>,
    crossings: &[Crossing],
) -> Result<(), NoMemory>
    ensures { OnOk result (out.new.items ≡ out.old.items ++ rows_text (map (crossing_row (book_in tables.entry)) crossings.now)) }
{
    for place in 0..crossings.len() {
        put_crossing(alloc, out, tables, crossings[place])?;
    }
    Ok(())
}
