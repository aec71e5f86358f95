//! A sheet of wishes as a list.
ghost use Rattle.std.specs.Prelude.{◌≡◌, ◌<◌, ◌++◌, ◌∷◌, [], IfOk, OnOk, decimal, drop, length, map, slice_index_or};
ghost use Rattle.mcf_table.specs.Texts.{no_record};
ghost use Rattle.mcf_forms.specs.Wishes.{IsListOf, below_titles, listed_row, own_at, own_cells, pair_at, pairs_in, person_rows, thing_at, things, things_in, wish_heads, wish_list};

use crate::filled::cells_of;
use crate::sheets::{Sheet, are_names, has_wish_heads};
use mcf_table::Records;
use mcf_text::{NoMemory, put_number};
use std::alloc::Global;

/// A sheet of wishes as a list.
#[derive(Drop)]
pub struct WishList {
    /// The rows of the list, with its heads.
    pub rows: Records,
    /// How many wishes there are.
    pub count: usize,
    /// What a column `needs` says for each thing; empty if it says nothing.
    pub needs: Vec<u8>,
}

// Appends the thing that the row wishes in this column, if it wishes one.
fn push_thing<'t>(
    made: &mut Vec<&'t [u8]>,
    sheet: &Sheet<'t>,
    row: usize,
    place: usize,
) -> Result<(), NoMemory>
    requires { row < length sheet.now }
    ensures { OnOk result (map (λ cell. cell.now) made.new.items ≡ map (λ cell. cell.now) made.old.items ++ thing_at sheet.now row place) }
{
    if sheet.is_wish(row, place) {
        made.push(sheet.records.cell(row, place))?;
    }
    Ok(())
}

// Appends the things that the row wishes.
fn push_things<'t>(made: &mut Vec<&'t [u8]>, sheet: &Sheet<'t>, row: usize) -> Result<(), NoMemory>
    requires { row < length sheet.now }
    ensures { OnOk result (map (λ cell. cell.now) made.new.items ≡ map (λ cell. cell.now) made.old.items ++ things_in sheet.now row) }
{
    for place in 0..sheet.records.head_count() {
        push_thing(made, sheet, row, place)?;
    }
    Ok(())
}

// The things that all rows wish.
fn things<'t>(alloc: Global, sheet: &Sheet<'t>) -> Result<Vec<&'t [u8]>, NoMemory>
    ensures { IfOk result (λ made. map (λ cell. cell.now) made.items ≡ things sheet.now) }
{
    let mut made = Vec::new(alloc);
    for row in 0..sheet.records.len().saturating_sub(1) {
        push_things(&mut made, sheet, row + 1)?;
    }
    Ok(made)
}

// Appends the row's cell in this column, if that is neither the column of names nor one of wishes.
fn push_cell<'t>(
    made: &mut Vec<&'t [u8]>,
    sheet: &Sheet<'t>,
    row: usize,
    place: usize,
) -> Result<(), NoMemory>
    requires { row < length sheet.now }
    ensures { OnOk result (map (λ cell. cell.now) made.new.items ≡ map (λ cell. cell.now) made.old.items ++ own_at sheet.now row place) }
{
    if sheet.is_own(place) {
        made.push(sheet.own_cell(row, place))?;
    }
    Ok(())
}

// Appends the row's cells in such columns, and beyond the last column.
fn push_own<'t>(made: &mut Vec<&'t [u8]>, sheet: &Sheet<'t>, row: usize) -> Result<(), NoMemory>
    requires { row < length sheet.now }
    ensures { OnOk result (map (λ cell. cell.now) made.new.items ≡ map (λ cell. cell.now) made.old.items ++ own_cells sheet.now row) }
{
    let width = sheet
        .records
        .head_count()
        .max(sheet.records.cell_count(row));
    for place in 0..width {
        push_cell(made, sheet, row, place)?;
    }
    Ok(())
}

// The text of a rank.
fn rank_text(alloc: Global, rank: u64) -> Result<Vec<u8>, NoMemory>
    ensures { IfOk result (λ made. made.items ≡ decimal rank) }
{
    let mut made = Vec::new(alloc);
    put_number(&mut made, i128::from(rank))?;
    Ok(made)
}

// Appends a row of the list, for a row of the sheet, with this thing and cost.
fn push_row<'x>(
    alloc: Global,
    made: &mut Records,
    sheet: &'x Sheet<'x>,
    row: usize,
    thing: &'x [u8],
    cost: &'x [u8],
) -> Result<(), NoMemory>
    requires { row < length sheet.now }
    ensures { OnOk result (made.new ≡ made.old ++ listed_row sheet.now row thing.now cost.now ∷ []) }
{
    let mut cells = Vec::new(alloc);
    cells.push(sheet.name(row))?;
    cells.push(thing)?;
    cells.push(cost)?;
    push_own(&mut cells, sheet, row)?;
    made.push_row(sheet.records.line(row), &cells)
}

// Appends the row of the list for the wish in this column, if there is one.
fn push_pair(
    alloc: Global,
    made: &mut Records,
    sheet: &Sheet<'_>,
    row: usize,
    place: usize,
) -> Result<(), NoMemory>
    requires { row < length sheet.now }
    ensures { OnOk result (made.new ≡ made.old ++ pair_at sheet.now row place) }
{
    if !sheet.is_wish(row, place) {
        return Ok(());
    }
    let cost = rank_text(alloc, sheet.rank(place))?;
    push_row(
        alloc,
        made,
        sheet,
        row,
        sheet.records.cell(row, place),
        &cost,
    )
}

// Appends the rows of the list for the wishes of a row.
fn push_pairs(
    alloc: Global,
    made: &mut Records,
    sheet: &Sheet<'_>,
    row: usize,
) -> Result<(), NoMemory>
    requires { row < length sheet.now }
    ensures { OnOk result (made.new ≡ made.old ++ pairs_in sheet.now row) }
{
    for place in 0..sheet.records.head_count() {
        push_pair(alloc, made, sheet, row, place)?;
    }
    Ok(())
}

// Appends the rows of the list for a person. One who wishes nothing can't have the first thing.
#[tactic(auto, unfolding(crate::specs::Wishes::person_rows))]
fn push_person(
    alloc: Global,
    made: &mut Records,
    sheet: &Sheet<'_>,
    row: usize,
    first: &[u8],
) -> Result<(), NoMemory>
    requires inside { row < length sheet.now }
    requires first { first.now ≡ slice_index_or (things sheet.now) 0 [] }
    ensures { OnOk result (made.new ≡ made.old ++ person_rows sheet.now row) }
{
    let count = made.len();
    push_pairs(alloc, made, sheet, row)?;
    if made.len() == count {
        push_row(alloc, made, sheet, row, first, b"")?;
    }
    Ok(())
}

// Appends the heads of the list.
fn push_heads(alloc: Global, made: &mut Records, sheet: &Sheet<'_>) -> Result<(), NoMemory>
    requires { 0 < length sheet.now }
    ensures { OnOk result (made.new ≡ made.old ++ wish_heads sheet.now ∷ []) }
{
    let mut cells: Vec<&[u8]> = Vec::new(alloc);
    cells.push(b"who")?;
    cells.push(b"what")?;
    cells.push(b"cost")?;
    push_own(&mut cells, sheet, 0)?;
    made.push_row(sheet.records.line(0), &cells)
}

// The sheet as a list.
fn wish_list(alloc: Global, sheet: &Sheet<'_>, first: &[u8]) -> Result<Records, NoMemory>
    requires any { 0 < length sheet.now }
    requires first { first.now ≡ slice_index_or (things sheet.now) 0 [] }
    ensures { IfOk result (λ made. made ≡ wish_list sheet.now) }
{
    let mut made = Records::new(alloc);
    push_heads(alloc, &mut made, sheet)?;
    for row in 0..sheet.records.len().saturating_sub(1) {
        push_person(alloc, &mut made, sheet, row + 1, first)?;
    }
    Ok(made)
}

// The first of these texts; empty if there is none.
fn first_of<'t>(texts: &[&'t [u8]]) -> &'t [u8]
    ensures { result.now ≡ slice_index_or (map (λ text. text.now) texts.now) 0 [] }
{
    match texts.first() {
        Some(text) => *text,
        None => &[],
    }
}

// The bytes of a text.
fn bytes_of(alloc: Global, text: &[u8]) -> Result<Vec<u8>, NoMemory>
    ensures { IfOk result (λ made. made.items ≡ text.now) }
{
    let mut made = Vec::new(alloc);
    made.extend_from_slice(text)?;
    Ok(made)
}

// The rows as a list, if they are a sheet of wishes.
#[tactic(auto, unfolding(crate::specs::Wishes::is_sheet))]
fn list_of(alloc: Global, records: &Records) -> Result<Option<WishList>, NoMemory>
    ensures { IfOk result (IsListOf records.now) }
{
    let has_heads = has_wish_heads(alloc, records)?;
    if !has_heads {
        return Ok(None);
    }
    let sheet = Sheet::of(alloc, records)?;
    let things = things(alloc, &sheet)?;
    if !are_names(&things) {
        return Ok(None);
    }
    let rows = wish_list(alloc, &sheet, first_of(&things))?;
    let needs = bytes_of(alloc, sheet.needs)?;
    Ok(Some(WishList {
        rows,
        count: things.len(),
        needs,
    }))
}

// Appends a row of a table.
fn push_same(
    alloc: Global,
    made: &mut Records,
    records: &Records,
    row: usize,
) -> Result<(), NoMemory>
    requires { row < length records.now }
    ensures { OnOk result (made.new ≡ made.old ++ slice_index_or records.now row no_record ∷ []) }
{
    let cells = cells_of(alloc, records, row)?;
    made.push_row(records.line(row), &cells)
}

// The rows from this one on.
fn rows_from(alloc: Global, records: &Records, first: usize) -> Result<Records, NoMemory>
    ensures { IfOk result (λ made. made ≡ drop first records.now) }
{
    let mut made = Records::new(alloc);
    for place in 0..records.len().saturating_sub(first) {
        push_same(alloc, &mut made, records, first + place)?;
    }
    Ok(made)
}

/// A sheet of wishes as a list of pairs, if the rows are one from the first of ten on that has the
/// head who, or from the first if none has. It has one column who, none what and none cost, and two
/// or more whose heads say the ranks 1, 2 and so on, in their order: as a number of one or two
/// digits, perhaps with a point, st, nd, rd or th, or as a word from first to fifth, or in German
/// from erst to fünft, perhaps with e or er; each perhaps with the word wish, choice, Wunsch or
/// Wahl in front of it or behind it. A cell of such a column is a wish unless it is empty or a
/// dash; fewer wishes are numbers than names, where x is neither. The list has the columns who,
/// what and cost, and then all others of the sheet. Each wish is a pair that costs its rank, and
/// has the line of its row; a person who wishes nothing can't have the first thing that the sheet
/// names. In a column needs, the first cell that isn't empty stands for those that are.
///
/// # Errors
///
/// `NoMemory` if an allocation is refused.
pub fn wishes_of(alloc: Global, records: &Records) -> Result<Option<WishList>, NoMemory>
    ensures { IfOk result (IsListOf (below_titles records.now)) }
{
    let first = records.head_row(0, &[b"who"]);
    if first == 0 {
        return list_of(alloc, records);
    }
    let rows = rows_from(alloc, records, first)?;
    list_of(alloc, &rows)
}
