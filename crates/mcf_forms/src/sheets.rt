//! Sheets of wishes.
ghost use Rattle.std.specs.Prelude.{◌≡◌, ◌<◌, [], IfOk, count_by, filter, find, length, map, true, unwrap_or};
ghost use Rattle.std.specs.List.{list_all, range_with_len};
ghost use Rattle.mcf_table.specs.Texts.{is_filled};
ghost use Rattle.mcf_forms.specs.Sums.{is_readable};
ghost use Rattle.mcf_forms.specs.Wishes.{are_names, are_ranks, column_ranks, has_wish_heads, is_in_order, is_name, is_numeral, is_rank, needs_text, who_place};

use crate::cells::{cells_in, first_column, is_dash, is_filled, is_head, is_nothing};
use crate::ranks::rank_of;
use crate::sums::number_in;
use mcf_decimal::Mark;
use mcf_table::Records;
use mcf_text::NoMemory;
use std::alloc::Global;
use std::marker::Model;

/// The rows of a table, and what a list of its wishes takes from all of them. Clauses see the rows.
#[derive(Drop)]
pub(crate) struct Sheet<'t> {
    pub(crate) records: &'t Records,
    // The ranks that the heads say, column by column.
    ranks: Vec<u64>,
    // The place of the column of names.
    who: usize,
    // The first cell of a column `needs` that isn't empty.
    pub(crate) needs: &'t [u8],
}

impl<'t> Model for Sheet<'t> {
    ghost use Rattle.std.specs.Prelude.{List};
    ghost use Rattle.mcf_table.specs.Texts.{Record};
    ghost use Rattle.mcf_forms.specs.Private.Sheets.{IsKnown};

    ghost Value = { List Record };

    ghost view = { λ sheet. sheet.records.now };

    ghost invariant = { λ sheet. IsKnown sheet.records.now sheet.ranks.items sheet.who sheet.needs.now };
}

impl<'t> Sheet<'t> {
    ghost use Rattle.std.specs.Prelude.{◌≡◌, ◌<◌, IfOk, length};
    ghost use Rattle.mcf_forms.specs.Cells.{cell_at};
    ghost use Rattle.mcf_forms.specs.Wishes.{is_own, is_wish, own_cell, rank_at, who_place};

    // The sheet of these rows.
    pub(crate) fn of(alloc: Global, records: &'t Records) -> Result<Sheet<'t>, NoMemory>
        ensures { IfOk result (λ sheet. sheet ≡ records.now) }
    {
        let ranks = column_ranks(alloc, records)?;
        let who = who_place(records);
        let needs = needs_text(alloc, records)?;
        Ok(Sheet {
            records,
            ranks,
            who,
            needs,
        })
    }

    // The rank of a column; 0 if its head says none.
    pub(crate) fn rank(&self, place: usize) -> u64
        ensures { result ≡ rank_at self.now place }
    {
        match self.ranks.get(place) {
            Some(rank) => *rank,
            None => 0,
        }
    }

    // The name of a row.
    pub(crate) fn name(&self, row: usize) -> &'t [u8]
        requires { row < length self.now }
        ensures { result.now ≡ cell_at self.now row (who_place self.now) }
    {
        self.records.cell(row, self.who)
    }

    // Whether the row has a wish in this column.
    #[tactic(auto, unfolding(crate::specs::Wishes::is_wish))]
    pub(crate) fn is_wish(&self, row: usize, place: usize) -> bool
        requires { row < length self.now }
        ensures { result ≡ is_wish self.now row place }
    {
        self.rank(place) != 0 && !is_dash(self.records.cell(row, place))
    }

    // Whether the column is neither that of names nor one of wishes.
    #[tactic(auto, unfolding(crate::specs::Wishes::is_own))]
    pub(crate) fn is_own(&self, place: usize) -> bool
        ensures { result ≡ is_own self.now place }
    {
        self.rank(place) == 0 && place != self.who
    }

    // The row's cell in this column; where it is empty in a column `needs`, what that says.
    #[tactic(auto, unfolding(crate::specs::Wishes::own_cell))]
    pub(crate) fn own_cell(&self, row: usize, place: usize) -> &'t [u8]
        requires { row < length self.now }
        ensures { result.now ≡ own_cell self.now row place }
    {
        let cell = self.records.cell(row, place);
        if is_head(self.records, place, b"needs") && !is_filled(cell) {
            self.needs
        } else {
            cell
        }
    }
}

// The ranks that the heads say, column by column; 0 for a head that says none.
fn column_ranks(alloc: Global, records: &Records) -> Result<Vec<u64>, NoMemory>
    ensures { IfOk result (λ made. made.items ≡ column_ranks records.now) }
{
    let ranks = (0..records.head_count())
        .map(|place| rank_of(records.head(place)))
        .collect(alloc)?;
    Ok(ranks)
}

// The place of the column of names; 0 if there isn't just one.
fn who_place(records: &Records) -> usize
    ensures { result ≡ who_place records.now }
{
    records.column_of(b"who").only_place().unwrap_or(0)
}

// The first of these cells that isn't empty; empty if there is none.
fn first_filled<'t>(cells: &[&'t [u8]]) -> &'t [u8]
    ensures { result.now ≡ unwrap_or (find is_filled (map (λ cell. cell.now) cells.now)) [] }
{
    for place in 0..cells.len() {
        if is_filled(cells[place]) {
            return cells[place];
        }
    }
    &[]
}

// The first cell of a column `needs` that isn't empty; empty if there is none.
fn needs_text<'t>(alloc: Global, records: &'t Records) -> Result<&'t [u8], NoMemory>
    ensures { IfOk result (λ text. text.now ≡ needs_text records.now) }
{
    let cells = cells_in(alloc, records, first_column(records, b"needs"))?;
    Ok(first_filled(&cells))
}

// Those of these numbers that are ranks.
fn ranks_among(alloc: Global, numbers: &[u64]) -> Result<Vec<u64>, NoMemory>
    ensures { IfOk result (λ made. made.items ≡ filter is_rank numbers.now) }
{
    let mut made = Vec::new(alloc);
    for place in 0..numbers.len() {
        if numbers[place] != 0 {
            made.push(numbers[place])?;
        }
    }
    Ok(made)
}

// Whether the rank at this place is one more than the place.
#[tactic(auto, unfolding(crate::specs::Wishes::is_in_order))]
fn is_in_order(ranks: &[u64], place: usize) -> bool
    requires { place < length ranks.now }
    ensures { result ≡ is_in_order ranks.now place }
{
    ranks[place] == place as u64 + 1
}

// Whether each rank is one more than its place.
fn are_in_order(ranks: &[u64]) -> bool
    ensures { result ≡ list_all (is_in_order ranks.now) (range_with_len 0 (length ranks.now)) }
{
    for place in 0..ranks.len() {
        if !is_in_order(ranks, place) {
            return false;
        }
    }
    true
}

// Whether the ranks are 1, 2 and so on, two or more.
#[tactic(auto, unfolding(crate::specs::Wishes::are_ranks))]
fn are_ranks(ranks: &[u64]) -> bool
    ensures { result ≡ are_ranks ranks.now }
{
    2 <= ranks.len() && are_in_order(ranks)
}

// Whether the heads are those of a sheet of wishes.
#[tactic(auto, unfolding(crate::specs::Wishes::has_wish_heads))]
pub(crate) fn has_wish_heads(alloc: Global, records: &Records) -> Result<bool, NoMemory>
    ensures value { IfOk result (λ has. has ≡ has_wish_heads records.now) }
    ensures any { IfOk result (λ has. has ≡ true → 0 < length records.now) }
{
    if records.len() == 0 {
        return Ok(false);
    }
    let who = records.column_of(b"who").only_place().is_some();
    let what = records.column_of(b"what").is_there();
    let cost = records.column_of(b"cost").is_there();
    if !who || what || cost {
        return Ok(false);
    }
    let numbers = column_ranks(alloc, records)?;
    let ranks = ranks_among(alloc, &numbers)?;
    Ok(are_ranks(&ranks))
}

// Whether the cell is a number under this mark, or empty.
fn is_readable(mark: Mark, cell: &[u8]) -> bool
    ensures { result ≡ is_readable mark cell.now }
{
    number_in(mark, cell).is_some()
}

// Whether the cell is a number, by a point or by a comma.
#[tactic(auto, unfolding(crate::specs::Wishes::is_numeral))]
fn is_numeral(cell: &[u8]) -> bool
    ensures { result ≡ is_numeral cell.now }
{
    is_readable(Mark::Point, cell) || is_readable(Mark::Comma, cell)
}

// Whether the cell stands for something else than a number.
#[tactic(auto, unfolding(crate::specs::Wishes::is_name))]
fn is_name(cell: &[u8]) -> bool
    ensures { result ≡ is_name cell.now }
{
    !is_nothing(cell) && !is_numeral(cell)
}

// How many of these cells are numbers.
fn numeral_count(cells: &[&[u8]]) -> usize
    ensures { result ≡ count_by is_numeral (map (λ cell. cell.now) cells.now) }
{
    cells.iter().filter(|cell| is_numeral(cell)).count()
}

// How many of these cells are names.
fn name_count(cells: &[&[u8]]) -> usize
    ensures { result ≡ count_by is_name (map (λ cell. cell.now) cells.now) }
{
    cells.iter().filter(|cell| is_name(cell)).count()
}

// Whether fewer of these cells are numbers than names.
#[tactic(auto, unfolding(crate::specs::Wishes::are_names))]
pub(crate) fn are_names(cells: &[&[u8]]) -> bool
    ensures { result ≡ are_names (map (λ cell. cell.now) cells.now) }
{
    numeral_count(cells) < name_count(cells)
}
