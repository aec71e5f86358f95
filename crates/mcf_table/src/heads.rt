//! The columns of a table, by the heads in its first row.
ghost use Rattle.std.specs.Prelude.{◌≡◌};
ghost use Rattle.std.specs.Str.{str_eq_ignore_ascii_case};
ghost use Rattle.mcf_table.specs.Private.Found.{also_at};

use crate::records::Records;
use mcf_text::NoMemory;
use std::alloc::Global;

// How many rows may be that of the heads.
pub(crate) const LOOKED: usize = 10;

/// Where a table has the column with a head.
#[derive(Clone, Copy, Debug, PartialEq, Eq)]
pub enum Column {
    /// No column has this head.
    Missing,
    /// Two columns or more have it.
    Twice,
    /// Only the column at this place has it; places are counted from 0.
    At(usize),
}

impl Column {
    ghost use Rattle.std.specs.Prelude.{◌≡◌};
    ghost use Rattle.mcf_table.specs.Heads.{is_there, only_place};

    /// Whether one column or more has the head.
    pub fn is_there(self) -> bool
        ensures { result ≡ is_there self }
    {
        match self {
            Column::Missing => false,
            _ => true,
        }
    }

    /// The place of the column, if just one has the head.
    pub fn only_place(self) -> Option<usize>
        ensures { result ≡ only_place self }
    {
        match self {
            Column::At(place) => Some(place),
            _ => None,
        }
    }
}

/// Where a cell stands.
#[derive(Clone, Copy, Debug, PartialEq, Eq)]
pub struct CellPlace {
    /// Its row; rows are counted from 0.
    pub row: usize,
    /// Its place in the row, from 0.
    pub place: usize,
}

impl Records {
    ghost use Rattle.std.specs.Prelude.{◌≡◌, ◌<◌, ◌++◌, IfOk, OnOk, length, map};
    ghost use Rattle.std.specs.List.{list_all};
    ghost use Rattle.mcf_table.specs.HeadRows.{has_cell, head_row};
    ghost use Rattle.mcf_table.specs.Heads.{beyond, cells_of, column_of, filled_from, head_at, heads, in_row};

    /// The number of heads.
    pub fn head_count(&self) -> usize
        ensures { result ≡ length (heads self.now) }
    {
        if self.len() == 0 {
            0
        } else {
            self.cell_count(0)
        }
    }

    /// The head at a place, from 0; empty if there are fewer.
    pub fn head(&self, place: usize) -> &[u8]
        ensures { result.now ≡ head_at self.now place }
    {
        if self.len() == 0 {
            &[]
        } else {
            self.cell(0, place)
        }
    }

    /// The column with this head. The cells of the first row are the heads; an ASCII letter is the
    /// same in either case.
    pub fn column_of(&self, head: &[u8]) -> Column
        ensures { result ≡ column_of head.now self.now }
    {
        let count = self.head_count();
        let mut found = Column::Missing;
        let mut place = 0;
        'heads: while place < count {
            if is_same(self.cell(0, place), head) {
                found = also_at(found, place);
            }
            place += 1;
        }
        found
    }

    /// The cells that aren't empty and stand beyond the last head, row by row.
    ///
    /// # Errors
    ///
    /// `NoMemory` if an allocation is refused.
    pub fn beyond(&self, alloc: Global) -> Result<Vec<CellPlace>, NoMemory>
        ensures { IfOk result (λ found. found.items ≡ beyond self.now) }
    {
        let first = self.head_count();
        let mut found = Vec::new(alloc);
        let mut row = 0;
        'rows: while row < self.len() {
            self.push_filled(&mut found, row, first)?;
            row += 1;
        }
        Ok(found)
    }

    /// The row of the heads: the first of the ten rows from this one on that has all the wanted
    /// heads, or this one if none of them has. Rows are counted from 0; an ASCII letter is the same
    /// in either case.
    pub fn head_row(&self, from: usize, wanted: &[&[u8]]) -> usize
        ensures { result ≡ head_row from (map (λ head. head.now) wanted.now) self.now }
    {
        let end = self.len().min(from.saturating_add(LOOKED));
        'rows: for row in from..end {
            if self.has_heads(row, wanted) {
                return row;
            }
        }
        from
    }

    // Whether the row has all these heads.
    fn has_heads(&self, row: usize, wanted: &[&[u8]]) -> bool
        requires { row < length self.now }
        ensures { result ≡ list_all (λ head. has_cell head.now (cells_of self.now row)) wanted.now }
    {
        wanted.iter().all(|head| self.has_head(row, *head))
    }

    // Whether the row has this head.
    fn has_head(&self, row: usize, head: &[u8]) -> bool
        requires { row < length self.now }
        ensures { result ≡ has_cell head.now (cells_of self.now row) }
    {
        'cells: for place in 0..self.cell_count(row) {
            if is_same(self.cell(row, place), head) {
                return true;
            }
        }
        false
    }

    // Appends the places of the row's cells that aren't empty, from this place on.
    fn push_filled(
        &self,
        found: &mut Vec<CellPlace>,
        row: usize,
        first: usize,
    ) -> Result<(), NoMemory>
        requires { row < length self.now }
        ensures { OnOk result (found.new.items ≡ found.old.items ++ in_row row (filled_from first (cells_of self.now row))) }
    {
        let count = self.cell_count(row);
        let mut place = first;
        'cells: while place < count {
            if !self.cell(row, place).is_empty() {
                found.push(CellPlace { row, place })?;
            }
            place += 1;
        }
        Ok(())
    }
}

// Whether the heads are the same, with ASCII letters in either case.
fn is_same(one: &[u8], other: &[u8]) -> bool
    ensures { result ≡ str_eq_ignore_ascii_case one.now other.now }
{
    one.eq_ignore_ascii_case(other)
}

// The column that was found, and also at this place.
fn also_at(found: Column, place: usize) -> Column
    ensures { result ≡ also_at found place }
{
    match found {
        Column::Missing => Column::At(place),
        _ => Column::Twice,
    }
}
