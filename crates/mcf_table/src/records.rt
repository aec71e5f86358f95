//! The rows of a text.
ghost use Rattle.std.specs.Prelude.{◌≡◌, ◌+◌, ◌<◌, ◌≤◌, ◌++◌, ℕ, List, OnErr, OnOk, map};

use crate::cells::Cells;
use mcf_text::NoMemory;
use std::alloc::Global;
use std::marker::Model;

// Which cells are those of a row.
#[derive(Clone, Copy)]
pub(crate) struct RowPart {
    // The line on which the row begins, from 1.
    pub(crate) line: usize,
    // The place of its first cell among all cells.
    pub(crate) first: usize,
    // How many cells it has.
    pub(crate) count: usize,
}

/// The rows of a text that have a cell that isn't empty, in order. Clauses see their list, each
/// with the line on which it begins and its cells.
#[derive(Drop)]
pub struct Records {
    cells: Cells,
    parts: Vec<RowPart>,
}

impl Model for Records {
    ghost use Rattle.std.specs.Prelude.{All, List, map};
    ghost use Rattle.mcf_table.specs.Texts.{Record};
    ghost use Rattle.mcf_table.specs.Private.Found.{IsWithin, row_in};

    ghost Value = { List Record };

    ghost view = { λ records. map (row_in records.cells) records.parts.items };

    ghost invariant = { λ records. All (IsWithin records.cells) records.parts.items };
}

impl Records {
    ghost use Rattle.std.specs.Prelude.{◌≡◌, ◌<◌, ◌++◌, ◌∷◌, [], All, OnErr, OnOk, drop, length, map, slice_index_or, take};
    ghost use Rattle.mcf_table.specs.Texts.{no_record};
    ghost use Rattle.mcf_table.specs.Private.Found.{IsWithin, row_in};

    // The rows of these parts.
    pub(crate) fn joined(cells: Cells, parts: Vec<RowPart>) -> Records
        requires { All (IsWithin cells) parts.items }
        ensures { result ≡ map (row_in cells) parts.items }
    {
        Records { cells, parts }
    }

    /// No rows, without any allocation.
    pub fn new(alloc: Global) -> Records
        ensures { result ≡ [] }
    {
        Records {
            cells: Cells::new(alloc),
            parts: Vec::new(alloc),
        }
    }

    /// Appends a row of these cells, which begins on this line. The cells stay as they are.
    ///
    /// # Errors
    ///
    /// `NoMemory` if an allocation is refused. Then the rows are as they were.
    pub fn push_row(&mut self, line: usize, cells: &[&[u8]]) -> Result<(), NoMemory>
        ensures pushed { OnOk result (self.new ≡ self.old ++ record { line = line; cells = map (λ cell. cell.now) cells.now } ∷ []) }
        ensures kept { OnErr result (self.new ≡ self.old) }
    {
        let first = self.cells.len();
        push_cells(&mut self.cells, cells)?;
        let count = cells.len();
        self.parts.push(RowPart { line, first, count })?;
        Ok(())
    }

    /// The first rows, so many; all if there are fewer.
    pub fn keep_front(mut self, count: usize) -> Records
        ensures { result ≡ take count self }
    {
        self.parts.truncate(count);
        self
    }

    /// The rows without so many in front; none if there are fewer.
    pub fn drop_front(mut self, count: usize) -> Records
        ensures { result ≡ drop count self }
    {
        let len = self.parts.len();
        self.parts.rotate_left(count.min(len));
        self.parts.truncate(len.saturating_sub(count));
        self
    }

    /// The number of rows.
    pub fn len(&self) -> usize
        ensures { result ≡ length self.now }
    {
        self.parts.len()
    }

    /// The line on which a row begins, from 1; rows are counted from 0.
    pub fn line(&self, row: usize) -> usize
        requires { row < length self.now }
        ensures { result ≡ (slice_index_or self.now row no_record).line }
    {
        self.parts[row].line
    }

    /// The number of a row's cells; rows are counted from 0.
    pub fn cell_count(&self, row: usize) -> usize
        requires { row < length self.now }
        ensures { result ≡ length ((slice_index_or self.now row no_record).cells) }
    {
        self.parts[row].count
    }

    /// The cell at a place of a row, without blanks at its ends; empty if the row is shorter. Rows
    /// and places are counted from 0.
    pub fn cell(&self, row: usize, place: usize) -> &[u8]
        requires { row < length self.now }
        ensures { result.now ≡ slice_index_or ((slice_index_or self.now row no_record).cells) place [] }
    {
        let part = self.parts[row];
        if place < part.count {
            let total = self.cells.len();
            self.cells.cell(place_of(part, place, total))
        } else {
            &[]
        }
    }
}

// Appends cells.
fn push_cells(cells: &mut Cells, more: &[&[u8]]) -> Result<(), NoMemory>
    ensures pushed { OnOk result (cells.new ≡ cells.old ++ map (λ cell. cell.now) more.now) }
    ensures kept { OnErr result ((left : List (List ℕ)) × (cells.new ≡ cells.old ++ left)) }
{
    for place in 0..more.len() {
        cells.push(more[place])?;
    }
    Ok(())
}

// The place among all cells of a cell of this part.
fn place_of(part: RowPart, place: usize, total: usize) -> usize
    requires inside { place < part.count }
    requires within { part.first + part.count ≤ total }
    ensures { result ≡ part.first + place }
{
    part.first + place
}
