//! The judge of covers: it tests whether so few rows and columns cover all allowed pairs that no
//! matching is large enough.
ghost use Rattle.std.specs.Prelude.{◌≡◌, ◌+◌, ◌<◌, ◌↔◌, ◌⊎◌, ℕ, List, IsSome, IsTrue, count_by, length, min};
ghost use Rattle.mcf_matrix.specs.Costs.{Costs};
ghost use Rattle.mcf_matrix.specs.Covers.{AreCovered, IsShortCover};
ghost use Rattle.mcf_matrix.specs.Judging.{IsRowCovered};
ghost use Rattle.mcf_matrix.specs.Matchings.{IsMatching};
ghost use Rattle.mcf_matrix.specs.PlaceSums.{at_place, is_marked, mark_count};
ghost use Rattle.mcf_matrix.specs.Private.Narrow.{RowIsCovered};
ghost use Rattle.mcf_matrix.specs.Tables.{cost_of, whole_costs};

use crate::matrix::{FORBIDDEN, Matrix};

/// A matrix some of whose pairs are forbidden, as the judges of covers and cuts read it.
pub trait Allows {
    // What each pair costs.
    ghost costs: { Self → Costs };

    /// How many rows there are.
    fn row_count(&self) -> usize
        ensures { result ≡ (costs self.now).rows };

    /// How many columns there are.
    fn column_count(&self) -> usize
        ensures { result ≡ (costs self.now).columns };

    /// Whether the column of each allowed pair of a row has this mark.
    fn is_row_covered(&self, row: usize, columns: &[bool], mark: bool) -> bool
        requires row { row < (costs self.now).rows }
        requires columns { length columns.now ≡ (costs self.now).columns }
        ensures { IsTrue result ↔ IsRowCovered (costs self.now) row columns.now mark };
}

impl<'a> Allows for Matrix<'a> {
    ghost costs = { whole_costs };

    #[inline(always)]
    fn row_count(&self) -> usize {
        self.rows()
    }

    #[inline(always)]
    fn column_count(&self) -> usize {
        self.columns()
    }

    fn is_row_covered(&self, row: usize, columns: &[bool], mark: bool) -> bool {
        row_is_covered(self.row(row), columns, mark)
    }
}

/// Returns whether each allowed pair has a marked row or a marked column, and fewer rows and
/// columns are marked than the smaller of both sides has. Then no matching is as large as that side
/// (the easy half of the theorem of König, 1931): rows that aren't marked have allowed pairs in
/// marked columns alone, which are too few for them (Hall, 1935).
///
/// `rows` has an entry for each row, and `columns` one for each column; returns false for other
/// lengths. It allocates nothing, and reads the entries of the rows that aren't marked.
pub fn judge_cover(matrix: &Matrix, rows: &[bool], columns: &[bool]) -> bool
    ensures exact { IsTrue result ↔ IsShortCover (whole_costs matrix.now) rows.now columns.now }
    ensures none { IsTrue result → (x : List ℕ) → ¬ IsMatching (whole_costs matrix.now) x }
{
    excludes(matrix, rows, columns)
}

/// The same of whatever the costs are stored in.
pub fn excludes<M: Allows>(matrix: &M, rows: &[bool], columns: &[bool]) -> bool
    ensures exact { IsTrue result ↔ IsShortCover (M.costs matrix.now) rows.now columns.now }
    ensures none { IsTrue result → (x : List ℕ) → ¬ IsMatching (M.costs matrix.now) x }
{
    if rows.len() != matrix.row_count() {
        return false;
    }
    if columns.len() != matrix.column_count() {
        return false;
    }
    if !is_short(matrix, rows, columns) {
        return false;
    }
    are_covered(matrix, rows, columns)
}

// Returns the number of marks in a table.
fn count_marks(table: &[bool]) -> usize
    ensures { result ≡ mark_count table.now }
{
    table.iter().filter(|mark| **mark).count()
}

// Returns whether there are fewer marks than the smaller of both sides has rows or columns.
fn is_short<M: Allows>(matrix: &M, rows: &[bool], columns: &[bool]) -> bool
    ensures { IsTrue result ↔ (mark_count rows.now + mark_count columns.now < min (M.costs matrix.now).rows (M.costs matrix.now).columns) }
{
    let smaller = matrix.row_count().min(matrix.column_count());
    let row_marks = count_marks(rows);
    let column_marks = count_marks(columns);
    row_marks < smaller && column_marks < smaller - row_marks
}

// Returns whether an entry forbids its pair, or its column has the mark that it should have.
#[inline(always)]
fn is_met(cost: i64, own: bool, mark: bool) -> bool
    ensures { IsTrue result ↔ (IsSome (cost_of cost) → own ≡ mark) }
{
    cost == FORBIDDEN || own == mark
}

// Returns whether the column of each allowed pair of a row has this mark.
fn row_is_covered(row: &[i64], columns: &[bool], mark: bool) -> bool
    requires { length columns.now ≡ length row.now }
    ensures { IsTrue result ↔ RowIsCovered row.now columns.now mark }
{
    let mut covered = true;
    for column in 0..row.len() {
        covered &= is_met(row[column], columns[column], mark);
    }
    covered
}

// Returns whether each allowed pair has a marked row or a marked column.
fn are_covered<M: Allows>(matrix: &M, rows: &[bool], columns: &[bool]) -> bool
    requires rows { length rows.now ≡ (M.costs matrix.now).rows }
    requires columns { length columns.now ≡ (M.costs matrix.now).columns }
    ensures { IsTrue result ↔ AreCovered (M.costs matrix.now) rows.now columns.now }
{
    for (row, mark) in rows.iter().enumerate() {
        if !*mark && !matrix.is_row_covered(row, columns, true) {
            return false;
        }
    }
    true
}
