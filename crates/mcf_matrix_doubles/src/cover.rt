//! The judge of covers of a matrix of doubles.
ghost use Rattle.std.specs.Prelude.{◌≡◌, ◌<◌, ◌↔◌, ℕ, List, IsSome, IsTrue, length};
ghost use Rattle.mcf_matrix.specs.Covers.{IsShortCover};
ghost use Rattle.mcf_matrix.specs.Matchings.{IsMatching};
ghost use Rattle.mcf_matrix.specs.PlaceSums.{is_marked};
ghost use Rattle.mcf_matrix_doubles.specs.DoublePrices.{RowIsCovered};
ghost use Rattle.mcf_matrix_doubles.specs.DoubleTables.{double_costs};
ghost use Rattle.mcf_matrix_doubles.specs.Doubles.{double_cost};

use crate::double::INFINITY;
use crate::double_matrix::DoubleMatrix;
use mcf_matrix::{Allows, excludes};

impl<'a> Allows for DoubleMatrix<'a> {
    ghost costs = { double_costs };

    #[inline(always)]
    fn row_count(&self) -> usize {
        self.rows()
    }

    #[inline(always)]
    fn column_count(&self) -> usize {
        self.columns()
    }

    fn is_row_covered(&self, row: usize, columns: &[bool], mark: bool) -> bool {
        row_is_covered(self.row(row), columns, mark)
    }
}

/// Whether the marked rows and columns meet every pair whose entry isn't +infinity, and are fewer
/// than the smaller side has, so that there is no matching (the easy half of the theorem of König,
/// 1931).
///
/// The tables have an entry for each row and one for each column; those of other lengths are
/// refused. It takes no memory, and reads the entries of the rows that aren't marked.
pub fn judge_cover(matrix: &DoubleMatrix, rows: &[bool], columns: &[bool]) -> bool
    ensures exact { IsTrue result ↔ IsShortCover (double_costs matrix.now) rows.now columns.now }
    ensures none { IsTrue result → (x : List ℕ) → ¬ IsMatching (double_costs matrix.now) x }
{
    excludes(matrix, rows, columns)
}

// Whether the entry forbids its pair, or its column has the mark that it should have.
#[inline(always)]
fn is_met(bits: u64, own: bool, mark: bool) -> bool
    ensures { IsTrue result ↔ (IsSome (double_cost bits) → own ≡ mark) }
{
    bits == INFINITY || own == mark
}

// Whether the column of each allowed pair of a row has this mark.
fn row_is_covered(row: &[u64], columns: &[bool], mark: bool) -> bool
    requires { length columns.now ≡ length row.now }
    ensures { IsTrue result ↔ RowIsCovered row.now columns.now mark }
{
    let mut covered = true;
    for column in 0..row.len() {
        covered &= is_met(row[column], columns[column], mark);
    }
    covered
}
