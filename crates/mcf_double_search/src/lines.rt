//! A matrix with at most as many rows as columns: the caller's, or the same with both exchanged.

use mcf_matrix_doubles::{DoubleMatrix, INFINITY};

/// A matrix whose rows and columns are exchanged if it has more rows than columns. It is not
/// copied.
#[derive(Clone, Copy)]
pub(crate) struct Lines<'a> {
    matrix: &'a DoubleMatrix<'a>,
    pub(crate) is_turned: bool,
}

impl<'a> Lines<'a> {
    /// Returns the lines of a matrix.
    pub(crate) fn of(matrix: &'a DoubleMatrix<'a>) -> Lines<'a> {
        Lines {
            matrix,
            is_turned: matrix.rows() > matrix.columns(),
        }
    }

    /// Returns the number of rows.
    pub(crate) fn rows(&self) -> usize {
        self.matrix.rows().min(self.matrix.columns())
    }

    /// Returns the number of columns.
    pub(crate) fn columns(&self) -> usize {
        self.matrix.rows().max(self.matrix.columns())
    }

    /// Returns the bits of an entry, or those of +infinity if there is no such entry.
    #[inline(always)]
    pub(crate) fn entry(&self, row: usize, column: usize) -> u64 {
        let (row, column) = if self.is_turned {
            (column, row)
        } else {
            (row, column)
        };
        if row < self.matrix.rows() && column < self.matrix.columns() {
            self.matrix.entry(row, column)
        } else {
            INFINITY
        }
    }
}
