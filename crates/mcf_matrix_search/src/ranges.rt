//! The range of the costs of a matrix, and a cost above it that stands for a forbidden pair.

use mcf_columns::at;
use mcf_matrix::FORBIDDEN;
use mcf_matrix_rows::{View, row_greatest};

/// The greatest cost of a copy. Prices stay well within 64 bits then.
const MOST: i64 = 1 << 57;

/// Returns whether any pair is forbidden.
pub(crate) fn has_forbidden(view: View<'_>) -> bool {
    'rows: for row in 0..view.rows {
        if row_greatest(view.row(row), view.columns as usize) == FORBIDDEN {
            return true;
        }
    }
    false
}

/// The least and the greatest cost of the allowed pairs.
#[derive(Clone, Copy)]
struct Range {
    least: i64,
    greatest: i64,
}

/// Returns a cost so far above all others that a least matching or plan uses as few pairs of that
/// cost as possible, unless the cost would be beyond 2^57, and then 2^57.
pub(crate) fn far_cost(view: View<'_>) -> i64 {
    let mut range = Range {
        least: i64::MAX,
        greatest: i64::MIN,
    };
    'rows: for row in 0..view.rows {
        range.widen(view, row);
    }
    if range.least > range.greatest {
        return 0;
    }
    let span = range.greatest.saturating_sub(range.least).saturating_add(1);
    let pairs = i64::from(view.rows).saturating_add(i64::from(view.columns));
    range
        .greatest
        .saturating_add(span.saturating_mul(pairs))
        .min(MOST)
}

impl Range {
    // Extends the range by the costs of a row's allowed pairs.
    fn widen(&mut self, view: View<'_>, row: u32) {
        let entries = view.row(row);
        'columns: for column in 0..view.columns {
            let cost = at(entries, column, FORBIDDEN);
            if cost != FORBIDDEN {
                self.least = self.least.min(cost);
                self.greatest = self.greatest.max(cost);
            }
        }
    }
}
