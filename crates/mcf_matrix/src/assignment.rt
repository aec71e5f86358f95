//! The judge of assignments of whole costs.
ghost use Rattle.std.specs.Prelude.{◌≡◌, ◌≤◌, ◌↔◌, IfOk, IsTrue, OnErr, length};
ghost use Rattle.mcf_matrix.specs.Judging.{HasLengths};
ghost use Rattle.mcf_matrix.specs.Matchings.{IsLeastMatching, matching_cost};
ghost use Rattle.mcf_matrix.specs.MatrixPrices.{IsShownMatching, price_total};
ghost use Rattle.mcf_matrix.specs.Tables.{whole_costs};

use crate::matrix::Matrix;
use crate::showing::shows;
use crate::whole_prices::WholePrices;
use mcf_text::NoMemory;
use std::alloc::Global;

/// Whether the prices show that the matching is least: the exact test of a matching with its prices
/// (Kuhn 1955; Munkres 1957; Ahuja, Magnanti and Orlin, Network Flows, section 12.4).
///
/// The list has the column of each row; a number that is no column's stands for none. The prices
/// are one for each row and one for each column. Lists of other lengths are refused. It reads each
/// entry of the matrix once.
///
/// # Errors
/// `NoMemory` where there is no memory for a byte for each column.
pub fn judge_assignment(
    alloc: Global,
    matrix: &Matrix,
    columns_of: &[u32],
    row_prices: &[i64],
    column_prices: &[i64],
) -> Result<bool, NoMemory>
    ensures exact { IfOk result (λ holds. IsTrue holds ↔ IsShownMatching (whole_costs matrix.now) columns_of.now row_prices.now column_prices.now) }
    ensures least { IfOk result (λ holds. IsTrue holds → IsLeastMatching (whole_costs matrix.now) columns_of.now) }
    ensures cost { IfOk result (λ holds. IsTrue holds → matching_cost (whole_costs matrix.now) columns_of.now ≡ price_total (whole_costs matrix.now) row_prices.now column_prices.now) }
    ensures wants { OnErr result (1 ≤ matrix.now.columns) }
{
    if !has_lengths(
        matrix,
        columns_of.len(),
        row_prices.len(),
        column_prices.len(),
    ) {
        return Ok(false);
    }
    let priced = WholePrices {
        matrix,
        row_prices,
        column_prices,
    };
    shows(alloc, &priced, columns_of)
}

// Whether there is an entry for each row, a price for each row and a price for each column.
fn has_lengths(matrix: &Matrix, rows: usize, row_prices: usize, column_prices: usize) -> bool
    ensures { IsTrue result ↔ HasLengths matrix.now.rows matrix.now.columns rows row_prices column_prices }
{
    rows == matrix.rows() && row_prices == matrix.rows() && column_prices == matrix.columns()
}
