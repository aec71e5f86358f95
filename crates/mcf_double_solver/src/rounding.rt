//! When an answer may be one for costs rounded down.
ghost use Rattle.std.specs.Prelude.{◌≡◌, ◌↔◌, IsTrue, false};
ghost use Rattle.mcf_matrix_doubles.specs.DoubleTables.{double_costs};
ghost use Rattle.mcf_matrix_doubles.specs.Spans.{IsNarrow, IsWide};

use mcf_matrix_doubles::{DoubleMatrix, is_wide};

/// Returns whether an answer may be one for the costs as told: for costs rounded down to multiples
/// of 2^unit only if their bits span more than 118 places, as that unit shows. It reads the matrix
/// only if the answer `is_rounded`.
pub(crate) fn may_answer(matrix: &DoubleMatrix<'_>, unit: u32, is_rounded: bool) -> bool
    ensures wide { IsTrue result ↔ (IsTrue is_rounded → IsWide unit (double_costs matrix.now)) }
    ensures exact { IsTrue result → IsNarrow (double_costs matrix.now) → is_rounded ≡ false }
{
    if !is_rounded {
        return true;
    }
    is_wide(matrix, unit)
}
