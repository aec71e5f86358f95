//! The judge of cuts of a matrix of doubles.
ghost use Rattle.std.specs.Prelude.{◌↔◌, List, IsTrue};
ghost use Rattle.mcf_matrix.specs.declared.shipment.Shipment.{Shipment};
ghost use Rattle.mcf_matrix.specs.Cuts.{IsTransportCut};
ghost use Rattle.mcf_matrix.specs.Plans.{IsPlan};
ghost use Rattle.mcf_matrix_doubles.specs.DoubleTables.{double_costs};

use crate::double_matrix::DoubleMatrix;
use mcf_flows::Side;
use mcf_matrix::{Masses, excludes_plans};

/// Whether the marked rows and columns exclude every transport plan (Hoffman's condition; Ahuja,
/// Magnanti and Orlin, Network Flows, section 6.7). With `Send`, all entries of marked rows outside
/// marked columns must be +infinity, and the marked rows supply more than the marked columns
/// demand. With `Take`, all entries of marked columns outside marked rows must be +infinity, and
/// the marked columns demand more than the marked rows supply.
///
/// The tables have an entry for each row and one for each column; those of other lengths are
/// refused, also supplies and demands. It allocates nothing.
pub fn judge_transport_cut(
    matrix: &DoubleMatrix,
    masses: &Masses,
    rows: &[bool],
    columns: &[bool],
    side: Side,
) -> bool
    ensures exact { IsTrue result ↔ IsTransportCut (double_costs matrix.now) masses.now.supplies.now masses.now.demands.now rows.now columns.now side }
    ensures none { IsTrue result → (plan : List Shipment) → ¬ IsPlan (double_costs matrix.now) masses.now.supplies.now masses.now.demands.now plan }
{
    excludes_plans(matrix, masses, rows, columns, side)
}
