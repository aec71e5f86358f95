//! The judge of cuts: it tests whether a set of rows and columns excludes every transport plan.
ghost use Rattle.std.specs.Prelude.{◌≡◌, ◌<◌, ◌^◌, ◌+ℤ◌, ◌↔◌, List, IsTrue, length};
ghost use Rattle.mcf_flows.specs.Network.{when};
ghost use Rattle.mcf_flows.specs.WellFormed.{IsUpTo};
ghost use Rattle.mcf_matrix.specs.declared.shipment.Shipment.{Shipment};
ghost use Rattle.mcf_matrix.specs.Cuts.{AreClosed, IsTransportCut, IsUneven, mass_in};
ghost use Rattle.mcf_matrix.specs.Plans.{IsPlan};
ghost use Rattle.mcf_matrix.specs.Private.Closing.{IsRowClosed, closing_mark};
ghost use Rattle.mcf_matrix.specs.Tables.{whole_costs};

use crate::cover::Allows;
use crate::matrix::Matrix;
use crate::shipment::Masses;
use mcf_flows::Side;

/// Returns whether the marked rows and columns exclude every transport plan (Hoffman's condition;
/// Ahuja, Magnanti and Orlin, Network Flows, section 6.7). With `Send`, all allowed pairs of marked
/// rows must be in marked columns, and the marked rows supply more than the marked columns demand.
/// With `Take`, all allowed pairs of marked columns must be in marked rows, and the marked columns
/// demand more than the marked rows supply.
///
/// `rows` has an entry for each row, and `columns` one for each column; returns false for other
/// lengths, also of supplies and demands. It allocates nothing.
pub fn judge_transport_cut(
    matrix: &Matrix,
    masses: &Masses,
    rows: &[bool],
    columns: &[bool],
    side: Side,
) -> bool
    ensures exact { IsTrue result ↔ IsTransportCut (whole_costs matrix.now) masses.now.supplies.now masses.now.demands.now rows.now columns.now side }
    ensures none { IsTrue result → (plan : List Shipment) → ¬ IsPlan (whole_costs matrix.now) masses.now.supplies.now masses.now.demands.now plan }
{
    excludes_plans(matrix, masses, rows, columns, side)
}

/// The same of whatever the costs are stored in.
pub fn excludes_plans<M: Allows>(
    matrix: &M,
    masses: &Masses,
    rows: &[bool],
    columns: &[bool],
    side: Side,
) -> bool
    ensures exact { IsTrue result ↔ IsTransportCut (M.costs matrix.now) masses.now.supplies.now masses.now.demands.now rows.now columns.now side }
    ensures none { IsTrue result → (plan : List Shipment) → ¬ IsPlan (M.costs matrix.now) masses.now.supplies.now masses.now.demands.now plan }
{
    let supplies = masses.supplies;
    let demands = masses.demands;
    if supplies.len() != matrix.row_count() {
        return false;
    }
    if demands.len() != matrix.column_count() {
        return false;
    }
    if rows.len() != matrix.row_count() {
        return false;
    }
    if columns.len() != matrix.column_count() {
        return false;
    }
    if !is_uneven(mass_of(supplies, rows), mass_of(demands, columns), side) {
        return false;
    }
    are_closed(matrix, rows, columns, side)
}

// Returns the sum of the masses (supplies or demands) of the marked places.
fn mass_of(masses: &[i64], marks: &[bool]) -> i128
    requires { length marks.now ≡ length masses.now }
    ensures { result ≡ mass_in masses.now marks.now (length masses.now) }
{
    let mut total = 0;
    for place in 0..masses.len() {
        total = add_when(total, marks[place], masses[place]);
    }
    total
}

// Returns the total, plus the mass if it counts.
fn add_when(total: i128, counts: bool, mass: i64) -> i128
    requires { IsUpTo (2 ^ 126) total }
    ensures { result ≡ total +ℤ when counts mass }
{
    if counts {
        total + i128::from(mass)
    } else {
        total
    }
}

// Returns whether the supply is above the demand, or below it, according to the side.
fn is_uneven(supply: i128, demand: i128, side: Side) -> bool
    ensures { IsTrue result ↔ IsUneven supply demand side }
{
    match side {
        Side::Send => demand < supply,
        Side::Take => supply < demand,
    }
}

// Returns the mark of the rows whose pairs may not lead to columns of the other mark.
fn mark_of(side: Side) -> bool
    ensures { result ≡ closing_mark side }
{
    match side {
        Side::Send => true,
        Side::Take => false,
    }
}

// Returns whether no allowed pair of a row leads out of the set.
fn is_row_closed<M: Allows>(matrix: &M, row: usize, own: bool, columns: &[bool], side: Side) -> bool
    requires row { row < (M.costs matrix.now).rows }
    requires columns { length columns.now ≡ (M.costs matrix.now).columns }
    ensures { IsTrue result ↔ IsRowClosed (M.costs matrix.now) row own columns.now side }
{
    let mark = mark_of(side);
    if own != mark {
        return true;
    }
    matrix.is_row_covered(row, columns, mark)
}

// Returns whether no allowed pair leads out of the set.
fn are_closed<M: Allows>(matrix: &M, rows: &[bool], columns: &[bool], side: Side) -> bool
    requires rows { length rows.now ≡ (M.costs matrix.now).rows }
    requires columns { length columns.now ≡ (M.costs matrix.now).columns }
    ensures { IsTrue result ↔ AreClosed (M.costs matrix.now) rows.now columns.now side }
{
    for (row, own) in rows.iter().enumerate() {
        if !is_row_closed(matrix, row, *own, columns, side) {
            return false;
        }
    }
    true
}
