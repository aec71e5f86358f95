//! Least transport plans of cost matrices in arrays, and the judge of such plans.
ghost use Rattle.std.specs.Prelude.{◌≡◌, ◌≤◌, ◌+◌, ◌⊎◌, ◌↔◌, IsTrue, List, drop, length, map, take};
ghost use Rattle.mcf_matrix.specs.declared.shipment.Shipment.{Shipment};
ghost use Rattle.mcf_matrix.specs.Plans.{IsLeastPlan, IsPlan, IsShownPlan};
ghost use Rattle.mcf_matrix.specs.Tables.{IsMatrix};
ghost use Rattle.mcf_c.specs.Matrices.{AnswersMatrix, JudgesMatrix, costs_of, table_of};
ghost use Rattle.mcf_c.specs.Handing.{mark_of};
ghost use Rattle.mcf_c.specs.Transports.{HandsPlan, HasRooms, MarksCut};
ghost use Rattle.mcf_c.specs.Verdicts.{side_number};

use crate::handing::put_marks;
use crate::matrices::McfMatrix;
use crate::statuses::{
    ACCEPTED, BLOCKED, BUFFER_TOO_SMALL, FLOW, INVALID_INPUT, NO_MEMORY, NOT_SHOWN, REJECTED,
};
use crate::verdicts::side_number;
use mcf_matrix::{Masses, Matrix, Shipment, judge_transport};
use mcf_matrix_solver::{Cut, Plan, Planned, plan};
use std::alloc::Global;

/// A transport problem in arrays: a cost matrix, what each row supplies, and what each column
/// demands.
#[repr(C)]
#[derive(Clone, Copy)]
pub struct McfTransport<'a> {
    pub matrix: McfMatrix<'a>,
    pub supplies: &'a [i64],
    pub demands: &'a [i64],
}

/// How many entries a plan has, and the side of a cut.
#[repr(C)]
#[derive(Clone, Copy)]
pub struct McfPlanned {
    pub used: usize,
    pub side: u32,
}

/// How many rows and columns there are.
#[derive(Clone, Copy)]
pub(crate) struct Lines {
    pub(crate) rows: usize,
    pub(crate) columns: usize,
}

/// Returns whether there are a supply and a price for each row, a demand and a price for each
/// column, and room for one entry less than there are rows and columns together.
pub(crate) fn has_rooms(lines: Lines, masses: &Masses<'_>, plan: &[Shipment], prices: Lines) -> bool
    ensures { IsTrue result ↔ HasRooms lines.rows lines.columns masses.now.supplies.now masses.now.demands.now (length plan.now) prices.rows prices.columns }
{
    if masses.supplies.len() != lines.rows {
        return false;
    }
    if masses.demands.len() != lines.columns {
        return false;
    }
    if prices.rows != lines.rows {
        return false;
    }
    if prices.columns != lines.columns {
        return false;
    }
    masses.supplies.len() + masses.demands.len() <= plan.len() + 1
}

/// Finds a least transport plan, and writes its entries to the beginning of a buffer, and prices of
/// rows and columns that show it.
///
/// The status is 0 for a plan; 1 if there is none: the prices then mark by 1 rows and columns that
/// have more to send, or to take, than they can, and all others by 0; 2 if rows overlap or don't
/// end within the costs, or a cost is more than 10^15 from 0; 3 if memory runs out; 4 if a buffer
/// or the masses don't have the length of the rows or columns, or the plan has no room for one
/// entry less than rows and columns; and 7 if nothing was shown. `told` becomes the number of
/// entries, or the side of the cut. From 2 on all buffers and `told` are unchanged, and at 1 the
/// plan is.
#[unsafe(no_mangle)]
pub extern "C" fn mcf_transport_matrix(
    alloc: Global,
    problem: &McfTransport<'_>,
    room: &mut [Shipment],
    row_prices: &mut [i64],
    column_prices: &mut [i64],
    told: &mut McfPlanned,
) -> u32
    ensures answers { AnswersMatrix (IsMatrix (table_of problem.now.matrix)) (¬ HasRooms problem.now.matrix.rows problem.now.matrix.columns problem.now.supplies.now problem.now.demands.now (length room.old) (length row_prices.old) (length column_prices.old)) (problem.now.matrix.rows + problem.now.matrix.columns) result room.old room.new row_prices.old row_prices.new column_prices.old column_prices.new }
    ensures plan { result ≡ FLOW → HandsPlan (costs_of problem.now.matrix) problem.now.supplies.now problem.now.demands.now room.old room.new told.new.used row_prices.new column_prices.new }
    ensures side { result ≡ FLOW → told.new.side ≡ 0 }
    ensures least { result ≡ FLOW → IsLeastPlan (costs_of problem.now.matrix) problem.now.supplies.now problem.now.demands.now (take told.new.used room.new) }
    ensures cut { result ≡ BLOCKED → MarksCut (costs_of problem.now.matrix) problem.now.supplies.now problem.now.demands.now row_prices.new column_prices.new told.new.side }
    ensures unused { result ≡ BLOCKED → told.new.used ≡ 0 }
    ensures none { result ≡ BLOCKED → (plan : List Shipment) → ¬ IsPlan (costs_of problem.now.matrix) problem.now.supplies.now problem.now.demands.now plan }
    ensures rooms { (result ≤ NO_MEMORY) ⊎ (result ≡ NOT_SHOWN) → HasRooms problem.now.matrix.rows problem.now.matrix.columns problem.now.supplies.now problem.now.demands.now (length room.old) (length row_prices.old) (length column_prices.old) }
    ensures told_stays { INVALID_INPUT ≤ result → told.new ≡ told.old }
{
    let matrix = &problem.matrix;
    let McfMatrix { rows, columns, .. } = *matrix;
    let masses = Masses {
        supplies: problem.supplies,
        demands: problem.demands,
    };
    let prices = Lines {
        rows: row_prices.len(),
        columns: column_prices.len(),
    };
    if !has_rooms(Lines { rows, columns }, &masses, room, prices) {
        return BUFFER_TOO_SMALL;
    }
    let Ok(matrix) = Matrix::of(matrix.costs, rows, columns, matrix.stride) else {
        return INVALID_INPUT;
    };
    match plan(alloc, &matrix, &masses) {
        Ok(Planned::Least(found)) => put_plan(&found, room, row_prices, column_prices, told),
        Ok(Planned::Infeasible(cut)) => put_cut(&cut, row_prices, column_prices, told),
        Ok(Planned::NotShown) => NOT_SHOWN,
        Err(_) => NO_MEMORY,
    }
}

// Writes a plan with its prices, if it has room.
fn put_plan(
    found: &Plan,
    room: &mut [Shipment],
    row_prices: &mut [i64],
    column_prices: &mut [i64],
    told: &mut McfPlanned,
) -> u32
    requires row_prices { length row_prices.old ≡ length found.now.row_prices.items }
    requires column_prices { length column_prices.old ≡ length found.now.column_prices.items }
    ensures statuses { (result ≡ FLOW) ⊎ (result ≡ NOT_SHOWN) }
    ensures fits { result ≡ FLOW → told.new.used ≤ length room.new }
    ensures plan { result ≡ FLOW → take told.new.used room.new ≡ found.now.shipments.items }
    ensures rest { result ≡ FLOW → drop told.new.used room.new ≡ drop told.new.used room.old }
    ensures row_prices { result ≡ FLOW → row_prices.new ≡ found.now.row_prices.items }
    ensures column_prices { result ≡ FLOW → column_prices.new ≡ found.now.column_prices.items }
    ensures side { result ≡ FLOW → told.new.side ≡ 0 }
    ensures plan_stays { result ≡ NOT_SHOWN → room.new ≡ room.old }
    ensures row_prices_stay { result ≡ NOT_SHOWN → row_prices.new ≡ row_prices.old }
    ensures column_prices_stay { result ≡ NOT_SHOWN → column_prices.new ≡ column_prices.old }
    ensures told_stays { result ≡ NOT_SHOWN → told.new ≡ told.old }
{
    let shipments = found.shipments.as_slice();
    if room.len() < shipments.len() {
        return NOT_SHOWN;
    }
    *told = McfPlanned {
        used: shipments.len(),
        side: 0,
    };
    room[..shipments.len()].copy_from_slice(shipments);
    row_prices.copy_from_slice(found.row_prices.as_slice());
    column_prices.copy_from_slice(found.column_prices.as_slice());
    FLOW
}

// Writes the marks of a cut and its side.
fn put_cut(cut: &Cut, row_marks: &mut [i64], column_marks: &mut [i64], told: &mut McfPlanned) -> u32
    requires rows { length row_marks.old ≡ length cut.now.rows.items }
    requires columns { length column_marks.old ≡ length cut.now.columns.items }
    ensures status { result ≡ BLOCKED }
    ensures rows { row_marks.new ≡ map mark_of cut.now.rows.items }
    ensures columns { column_marks.new ≡ map mark_of cut.now.columns.items }
    ensures side { told.new.side ≡ side_number cut.now.side }
    ensures used { told.new.used ≡ 0 }
{
    put_marks(cut.rows.as_slice(), row_marks);
    put_marks(cut.columns.as_slice(), column_marks);
    *told = McfPlanned {
        used: 0,
        side: side_number(cut.side),
    };
    BLOCKED
}

/// Judges a transport plan with prices, whoever made them.
///
/// The status is 0 if the prices show the plan least, 1 if they don't or an array doesn't have the
/// length of the rows or columns, 2 if the matrix has a fault, and 3 if memory runs out.
#[unsafe(no_mangle)]
pub extern "C" fn mcf_check_transport(
    alloc: Global,
    problem: &McfTransport<'_>,
    plan: &[Shipment],
    row_prices: &[i64],
    column_prices: &[i64],
) -> u32
    ensures judges { JudgesMatrix (IsMatrix (table_of problem.now.matrix)) (IsShownPlan (costs_of problem.now.matrix) problem.now.supplies.now problem.now.demands.now plan.now row_prices.now column_prices.now) (problem.now.matrix.rows + problem.now.matrix.columns) result }
    ensures least { result ≡ ACCEPTED → IsLeastPlan (costs_of problem.now.matrix) problem.now.supplies.now problem.now.demands.now plan.now }
{
    let matrix = &problem.matrix;
    let Ok(matrix) = Matrix::of(matrix.costs, matrix.rows, matrix.columns, matrix.stride) else {
        return INVALID_INPUT;
    };
    let masses = Masses {
        supplies: problem.supplies,
        demands: problem.demands,
    };
    match judge_transport(alloc, &matrix, &masses, plan, row_prices, column_prices) {
        Ok(true) => ACCEPTED,
        Ok(false) => REJECTED,
        Err(_) => NO_MEMORY,
    }
}
