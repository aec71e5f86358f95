//! Least transport plans of cost matrices of doubles in arrays, and the judge of such plans.
ghost use Rattle.std.specs.Prelude.{◌≡◌, ◌≤◌, ◌+◌, ◌⊎◌, ◌↔◌, IsTrue, List, drop, false, length, map, take};
ghost use Rattle.mcf_matrix.specs.declared.shipment.Shipment.{Shipment};
ghost use Rattle.mcf_matrix.specs.Plans.{IsLeastPlan, IsPlan, IsShownPlan};
ghost use Rattle.mcf_matrix_doubles.specs.DoublePrices.{AreSmallPrices, in_units};
ghost use Rattle.mcf_matrix_doubles.specs.DoubleTables.{IsDoubleMatrix};
ghost use Rattle.mcf_c.specs.DoubleMatrices.{costs_by, double_costs_of, doubles_of, plan_gap_by, tells_rounded, wide_values};
ghost use Rattle.mcf_matrix_doubles.specs.Rounding.{IsNearlyLeastPlan};
ghost use Rattle.mcf_matrix_doubles.specs.Spans.{IsNarrow, IsWide};
ghost use Rattle.mcf_c.specs.Handing.{mark_of};
ghost use Rattle.mcf_c.specs.Matrices.{AnswersMatrix, JudgesMatrix};
ghost use Rattle.mcf_c.specs.Transports.{HandsPlan, HasRooms, MarksCut};
ghost use Rattle.mcf_c.specs.Verdicts.{side_number};

use crate::double_matrices::{McfDoubles, McfScale, scale_of};
use crate::statuses::{
    ACCEPTED, BLOCKED, BUFFER_TOO_SMALL, FLOW, INVALID_INPUT, NO_MEMORY, NOT_SHOWN, REJECTED,
};
use crate::transports::{Lines, has_rooms};
use crate::verdicts::side_number;
use crate::wide::{McfWide, numbers_of, put_wide, put_wide_marks};
use mcf_double_solver::{Cut, DoubleMatrix, DoublePlan, DoublePlanned, plan};
use mcf_matrix::{Masses, Shipment};
use mcf_matrix_doubles::{DoublePrices, judge_transport};
use std::alloc::Global;

/// A transport problem in arrays: a cost matrix of doubles, what each row supplies, and what each
/// column demands.
#[repr(C)]
#[derive(Clone, Copy)]
pub struct McfDoubleTransport<'a> {
    pub matrix: McfDoubles<'a>,
    pub supplies: &'a [i64],
    pub demands: &'a [i64],
}

/// How many entries a plan has, the side of a cut, and the scale of costs and prices.
#[repr(C)]
#[derive(Clone, Copy)]
pub struct McfDoublePlanned {
    pub used: usize,
    pub side: u32,
    pub scale: McfScale,
}

/// Finds a least transport plan for a cost matrix of doubles, which it reads exactly. Writes its
/// entries to the beginning of a buffer, and prices of rows and columns that show it, in units of
/// 2^unit * 2^-1074.
///
/// Unless the bits of finite entries span more than 118 places, the plan is exact. If they do, it
/// may be a least one for the entries rounded down to such units, and the scale tells so: no plan
/// costs less by as much as one unit times the total supply, if that isn't 0, and the greatest size
/// of an entry is at least 2^117 units.
///
/// The status is 0 for a plan; 1 if there is none: the prices then mark by 1 rows and columns that
/// have more to send, or to take, than they can, and all others by 0; 2 if rows overlap or don't
/// end within the costs, or an entry is a NaN or -infinity; 3 if memory runs out; 4 if a buffer or
/// the masses don't have the length of the rows or columns, or the plan has no room for one entry
/// less than rows and columns; and 7 if nothing was shown. `told` becomes the number of entries and
/// the scale, or the side of the cut. From 2 on all buffers and `told` are unchanged, and at 1 the
/// plan is.
#[unsafe(no_mangle)]
pub extern "C" fn mcf_transport_doubles(
    alloc: Global,
    problem: &McfDoubleTransport<'_>,
    room: &mut [Shipment],
    row_prices: &mut [McfWide],
    column_prices: &mut [McfWide],
    told: &mut McfDoublePlanned,
) -> u32
    ensures answers { AnswersMatrix (IsDoubleMatrix (doubles_of problem.now.matrix)) (¬ HasRooms problem.now.matrix.rows problem.now.matrix.columns problem.now.supplies.now problem.now.demands.now (length room.old) (length row_prices.old) (length column_prices.old)) (problem.now.matrix.rows + problem.now.matrix.columns) result room.old room.new row_prices.old row_prices.new column_prices.old column_prices.new }
    ensures plan { result ≡ FLOW → HandsPlan (costs_by told.new.scale problem.now.matrix) problem.now.supplies.now problem.now.demands.now room.old room.new told.new.used (in_units told.new.scale.unit (wide_values row_prices.new)) (in_units told.new.scale.unit (wide_values column_prices.new)) }
    ensures side { result ≡ FLOW → told.new.side ≡ 0 }
    ensures least { result ≡ FLOW → IsLeastPlan (costs_by told.new.scale problem.now.matrix) problem.now.supplies.now problem.now.demands.now (take told.new.used room.new) }
    ensures near { result ≡ FLOW → IsNearlyLeastPlan (double_costs_of problem.now.matrix) problem.now.supplies.now problem.now.demands.now (take told.new.used room.new) (plan_gap_by told.new.scale problem.now.matrix problem.now.supplies.now) }
    ensures exact { result ≡ FLOW → IsNarrow (double_costs_of problem.now.matrix) → tells_rounded told.new.scale ≡ false }
    ensures wide { result ≡ FLOW → IsTrue (tells_rounded told.new.scale) → IsWide told.new.scale.unit (double_costs_of problem.now.matrix) }
    ensures cut { result ≡ BLOCKED → MarksCut (double_costs_of problem.now.matrix) problem.now.supplies.now problem.now.demands.now (wide_values row_prices.new) (wide_values column_prices.new) told.new.side }
    ensures unused { result ≡ BLOCKED → (told.new.used ≡ 0) × (told.new.scale.unit ≡ 0) × (told.new.scale.is_rounded ≡ 0) }
    ensures none { result ≡ BLOCKED → (plan : List Shipment) → ¬ IsPlan (double_costs_of problem.now.matrix) problem.now.supplies.now problem.now.demands.now plan }
    ensures rooms { (result ≤ NO_MEMORY) ⊎ (result ≡ NOT_SHOWN) → HasRooms problem.now.matrix.rows problem.now.matrix.columns problem.now.supplies.now problem.now.demands.now (length room.old) (length row_prices.old) (length column_prices.old) }
    ensures told_stays { INVALID_INPUT ≤ result → told.new ≡ told.old }
{
    let matrix = &problem.matrix;
    let McfDoubles { rows, columns, .. } = *matrix;
    let masses = Masses {
        supplies: problem.supplies,
        demands: problem.demands,
    };
    let prices = Lines {
        rows: row_prices.len(),
        columns: column_prices.len(),
    };
    if !has_rooms(Lines { rows, columns }, &masses, room, prices) {
        return BUFFER_TOO_SMALL;
    }
    let Ok(matrix) = DoubleMatrix::of(matrix.costs, rows, columns, matrix.stride) else {
        return INVALID_INPUT;
    };
    match plan(alloc, &matrix, &masses) {
        Ok(DoublePlanned::Least(found)) => put_plan(&found, room, row_prices, column_prices, told),
        Ok(DoublePlanned::Infeasible(cut)) => put_cut(&cut, row_prices, column_prices, told),
        Ok(DoublePlanned::NotShown) => NOT_SHOWN,
        Err(_) => NO_MEMORY,
    }
}

// Writes a plan with its prices, if it has room.
fn put_plan(
    found: &DoublePlan,
    room: &mut [Shipment],
    row_prices: &mut [McfWide],
    column_prices: &mut [McfWide],
    told: &mut McfDoublePlanned,
) -> u32
    requires row_prices { length row_prices.old ≡ length found.now.row_prices.items }
    requires column_prices { length column_prices.old ≡ length found.now.column_prices.items }
    ensures statuses { (result ≡ FLOW) ⊎ (result ≡ NOT_SHOWN) }
    ensures fits { result ≡ FLOW → told.new.used ≤ length room.new }
    ensures plan { result ≡ FLOW → take told.new.used room.new ≡ found.now.shipments.items }
    ensures rest { result ≡ FLOW → drop told.new.used room.new ≡ drop told.new.used room.old }
    ensures row_prices { result ≡ FLOW → wide_values row_prices.new ≡ found.now.row_prices.items }
    ensures column_prices { result ≡ FLOW → wide_values column_prices.new ≡ found.now.column_prices.items }
    ensures side { result ≡ FLOW → told.new.side ≡ 0 }
    ensures unit { result ≡ FLOW → told.new.scale.unit ≡ found.now.unit }
    ensures rounded { result ≡ FLOW → tells_rounded told.new.scale ≡ found.now.is_rounded }
    ensures plan_stays { result ≡ NOT_SHOWN → room.new ≡ room.old }
    ensures row_prices_stay { result ≡ NOT_SHOWN → row_prices.new ≡ row_prices.old }
    ensures column_prices_stay { result ≡ NOT_SHOWN → column_prices.new ≡ column_prices.old }
    ensures told_stays { result ≡ NOT_SHOWN → told.new ≡ told.old }
{
    let shipments = found.shipments.as_slice();
    if room.len() < shipments.len() {
        return NOT_SHOWN;
    }
    *told = McfDoublePlanned {
        used: shipments.len(),
        side: 0,
        scale: scale_of(found.unit, found.is_rounded),
    };
    room[..shipments.len()].copy_from_slice(shipments);
    put_wide(found.row_prices.as_slice(), row_prices);
    put_wide(found.column_prices.as_slice(), column_prices);
    FLOW
}

// Writes the marks of a cut and its side.
fn put_cut(
    cut: &Cut,
    row_marks: &mut [McfWide],
    column_marks: &mut [McfWide],
    told: &mut McfDoublePlanned,
) -> u32
    requires rows { length row_marks.old ≡ length cut.now.rows.items }
    requires columns { length column_marks.old ≡ length cut.now.columns.items }
    ensures status { result ≡ BLOCKED }
    ensures rows { wide_values row_marks.new ≡ map mark_of cut.now.rows.items }
    ensures columns { wide_values column_marks.new ≡ map mark_of cut.now.columns.items }
    ensures side { told.new.side ≡ side_number cut.now.side }
    ensures used { told.new.used ≡ 0 }
    ensures unit { told.new.scale.unit ≡ 0 }
    ensures exact { told.new.scale.is_rounded ≡ 0 }
{
    put_wide_marks(cut.rows.as_slice(), row_marks);
    put_wide_marks(cut.columns.as_slice(), column_marks);
    *told = McfDoublePlanned {
        used: 0,
        side: side_number(cut.side),
        scale: McfScale {
            unit: 0,
            is_rounded: 0,
        },
    };
    BLOCKED
}

/// Judges a transport plan with prices for a matrix of doubles, whoever made them, exactly.
///
/// The status is 0 if the prices show the plan least, for the entries or for the entries rounded
/// down, as `scale` tells; 1 if they don't, a price isn't less than 2^125 from 0, or an array
/// doesn't have the length of the rows or columns; 2 if the matrix has a fault; and 3 if memory
/// runs out.
#[unsafe(no_mangle)]
pub extern "C" fn mcf_check_transport_doubles(
    alloc: Global,
    problem: &McfDoubleTransport<'_>,
    plan: &[Shipment],
    row_prices: &[McfWide],
    column_prices: &[McfWide],
    scale: &McfScale,
) -> u32
    ensures judges { JudgesMatrix (IsDoubleMatrix (doubles_of problem.now.matrix))
        (AreSmallPrices (wide_values row_prices.now) × AreSmallPrices (wide_values column_prices.now)
        × IsShownPlan (costs_by scale.now problem.now.matrix) problem.now.supplies.now problem.now.demands.now plan.now (in_units scale.now.unit (wide_values row_prices.now)) (in_units scale.now.unit (wide_values column_prices.now)))
        (length row_prices.now + length column_prices.now + problem.now.matrix.rows + problem.now.matrix.columns) result }
    ensures least { result ≡ ACCEPTED → IsLeastPlan (costs_by scale.now problem.now.matrix) problem.now.supplies.now problem.now.demands.now plan.now }
    ensures near { result ≡ ACCEPTED → IsNearlyLeastPlan (double_costs_of problem.now.matrix) problem.now.supplies.now problem.now.demands.now plan.now (plan_gap_by scale.now problem.now.matrix problem.now.supplies.now) }
{
    let matrix = &problem.matrix;
    let Ok(matrix) = DoubleMatrix::of(matrix.costs, matrix.rows, matrix.columns, matrix.stride)
    else {
        return INVALID_INPUT;
    };
    let Ok(rows) = numbers_of(alloc, row_prices) else {
        return NO_MEMORY;
    };
    let Ok(columns) = numbers_of(alloc, column_prices) else {
        return NO_MEMORY;
    };
    let masses = Masses {
        supplies: problem.supplies,
        demands: problem.demands,
    };
    let prices = DoublePrices {
        rows: rows.as_slice(),
        columns: columns.as_slice(),
        unit: scale.unit,
        is_rounded: 0 < scale.is_rounded,
    };
    match judge_transport(alloc, &matrix, &masses, plan, &prices) {
        Ok(true) => ACCEPTED,
        Ok(false) => REJECTED,
        Err(_) => NO_MEMORY,
    }
}
