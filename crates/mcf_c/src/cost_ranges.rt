//! Ranges of the costs of arcs, for arrays.
ghost use Rattle.std.specs.Prelude.{◌≡◌, ◌↔◌, IfNone, IfOk, IfSome, IsTrue, length, ℤ};
ghost use Rattle.std.specs.List.{All, AllZip};
ghost use Rattle.mcf_c.specs.CostRanges.{RangesCosts, end_of, range_of, ranges_of};
ghost use Rattle.mcf_c.specs.Problems.{flow_network};
ghost use Rattle.mcf_checker.specs.Correct.{IsRightFlow};
ghost use Rattle.mcf_engine.specs.SmallPrices.{price_limit};
ghost use Rattle.mcf_flows.specs.Network.{IsArcNumber, node_count};
ghost use Rattle.mcf_flows.specs.WellFormed.{IsUpTo};
ghost use Rattle.mcf_ranges.specs.Ranges.{IsCostRange};

use crate::arrays::are_rooms;
use crate::judging::judge_instance;
use crate::problems::McfFlowProblem;
use crate::statuses::{ACCEPTED, BUFFER_TOO_SMALL, INVALID_CHOICE, INVALID_INPUT, NO_MEMORY};
use crate::verdicts::{McfVerdict, fault_numbers};
use crate::wide::{McfWide, wide_of};
use mcf_instance::{Instance, flow_problem};
use mcf_ranges::{CostRange, cost_ranges};
use mcf_text::{ArcId, NoMemory};
use std::alloc::Global;

/// A flow by arc, and prices by node.
#[repr(C)]
#[derive(Clone, Copy)]
pub struct McfShownFlow<'a> {
    pub flow: &'a [i64],
    pub prices: &'a [i64],
}

/// How far a cost may change in one direction; without a limit `is_limited` is 0.
#[repr(C)]
#[derive(Clone, Copy)]
pub struct McfRangeEnd {
    pub is_limited: u32,
    pub change: McfWide,
}

/// How far the cost of an arc may fall, and how far it may rise, while a flow stays least.
#[repr(C)]
#[derive(Clone, Copy)]
pub struct McfCostRange {
    pub down: McfRangeEnd,
    pub up: McfRangeEnd,
}

// An end of a range in numbers.
fn end_words(end: Option<i128>) -> McfRangeEnd
    ensures { end_of result ≡ end }
{
    match end {
        Some(change) => McfRangeEnd {
            is_limited: 1,
            change: wide_of(change),
        },
        None => McfRangeEnd {
            is_limited: 0,
            change: wide_of(0),
        },
    }
}

// A range in numbers.
fn range_words(range: CostRange) -> McfCostRange
    ensures { range_of result ≡ range }
{
    McfCostRange {
        down: end_words(range.down),
        up: end_words(range.up),
    }
}

// Writes ranges into a buffer for them.
fn put_ranges(ranges: &[CostRange], room: &mut [McfCostRange])
    requires { length room.old ≡ length ranges.now }
    ensures { ranges_of room.new ≡ ranges.now }
{
    for place in 0..ranges.len() {
        room[place] = range_words(ranges[place]);
    }
}

// Whether a number is that of an arc.
fn is_arc(instance: &Instance, number: u32) -> bool
    ensures { IsTrue result ↔ IsArcNumber instance.now number }
{
    1 <= number && number <= instance.arc_count()
}

// The arcs with some numbers, or `None` if a number is none of an arc.
fn arcs_of(
    alloc: Global,
    instance: &Instance,
    numbers: &[u32],
) -> Result<Option<Vec<ArcId>>, NoMemory>
    ensures arcs { IfOk result (λ made. IfSome made (λ arcs. arcs.items ≡ numbers.now)) }
    ensures are { IfOk result (λ made. IfSome made (λ arcs. All (IsArcNumber instance.now) numbers.now)) }
    ensures none { IfOk result (λ made. IfNone made (¬ All (IsArcNumber instance.now) numbers.now)) }
{
    let mut arcs = Vec::with_capacity(alloc, numbers.len())?;
    for place in 0..numbers.len() {
        let number = numbers[place];
        if !is_arc(instance, number) {
            return Ok(None);
        }
        arcs.push(ArcId::new(number))?;
    }
    Ok(Some(arcs))
}

// A number in 128 bits.
fn widened(n: i64) -> i128
    ensures value { result ≡ n }
    ensures small { IsUpTo price_limit result }
{
    i128::from(n)
}

// Numbers in 128 bits.
fn wide_numbers(alloc: Global, numbers: &[i64]) -> Result<Vec<i128>, NoMemory>
    ensures value { IfOk result (λ wide. wide.items ≡ numbers.now) }
    ensures small { IfOk result (λ wide. All (IsUpTo price_limit) wide.items) }
{
    let mut wide = Vec::new(alloc);
    for place in 0..numbers.len() {
        wide.push(widened(numbers[place]))?;
    }
    Ok(wide)
}

// The ranges of the costs of arcs, for a flow that the prices show.
fn ranges_for(
    alloc: Global,
    instance: &Instance,
    shown: &McfShownFlow<'_>,
    arcs: &[ArcId],
) -> Result<Vec<CostRange>, NoMemory>
    requires right { (total : ℤ) × IsRightFlow instance.now total shown.now.prices.now shown.now.flow.now }
    requires arcs { All (IsArcNumber instance.now) arcs.now }
    ensures ranges { IfOk result (λ ranges. AllZip (IsCostRange instance.now shown.now.flow.now) arcs.now ranges.items) }
    ensures long { IfOk result (λ ranges. length ranges.items ≡ length arcs.now) }
{
    let flow = wide_numbers(alloc, shown.flow)?;
    let prices = wide_numbers(alloc, shown.prices)?;
    cost_ranges(alloc, instance, &flow, &prices, arcs)
}

// Judges a flow and its prices, and writes the ranges of the costs of some arcs, if it accepts
// them.
fn range_instance(
    alloc: Global,
    instance: &Instance,
    shown: &McfShownFlow<'_>,
    told: &mut McfVerdict,
    arcs: &[u32],
    ranges: &mut [McfCostRange],
) -> u32
    requires flow { length shown.now.flow.now ≡ length instance.now.arcs }
    requires prices { length shown.now.prices.now ≡ node_count instance.now }
    requires ranges { length ranges.old ≡ length arcs.now }
    ensures { RangesCosts instance.now shown.now result told.old told.new arcs.now ranges.old ranges.new }
{
    let status = judge_instance(alloc, instance, shown.flow, shown.prices, told);
    if status != ACCEPTED {
        return status;
    }
    let Ok(found) = arcs_of(alloc, instance, arcs) else {
        return NO_MEMORY;
    };
    let Some(ids) = found else {
        return INVALID_CHOICE;
    };
    let Ok(made) = ranges_for(alloc, instance, shown, &ids) else {
        return NO_MEMORY;
    };
    put_ranges(&made, ranges);
    ACCEPTED
}

/// Judges a flow by arc and prices by node for a flow problem, as `mcf_check_arcs` does, and writes
/// for each of some arcs, by their numbers, from what to what its cost may change while the flow
/// stays least, if all other costs stay as they are. `told` holds the claimed cost, and becomes the
/// verdict.
///
/// The status is 0 if the flow is accepted, 1 if it isn't, 2 if the arrays have a fault, which
/// `told` becomes, 3 if memory runs out, 4 if an array doesn't have the length of the others, and 5
/// if a number is none of an arc.
#[unsafe(no_mangle)]
pub extern "C" fn mcf_cost_ranges(
    alloc: Global,
    problem: &McfFlowProblem<'_>,
    shown: &McfShownFlow<'_>,
    told: &mut McfVerdict,
    arcs: &[u32],
    ranges: &mut [McfCostRange],
) -> u32
    ensures { RangesCosts (flow_network problem.now) shown.now result told.old told.new arcs.now ranges.old ranges.new }
{
    if ranges.len() != arcs.len() {
        return BUFFER_TOO_SMALL;
    }
    if !are_rooms(
        shown.flow,
        problem.arcs.len(),
        shown.prices,
        problem.supplies.len(),
    ) {
        return BUFFER_TOO_SMALL;
    }
    match flow_problem(alloc, problem.supplies, problem.arcs) {
        Ok(Ok(instance)) => range_instance(alloc, &instance, shown, told, arcs, ranges),
        Ok(Err(fault)) => {
            *told = fault_numbers(&fault);
            INVALID_INPUT
        }
        Err(_) => NO_MEMORY,
    }
}
