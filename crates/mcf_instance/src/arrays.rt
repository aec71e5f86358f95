//! Instances made of arrays instead of a text.
ghost use Rattle.std.specs.Prelude.{◌≡◌, ◌↔◌, ◌≤◌, ◌+◌, ◌++◌, [], IfErr, IfOk, List, OnErr, length, map, neg_ℤ, pos, replicate, true, false, None, Some, is_ok, nat_le, ◌&&◌};
ghost use Rattle.mcf_instance.specs.Arrays.{arc_of_numbers, arc_of_pair, assignment_problem, first_found, flow_problem, made_of_arrays, supply_fault};
ghost use Rattle.mcf_flows.specs.Limits.{limits, arc_limit, node_limit};
ghost use Rattle.mcf_flows.specs.Network.{Network};
ghost use Rattle.mcf_instance.specs.Private.ArrayStates.{HoldsArcs, IsFaultlessBefore, TookArcs, numbers_of};
ghost use Rattle.mcf_flows.specs.WellFormed.{IsWellFormed};

use crate::reader::line::{ArcNumbers, Header, is_up_to};
use crate::reader::state::ReaderState;
use mcf_flows::{ARC_LIMIT, Code, Instance, NODE_LIMIT, Problem, SUPPLY_LIMIT};
use mcf_text::{ArcId, NoMemory, NodeId, copies};
use std::alloc::Global;

/// An arc of a flow problem as plain numbers, with nodes from 1: 32 bytes, in C's layout.
#[repr(C)]
#[derive(Clone, Copy)]
pub struct RawArc {
    pub src: u32,
    pub dst: u32,
    pub low: i64,
    pub cap: i64,
    pub cost: i64,
}

/// A pair of an assignment problem as plain numbers, with rows from 1 and columns from 1: 16 bytes,
/// in C's layout.
#[repr(C)]
#[derive(Clone, Copy)]
pub struct RawPair {
    pub row: u32,
    pub column: u32,
    pub cost: i64,
}

/// What is wrong with arrays: the first fault, sizes first, then supplies in order, then arcs in
/// order.
#[derive(Clone, Copy, Debug, PartialEq, Eq)]
pub enum ArrayFault {
    /// There are more than 1,000,000 nodes or 10,000,000 arcs.
    Size,
    /// The supply of this node is out of range.
    Supply(NodeId),
    /// This arc has this fault of an arc line: `Node`, `Bound`, `Order`, `Cost`, `Side` or `Total`.
    Arc(ArcId, Code),
}

// The first supply that is out of range.
fn faulty_supply(supplies: &[i64]) -> Option<ArrayFault>
    requires { length supplies.now ≤ node_limit }
    ensures { result ≡ first_found (supply_fault limits) supplies.now }
{
    for place in 0..supplies.len() {
        if !is_up_to(SUPPLY_LIMIT as i64, supplies[place]) {
            return Some(ArrayFault::Supply(NodeId::new(place as u32 + 1)));
        }
    }
    None
}

// The numbers of an arc.
fn numbers_of_arc(arc: RawArc) -> ArcNumbers
    ensures { result ≡ numbers_of (arc_of_numbers arc) }
{
    ArcNumbers {
        src: i64::from(arc.src),
        dst: i64::from(arc.dst),
        low: arc.low,
        cap: arc.cap,
        cost: arc.cost,
    }
}

// The numbers of the arc of a pair.
fn numbers_of_pair(rows: u32, pair: RawPair) -> ArcNumbers
    ensures { result ≡ numbers_of (arc_of_pair rows pair) }
{
    ArcNumbers {
        src: i64::from(pair.row),
        dst: i64::from(rows) + i64::from(pair.column),
        low: 0,
        cap: 1,
        cost: pair.cost,
    }
}

// Takes the arcs of a flow problem, up to the first that has a fault.
fn take_arcs(
    state: &mut ReaderState,
    header: Header,
    arcs: &[RawArc],
) -> Result<Option<ArrayFault>, NoMemory>
    requires header { state.old.header ≡ Some header }
    requires problem { header.problem ≡ Problem.Min }
    requires count { length arcs.now ≤ arc_limit }
    ensures took { IfOk result (λ fault. (g : Network) → g.arcs ≡ map arc_of_numbers arcs.now → HoldsArcs g [] state.old → TookArcs g fault state.new) }
    ensures wants { OnErr result (1 ≤ header.nodes) }
{
    for place in 0..arcs.len() {
        let fault = state.offer(header, numbers_of_arc(arcs[place]))?;
        match fault {
            Some(code) => return Ok(Some(ArrayFault::Arc(ArcId::new(place as u32 + 1), code))),
            None => {}
        }
    }
    Ok(None)
}

// Takes the pairs of an assignment problem, up to the first that has a fault.
fn take_pairs(
    state: &mut ReaderState,
    header: Header,
    rows: u32,
    pairs: &[RawPair],
) -> Result<Option<ArrayFault>, NoMemory>
    requires header { state.old.header ≡ Some header }
    requires count { length pairs.now ≤ arc_limit }
    ensures took { IfOk result (λ fault. (g : Network) → g.arcs ≡ map (arc_of_pair rows) pairs.now → HoldsArcs g [] state.old → TookArcs g fault state.new) }
    ensures wants { OnErr result (1 ≤ header.nodes) }
{
    for place in 0..pairs.len() {
        let fault = state.offer(header, numbers_of_pair(rows, pairs[place]))?;
        match fault {
            Some(code) => return Ok(Some(ArrayFault::Arc(ArcId::new(place as u32 + 1), code))),
            None => {}
        }
    }
    Ok(None)
}

// Whether the numbers of nodes and arcs are within the limits.
fn sizes_fit(nodes: usize, arcs: usize) -> bool
    ensures { result ≡ (nat_le nodes node_limit && nat_le arcs arc_limit) }
{
    nodes <= NODE_LIMIT as usize && arcs <= ARC_LIMIT as usize
}

// The instance of a state that has taken all arcs, or the first fault.
fn made(state: ReaderState, fault: Option<ArrayFault>) -> Result<Instance, ArrayFault>
    ensures exact { (g : Network) → IsFaultlessBefore g → TookArcs g fault state → result ≡ made_of_arrays limits g }
    ensures sound { IfOk result (IsWellFormed limits) }
{
    match fault {
        Some(fault) => Err(fault),
        None => Ok(state.into_instance()),
    }
}

/// The flow problem of these supplies, by node, and of these arcs, in order; or the first fault.
///
/// # Errors
///
/// `NoMemory` if an allocation is refused; a problem without nodes needs no memory, nor does one
/// whose sizes or supplies have a fault.
pub fn flow_problem(
    alloc: Global,
    supplies: &[i64],
    arcs: &[RawArc],
) -> Result<Result<Instance, ArrayFault>, NoMemory>
    ensures exact { IfOk result (λ made. made ≡ made_of_arrays limits (flow_problem supplies.now arcs.now)) }
    ensures well_formed { IfOk result (λ made. (is_ok made ≡ true) ↔ IsWellFormed limits (flow_problem supplies.now arcs.now)) }
    ensures wants { OnErr result (1 ≤ length supplies.now) }
    ensures fits { OnErr result ((length supplies.now ≤ node_limit) × (length arcs.now ≤ arc_limit)) }
    ensures supplied { OnErr result (first_found (supply_fault limits) supplies.now ≡ None) }
{
    made_of_supplies(alloc, supplies, arcs)
}

// The flow problem of these supplies and arcs, or the first fault.
fn made_of_supplies(
    alloc: Global,
    supplies: &[i64],
    arcs: &[RawArc],
) -> Result<Result<Instance, ArrayFault>, NoMemory>
    ensures exact { IfOk result (λ made. made ≡ made_of_arrays limits (flow_problem supplies.now arcs.now)) }
    ensures sound { IfOk result (λ made. IfOk made (IsWellFormed limits)) }
    ensures wants { OnErr result (1 ≤ length supplies.now) }
    ensures fits { OnErr result ((length supplies.now ≤ node_limit) × (length arcs.now ≤ arc_limit)) }
    ensures supplied { OnErr result (first_found (supply_fault limits) supplies.now ≡ None) }
{
    if !sizes_fit(supplies.len(), arcs.len()) {
        return Ok(Err(ArrayFault::Size));
    }
    match faulty_supply(supplies) {
        Some(fault) => return Ok(Err(fault)),
        None => {}
    }
    let header = Header {
        problem: Problem::Min,
        nodes: supplies.len() as u32,
        arcs: arcs.len() as u32,
    };
    let mut kept = Vec::new(alloc);
    kept.extend_from_slice(supplies)?;
    let listed = copies(alloc, supplies.len(), false)?;
    let mut state = ReaderState::of_nodes(alloc, header, listed, kept);
    let fault = take_arcs(&mut state, header, arcs)?;
    Ok(made(state, fault))
}

// A list of one value for each row, then another value for each column.
fn by_side<T: Copy + Drop>(
    alloc: Global,
    rows: usize,
    columns: usize,
    row: T,
    column: T,
) -> Result<Vec<T>, NoMemory>
    requires { rows + columns ≤ node_limit }
    ensures value { IfOk result (λ made. made.items ≡ replicate rows row ++ replicate columns column) }
    ensures wants { OnErr result (1 ≤ rows + columns) }
{
    let mut made = copies(alloc, rows, row)?;
    made.resize(rows + columns, column)?;
    Ok(made)
}

/// The assignment problem of this many rows and columns, and of the pairs that may be assigned, in
/// order; or the first fault. Its nodes are the rows and then the columns: the arc of a pair leaves
/// its row, and a pair outside these rows and columns has the fault `Node` or `Side`.
///
/// # Errors
///
/// `NoMemory` if an allocation is refused; a problem without rows and columns needs no memory, nor
/// does one beyond the sizes.
pub fn assignment_problem(
    alloc: Global,
    rows: u32,
    columns: u32,
    pairs: &[RawPair],
) -> Result<Result<Instance, ArrayFault>, NoMemory>
    ensures exact { IfOk result (λ made. made ≡ made_of_arrays limits (assignment_problem rows columns pairs.now)) }
    ensures well_formed { IfOk result (λ made. (is_ok made ≡ true) ↔ IsWellFormed limits (assignment_problem rows columns pairs.now)) }
    ensures wants { OnErr result (1 ≤ rows + columns) }
    ensures fits { OnErr result ((rows + columns ≤ node_limit) × (length pairs.now ≤ arc_limit)) }
{
    made_of_sides(alloc, rows, columns, pairs)
}

// The assignment problem of this many rows and columns and of these pairs, or the first fault.
fn made_of_sides(
    alloc: Global,
    rows: u32,
    columns: u32,
    pairs: &[RawPair],
) -> Result<Result<Instance, ArrayFault>, NoMemory>
    ensures exact { IfOk result (λ made. made ≡ made_of_arrays limits (assignment_problem rows columns pairs.now)) }
    ensures sound { IfOk result (λ made. IfOk made (IsWellFormed limits)) }
    ensures wants { OnErr result (1 ≤ rows + columns) }
    ensures fits { OnErr result ((rows + columns ≤ node_limit) × (length pairs.now ≤ arc_limit)) }
{
    let nodes = rows as usize + columns as usize;
    if !sizes_fit(nodes, pairs.len()) {
        return Ok(Err(ArrayFault::Size));
    }
    let header = Header {
        problem: Problem::Asn,
        nodes: nodes as u32,
        arcs: pairs.len() as u32,
    };
    let listed = by_side(alloc, rows as usize, columns as usize, true, false)?;
    let supplies = by_side(alloc, rows as usize, columns as usize, 1i64, -1i64)?;
    let mut state = ReaderState::of_nodes(alloc, header, listed, supplies);
    let fault = take_pairs(&mut state, header, rows, pairs)?;
    Ok(made(state, fault))
}
