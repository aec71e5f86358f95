//! The words by which faults are told.
ghost use Rattle.std.specs.Prelude.{◌≡◌};
ghost use Rattle.mcf_plan_rows.specs.FaultRows.{beyond_column, beyond_word, fault_word, number_column, origin_table, penalty_word, planner_column, planner_table, planner_word, route_column, route_word, table_word};

use mcf_answer_rows::{name_word, number_word};
use mcf_flows::Code;
use mcf_instance::ArrayFault;
use mcf_model::RouteFault;
use mcf_places::{Origin, PlannerFault};
use mcf_reading::{FaultKind, Table};

/// The word of a table.
pub fn table_word(table: Table) -> &'static [u8]
    ensures { result.now ≡ table_word table }
{
    match table {
        Table::Places => b"places",
        Table::Routes => b"routes",
    }
}

// What is wrong with a cell, in front of the head that is meant, if it is about one.
pub(crate) fn fault_word(kind: FaultKind) -> &'static [u8]
    ensures { result.now ≡ fault_word kind }
{
    match kind {
        FaultKind::NoColumn => b"no such column",
        FaultKind::TwoColumns => b"two such columns",
        FaultKind::NearHead(_) => b"nearly ",
        FaultKind::Without(_) => b"not read without ",
        FaultKind::BothMarks => b"both decimal marks",
        FaultKind::Beyond => b"beyond the last head",
        FaultKind::Name(fault) => name_word(fault),
        FaultKind::Twice => b"named twice",
        FaultKind::NoPlace => b"no such place",
        FaultKind::Number(fault) => number_word(fault),
        FaultKind::AfterNoLimit => b"after a step without a limit",
        FaultKind::NotYesNo => b"neither yes nor no",
    }
}

// The column that a fault of a route is about.
fn route_column(fault: RouteFault) -> &'static [u8]
    ensures { result.now ≡ route_column fault }
{
    match fault {
        RouteFault::Place => b"from",
        RouteFault::Steps => b"most",
        RouteFault::Room => b"most",
        RouteFault::FallingCost => b"cost",
        RouteFault::BothWays => b"both",
        RouteFault::NoLimit => b"most",
    }
}

// What is wrong with a route.
fn route_word(fault: RouteFault) -> &'static [u8]
    ensures { result.now ≡ route_word fault }
{
    match fault {
        RouteFault::Place => b"no such place",
        RouteFault::Steps => b"no such steps",
        RouteFault::Room => b"below 0",
        RouteFault::FallingCost => b"falling cost",
        RouteFault::BothWays => b"both ways with a least amount or a cost below 0",
        RouteFault::NoLimit => b"no limit, but a cost below 0",
    }
}

/// The column that a number beyond the limits is about: that of penalties, if it comes from one.
pub fn beyond_column(origin: Option<Origin>, fault: &ArrayFault) -> &'static [u8]
    ensures { result.now ≡ beyond_column origin fault.now }
{
    match origin {
        Some(Origin::OfPenalty(_)) => b"penalty",
        _ => number_column(fault),
    }
}

// The column of a number of a network.
fn number_column(fault: &ArrayFault) -> &'static [u8]
    ensures { result.now ≡ number_column fault.now }
{
    match fault {
        ArrayFault::Size => b"",
        ArrayFault::Supply(_) => b"supply",
        ArrayFault::Arc(_, Code::Bound) => b"most",
        ArrayFault::Arc(_, Code::Order) => b"least",
        ArrayFault::Arc(_, _) => b"cost",
    }
}

/// What is wrong with such a number.
pub fn beyond_word(fault: &ArrayFault) -> &'static [u8]
    ensures { result.now ≡ beyond_word fault.now }
{
    match fault {
        ArrayFault::Size => b"too many places or routes",
        ArrayFault::Arc(_, Code::Order) => b"least above most",
        _ => b"beyond the limits",
    }
}

// The option of the penalty.
#[tactic(auto, unfolding(crate::specs::FaultRows::penalty_word))]
pub(crate) fn penalty_word() -> &'static [u8]
    ensures { result.now ≡ penalty_word }
{
    b"penalty"
}

/// The table that a fault of the problem is about, or the options.
pub fn planner_table(fault: &PlannerFault) -> &'static [u8]
    ensures { result.now ≡ planner_table fault.now }
{
    match fault {
        PlannerFault::Size => b"places",
        PlannerFault::Total => b"places",
        PlannerFault::Penalty => b"options",
        PlannerFault::BelowPenalty(_) => b"places",
        PlannerFault::IdlePenalty(_) => b"places",
        PlannerFault::NoPenalty(_) => b"places",
        PlannerFault::NoLimit(_) => b"places",
        PlannerFault::Routes(_) => b"routes",
    }
}

/// The column that a fault of the problem is about.
pub fn planner_column(fault: &PlannerFault) -> &'static [u8]
    ensures { result.now ≡ planner_column fault.now }
{
    match fault {
        PlannerFault::Size => b"",
        PlannerFault::Total => b"supply",
        PlannerFault::Penalty => b"penalty",
        PlannerFault::BelowPenalty(_) => b"penalty",
        PlannerFault::IdlePenalty(_) => b"penalty",
        PlannerFault::NoPenalty(_) => b"penalty",
        PlannerFault::NoLimit(_) => b"most",
        PlannerFault::Routes(found) => route_column(found.what),
    }
}

/// What is wrong with the problem.
pub fn planner_word(fault: &PlannerFault) -> &'static [u8]
    ensures { result.now ≡ planner_word fault.now }
{
    match fault {
        PlannerFault::Size => b"too many places",
        PlannerFault::Total => b"too great in total",
        PlannerFault::Penalty => b"below 0",
        PlannerFault::BelowPenalty(_) => b"below 0",
        PlannerFault::IdlePenalty(_) => b"a penalty, but a supply above 0",
        PlannerFault::NoPenalty(_) => b"no penalty, but other places have one",
        PlannerFault::NoLimit(_) => b"no limit, but a cost below 0",
        PlannerFault::Routes(found) => route_word(found.what),
    }
}

// The table that a number beyond the limits comes from, if it is one.
pub(crate) fn origin_table(origin: Option<Origin>) -> &'static [u8]
    ensures { result.now ≡ origin_table origin }
{
    match origin {
        Some(Origin::OfPlace(_)) => b"places",
        Some(Origin::OfPenalty(_)) => b"places",
        Some(Origin::OfRoute(_)) => b"routes",
        _ => b"",
    }
}
