//! The steps of a route.
ghost use Rattle.std.specs.Prelude.{◌≡◌, ◌<◌, ◌≤◌, ◌++◌, OnOk, length};
ghost use Rattle.mcf_table.specs.Heads.{cells_of};
ghost use Rattle.mcf_reading.specs.Steps.{after_kind, is_after_open, is_step, read_step, row_step_faults, row_steps, step_count, step_entry, step_faults};

use crate::cells::{amount, cell_at, is_filled, is_no_limit, limit, number_kind, read_limit};
use crate::columns::StepColumns;
use crate::kinds::{Fault, FaultKind};
use crate::locations::{Head, Table};
use crate::told::{push_told, under};
use mcf_decimal::{Decimal, Mark, NumberFault, number};
use mcf_table::Records;
use mcf_text::NoMemory;

/// A step of a route, in the amounts of its table.
#[derive(Clone, Copy, Debug, PartialEq, Eq)]
pub struct StepEntry {
    /// The most that it carries, or `None` for no limit.
    pub most: Option<Decimal>,
    /// The cost of each unit.
    pub cost: Decimal,
}

// What was read of a step.
#[derive(Clone, Copy)]
pub(crate) struct StepRead {
    // Whether the step before has a cost, and no limit.
    pub(crate) after_open: bool,
    pub(crate) most: Result<Option<Decimal>, NumberFault>,
    pub(crate) cost: Result<Decimal, NumberFault>,
}

// Appends the steps of a row, and their faults.
#[tactic(auto, unfolding(crate::specs::Steps::row_steps, crate::specs::Steps::row_step_faults))]
pub(crate) fn push_steps(
    mark: Option<Mark>,
    records: &Records,
    row: usize,
    columns: &[StepColumns],
    steps: &mut Vec<StepEntry>,
    faults: &mut Vec<Fault>,
) -> Result<(), NoMemory>
    requires { row < length records.now }
    ensures steps { OnOk result (steps.new.items ≡ steps.old.items ++ row_steps mark columns.now (cells_of records.now row)) }
    ensures faults { OnOk result (faults.new.items ≡ faults.old.items ++ row_step_faults mark row columns.now (cells_of records.now row)) }
{
    for step in 0..step_count(records, row, columns) {
        let read = read_step(mark, records, row, columns, step);
        steps.push(step_entry(read))?;
        push_step_faults(faults, row, step + 1, read)?;
    }
    Ok(())
}

// How many steps a row has: the first, and those after it up to the last that is written.
fn step_count(records: &Records, row: usize, columns: &[StepColumns]) -> usize
    requires { row < length records.now }
    ensures count { result ≡ step_count columns.now (cells_of records.now row) }
    ensures inside { result ≤ length columns.now }
{
    let mut count = columns.len();
    'steps: while count > 1 && !is_step(records, row, columns[count - 1]) {
        count -= 1;
    }
    count
}

// Whether a row has a step written: its most or its cost isn't empty.
fn is_step(records: &Records, row: usize, columns: StepColumns) -> bool
    requires { row < length records.now }
    ensures { result ≡ is_step (cells_of records.now row) columns }
{
    let has_most = is_filled(cell_at(records, row, columns.most));
    let has_cost = is_filled(cell_at(records, row, columns.cost));
    has_most || has_cost
}

// Whether the step before has a cost, and no limit; steps are counted from 0.
fn is_after_open(records: &Records, row: usize, columns: &[StepColumns], step: usize) -> bool
    requires row { row < length records.now }
    requires step { step < length columns.now }
    ensures { result ≡ is_after_open columns.now (cells_of records.now row) step }
{
    if step == 0 {
        return false;
    }
    let has_limit = !is_no_limit(cell_at(records, row, columns[step - 1].most));
    let has_cost = is_filled(cell_at(records, row, columns[step - 1].cost));
    has_cost && !has_limit
}

// The numbers of a step; steps are counted from 0.
#[tactic(auto, unfolding(crate::specs::Steps::read_step))]
fn read_step(
    mark: Option<Mark>,
    records: &Records,
    row: usize,
    columns: &[StepColumns],
    step: usize,
) -> StepRead
    requires row { row < length records.now }
    requires step { step < length columns.now }
    ensures { result ≡ read_step mark columns.now (cells_of records.now row) step }
{
    let after_open = is_after_open(records, row, columns, step);
    let most = read_limit(mark, cell_at(records, row, columns[step].most));
    let cost = number(cell_at(records, row, columns[step].cost), mark);
    StepRead {
        after_open,
        most,
        cost,
    }
}

// A step, with 0 for what wasn't read.
#[tactic(auto, unfolding(crate::specs::Steps::step_entry))]
fn step_entry(read: StepRead) -> StepEntry
    ensures { result ≡ step_entry read }
{
    StepEntry {
        most: limit(read.most),
        cost: amount(read.cost),
    }
}

// A step after one without a limit.
fn after_kind(after_open: bool) -> Option<FaultKind>
    ensures { result ≡ after_kind after_open }
{
    if after_open {
        Some(FaultKind::AfterNoLimit)
    } else {
        None
    }
}

// Appends the faults of a step; steps are counted from 1.
#[tactic(auto, unfolding(crate::specs::Steps::step_faults))]
fn push_step_faults(
    faults: &mut Vec<Fault>,
    row: usize,
    step: usize,
    read: StepRead,
) -> Result<(), NoMemory>
    ensures { OnOk result (faults.new.items ≡ faults.old.items ++ step_faults row step read) }
{
    let most = under(Table::Routes, row, Head::Most(step));
    let cost = under(Table::Routes, row, Head::Cost(step));
    push_told(faults, most, after_kind(read.after_open))?;
    push_told(faults, most, number_kind(read.most.err()))?;
    push_told(faults, cost, number_kind(read.cost.err()))
}
