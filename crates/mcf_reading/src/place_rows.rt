//! The rows of the table of places.
ghost use Rattle.std.specs.Prelude.{◌≡◌, ◌<◌, ◌++◌, IfOk, OnOk, length, map};
ghost use Rattle.mcf_names.specs.Names.{number_of};
ghost use Rattle.mcf_table.specs.Heads.{cells_of};
ghost use Rattle.mcf_reading.specs.Cells.{cell_at};
ghost use Rattle.mcf_reading.specs.PlaceRows.{all_place_faults, bounds_entry, bounds_faults, is_before, is_bounded, name_kind, place_entries, place_entry, place_faults, place_name_faults, place_names, place_number_faults, read_bounds, read_place, twice_kind};

use crate::cells::{
    amount, cell_at, is_filled, limit, number_kind, read_amount, read_limit, read_penalty,
    row_count,
};
use crate::columns::PlaceColumns;
use crate::kinds::{Fault, FaultKind};
use crate::locations::{Head, Table};
use crate::told::{push_told, under};
use mcf_decimal::{Decimal, Mark, NumberFault};
use mcf_names::{Names, name_fault};
use mcf_table::Records;
use mcf_text::NoMemory;
use std::alloc::Global;

/// Bounds on what passes through a place, in the amounts of its table.
#[derive(Clone, Copy, Debug, PartialEq, Eq)]
pub struct BoundsEntry {
    /// At least this amount has to pass through.
    pub least: Decimal,
    /// At most this amount may pass through, or `None` for no limit.
    pub most: Option<Decimal>,
    /// The cost of each unit that passes through.
    pub cost: Decimal,
}

/// A place, in the amounts of its table.
#[derive(Clone, Copy, Debug, PartialEq, Eq)]
pub struct PlaceEntry {
    /// What the place gives if this is above 0, or wants if it is below 0.
    pub supply: Decimal,
    /// The bounds on what passes through, or `None` if all their cells are empty.
    pub through: Option<BoundsEntry>,
    /// The cost of each unit that is missing here, or `None` if its cell is empty.
    pub penalty: Option<Decimal>,
}

// What was read of bounds.
#[derive(Clone, Copy)]
pub(crate) struct BoundsRead {
    pub(crate) least: Result<Decimal, NumberFault>,
    pub(crate) most: Result<Option<Decimal>, NumberFault>,
    pub(crate) cost: Result<Decimal, NumberFault>,
}

// What was read of a place's numbers.
#[derive(Clone, Copy)]
pub(crate) struct PlaceRead {
    pub(crate) supply: Result<Decimal, NumberFault>,
    pub(crate) through: Option<BoundsRead>,
    pub(crate) penalty: Result<Option<Decimal>, NumberFault>,
}

// The names of the places, in order.
#[tactic(auto, unfolding(crate::specs::PlaceRows::place_names))]
pub(crate) fn place_names<'t>(
    alloc: Global,
    columns: PlaceColumns,
    records: &'t Records,
) -> Result<Vec<&'t [u8]>, NoMemory>
    ensures { IfOk result (λ made. map (λ name. name.now) made.items ≡ place_names columns records.now) }
{
    let mut made = Vec::new(alloc);
    for place in 0..row_count(records) {
        let name = cell_at(records, place + 1, columns.name);
        made.push(name)?;
    }
    Ok(made)
}

// Why a cell isn't a name.
#[tactic(auto, unfolding(crate::specs::PlaceRows::name_kind))]
pub(crate) fn name_kind(cell: &[u8]) -> Option<FaultKind>
    ensures { result ≡ name_kind cell.now }
{
    match name_fault(cell) {
        Some(fault) => Some(FaultKind::Name(fault)),
        None => None,
    }
}

// Whether the number is below this one.
fn is_before(first: Option<usize>, number: usize) -> bool
    ensures { result ≡ is_before first number }
{
    match first {
        Some(first) => first < number,
        None => false,
    }
}

// Whether an earlier row has the name, which isn't empty, and a place may have but one row.
#[tactic(auto, unfolding(crate::specs::PlaceRows::twice_kind))]
fn twice_kind(over: bool, names: &Names<'_>, number: usize, cell: &[u8]) -> Option<FaultKind>
    ensures { result ≡ twice_kind over names.now number cell.now }
{
    let first = names.number_of(cell);
    if !over && (is_filled(cell) && is_before(first, number)) {
        Some(FaultKind::Twice)
    } else {
        None
    }
}

// Whether a cell of a place's bounds isn't empty.
fn is_bounded(least: &[u8], most: &[u8], cost: &[u8]) -> bool
    ensures { result ≡ is_bounded least.now most.now cost.now }
{
    is_filled(least) || is_filled(most) || is_filled(cost)
}

// The bounds of a place, if it has some.
#[tactic(auto, unfolding(crate::specs::PlaceRows::read_bounds))]
fn read_bounds(mark: Option<Mark>, least: &[u8], most: &[u8], cost: &[u8]) -> Option<BoundsRead>
    ensures { result ≡ read_bounds mark least.now most.now cost.now }
{
    if !is_bounded(least, most, cost) {
        return None;
    }
    Some(BoundsRead {
        least: read_amount(mark, least),
        most: read_limit(mark, most),
        cost: read_amount(mark, cost),
    })
}

// The numbers of a row.
#[tactic(auto, unfolding(crate::specs::PlaceRows::read_place))]
fn read_place(mark: Option<Mark>, columns: PlaceColumns, records: &Records, row: usize) -> PlaceRead
    requires { row < length records.now }
    ensures { result ≡ read_place mark columns (cells_of records.now row) }
{
    let supply = read_amount(mark, cell_at(records, row, columns.supply));
    let least = cell_at(records, row, columns.least);
    let most = cell_at(records, row, columns.most);
    let cost = cell_at(records, row, columns.cost);
    let through = read_bounds(mark, least, most, cost);
    let penalty = read_penalty(mark, cell_at(records, row, columns.penalty));
    PlaceRead {
        supply,
        through,
        penalty,
    }
}

// Bounds, with 0 for what wasn't read.
fn bounds_entry(read: BoundsRead) -> BoundsEntry
    ensures { result ≡ bounds_entry read }
{
    BoundsEntry {
        least: amount(read.least),
        most: limit(read.most),
        cost: amount(read.cost),
    }
}

// A place, with 0 for what wasn't read.
#[tactic(auto, unfolding(crate::specs::PlaceRows::place_entry))]
fn place_entry(read: PlaceRead) -> PlaceEntry
    ensures { result ≡ place_entry read }
{
    let through = match read.through {
        Some(bounds) => Some(bounds_entry(bounds)),
        None => None,
    };
    PlaceEntry {
        supply: amount(read.supply),
        through,
        penalty: limit(read.penalty),
    }
}

// Appends the faults of bounds.
fn push_bounds_faults(
    faults: &mut Vec<Fault>,
    row: usize,
    through: Option<BoundsRead>,
) -> Result<(), NoMemory>
    ensures { OnOk result (faults.new.items ≡ faults.old.items ++ bounds_faults row through) }
{
    let Some(read) = through else {
        return Ok(());
    };
    let least = under(Table::Places, row, Head::Least);
    let most = under(Table::Places, row, Head::Most(1));
    let cost = under(Table::Places, row, Head::Cost(1));
    push_told(faults, least, number_kind(read.least.err()))?;
    push_told(faults, most, number_kind(read.most.err()))?;
    push_told(faults, cost, number_kind(read.cost.err()))
}

// Appends the faults of a row's numbers.
#[tactic(auto, unfolding(crate::specs::PlaceRows::place_number_faults))]
fn push_number_faults(faults: &mut Vec<Fault>, row: usize, read: PlaceRead) -> Result<(), NoMemory>
    ensures { OnOk result (faults.new.items ≡ faults.old.items ++ place_number_faults row read) }
{
    let supply = under(Table::Places, row, Head::Supply);
    let penalty = under(Table::Places, row, Head::Penalty);
    push_told(faults, supply, number_kind(read.supply.err()))?;
    push_bounds_faults(faults, row, read.through)?;
    push_told(faults, penalty, number_kind(read.penalty.err()))
}

// Appends the faults of a row's name.
#[tactic(auto, unfolding(crate::specs::PlaceRows::place_name_faults))]
fn push_name_faults(
    faults: &mut Vec<Fault>,
    over: bool,
    names: &Names<'_>,
    row: usize,
    cell: &[u8],
) -> Result<(), NoMemory>
    ensures { OnOk result (faults.new.items ≡ faults.old.items ++ place_name_faults over names.now row cell.now) }
{
    let at = under(Table::Places, row, Head::Name);
    push_told(faults, at, name_kind(cell))?;
    push_told(faults, at, twice_kind(over, names, row, cell))
}

// Reads a row, and appends its faults.
#[tactic(auto, unfolding(crate::specs::PlaceRows::place_faults))]
fn read_row(
    mark: Option<Mark>,
    columns: PlaceColumns,
    names: &Names<'_>,
    records: &Records,
    row: usize,
    faults: &mut Vec<Fault>,
) -> Result<PlaceEntry, NoMemory>
    requires { row < length records.now }
    ensures entry { IfOk result (λ entry. entry ≡ place_entry (read_place mark columns (cells_of records.now row))) }
    ensures faults { OnOk result (faults.new.items ≡ faults.old.items ++ place_faults mark columns names.now row (cells_of records.now row)) }
{
    let name = cell_at(records, row, columns.name);
    push_name_faults(faults, columns.over_periods, names, row, name)?;
    let read = read_place(mark, columns, records, row);
    push_number_faults(faults, row, read)?;
    Ok(place_entry(read))
}

// Reads all rows, and appends their faults.
pub(crate) fn read_places(
    alloc: Global,
    mark: Option<Mark>,
    columns: PlaceColumns,
    names: &Names<'_>,
    records: &Records,
    faults: &mut Vec<Fault>,
) -> Result<Vec<PlaceEntry>, NoMemory>
    ensures entries { IfOk result (λ made. made.items ≡ place_entries mark columns records.now) }
    ensures faults { OnOk result (faults.new.items ≡ faults.old.items ++ all_place_faults mark columns names.now records.now) }
{
    let mut made = Vec::new(alloc);
    for place in 0..row_count(records) {
        let entry = read_row(mark, columns, names, records, place + 1, faults)?;
        made.push(entry)?;
    }
    Ok(made)
}
