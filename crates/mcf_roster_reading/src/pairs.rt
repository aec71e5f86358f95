//! The pairs of persons and things.
ghost use Rattle.std.specs.Prelude.{◌≡◌, ◌++◌, IfOk, OnOk, map};
ghost use Rattle.std.specs.List.{flat_map};
ghost use Rattle.mcf_roster_reading.specs.Pairs.{allowed, amount, cost_fault, is_allowed, number_or_none, pair_entry};

use crate::cells::{cell_in, is_forbidden};
use crate::kinds::{Fault, Location, number_kind, push_told};
use crate::layouts::PairAt;
use mcf_decimal::{Decimal, Mark, NumberFault, number};
use mcf_names::Names;
use mcf_table::{CellPlace, Records};
use mcf_text::NoMemory;
use std::alloc::Global;

/// A person and a thing that may be paired.
#[derive(Clone, Copy, Debug, PartialEq, Eq)]
pub struct PairEntry {
    /// The number of the person; persons are counted from 1.
    pub who: usize,
    /// The number of the thing; things are counted from 1.
    pub what: usize,
    /// What the pair costs, in the unit of the table.
    pub cost: Decimal,
    /// The cell of the cost; row 0 has the heads.
    pub at: CellPlace,
}

// Whether the cost doesn't forbid the pair.
fn is_allowed(records: &Records, pair: PairAt) -> bool
    ensures { result ≡ is_allowed records.now pair }
{
    !is_forbidden(cell_in(records, pair.cost))
}

// The pairs that aren't forbidden.
pub(crate) fn allowed(
    alloc: Global,
    records: &Records,
    pairs: &[PairAt],
) -> Result<Vec<PairAt>, NoMemory>
    ensures { IfOk result (λ made. made.items ≡ allowed records.now pairs.now) }
{
    let mut made = Vec::new(alloc);
    for pair in pairs {
        if is_allowed(records, *pair) {
            made.push(*pair)?;
        }
    }
    Ok(made)
}

// The number of a name, or 0.
fn number_or_none(found: Option<usize>) -> usize
    ensures { result ≡ number_or_none found }
{
    found.unwrap_or(0)
}

// The number; 0 if the cell wasn't read.
fn amount(read: Result<Decimal, NumberFault>) -> Decimal
    ensures { result ≡ amount read }
{
    match read {
        Ok(number) => number,
        Err(_) => Decimal {
            mantissa: 0,
            places: 0,
        },
    }
}

// A pair.
#[tactic(auto, unfolding(crate::specs::Pairs::pair_entry))]
fn pair_entry(
    mark: Option<Mark>,
    persons: &Names<'_>,
    things: &Names<'_>,
    records: &Records,
    pair: PairAt,
) -> PairEntry
    ensures { result ≡ pair_entry mark persons.now things.now records.now pair }
{
    let who = number_or_none(persons.number_of(cell_in(records, pair.who)));
    let what = number_or_none(things.number_of(cell_in(records, pair.what)));
    let cost = amount(number(cell_in(records, pair.cost), mark));
    PairEntry {
        who,
        what,
        cost,
        at: pair.cost,
    }
}

// Pairs.
pub(crate) fn entries_of(
    alloc: Global,
    mark: Option<Mark>,
    persons: &Names<'_>,
    things: &Names<'_>,
    records: &Records,
    pairs: &[PairAt],
) -> Result<Vec<PairEntry>, NoMemory>
    ensures { IfOk result (λ made. made.items ≡ map (pair_entry mark persons.now things.now records.now) pairs.now) }
{
    let mut made = Vec::new(alloc);
    for pair in pairs {
        made.push(pair_entry(mark, persons, things, records, *pair))?;
    }
    Ok(made)
}

// Appends the fault of a pair's cost.
fn push_cost_fault(
    mark: Option<Mark>,
    records: &Records,
    pair: PairAt,
    faults: &mut Vec<Fault>,
) -> Result<(), NoMemory>
    ensures { OnOk result (faults.new.items ≡ faults.old.items ++ cost_fault mark records.now pair) }
{
    let read = number(cell_in(records, pair.cost), mark);
    push_told(faults, Location::Cell(pair.cost), number_kind(read.err()))
}

// Appends the faults of pairs' costs.
pub(crate) fn push_costs(
    mark: Option<Mark>,
    records: &Records,
    pairs: &[PairAt],
    faults: &mut Vec<Fault>,
) -> Result<(), NoMemory>
    ensures { OnOk result (faults.new.items ≡ faults.old.items ++ flat_map (cost_fault mark records.now) pairs.now) }
{
    for pair in pairs {
        push_cost_fault(mark, records, *pair, faults)?;
    }
    Ok(())
}
