//! How many each person takes, or each thing needs, as all cells together say.
ghost use Rattle.std.specs.Prelude.{◌≡◌, ◌++◌, IfOk, OnOk, filter, map};
ghost use Rattle.std.specs.List.{flat_map};
ghost use Rattle.mcf_names.specs.Names.{number_of};
ghost use Rattle.mcf_roster_reading.specs.Cells.{cell_in};
ghost use Rattle.mcf_roster_reading.specs.Said.{all_said_faults, at_number, is_said, kept, kept_saying, said_fault_by, said_in, said_name, sayings};

use crate::cells::cell_in;
use crate::kinds::{Fault, Location, push_told};
use crate::layouts::SaidAt;
use crate::sayings::{Saying, said_kind, saying_of};
use mcf_names::Names;
use mcf_table::Records;
use mcf_text::NoMemory;
use std::alloc::Global;

// Whether the cell says a number or a range.
fn is_said(records: &Records, said: SaidAt) -> bool
    ensures { result ≡ is_said records.now said }
{
    saying_of(cell_in(records, said.cell)).is_some()
}

// Those whose cells say a number or a range.
fn kept(alloc: Global, records: &Records, said: &[SaidAt]) -> Result<Vec<SaidAt>, NoMemory>
    ensures { IfOk result (λ made. made.items ≡ kept records.now said.now) }
{
    let mut made = Vec::new(alloc);
    for one in said {
        if is_said(records, *one) {
            made.push(*one)?;
        }
    }
    Ok(made)
}

// The names of which something is said.
fn said_names<'t>(
    alloc: Global,
    records: &'t Records,
    said: &[SaidAt],
) -> Result<Names<'t>, NoMemory>
    ensures { IfOk result (λ made. made ≡ map (said_name records.now) said.now) }
{
    let mut found = Vec::new(alloc);
    for one in said {
        let name = cell_in(records, one.name);
        found.push(name)?;
    }
    Names::of(alloc, found)
}

// The one with a number, from 1.
fn at_number(said: &[SaidAt], number: Option<usize>) -> Option<SaidAt>
    ensures { result ≡ at_number said.now number }
{
    match number {
        Some(number) => said.get(number.saturating_sub(1)).copied(),
        None => None,
    }
}

// What a cell says.
fn said_in(records: &Records, said: Option<SaidAt>) -> Option<Saying>
    ensures { result ≡ said_in records.now said }
{
    match said {
        Some(said) => saying_of(cell_in(records, said.cell)),
        None => None,
    }
}

// What is said first of a name.
fn kept_saying(records: &Records, kept: &[SaidAt], names: &Names<'_>, name: &[u8]) -> Option<Saying>
    ensures { result ≡ kept_saying records.now kept.now names.now name.now }
{
    let number = names.number_of(name);
    said_in(records, at_number(kept, number))
}

// Appends the fault of a cell.
fn push_said_fault(
    records: &Records,
    kept: &[SaidAt],
    names: &Names<'_>,
    said: SaidAt,
    faults: &mut Vec<Fault>,
) -> Result<(), NoMemory>
    ensures { OnOk result (faults.new.items ≡ faults.old.items ++ said_fault_by records.now kept.now names.now said) }
{
    let first = kept_saying(records, kept, names, cell_in(records, said.name));
    let kind = said_kind(cell_in(records, said.cell), first);
    push_told(faults, Location::Cell(said.cell), kind)
}

// Appends the faults of cells.
fn push_each(
    records: &Records,
    kept: &[SaidAt],
    names: &Names<'_>,
    said: &[SaidAt],
    faults: &mut Vec<Fault>,
) -> Result<(), NoMemory>
    ensures { OnOk result (faults.new.items ≡ faults.old.items ++ flat_map (said_fault_by records.now kept.now names.now) said.now) }
{
    for one in said {
        push_said_fault(records, kept, names, *one, faults)?;
    }
    Ok(())
}

// Appends the faults of all cells.
pub(crate) fn push_all_said(
    alloc: Global,
    records: &Records,
    said: &[SaidAt],
    faults: &mut Vec<Fault>,
) -> Result<(), NoMemory>
    ensures { OnOk result (faults.new.items ≡ faults.old.items ++ all_said_faults records.now said.now) }
{
    let kept = kept(alloc, records, said)?;
    let names = said_names(alloc, records, &kept)?;
    push_each(records, &kept, &names, said, faults)
}

// What is said first of each of some names.
fn sayings_of(
    alloc: Global,
    records: &Records,
    kept: &[SaidAt],
    said: &Names<'_>,
    names: &Names<'_>,
) -> Result<Vec<Option<Saying>>, NoMemory>
    ensures { IfOk result (λ made. made.items ≡ map (kept_saying records.now kept.now said.now) names.now) }
{
    let mut made = Vec::new(alloc);
    for place in 0..names.len() {
        let saying = kept_saying(records, kept, said, names.name(place + 1));
        made.push(saying)?;
    }
    Ok(made)
}

// What is said first of each of some names.
pub(crate) fn sayings(
    alloc: Global,
    records: &Records,
    said: &[SaidAt],
    names: &Names<'_>,
) -> Result<Vec<Option<Saying>>, NoMemory>
    ensures { IfOk result (λ made. made.items ≡ sayings records.now said.now names.now) }
{
    let kept = kept(alloc, records, said)?;
    let known = said_names(alloc, records, &kept)?;
    sayings_of(alloc, records, &kept, &known, names)
}
