//! The faults of the heads of both tables.
ghost use Rattle.std.specs.Prelude.{◌≡◌, ◌++◌, IfOk, OnOk};
ghost use Rattle.std.specs.List.{flat_map};
ghost use Rattle.mcf_reading.specs.Faults.{column_kind, head_fault, is_needed};
ghost use Rattle.mcf_reading.specs.Reading.{head_faults};

use crate::heads::{column_under, first_heads, route_heads};
use crate::kinds::{Fault, FaultKind};
use crate::locations::{Head, Table};
use crate::near_heads::push_near_faults;
use crate::told::{push_told, under};
use mcf_table::{Column, Records};
use mcf_text::NoMemory;
use std::alloc::Global;

// Whether a table must have a column with this head.
fn is_needed(table: Table, head: Head) -> bool
    ensures { result ≡ is_needed table head }
{
    match (table, head) {
        (Table::Places, Head::Name | Head::Supply) => true,
        (Table::Routes, Head::From | Head::To | Head::Most(_) | Head::Cost(_)) => true,
        _ => false,
    }
}

// What is wrong with the column of a head.
fn column_kind(is_needed: bool, column: Column) -> Option<FaultKind>
    ensures { result ≡ column_kind is_needed column }
{
    match column {
        Column::Missing if is_needed => Some(FaultKind::NoColumn),
        Column::Twice => Some(FaultKind::TwoColumns),
        _ => None,
    }
}

// Appends the fault of a head, if it has one.
fn push_head_fault(
    alloc: Global,
    table: Table,
    records: &Records,
    head: Head,
    faults: &mut Vec<Fault>,
) -> Result<(), NoMemory>
    ensures { OnOk result (faults.new.items ≡ faults.old.items ++ head_fault table records.now head) }
{
    let column = column_under(alloc, records, head)?;
    let kind = column_kind(is_needed(table, head), column);
    push_told(faults, under(table, 0, head), kind)
}

// Appends the faults of heads, in order.
fn push_head_faults(
    alloc: Global,
    table: Table,
    records: &Records,
    heads: &[Head],
    faults: &mut Vec<Fault>,
) -> Result<(), NoMemory>
    ensures { OnOk result (faults.new.items ≡ faults.old.items ++ flat_map (head_fault table records.now) heads.now) }
{
    for head in heads {
        push_head_fault(alloc, table, records, *head, faults)?;
    }
    Ok(())
}

// The faults of the heads of both tables, in order.
pub(crate) fn head_faults(
    alloc: Global,
    places: &Records,
    routes: &Records,
) -> Result<Vec<Fault>, NoMemory>
    ensures { IfOk result (λ found. found.items ≡ head_faults places.now routes.now) }
{
    let place_heads = first_heads(Table::Places);
    let route_heads = route_heads(alloc, routes)?;
    let mut faults = Vec::new(alloc);
    push_head_faults(alloc, Table::Places, places, place_heads, &mut faults)?;
    push_head_faults(alloc, Table::Routes, routes, &route_heads, &mut faults)?;
    push_near_faults(alloc, Table::Places, places, place_heads, &mut faults)?;
    push_near_faults(alloc, Table::Routes, routes, &route_heads, &mut faults)?;
    Ok(faults)
}
