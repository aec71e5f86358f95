//! The faults of the heads of both tables, and whether they say something about periods.
ghost use Rattle.std.specs.Prelude.{◌≡◌, ◌++◌, IfOk, OnOk};
ghost use Rattle.std.specs.List.{flat_map};
ghost use Rattle.mcf_period_reading.specs.HeadFaults.{column_faults, column_kind, head_fault, head_faults, tells_in, tells_periods};

use crate::heads::{PeriodHead, column_under, has_any, heads_of};
use crate::kinds::{PeriodFault, PeriodKind, if_kind, push_told};
use crate::near_heads::push_near_faults;
use mcf_reading::{Table, has_periods};
use mcf_table::{Column, Records};
use mcf_text::NoMemory;
use std::alloc::Global;

// What is wrong with a column.
fn column_kind(has: bool, column: Column) -> Option<PeriodKind>
    ensures { result ≡ column_kind has column }
{
    match column {
        Column::Missing => None,
        Column::Twice => Some(PeriodKind::TwoColumns),
        Column::At(_) => if_kind(!has, PeriodKind::NoPeriods),
    }
}

// Appends the faults of these heads of a table.
fn push_head_faults(
    faults: &mut Vec<PeriodFault>,
    has: bool,
    table: Table,
    records: &Records,
    heads: &[PeriodHead],
) -> Result<(), NoMemory>
    ensures { OnOk result (faults.new.items ≡ faults.old.items ++ flat_map (head_fault has table records.now) heads.now) }
{
    for head in heads {
        let kind = column_kind(has, column_under(records, *head));
        push_told(faults, table, 0, *head, kind)?;
    }
    Ok(())
}

// Appends the faults of the heads that are looked for in a table.
fn push_column_faults(
    faults: &mut Vec<PeriodFault>,
    has: bool,
    table: Table,
    records: &Records,
) -> Result<(), NoMemory>
    ensures { OnOk result (faults.new.items ≡ faults.old.items ++ column_faults has table records.now) }
{
    push_head_faults(faults, has, table, records, heads_of(table))
}

/// All faults of the heads about periods of both tables: first those of the columns that are looked
/// for, and then those of columns whose heads are only nearly these. The first row of each table
/// has its heads.
///
/// # Errors
///
/// `NoMemory` if an allocation is refused.
pub fn faults_of_heads(
    alloc: Global,
    places: &Records,
    routes: &Records,
) -> Result<Vec<PeriodFault>, NoMemory>
    ensures { IfOk result (λ found. found.items ≡ head_faults places.now routes.now) }
{
    let has = has_periods(places);
    let mut faults = Vec::new(alloc);
    push_column_faults(&mut faults, has, Table::Places, places)?;
    push_column_faults(&mut faults, has, Table::Routes, routes)?;
    push_near_faults(alloc, Table::Places, places, &mut faults)?;
    push_near_faults(alloc, Table::Routes, routes, &mut faults)?;
    Ok(faults)
}

// Whether a column of a table says something about periods, or its head nearly is one of those that
// do.
fn tells_in(alloc: Global, table: Table, records: &Records) -> Result<bool, NoMemory>
    ensures { IfOk result (λ tells. tells ≡ tells_in table records.now) }
{
    let mut near = Vec::new(alloc);
    push_near_faults(alloc, table, records, &mut near)?;
    let is_near = 0 < near.len();
    Ok(has_any(records, heads_of(table)) || is_near)
}

/// Whether a column of the tables says something about periods, or its head nearly is one of those
/// that do. The first row of each table has its heads.
///
/// # Errors
///
/// `NoMemory` if an allocation is refused.
pub fn tells_periods(alloc: Global, places: &Records, routes: &Records) -> Result<bool, NoMemory>
    ensures { IfOk result (λ tells. tells ≡ tells_periods places.now routes.now) }
{
    let of_places = tells_in(alloc, Table::Places, places)?;
    let of_routes = tells_in(alloc, Table::Routes, routes)?;
    Ok(of_places || of_routes)
}
